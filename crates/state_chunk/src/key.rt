//! The key of a chunk: the unit whose record it has.
ghost use Rattle.std.specs.Prelude.{◌≡◌, option_map};
ghost use Rattle.state_chunk.specs.Reading.{first_key, first_flow, first_host, is_known};

use flow_filter::Flow;
use nf_function::stored::{first_byte, first_u16, first_u32};
use nf_function::{Kind, Unit, is_transport};

/// The key of a unit of the function, and the bytes after it.
pub fn first_key(kind: Kind, bytes: &[u8]) -> Option<(Unit, &[u8])>
    ensures { option_map (λ x. (x.0, x.1.now)) result ≡ first_key kind bytes.now }
{
    if kind.has_hosts() {
        first_host(bytes)
    } else {
        first_flow(bytes)
    }
}

/// The key of a host, and the bytes after it.
#[tactic(auto, unfolding(crate::specs::Reading::first_host))]
fn first_host(bytes: &[u8]) -> Option<(Unit, &[u8])>
    ensures { option_map (λ x. (x.0, x.1.now)) result ≡ first_host bytes.now }
{
    let (host, rest) = first_u32(bytes)?;
    Some((Unit::Host(host), rest))
}

/// The key of a flow, and the bytes after it.
#[tactic(auto, unfolding(crate::specs::Reading::first_flow))]
fn first_flow(bytes: &[u8]) -> Option<(Unit, &[u8])>
    ensures { option_map (λ x. (x.0, x.1.now)) result ≡ first_flow bytes.now }
{
    let (proto, rest) = first_byte(bytes)?;
    let (local, rest) = first_u32(rest)?;
    let (lport, rest) = first_u16(rest)?;
    let (remote, rest) = first_u32(rest)?;
    let (rport, rest) = first_u16(rest)?;
    let flow = Flow {
        local,
        remote,
        lport,
        rport,
        proto,
    };
    Some((Unit::Flow(flow), rest))
}

/// Whether a key names TCP or UDP, or a host.
pub fn is_known(unit: &Unit) -> bool
    ensures { result ≡ is_known unit.now }
{
    match unit {
        Unit::Flow(flow) => is_transport(flow.proto),
        Unit::Host(_) => true,
    }
}
