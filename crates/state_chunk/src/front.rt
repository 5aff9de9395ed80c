//! The first part of a record's chunk, which stands before its body, and the bytes of a chunk that is held as numbers.
ghost use Rattle.std.specs.Prelude.{◌≡◌, ◌++◌, IfOk, OnOk};
ghost use Rattle.nf_function.specs.Forms.{packed_bytes};
ghost use Rattle.nf_function.specs.Stored.{number_bytes};
ghost use Rattle.nf_function.specs.declared.unit.Unit.TheVariants.{Flow as OfFlow};
ghost use Rattle.state_chunk.specs.Format.{key_bytes};

use basics::{Bytes, NoMemory};
use flow_filter::Flow;
use nf_function::{Packed, Unit};
use std::alloc::Global;

/// How many bytes the longest first part has.
pub const LONGEST_FRONT: usize = 18;

/// The bytes that the numbers of a flow's chunk spell.
#[tactic(auto, unfolding(nf_function::specs::Forms::packed_bytes))]
pub fn packed_bytes(alloc: Global, numbers: &Packed) -> Result<Bytes, NoMemory>
    ensures { IfOk result (λ bytes. bytes ≡ packed_bytes numbers.now) }
{
    let mut bytes = Bytes::open(alloc);
    let head = [numbers.version, numbers.kind, numbers.scope];
    push_front(
        &mut bytes,
        head,
        &Unit::Flow(numbers.flow),
        numbers.body.length(),
    )?;
    numbers.body.push_to(&mut bytes)?;
    Ok(bytes)
}

/// Puts three bytes, the key of a unit and the length of a body after other bytes, at once.
#[inline]
#[tactic(auto, unfolding(crate::specs::Format::key_bytes))]
pub fn push_front(
    bytes: &mut Bytes,
    head: [u8; 3],
    unit: &Unit,
    length: u16,
) -> Result<(), NoMemory>
    ensures { OnOk result (bytes.new ≡ bytes.old ++ head ++ key_bytes unit.now ++ number_bytes 2 length) }
{
    match unit {
        Unit::Flow(flow) => bytes.push_bytes(&flow_front(head, flow, length)),
        Unit::Host(host) => bytes.push_bytes(&host_front(head, *host, length)),
    }
}

/// The first part of a flow's chunk.
fn flow_front(head: [u8; 3], flow: &Flow, length: u16) -> [u8; LONGEST_FRONT]
    ensures { result ≡ head ++ key_bytes (OfFlow flow.now) ++ number_bytes 2 length }
{
    let [version, kind, scope] = head;
    let [
        proto,
        local,
        local_2,
        local_3,
        local_4,
        lport,
        lport_2,
        remote,
        remote_2,
        remote_3,
        remote_4,
        rport,
        rport_2,
    ] = flow_key(flow);
    let [high, low] = length.to_be_bytes();
    [
        version, kind, scope, proto, local, local_2, local_3, local_4, lport, lport_2, remote,
        remote_2, remote_3, remote_4, rport, rport_2, high, low,
    ]
}

/// The first part of a host's chunk.
#[tactic(auto, unfolding(nf_function::specs::Stored::number_bytes))]
fn host_front(head: [u8; 3], host: u32, length: u16) -> [u8; 9]
    ensures { result ≡ head ++ number_bytes 4 host ++ number_bytes 2 length }
{
    let [version, kind, scope] = head;
    let [first, second, third, fourth] = host.to_be_bytes();
    let [high, low] = length.to_be_bytes();
    [
        version, kind, scope, first, second, third, fourth, high, low,
    ]
}

#[tactic(auto, unfolding(crate::specs::Format::key_bytes, nf_function::specs::Stored::number_bytes))]
fn flow_key(flow: &Flow) -> [u8; 13]
    ensures { result ≡ key_bytes (OfFlow flow.now) }
{
    let [local, local_2, local_3, local_4, lport, lport_2] = end(flow.local, flow.lport);
    let [remote, remote_2, remote_3, remote_4, rport, rport_2] = end(flow.remote, flow.rport);
    [
        flow.proto, local, local_2, local_3, local_4, lport, lport_2, remote, remote_2, remote_3,
        remote_4, rport, rport_2,
    ]
}

/// The bytes of one end of a flow.
#[tactic(auto, unfolding(nf_function::specs::Stored::number_bytes))]
fn end(address: u32, port: u16) -> [u8; 6]
    ensures { result ≡ number_bytes 4 address ++ number_bytes 2 port }
{
    let [first, second, third, fourth] = address.to_be_bytes();
    let [high, low] = port.to_be_bytes();
    [first, second, third, fourth, high, low]
}
