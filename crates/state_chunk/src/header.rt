//! The first three bytes of a chunk, and its body.
ghost use Rattle.std.specs.Prelude.{◌≡◌};
ghost use Rattle.state_chunk.specs.Format.{kind_number, scope_number, version_number, record_scope};
ghost use Rattle.state_chunk.specs.Reading.{header_of, body_in, may_have, DecodesTo};

use crate::fault::ChunkFault;
use nf_function::stored::{first_byte, first_u16};
use nf_function::{Kind, Scope};

/// The version of a chunk whose record holds no time.
pub const PLAIN: u8 = 1;

/// The version of a chunk whose record holds a time.
pub const TIMED: u8 = 2;

/// The version of a record's chunk.
pub fn version_number(is_timed: bool) -> u8
    ensures { result ≡ version_number is_timed }
{
    if is_timed { TIMED } else { PLAIN }
}

/// The number of a function, from 1, as the second byte of a chunk has it.
pub fn kind_number(kind: Kind) -> u8
    ensures { result ≡ kind_number kind }
{
    match kind {
        Kind::Conntrack => 1,
        Kind::Nat => 2,
        Kind::Monitor => 3,
    }
}

/// The number of a scope, from 1, as the third byte of a chunk has it.
pub fn scope_number(scope: Scope) -> u8
    ensures { result ≡ scope_number scope }
{
    match scope {
        Scope::PerFlow => 1,
        Scope::MultiFlow => 2,
        Scope::AllFlows => 3,
    }
}

/// The scope of a function's records.
pub fn record_scope(kind: Kind) -> Scope
    ensures { result ≡ record_scope kind }
{
    if kind.has_hosts() {
        Scope::MultiFlow
    } else {
        Scope::PerFlow
    }
}

/// The version of a chunk of this kind and scope, and the bytes after its scope.
///
/// Version 2 is for scopes whose states hold a time.
#[tactic(auto, unfolding(crate::specs::Reading::header_of))]
pub fn header_of(
    kind: Kind,
    scope: Scope,
    is_timed: bool,
    bytes: &[u8],
) -> Result<(u8, &[u8]), ChunkFault>
    ensures { DecodesTo (λ x. (x.0, x.1.now)) result (header_of kind scope is_timed bytes.now) }
{
    let (version, rest) = first_byte(bytes).ok_or(ChunkFault::Short)?;
    if version != PLAIN && version != TIMED {
        return Err(ChunkFault::Version(version));
    }
    let (kind_byte, rest) = first_byte(rest).ok_or(ChunkFault::Short)?;
    if kind_byte != kind_number(kind) || !may_have(version, kind.has_times()) {
        return Err(ChunkFault::Kind);
    }
    let (scope_byte, rest) = first_byte(rest).ok_or(ChunkFault::Short)?;
    if scope_byte != scope_number(scope) || !may_have(version, is_timed) {
        return Err(ChunkFault::Kind);
    }
    Ok((version, rest))
}

/// Whether such states may have this version.
fn may_have(version: u8, is_timed: bool) -> bool
    ensures { result ≡ may_have version is_timed }
{
    version == PLAIN || is_timed
}

/// The body of a chunk, where its length stands first, and the bytes after it.
#[tactic(auto, unfolding(crate::specs::Reading::body_in))]
pub fn body_in(bytes: &[u8]) -> Result<(&[u8], &[u8]), ChunkFault>
    ensures { DecodesTo (λ x. (x.0.now, x.1.now)) result (body_in bytes.now) }
{
    let (length, rest) = first_u16(bytes).ok_or(ChunkFault::Short)?;
    let length = usize::from(length);
    if rest.len() < length {
        return Err(ChunkFault::Short);
    }
    Ok((&rest[..length], &rest[length..]))
}
