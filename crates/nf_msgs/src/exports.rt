ghost use Rattle.std.specs.Prelude.{◌≡◌, IfOk};
ghost use Rattle.nf_msgs.specs.Exports.{units_in};

use basics::NoMemory;
use nf_function::{Chunk, Units};
use std::alloc::Global;

/// The units of the chunks that have one, in order.
pub fn units_in(alloc: Global, chunks: &[Chunk]) -> Result<Units, NoMemory>
    ensures { IfOk result (λ units. units ≡ units_in chunks.now) }
{
    let mut units = Units::from_vec(Vec::with_capacity(alloc, chunks.len())?);
    for chunk in chunks {
        let Some(unit) = chunk.unit else {
            continue;
        };
        units.push(unit)?;
    }
    Ok(units)
}
