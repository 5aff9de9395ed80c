ghost use Rattle.std.specs.Prelude.{◌≡◌};
ghost use Rattle.move_op.specs.Move.{have_units};

use nf_function::Chunk;

/// Whether each chunk has a unit.
pub(crate) fn have_units(chunks: &[Chunk]) -> bool
    ensures { result ≡ have_units chunks.now }
{
    chunks.iter().all(|chunk| chunk.unit.is_some())
}
