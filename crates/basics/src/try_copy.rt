ghost use Rattle.std.specs.Prelude.{◌≡◌, IfOk};

use crate::sequence::NoMemory;

/// A value of which an equal one can be made, where there is memory for it.
pub trait TryCopy: Drop {
    /// An equal value, on the same allocator.
    fn copy(&self) -> Result<Self, NoMemory>
        ensures { IfOk result (λ other. other ≡ self.now) };
}

impl<T: Copy> TryCopy for T {
    fn copy(&self) -> Result<Self, NoMemory> {
        Ok(*self)
    }
}
