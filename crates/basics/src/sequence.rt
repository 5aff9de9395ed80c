ghost use Rattle.std.specs.Prelude.{◌≡◌, List, [], ◌∷◌, ◌++◌, OnOk, OnErr, IfOk};

use crate::try_copy::TryCopy;
use std::alloc::Global;
use std::marker::Model;

/// Out of memory: the one answer that no clause ties to a cause.
pub use std::alloc::AllocError as NoMemory;

/// The bytes of a file or of a message.
pub type Bytes = Sequence<u8>;

/// A text, as its bytes.
pub type Text = Sequence<u8>;

/// Items in order, which contracts see as their list.
#[derive(Debug, Drop)]
pub struct Sequence<T> {
    pub(crate) list: Vec<T>,
}

impl<T> Model for Sequence<T> {
    ghost Value = { List T };

    ghost view = { λ s. s.list.items };
}

impl<T> Sequence<T> {
    /// No items yet. This takes no memory.
    pub fn open(alloc: Global) -> Self
        ensures { result ≡ [] }
    {
        Sequence {
            list: Vec::new(alloc),
        }
    }

    /// Puts an item after the others.
    pub fn push(&mut self, item: T) -> Result<(), NoMemory>
    where
        T: Drop,
        ensures ok { OnOk result (self.new ≡ self.old ++ item ∷ []) }
        ensures err { OnErr result (self.new ≡ self.old) }
    {
        self.list.push(item)?;
        Ok(())
    }

    /// The items, as a slice.
    pub fn items(&self) -> &[T]
        ensures { result.now ≡ self.now }
    {
        self.list.as_slice()
    }

    /// The items of a vector, without a copy.
    pub fn from_vec(list: Vec<T>) -> Self
        ensures { result ≡ list.items }
    {
        Sequence { list }
    }

    /// The items as a vector, without a copy.
    pub fn into_vec(self) -> Vec<T>
        ensures { result.items ≡ self }
    {
        self.list
    }
}

impl<T: TryCopy> Sequence<T> {
    /// Another sequence with equal items, on the same allocator.
    pub fn copy(&self) -> Result<Self, NoMemory>
        ensures { IfOk result (λ other. other ≡ self.now) }
    {
        let mut other = Sequence::open(*self.list.allocator());
        for item in self.list.as_slice() {
            other.push(item.copy()?)?;
        }
        Ok(other)
    }
}

impl<T: Copy> Sequence<T> {
    /// As `copy`, of items that are copied by their bytes: all in one piece.
    pub fn copy_at_once(&self) -> Result<Self, NoMemory>
        ensures { IfOk result (λ other. other ≡ self.now) }
    {
        let list = Vec::from_slice(*self.list.allocator(), self.list.as_slice())?;
        Ok(Sequence { list })
    }
}
