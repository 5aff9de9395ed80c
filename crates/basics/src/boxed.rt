ghost use Rattle.std.specs.Prelude.{◌≡◌, IfOk};

use crate::sequence::NoMemory;
use std::alloc::Global;
use std::marker::Model;

/// A value behind one pointer, which contracts see as the value.
#[derive(Debug, Drop)]
pub struct Boxed<T> {
    place: Box<T>,
}

impl<T> Model for Boxed<T> {
    ghost Value = { T };

    ghost view = { λ b. b.place.value };
}

impl<T> Boxed<T> {
    /// Moves the value to a place of its own.
    pub fn new(alloc: Global, value: T) -> Result<Self, NoMemory>
    where
        T: Drop,
        ensures { IfOk result (λ boxed. boxed ≡ value) }
    {
        let place = Box::new(alloc, value)?;
        Ok(Boxed { place })
    }

    /// The value, where it stands.
    pub fn get(&self) -> &T
        ensures { result.now ≡ self.now }
    {
        &self.place
    }

    /// Puts another value in the place.
    #[inline]
    pub fn set(&mut self, value: T)
    where
        T: Drop,
        ensures { self.new ≡ value }
    {
        *self.place = value;
    }

    /// Moves the value out of its place.
    pub fn into_inner(self) -> T
        ensures { result ≡ self }
    {
        Box::into_inner(self.place)
    }
}
