//! Lists that contracts see as their items.
ghost use Rattle.std.specs.Prelude.{◌≡◌, ◌<◌, ◌++◌, [], ◌∷◌, Some, length, slice_get, slice_index_or, OnOk, OnErr};

use std::alloc::AllocError;
use std::marker::Model;

/// Items in their order.
#[derive(Debug, Drop)]
pub struct Listed<T: Drop> {
    list: Vec<T>,
}

impl<T: Drop> Model for Listed<T> {
    ghost use Rattle.std.specs.Prelude.{List};

    ghost Value = { List T };

    ghost view = { λ l. l.list.items };
}

impl<T: Drop> Listed<T> {
    /// The items of this list, in its order. Takes no memory.
    pub fn of(list: Vec<T>) -> Listed<T>
        ensures { result ≡ list.items }
    {
        Listed { list }
    }

    /// The number of items.
    pub fn len(&self) -> usize
        ensures { result ≡ length self.now }
    {
        self.list.len()
    }

    /// The item at this place, counted from 0.
    pub fn at(&self, k: usize) -> &T
        requires { k < length self.now }
        ensures item { slice_get self.now k ≡ Some result.now }
        ensures value { (d : T) → result.now ≡ slice_index_or self.now k d }
    {
        &self.list[k]
    }

    /// The items as a slice.
    pub fn as_slice(&self) -> &[T]
        ensures { result.now ≡ self.now }
    {
        self.list.as_slice()
    }

    /// Puts an item behind the last. Where memory is short the list is as it was.
    pub fn push(&mut self, item: T) -> Result<(), AllocError>
        ensures pushed { OnOk result (self.new ≡ self.old ++ item ∷ []) }
        ensures kept { OnErr result (self.new ≡ self.old) }
    {
        self.list.push(item)?;
        Ok(())
    }

    /// The list itself.
    pub fn into(self) -> Vec<T>
        ensures { result.items ≡ self }
    {
        self.list
    }
}
