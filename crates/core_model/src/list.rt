// Lists as contracts see them.
ghost use Rattle.std.specs.Prelude.{◌≡◌, ◌<◌, List, reverse, length, Some, slice_get, slice_set};

use std::marker::Model;
use std::mem;

/// A list, in order.
#[derive(Drop)]
pub struct Row<T> {
    pub(crate) items: Vec<T>,
}

impl<T> Model for Row<T> {
    ghost use Rattle.std.specs.Prelude.{List};

    ghost Value = { List T };

    ghost view = { λ s. s.items.items };
}

impl<T> Row<T> {
    /// Takes a vector as it is, and no memory.
    pub fn from_vec(items: Vec<T>) -> Self
        ensures { result ≡ items.items }
    {
        Row { items }
    }

    pub fn as_slice(&self) -> &[T]
        ensures { result.now ≡ self.now }
    {
        &self.items
    }

    /// Puts an item in place of the one there, which it gives back.
    pub fn replace(&mut self, at: usize, item: T) -> T
        requires { at < length self.old }
        ensures after { self.new ≡ slice_set self.old at item }
        ensures value { slice_get self.old at ≡ Some result }
    {
        mem::replace(&mut self.items[at], item)
    }

    /// Puts an item in place of the one there.
    pub fn set(&mut self, at: usize, item: T)
    where
        T: Drop,
        requires { at < length self.old }
        ensures { self.new ≡ slice_set self.old at item }
    {
        self.items[at] = item;
    }
}

impl Row<u32> {
    ghost use Rattle.core_model.specs.Chains.{without};

    /// Removes a number, however often it is there.
    pub fn remove_all(&mut self, number: u32)
        ensures { self.new ≡ without number self.old }
    {
        self.items.retain(|item| *item != number);
    }
}

/// A list that only grows. Contracts see its newest item first.
#[derive(Drop)]
pub struct Log<T> {
    pub(crate) items: Vec<T>,
}

impl<T> Model for Log<T> {
    ghost use Rattle.std.specs.Prelude.{List, reverse};

    ghost Value = { List T };

    ghost view = { λ s. reverse s.items.items };
}

impl<T> Log<T> {
    /// Takes a vector as it is, with the oldest item first, and no memory.
    pub fn from_vec(items: Vec<T>) -> Self
        ensures { result ≡ reverse items.items }
    {
        Log { items }
    }

    /// Its items, the oldest first.
    pub fn as_slice(&self) -> &[T]
        ensures { reverse result.now ≡ self.now }
    {
        &self.items
    }
}
