ghost use Rattle.std.specs.Prelude.{◌≡◌, ◌+◌, ◌<◌, ◌≤◌, [], ◌∷◌, ◌++◌, length, take, slice_get, OnOk};
ghost use Rattle.std.specs.Option.{option_copied};
ghost use Rattle.lane_book.specs.Stocked.{Stocked, with_items};

use persist_model::{List, NoMemory};
use std::alloc::Global;
use std::marker::Model;

/// A list with room for more, which contracts see as its items and its capacity. Up to that it grows without memory.
#[derive(Drop)]
pub struct Stock<T> {
    items: Vec<T>,
}

impl<T> Model for Stock<T> {
    ghost use Rattle.std.specs.Prelude.{◌≤◌, length, vec_capacity};
    ghost use Rattle.lane_book.specs.Stocked.{Stocked};

    ghost Value = { Stocked T };

    ghost view = { λ stock. record { items = stock.items.items; capacity = vec_capacity stock.items } };
}

impl<T> Stock<T> {
    /// An empty one, which takes no memory.
    pub fn new(alloc: Global) -> Self
        ensures { result ≡ record { items = []; capacity = 0 } }
    {
        Stock {
            items: Vec::new(alloc),
        }
    }

    pub fn len(&self) -> usize
        ensures { result ≡ length self.now.items }
    {
        self.items.len()
    }

    pub fn as_slice(&self) -> &[T]
        ensures { result.now ≡ self.now.items }
    {
        self.items.as_slice()
    }

    /// The items as a list, without memory.
    pub fn into_list(self) -> List<T>
        ensures { result ≡ self.items }
    {
        List::from_vec(self.items)
    }

    /// Makes room for so many more. Nothing else changes, and no room is lost.
    pub fn reserve(&mut self, more: usize) -> Result<(), NoMemory>
        ensures items { self.new.items ≡ self.old.items }
        ensures room { OnOk result (length self.new.items + more ≤ self.new.capacity) }
        ensures no_less { self.old.capacity ≤ self.new.capacity }
    {
        self.items.reserve(more)?;
        Ok(())
    }

    /// Puts a value at the end, for which there is room.
    pub fn push(&mut self, value: T)
        requires { length self.old.items < self.old.capacity }
        ensures { self.new ≡ with_items (self.old.items ++ value ∷ []) self.old }
    {
        self.items.push_reserved(value);
    }
}

impl<T: Drop> Stock<T> {
    /// Only the first n stay.
    pub fn truncate(&mut self, n: usize)
        ensures { self.new ≡ with_items (take n self.old.items) self.old }
    {
        self.items.truncate(n);
    }

    pub fn clear(&mut self)
        ensures { self.new ≡ with_items [] self.old }
    {
        self.items.clear();
    }
}
