//! Lists that have fewer than 2^32 items, so that a `u32` names each.
ghost use Rattle.std.specs.Prelude.{◌≡◌, ◌<◌, ◌^◌, ◌++◌, ◌∷◌, List, [], length, is_ok, if◌then◌else◌, slice_index_or, IsTrue, ◌↔◌};

use crate::area::Area;
use crate::rect::Rect;
use layout_limits::OutOfMemory;
use std::alloc::Global;
use std::marker::Model;

/// The most items of a list.
const MOST_ITEMS: usize = 4_294_967_295;

/// A list of fewer than 2^32 items, which contracts see as that list.
#[derive(Drop)]
pub struct Items<T> {
    items: Vec<T>,
}

/// Rectangles, as the boxes of a page.
pub type Rects = Items<Rect>;

/// Numbers, as positions in another list.
pub type Numbers = Items<u32>;

/// The bytes of a name.
pub type Name = Items<u8>;

/// Areas of text.
pub type Areas = Items<Area>;

impl<T> Model for Items<T> {
    ghost Value = { List T };

    ghost view = { λ list. list.items.items };

    ghost invariant = { λ list. length list.items.items < 2 ^ 32 };
}

impl<T> Items<T> {
    /// The empty list, which takes no memory.
    pub fn new(alloc: Global) -> Items<T>
        ensures empty { result ≡ [] }
    {
        Items {
            items: Vec::new(alloc),
        }
    }

    /// The items of the vector, which takes no memory.
    pub fn from_vec(items: Vec<T>) -> Items<T>
        requires { length items.items < 2 ^ 32 }
        ensures same { result ≡ items.items }
    {
        Items { items }
    }

    /// The items in a vector, which takes no memory.
    pub fn into_vec(self) -> Vec<T>
        ensures same { result.items ≡ self }
        ensures small { length result.items < 2 ^ 32 }
    {
        self.items
    }

    /// The number of items.
    pub fn len(&self) -> usize
        ensures value { result ≡ length self.now }
        ensures small { result < 2 ^ 32 }
    {
        self.items.len()
    }

    /// Whether the list has no item.
    pub fn is_empty(&self) -> bool
        ensures empty { IsTrue result ↔ (self.now ≡ []) }
    {
        self.items.is_empty()
    }

    /// The item at a position from 0.
    pub fn get(&self, i: usize) -> &T
        requires { i < length self.now }
        ensures item { result.now ≡ slice_index_or self.now i result.now }
    {
        &self.items[i]
    }

    /// All the items.
    pub fn as_slice(&self) -> &[T]
        ensures same { result.now ≡ self.now }
    {
        self.items.as_slice()
    }
}

impl<T: Drop> Items<T> {
    /// Puts an item at the end. Where there is no memory for it, or where the list has 2^32 - 1
    /// items, the list stays as it was and the item is dropped.
    pub fn push(&mut self, item: T) -> Result<(), OutOfMemory>
        ensures grown { self.new ≡ (if is_ok result then self.old ++ item ∷ [] else self.old) }
    {
        if self.items.len() == MOST_ITEMS {
            return Err(OutOfMemory);
        }
        self.items.push(item)?;
        Ok(())
    }
}
