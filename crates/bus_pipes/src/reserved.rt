//! Lists whose room was reserved.

ghost use Rattle.std.specs.Prelude.{◌≡◌, ◌<◌, ◌+◌, ◌==◌, [], ◌∷◌, length, slice_index_or, IfOk};
ghost use Rattle.std.specs.Borrow.{sem};
ghost use Rattle.bus_pipes.specs.Held.{adding, emptied};

use fsw_outside::NoMemory;
use std::alloc::Global;
use std::marker::Model;

/// A list whose room was reserved, so that no push asks for memory. Behind its items lie those that were cleared, so that the
/// next one needn't be moved to its place.
#[derive(Drop)]
pub struct ReservedList<T> {
    pub(crate) places: Vec<T>,
    pub(crate) count: usize,
    room: u32,
}

impl<T> Model for ReservedList<T> {
    ghost use Rattle.std.specs.Prelude.{◌≤◌, length, take, vec_capacity};
    ghost use Rattle.bus_pipes.specs.Held.{Held};

    ghost Value = { Held T };

    ghost view = { λ a. record { items = take a.count a.places.items; room = a.room } };

    ghost invariant = { λ a. (a.count ≤ length a.places.items) × (a.room ≤ vec_capacity a.places) };
}

impl<T> ReservedList<T> {
    ghost use Rattle.bus_pipes.specs.Lending.{lends_item};

    /// An empty list with room for so many items.
    pub fn open(alloc: Global, room: u32) -> Result<ReservedList<T>, NoMemory>
        ensures { IfOk result (λ list. list ≡ record { items = []; room = room }) }
    {
        match Vec::with_capacity(alloc, room as usize) {
            Ok(places) => Ok(ReservedList {
                places,
                count: 0,
                room,
            }),
            Err(_) => Err(NoMemory),
        }
    }

    /// The items in order.
    pub fn items(&self) -> &[T]
        ensures { result.now ≡ self.now.items }
    {
        &self.places[..self.count]
    }

    /// The item at a place, for writing.
    pub fn item_mut(&mut self, at: usize) -> &mut T
        requires { at < length self.old.items }
        ensures* writes_back { sem 𝓛 (lends_item T.row self.entry at result) }
        ensures value { result.now ≡ slice_index_or self.old.items at result.now }
    {
        &mut self.places[at]
    }

    /// The number of items.
    pub fn len(&self) -> usize
        ensures { result ≡ length self.now.items }
    {
        self.count
    }

    /// Whether there is no item.
    pub fn is_empty(&self) -> bool
        ensures { result ≡ (length self.now.items == 0) }
    {
        self.count == 0
    }

    /// How many items there is room for.
    pub fn room(&self) -> u32
        ensures { result ≡ self.now.room }
    {
        self.room
    }
}

impl<T: Drop> ReservedList<T> {
    /// Puts an item behind the others.
    #[tactic(auto, unfolding(crate::specs::Held::adding))]
    pub fn push(&mut self, item: T)
        requires { length self.old.items < self.old.room }
        ensures after { self.new ≡ adding self.old (item ∷ []) }
        ensures size { length self.new.items ≡ length self.old.items + 1 }
        ensures room { self.new.room ≡ self.old.room }
    {
        if self.count < self.places.len() {
            self.places[self.count] = item;
        } else {
            self.places.push_reserved(item);
        }
        self.count += 1;
    }

    /// Removes all items. The room stays.
    pub fn clear(&mut self)
        ensures after { self.new ≡ emptied self.old }
        ensures none { self.new.items ≡ [] }
        ensures room { self.new.room ≡ self.old.room }
    {
        self.count = 0;
    }
}
