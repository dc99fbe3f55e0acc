//! The dealt cards of a hand's seats and of its board, in order.
ghost use Rattle.std.specs.Prelude.{◌≡◌, ◌<◌, [], ◌∷◌, ◌++◌, length, slice_get, Some, OnOk, OnErr};

use card_set::{Memory, TryPush};
use play_event::Place;
use std::alloc::Global;
use std::marker::Model;

/// The dealt cards of a hand, by street, then by owner from p1 upward and the board last, then in
/// the order of dealing.
#[derive(Debug, Drop)]
pub struct Places {
    places: Vec<Place>,
}

impl Model for Places {
    ghost use Rattle.std.specs.Prelude.{List};
    ghost use Rattle.play_event.specs.declared.played.Place.{Place};

    ghost Value = { List Place };

    ghost view = { λ p. p.places.items };
}

impl Places {
    /// A list without cards.
    pub fn new(alloc: Global) -> Self
        ensures { result ≡ [] }
    {
        Places {
            places: Vec::new(alloc),
        }
    }

    /// Appends a dealt card. If memory runs out, the list stays as it was.
    pub fn push(&mut self, item: Place) -> Result<(), Memory>
        ensures pushed { OnOk result (self.new ≡ self.old ++ item ∷ []) }
        ensures unchanged { OnErr result (self.new ≡ self.old) }
    {
        self.places.try_push(item)
    }

    /// The dealt card at this index, from 0. Ask first that the index is below `len`.
    pub fn get(&self, index: usize) -> Place
        requires { index < length self.now }
        ensures { slice_get self.now index ≡ Some result }
    {
        self.places[index]
    }

    /// How many dealt cards there are.
    pub fn len(&self) -> usize
        ensures { result ≡ length self.now }
    {
        self.places.len()
    }

    /// The dealt cards, in order.
    pub fn as_slice(&self) -> &[Place]
        ensures { result.now ≡ self.now }
    {
        self.places.as_slice()
    }
}
