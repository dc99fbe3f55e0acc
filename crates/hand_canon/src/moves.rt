//! The moves of a hand, in the order in which they were made.
ghost use Rattle.std.specs.Prelude.{◌≡◌, ◌<◌, [], ◌∷◌, ◌++◌, length, slice_get, Some, OnOk, OnErr};
ghost use Rattle.std.specs.List.{list_any};

use card_set::{Memory, TryPush};
use play_event::Move;
use std::alloc::Global;
use std::marker::Model;

/// The moves of a hand, in the order in which they were made.
#[derive(Debug, Drop)]
pub struct Moves {
    moves: Vec<Move>,
}

impl Model for Moves {
    ghost use Rattle.std.specs.Prelude.{List};
    ghost use Rattle.play_event.specs.declared.played.Move.{Move};

    ghost Value = { List Move };

    ghost view = { λ m. m.moves.items };
}

impl Moves {
    /// A list without moves.
    pub fn new(alloc: Global) -> Self
        ensures { result ≡ [] }
    {
        Moves {
            moves: Vec::new(alloc),
        }
    }

    /// Appends a move. If memory runs out, the list stays as it was.
    pub fn push(&mut self, item: Move) -> Result<(), Memory>
        ensures pushed { OnOk result (self.new ≡ self.old ++ item ∷ []) }
        ensures unchanged { OnErr result (self.new ≡ self.old) }
    {
        self.moves.try_push(item)
    }

    /// The move at this index, from 0. Ask first that the index is below `len`.
    pub fn get(&self, index: usize) -> Move
        requires { index < length self.now }
        ensures { slice_get self.now index ≡ Some result }
    {
        self.moves[index]
    }

    /// How many moves there are.
    pub fn len(&self) -> usize
        ensures { result ≡ length self.now }
    {
        self.moves.len()
    }

    /// Whether one of them is a raise that is legal only if betting always reopens, because of a
    /// short raise before it.
    pub fn has_closed_raise(&self) -> bool
        ensures { result ≡ list_any (λ move. move.closed) self.now }
    {
        self.moves.iter().any(|played| played.closed)
    }

    /// The moves, in order.
    pub fn as_slice(&self) -> &[Move]
        ensures { result.now ≡ self.now }
    {
        self.moves.as_slice()
    }
}
