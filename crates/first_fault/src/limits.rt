//! The limits of what is read, except those of a hand. Each is a decision of this project.
ghost use Rattle.std.specs.Prelude.{Some};
ghost use Rattle.first_fault.specs.Quantities.{quantity_text};

use std::fmt;

/// The most hands of a file.
pub const MOST_HANDS: usize = 65_536;

/// The most moves of a file.
pub const MOST_FILE_MOVES: usize = 1_048_576;

/// The most bytes of the text of a note.
pub const MOST_TEXT_BYTES: usize = 255;

/// What a file may have too many of.
#[derive(Clone, Copy, Debug, PartialEq, Eq)]
pub enum Quantity {
    Hands,
    /// The moves of a hand.
    Moves,
    /// The other events of a hand.
    OtherEvents,
    FileMoves,
    /// The bytes of the text of a note.
    TextBytes,
}

impl fmt::Display for Quantity {
    ghost output = { λ quantity. Some (quantity_text quantity) };

    fn fmt<W: fmt::Write>(&self, f: &mut fmt::Formatter<W>) -> fmt::Result {
        f.write_str(match self {
            Quantity::Hands => "hands",
            Quantity::Moves => "moves of a hand",
            Quantity::OtherEvents => "other events of a hand",
            Quantity::FileMoves => "moves of the file",
            Quantity::TextBytes => "text bytes",
        })
    }
}
