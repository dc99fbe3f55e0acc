//! The printed names of notes, and of the facts that a notation cannot express.
ghost use Rattle.std.specs.Prelude.{Some};
ghost use Rattle.hand_canon.specs.FactTexts.{fact_text};
ghost use Rattle.hand_canon.specs.NoteTable.{note_text};

use crate::notes::NoteName;
use crate::writing::Unspelled;
use std::fmt;

impl fmt::Display for NoteName {
    ghost output = { λ note. Some (note_text note) };

    fn fmt<W: fmt::Write>(&self, f: &mut fmt::Formatter<W>) -> fmt::Result {
        f.write_str(self.text())
    }
}

impl fmt::Display for Unspelled {
    ghost output = { λ fact. Some (fact_text fact) };

    fn fmt<W: fmt::Write>(&self, f: &mut fmt::Formatter<W>) -> fmt::Result {
        f.write_str(match self {
            Unspelled::Variant => "Variant",
            Unspelled::SeatCount => "SeatCount",
            Unspelled::Stacks => "Stacks",
            Unspelled::BetSizes => "BetSizes",
            Unspelled::Antes => "Antes",
            Unspelled::Blinds => "Blinds",
            Unspelled::Rake => "Rake",
            Unspelled::ReopenedShort => "ReopenedShort",
            Unspelled::FreeFold => "FreeFold",
            Unspelled::TooManyRaises => "TooManyRaises",
            Unspelled::RaiseTarget => "RaiseTarget",
            Unspelled::PartCards => "PartCards",
            Unspelled::Muck => "Muck",
            Unspelled::OddChip => "OddChip",
            Unspelled::Note(note) => return write!(f, "Note {note}"),
        })
    }
}
