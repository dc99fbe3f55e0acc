//! A notation that is chosen as the program runs: one of those that there are.
ghost use Rattle.convert_core.specs.FormatLaws.{lawful_of};
ghost use Rattle.convert_core.specs.Formats.{meaning_of};

use crate::acpc::Acpc;
use crate::format_fault::FormatFault;
use crate::notation::Notation;
use crate::ohh::Ohh;
use crate::phh::Phh;
use acpc_format::Game;
use card_set::Memory;
use hand_canon::{Keep, Play, Records, SoundPlay, Unspelled, WriteRefusal};
use ohh_format::Dialect;
use play_event::Rules;
use std::alloc::Global;

/// The notation in which bytes are read or hands are written.
#[derive(Clone, Copy, Debug, PartialEq, Eq)]
pub enum Format {
    /// The Poker Hand History format.
    Phh,
    /// Open Hand History in this dialect.
    Ohh(Dialect),
    /// A log of the Annual Computer Poker Competition under this game.
    Acpc(Game),
}

impl Notation for Format {
    ghost meaning = { meaning_of };

    ghost lawful = { lawful_of };

    fn rules(&self) -> Rules {
        match self {
            Format::Phh => Phh.rules(),
            Format::Ohh(dialect) => Ohh { dialect: *dialect }.rules(),
            Format::Acpc(game) => Acpc { game: *game }.rules(),
        }
    }

    fn read(&self, alloc: Global, bytes: &[u8]) -> Result<Records, FormatFault> {
        match self {
            Format::Phh => Phh.read(alloc, bytes),
            Format::Ohh(dialect) => Ohh { dialect: *dialect }.read(alloc, bytes),
            Format::Acpc(game) => Acpc { game: *game }.read(alloc, bytes),
        }
    }

    fn first_lines(&self, alloc: Global, bytes: &[u8]) -> Result<Vec<u64>, Memory> {
        match self {
            Format::Phh => Phh.first_lines(alloc, bytes),
            Format::Ohh(dialect) => Ohh { dialect: *dialect }.first_lines(alloc, bytes),
            Format::Acpc(game) => Acpc { game: *game }.first_lines(alloc, bytes),
        }
    }

    fn spells(&self, play: &Play, keep: Keep) -> Option<Unspelled> {
        match self {
            Format::Phh => Phh.spells(play, keep),
            Format::Ohh(dialect) => Ohh { dialect: *dialect }.spells(play, keep),
            Format::Acpc(game) => Acpc { game: *game }.spells(play, keep),
        }
    }

    fn write(&self, alloc: Global, plays: &[Play], keep: Keep) -> Result<Vec<u8>, WriteRefusal> {
        match self {
            Format::Phh => Phh.write(alloc, plays, keep),
            Format::Ohh(dialect) => Ohh { dialect: *dialect }.write(alloc, plays, keep),
            Format::Acpc(game) => Acpc { game: *game }.write(alloc, plays, keep),
        }
    }

    fn has_lines(&self) -> bool {
        match self {
            Format::Phh => Phh.has_lines(),
            Format::Ohh(dialect) => Ohh { dialect: *dialect }.has_lines(),
            Format::Acpc(game) => Acpc { game: *game }.has_lines(),
        }
    }

    fn push_line(
        &self,
        alloc: Global,
        out: &mut Vec<u8>,
        place: usize,
        play: &SoundPlay<'_>,
    ) -> Result<(), Memory> {
        match self {
            Format::Phh => Phh.push_line(alloc, out, place, play),
            Format::Ohh(dialect) => Ohh { dialect: *dialect }.push_line(alloc, out, place, play),
            Format::Acpc(game) => Acpc { game: *game }.push_line(alloc, out, place, play),
        }
    }
}
