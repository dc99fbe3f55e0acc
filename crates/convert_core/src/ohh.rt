//! Open Hand History, in a dialect.
ghost use Rattle.std.specs.Prelude.{◌≡◌, ◌⊎◌, true, IfErr, IfOk};
ghost use Rattle.convert_core.specs.Faults.{is_out_of_memory};
ghost use Rattle.convert_core.specs.OhhLaws as laws;
ghost use Rattle.convert_core.specs.Ohh as in_ohh;

use crate::format_fault::FormatFault;
use crate::notation::Notation;
use card_set::Memory;
use hand_canon::{Keep, Play, Records, SoundPlay, Unspelled, WriteRefusal};
use ohh_format::Dialect;
use ohh_reading::find_block_lines;
use play_event::{Reopen, Rules};
use std::alloc::Global;

/// Open Hand History in a dialect.
#[derive(Clone, Copy, Debug, PartialEq, Eq)]
pub struct Ohh {
    pub dialect: Dialect,
}

// Reads the records of a file in a dialect.
fn read_ohh(alloc: Global, dialect: Dialect, bytes: &[u8]) -> Result<Records, FormatFault>
    ensures say { IfOk result (in_ohh.Say dialect bytes.now) }
    ensures fault { IfErr result (λ fault.
        (is_out_of_memory fault ≡ true) ⊎ in_ohh.HaveFault dialect bytes.now fault) }
{
    Ok(ohh_format::read(alloc, dialect, bytes)?)
}

impl Notation for Ohh {
    ghost meaning = { λ tree. in_ohh.meaning tree.dialect };

    ghost lawful = { λ tree. laws.lawful tree.dialect };

    fn rules(&self) -> Rules {
        Rules {
            reopen: Reopen::Full,
            free_fold: true,
            caps: None,
        }
    }

    fn read(&self, alloc: Global, bytes: &[u8]) -> Result<Records, FormatFault> {
        read_ohh(alloc, self.dialect, bytes)
    }

    fn first_lines(&self, alloc: Global, bytes: &[u8]) -> Result<Vec<u64>, Memory> {
        find_block_lines(alloc, bytes)
    }

    fn spells(&self, play: &Play, keep: Keep) -> Option<Unspelled> {
        ohh_format::spells(play, keep)
    }

    fn write(&self, alloc: Global, plays: &[Play], keep: Keep) -> Result<Vec<u8>, WriteRefusal> {
        ohh_format::write(alloc, self.dialect, plays, keep)
    }

    fn has_lines(&self) -> bool {
        true
    }

    fn push_line(
        &self,
        alloc: Global,
        out: &mut Vec<u8>,
        place: usize,
        play: &SoundPlay<'_>,
    ) -> Result<(), Memory> {
        ohh_format::push_line(alloc, out, self.dialect, place, play)
    }
}
