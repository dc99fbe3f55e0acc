//! Hand histories in the Poker Hand History format.
ghost use Rattle.std.specs.Prelude.{◌≡◌, ◌⊎◌, true, IfErr, IfOk};
ghost use Rattle.convert_core.specs.Faults.{is_out_of_memory};
ghost use Rattle.convert_core.specs.Phh as in_phh;
ghost use Rattle.convert_core.specs.PhhLaws as laws;

use crate::format_fault::FormatFault;
use crate::notation::Notation;
use card_set::Memory;
use hand_canon::{Keep, Play, Records, SoundPlay, Unspelled, WriteRefusal};
use play_event::{Reopen, Rules};
use std::alloc::Global;

/// The Poker Hand History format.
#[derive(Clone, Copy, Debug, PartialEq, Eq)]
pub struct Phh;

// Reads the records of a file.
fn read_phh(alloc: Global, bytes: &[u8]) -> Result<Records, FormatFault>
    ensures say { IfOk result (in_phh.Say bytes.now) }
    ensures fault { IfErr result (λ fault.
        (is_out_of_memory fault ≡ true) ⊎ in_phh.HaveFault bytes.now fault) }
{
    Ok(phh_format::read(alloc, bytes)?)
}

impl Notation for Phh {
    ghost meaning = { λ _. in_phh.meaning };

    ghost lawful = { λ _. laws.lawful };

    fn rules(&self) -> Rules {
        Rules {
            reopen: Reopen::Full,
            free_fold: true,
            caps: None,
        }
    }

    fn read(&self, alloc: Global, bytes: &[u8]) -> Result<Records, FormatFault> {
        read_phh(alloc, bytes)
    }

    fn first_lines(&self, alloc: Global, _: &[u8]) -> Result<Vec<u64>, Memory> {
        // A hand of PHH is a table, and the reader of tables gives no lines.
        Ok(Vec::new(alloc))
    }

    fn spells(&self, play: &Play, keep: Keep) -> Option<Unspelled> {
        phh_format::spells(play, keep)
    }

    fn write(&self, alloc: Global, plays: &[Play], keep: Keep) -> Result<Vec<u8>, WriteRefusal> {
        phh_format::write(alloc, plays, keep)
    }

    fn has_lines(&self) -> bool {
        false
    }

    fn push_line(
        &self,
        _: Global,
        _: &mut Vec<u8>,
        _: usize,
        _: &SoundPlay<'_>,
    ) -> Result<(), Memory> {
        // A file of several hands numbers them, and a file of one hand does not: PHH has no line
        // per hand.
        Ok(())
    }
}
