//! Logs of the Annual Computer Poker Competition, read and written under a game.
ghost use Rattle.std.specs.Prelude.{◌≡◌, ◌⊎◌, true, IfErr, IfOk};
ghost use Rattle.convert_core.specs.Faults.{is_out_of_memory};
ghost use Rattle.convert_core.specs.AcpcLaws as laws;
ghost use Rattle.convert_core.specs.Acpc as in_acpc;

use crate::format_fault::FormatFault;
use crate::notation::Notation;
use acpc_format::Game;
use acpc_reading::find_hand_lines;
use card_set::Memory;
use hand_canon::{Keep, Play, Records, SoundPlay, Unspelled, WriteRefusal};
use play_event::{Reopen, Rules};
use std::alloc::Global;

/// The logs of the Annual Computer Poker Competition under a game.
#[derive(Clone, Copy, Debug, PartialEq, Eq)]
pub struct Acpc {
    pub game: Game,
}

// Reads the records of a log under a game.
fn read_acpc(alloc: Global, game: &Game, bytes: &[u8]) -> Result<Records, FormatFault>
    ensures say { IfOk result (in_acpc.Say game.now bytes.now) }
    ensures fault { IfErr result (λ fault.
        (is_out_of_memory fault ≡ true) ⊎ in_acpc.HaveFault game.now bytes.now fault) }
{
    Ok(acpc_format::read(alloc, game, bytes)?)
}

impl Notation for Acpc {
    ghost meaning = { λ log. in_acpc.meaning log.game };

    ghost lawful = { λ log. laws.lawful log.game };

    fn rules(&self) -> Rules {
        Rules {
            reopen: Reopen::Always,
            free_fold: false,
            caps: self.game.caps,
        }
    }

    fn read(&self, alloc: Global, bytes: &[u8]) -> Result<Records, FormatFault> {
        read_acpc(alloc, &self.game, bytes)
    }

    fn first_lines(&self, alloc: Global, bytes: &[u8]) -> Result<Vec<u64>, Memory> {
        find_hand_lines(alloc, bytes)
    }

    fn spells(&self, play: &Play, keep: Keep) -> Option<Unspelled> {
        acpc_format::spells(&self.game, play, keep)
    }

    fn write(&self, alloc: Global, plays: &[Play], keep: Keep) -> Result<Vec<u8>, WriteRefusal> {
        acpc_format::write(alloc, &self.game, plays, keep)
    }

    fn has_lines(&self) -> bool {
        true
    }

    fn push_line(
        &self,
        alloc: Global,
        out: &mut Vec<u8>,
        place: usize,
        play: &SoundPlay<'_>,
    ) -> Result<(), Memory> {
        acpc_format::push_line(alloc, out, self.game.no_limit, place, play)?;
        Ok(())
    }
}
