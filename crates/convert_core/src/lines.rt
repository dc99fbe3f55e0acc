//! Writes records line by line, in a notation with one line per hand.
ghost use Rattle.std.specs.Prelude.{◌≡◌, true, false, All};
ghost use Rattle.convert_core.specs.Conversion.{IsConversion};
ghost use Rattle.hand_canon.specs.Sound.{IsSound};
ghost use Rattle.convert_core.specs.Lines.{IsWritten};

use crate::convert_fault::ConvertFault;
use crate::judged_play::{HandIndex, JudgedPlay};
use crate::notation::Notation;
use crate::refusal::{PlaysFault, Refusal};
use crate::sound_records::SoundRecords;
use crate::taking::judge_all;
use crate::visitor::VerdictVisitor;
use card_set::Memory;
use hand_canon::{Keep, SoundPlay, WriteRefusal};
use std::alloc::Global;

// The lines of the hands so far.
#[derive(Drop)]
struct Writer<'a, N> {
    to: &'a N,
    keep: Keep,
    out: Vec<u8>,
    // The first hand with a fact that cannot be expressed, and its first such fact. After it
    // nothing is written.
    refusal: Option<WriteRefusal>,
}

impl<'a, N: Notation> VerdictVisitor for Writer<'a, N> {
    ghost CONTINUES = { false };

    ghost KEEPS = { false };

    ghost Took = { λ start it verdicts. (it.to.now ≡ start.to.now) × (it.keep ≡ start.keep)
        × IsWritten (N.meaning it.to.now) it.keep it.refusal it.out.items verdicts };

    fn continues(&self) -> bool {
        false
    }

    fn retains_plays(&self) -> bool {
        false
    }

    fn legal(
        &mut self,
        alloc: Global,
        place: HandIndex,
        judged: &JudgedPlay<'_>,
    ) -> Result<(), Memory> {
        if self.refusal.is_some() {
            return Ok(());
        }
        let play = judged.play();
        match self.to.spells(play, self.keep) {
            None => {
                let play = SoundPlay::new(play);
                self.to.push_line(alloc, &mut self.out, place.index, &play)?;
            }
            Some(fact) => {
                let hand = place.index as u32 + 1;
                self.refusal = Some(WriteRefusal::Unspelled { hand, fact });
            }
        }
        Ok(())
    }

    fn refused(&mut self, _: Global, _: HandIndex, _: &Refusal) -> Result<(), Memory> {
        Ok(())
    }
}

/// Writes records in a notation that has lines: replays them in their order, and writes and drops
/// each play before the next is made.
///
/// # Errors
///
/// The first refused hand, with its first fault; or else the first hand with a fact to be kept that
/// the target cannot express, and its first such fact; or out of memory.
pub fn write_records<N: Notation>(
    alloc: Global,
    to: &N,
    keep: Keep,
    records: SoundRecords,
) -> Result<Vec<u8>, ConvertFault>
    requires { (N.meaning to.now).is_lined ≡ true }
    ensures { IsConversion (λ hands. hands ≡ records) (λ _. ⊥)
        ((N.meaning to.now).unspelled keep) (N.meaning to.now).Spell
        (λ plays _. All IsSound plays) (λ output. output.items) result }
{
    let mut writer = Writer {
        to,
        keep,
        out: Vec::new(alloc),
        refusal: None,
    };
    match judge_all(alloc, &mut writer, records) {
        Ok(_) => {}
        Err(PlaysFault::Refused { hand, why }) => {
            return Err(ConvertFault::Refused { hand, why });
        }
        Err(PlaysFault::Memory(memory)) => return Err(ConvertFault::Memory(memory)),
    }
    match writer.refusal {
        None => Ok(writer.out),
        Some(WriteRefusal::Unspelled { hand, fact }) => Err(ConvertFault::Unspelled { hand, fact }),
        Some(WriteRefusal::Memory(memory)) => Err(ConvertFault::Memory(memory)),
    }
}
