//! What a notation is: it reads bytes as records, names the facts of a play that it cannot express,
//! and writes plays as bytes that read back as these plays, in one form for equal plays.
ghost use Rattle.std.specs.Prelude.{◌≡◌, ◌⊎◌, ◌≤◌, true, false, List, [], ◌∷◌, ◌++◌, length, None, Some, IfErr, IfOk, OnErr, OnOk};
ghost use Rattle.std.specs.List.{AllByRecursion};
ghost use Rattle.first_fault.specs.declared.limits.TheConstants.{MOST_HANDS};
ghost use Rattle.hand_canon.specs.Sound.{IsSound};
ghost use Rattle.hand_canon.specs.WriteRefusals.{IsOutOfMemory, first_refusal};
ghost use Rattle.hand_canon.specs.declared.trace.Play.{Play as AnyPlay};
ghost use Rattle.convert_core.specs.Faults.{is_out_of_memory};
ghost use Rattle.convert_core.specs.Lawful.{Lawful};
ghost use Rattle.convert_core.specs.Meaning.{Meaning};

use crate::format_fault::FormatFault;
use card_set::Memory;
use hand_canon::{Keep, Play, Records, SoundPlay, Unspelled, WriteRefusal};
use play_event::Rules;
use std::alloc::Global;

/// A notation in which hands are read and written.
pub trait Notation {
    /// What it means: what bytes say in it, and how it writes plays.
    ghost meaning: { Self → Meaning };

    /// The rules under which its hands are played, beyond those of the game.
    fn rules(&self) -> Rules
        ensures { result ≡ (meaning self.now).rules };

    /// The records that the bytes say, one per hand in the order of reading.
    ///
    /// # Errors
    ///
    /// The first fault of the bytes; or out of memory, in the fault type of the notation.
    fn read(&self, alloc: Global, bytes: &[u8]) -> Result<Records, FormatFault>
        ensures say { IfOk result ((meaning self.now).Say bytes.now) }
        ensures fault { IfErr result (λ fault.
            (is_out_of_memory fault ≡ true) ⊎ (meaning self.now).HaveFault bytes.now fault) };

    /// The numbers of the lines on which the hands in the bytes begin, counted from 1, if it gives
    /// them; otherwise none.
    ///
    /// # Errors
    ///
    /// Out of memory.
    fn first_lines(&self, alloc: Global, bytes: &[u8]) -> Result<Vec<u64>, Memory>
        ensures { IfOk result (λ lines.
            lines.items ≡ (meaning self.now).first_lines bytes.now) };

    /// The first fact of a play, among those to be kept, that it cannot express, or `None` if it
    /// can express all.
    fn spells(&self, play: &Play, keep: Keep) -> Option<Unspelled>
        ensures { result ≡ (meaning self.now).unspelled keep play.now };

    /// Writes sound plays, if it can express each fact to be kept.
    ///
    /// # Errors
    ///
    /// The first play with a fact that it cannot express, and the first such fact; or out of
    /// memory.
    fn write(&self, alloc: Global, plays: &[Play], keep: Keep) -> Result<Vec<u8>, WriteRefusal>
        requires few { length plays.now ≤ MOST_HANDS }
        requires sound { AllByRecursion IsSound plays.now }
        ensures spell { IfOk result (λ bytes. (meaning self.now).Spell plays.now bytes.items) }
        ensures spelled { OnOk result
            (first_refusal ((meaning self.now).unspelled keep) plays.now ≡ None) }
        ensures refused { IfErr result (λ refusal. IsOutOfMemory refusal
            ⊎ (first_refusal ((meaning self.now).unspelled keep) plays.now ≡ Some refusal)) };

    /// Whether a file has one line per play.
    fn has_lines(&self) -> bool
        ensures { result ≡ (meaning self.now).is_lined };

    /// Appends the line of a play to the lines of the plays before it in its file (`place` of
    /// them), or nothing if the notation has no lines. Ask first that it can express each fact of
    /// the play that is to be kept.
    fn push_line(
        &self,
        alloc: Global,
        out: &mut Vec<u8>,
        place: usize,
        play: &SoundPlay<'_>,
    ) -> Result<(), Memory>
        ensures line { (meaning self.now).is_lined ≡ true → (before : List AnyPlay)
            → length before ≡ place → (meaning self.now).Spell before out.old.items
            → OnOk result ((meaning self.now).Spell (before ++ play.now ∷ []) out.new.items) }
        ensures nothing { (meaning self.now).is_lined ≡ false → out.new ≡ out.old }
        ensures unchanged { OnErr result (out.new.items ≡ out.old.items) };

    /// It keeps the laws of notations.
    ghost lawful: { (notation : Self) → Lawful (meaning notation) };
}
