//! Writes a play as its line.
ghost use Rattle.std.specs.Prelude.{◌≡◌, ◌++◌, OnErr, OnOk};
ghost use Rattle.acpc_format.specs.Line.{end_text, head_text, line_text, play_text};
ghost use Rattle.acpc_format.specs.Puts.{HaveFewChips};
ghost use Rattle.acpc_format.specs.Texts.{AreTexts, HasTexts};

use crate::betting::push_betting;
use crate::cards::push_cards;
use crate::names::{push_hand, push_names};
use crate::values::push_values;
use card_set::{Memory, TryExtend};
use first_fault::Text;
use hand_canon::{Notes, SoundPlay, Trace};
use std::alloc::Global;

/// Appends the line of the play at this index of its file, from 0, whole or not at all. In a
/// no-limit game raises have their totals.
#[tactic(auto, unfolding(crate::specs::Line::line_text))]
pub fn push_line(
    alloc: Global,
    out: &mut Vec<u8>,
    no_limit: bool,
    index: usize,
    play: &SoundPlay<'_>,
) -> Result<(), Memory>
    ensures written { OnOk result (out.new.items
        ≡ out.old.items ++ line_text no_limit index play.now) }
    ensures texts { OnOk result (HasTexts play.now) }
    ensures unchanged { OnErr result (out.new.items ≡ out.old.items) }
{
    let play = play.play();
    let mut line = Vec::new(alloc);
    push_head(alloc, &mut line, index, &play.hand.notes.hand)?;
    line.try_extend_from_slice(b":")?;
    push_play(alloc, &mut line, no_limit, &play.trace)?;
    line.try_extend_from_slice(b":")?;
    push_end(alloc, &mut line, &play.trace, &play.hand.notes)?;
    line.try_extend_from_slice(b"\n")?;
    Ok(out.try_extend_from_slice(line.as_slice())?)
}

// `STATE` and the number of the hand at this index of its file, from 0.
#[tactic(auto, unfolding(crate::specs::Line::head_text))]
fn push_head(
    alloc: Global,
    out: &mut Vec<u8>,
    index: usize,
    hand: &Option<Text>,
) -> Result<(), Memory>
    ensures { OnOk result (out.new.items ≡ out.old.items ++ head_text index hand.now) }
{
    out.try_extend_from_slice(b"STATE:")?;
    push_hand(alloc, out, index, hand)
}

// The betting and the cards of a hand.
#[tactic(auto, unfolding(crate::specs::Line::play_text))]
fn push_play(alloc: Global, out: &mut Vec<u8>, no_limit: bool, trace: &Trace) -> Result<(), Memory>
    requires { HaveFewChips trace.now.setup trace.now.moves }
    ensures { OnOk result (out.new.items ≡ out.old.items ++ play_text no_limit trace.now) }
{
    push_betting(
        alloc,
        out,
        no_limit,
        &trace.setup,
        trace.moves.as_slice(),
        trace.places.as_slice(),
    )?;
    out.try_extend_from_slice(b":")?;
    push_cards(out, trace.places.as_slice(), trace.setup.stacks.players())
}

// The values and the names.
#[tactic(auto, unfolding(crate::specs::Line::end_text))]
fn push_end(alloc: Global, out: &mut Vec<u8>, trace: &Trace, notes: &Notes) -> Result<(), Memory>
    requires { trace.now.finish.seats ≡ trace.now.setup.stacks.seats }
    ensures written { OnOk result (out.new.items ≡ out.old.items ++ end_text trace.now notes.now) }
    ensures texts { OnOk result (AreTexts trace.now.setup.stacks.seats notes.now) }
{
    push_values(alloc, out, &trace.setup.stacks, &trace.finish)?;
    out.try_extend_from_slice(b":")?;
    push_names(alloc, out, notes, trace.setup.stacks.players())
}
