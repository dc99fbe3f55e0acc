//! Makes the script of a hand, event by event.
ghost use Rattle.std.specs.Prelude.{◌≡◌, ◌<◌, ◌^◌, length, map, IfOk};
ghost use Rattle.play_event.specs.PlayedScript.{IsWithinLimits};
ghost use Rattle.hand_canon.specs.LegalHand.{IsLegalHand};
ghost use Rattle.play_event.specs.declared.setup.Setup.{Setup as SetupNow};
ghost use Rattle.play_event.specs.HistoryRules as histories;
ghost use Rattle.play_event.specs.Said.{said_of};
ghost use Rattle.hand_gen.specs.Made.{IsMadeScript, backward, source_behind};
ghost use Rattle.hand_gen.specs.MadeTo.{IsMadeTo, IsStep, IsUnderway};
ghost use Rattle.hand_gen.specs.Progress.{IsSmall};
ghost use Rattle.hand_gen.specs.HandSource as stocks;

use crate::coming::next;
use crate::hand_source::HandSource;
use card_set::Memory;
use play_event::{Event, Reopen, Rules, Script, Setup};
use replay_core::HandInPlay;
use std::alloc::Global;
use variant_table::Variant;

/// The script of a made hand of the game `V`, made from this stock.
pub fn script_of<V: Variant>(
    alloc: Global,
    setup: &Setup,
    stock: &mut HandSource,
) -> Result<Script, Memory>
    requires small { IsSmall setup.now }
    requires code { setup.now.code ≡ V.CODE }
    requires deck { stock.old.deck ≡ stocks.full_deck setup.now.code }
    ensures made { IfOk result (IsMadeScript setup.now stock.old) }
    ensures left { IfOk result (λ script. stock.new
        ≡ source_behind setup.now histories.history_rules stock.old (backward script)) }
    ensures within { IfOk result (λ script. IsWithinLimits (map said_of script)) }
    ensures legal { IfOk result (λ script.
        IsLegalHand setup.now histories.history_rules (map said_of script)) }
{
    let mut hand = HandInPlay::<V>::start(setup, &history_rules());
    let mut script = Script::new(alloc);
    loop {
        let made = play_next(&mut hand, &mut script, stock)?;
        if !made {
            return Ok(script);
        }
    }
}

/// The rules of hand histories beyond those of the game.
pub fn history_rules() -> Rules
    ensures { result ≡ histories.history_rules }
{
    Rules {
        reopen: Reopen::Full,
        free_fold: true,
        caps: None,
    }
}

// Appends the next event, if there is one.
fn play_next<V: Variant>(
    hand: &mut HandInPlay<V>,
    script: &mut Script,
    stock: &mut HandSource,
) -> Result<bool, Memory>
    requires underway { IsUnderway
        hand.old.betting hand.old.cards script.old stock.old }
    requires few { length script.old < 2 ^ 31 }
    ensures step { (setup : SetupNow) (start : stocks.HandSource)
        → IsMadeTo setup start hand.old.betting hand.old.cards script.old stock.old
        → IfOk result (IsStep setup start script.old hand.new.betting
        hand.new.cards script.new stock.new) }
    ensures setup { hand.new.betting.setup ≡ hand.old.betting.setup }
{
    let kind = match next(hand, stock) {
        Some(kind) => kind,
        None => return Ok(false),
    };
    let event = Event {
        at: script.len() as u32 + 1,
        kind,
    };
    match hand.advance(&event) {
        Ok(_) => {}
        Err(_) => unreachable!(),
    }
    script.push(event)?;
    Ok(true)
}
