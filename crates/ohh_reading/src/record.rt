//! Makes the record of a hand from its parts.
ghost use Rattle.std.specs.Prelude.{◌≡◌, ◌<◌, ℕ, length, map, slice_index};
ghost use Rattle.play_event.specs.PlayedScript.{IsWithinLimits};
ghost use Rattle.hand_canon.specs.AllowedNotes.{AreAllowed};
ghost use Rattle.play_event.specs.Said.{said_of};
ghost use Rattle.play_event.specs.ValidSetup.{IsSize};
ghost use Rattle.ohh_reading.specs.Pots.{IsPaid, plain_paid};
ghost use Rattle.ohh_members.specs.Header.{IsFront, plain_front, stacks_of};
ghost use Rattle.chip_ledger.specs.SeatRow.{amounts_in};
ghost use Rattle.ohh_members.specs.Players.{plain_player};
ghost use Rattle.ohh_rounds.specs.AntesAndBlinds.{AreAntesAndBlindsFor};
ghost use Rattle.ohh_rounds.specs.Play.{plain_play};
ghost use Rattle.ohh_reading.specs.Hand.{hand_of};
ghost use Rattle.hand_canon.specs.Histories.{IsHistory};
ghost use Rattle.hand_canon.specs.PlainHands.{plain};
ghost use Rattle.hand_canon.specs.SaidNotes.{plain_notes};

use crate::listed_pots::Paid;
use crate::sizes::make_bet_sizes;
use chip_ledger::SeatRow;
use hand_canon::{Notes, Record, Stated};
use ohh_members::header::Header;
use ohh_rounds::RoundsPlay;
use play_event::{Reopen, Rules, Setup};

/// The record of a hand: its setup, its script, what is stated of it, and its notes.
pub fn record_of(
    front: &Header,
    stacks: SeatRow,
    play: RoundsPlay,
    paid: Paid,
    notes: Notes,
) -> Record
    requires front { IsFront front.now }
    requires stacks { amounts_in stacks ≡ stacks_of (map plain_player front.now.players.items) }
    requires seats { stacks.seats ≡ length front.now.players.items }
    requires sizes { (k : ℕ) → k < stacks.seats → IsSize (slice_index stacks.amounts k) }
    requires stakes { AreAntesAndBlindsFor stacks play.stakes }
    requires within { IsWithinLimits (map said_of play.script) }
    requires paid { IsPaid (length front.now.players.items) paid }
    requires allowed { AreAllowed (length front.now.players.items) notes }
    ensures said { plain result ≡ hand_of (plain_front front.now) (plain_play play)
        (plain_paid paid) (plain_notes (length front.now.players.items) notes) }
    ensures history { IsHistory result }
    ensures script { result.script ≡ play.script }
{
    let RoundsPlay { stakes, script, .. } = play;
    let sizes = make_bet_sizes(front.code, front.blinds.big);
    Record {
        setup: Setup {
            code: front.code,
            stacks,
            antes: stakes.antes,
            dead_antes: stakes.dead_antes,
            blinds: stakes.blinds,
            bring_in: sizes.bring_in,
            small_bet: sizes.small_bet,
            big_bet: sizes.big_bet,
            min_bet: sizes.min_bet,
            rakes: paid.rakes,
        },
        rules: Rules {
            reopen: Reopen::Full,
            free_fold: true,
            caps: None,
        },
        script,
        stated: Stated {
            finish: None,
            wins: paid.wins,
            pot_total: paid.total,
            values: None,
        },
        notes,
    }
}
