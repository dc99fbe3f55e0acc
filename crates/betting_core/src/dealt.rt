//! Ends a deal, a draw or a show, and passes the turn on.
ghost use Rattle.std.specs.Prelude.{◌≡◌, ◌≤◌, true, false, IfSome, is_some};
ghost use Rattle.play_event.specs.declared.reason.Due.TheVariants as dues;
ghost use Rattle.play_event.specs.Past.{Past};
ghost use Rattle.play_event.specs.Openers.{TheSeat, blinds_opener, in_turn};
ghost use Rattle.play_event.specs.Streets.{is_stud_game};
ghost use Rattle.betting_numbers.specs.Seen.{is_move_due_seen, player_to_act_seen};
ghost use Rattle.betting_core.specs.HandNumbers.{AreHandNumbers, IsOfTable, IsReadyToPass, IsSameHand};
ghost use Rattle.betting_numbers.specs.Standing.{StandsFor};
ghost use Rattle.betting_numbers.specs.UpTo.{StandsUpTo};
ghost use Rattle.play_laws.specs.Done.{is_done};
ghost use Rattle.play_laws.specs.Dues.{is_deal_or_draw, is_cards_due};
ghost use Rattle.betting_numbers.specs.Turn.{IsDealtTo, IsNextUp, IsPassedTo};
ghost use Rattle.play_laws.specs.Walk.{street_cards};
ghost use Rattle.chip_ledger.specs.SeatsSaid.{seat_said};

use crate::betting::Betting;
use betting_numbers::BettingState;
use chip_ledger::Seat;
use play_event::Due;
use variant_table::{Opener, Variant};

impl<V: Variant> Betting<V> {
    /// Ends the deal, the draw or the show that is due. Then the betting of the street begins or,
    /// if nobody can act, the hand moves on, as to the next street's deal. If that is complete in
    /// the past too, the next call ends it. After a showdown the hand is over.
    pub fn dealt(&mut self)
        requires { is_cards_due self.old.due ≡ true }
        ensures stands { (past : Past) → StandsUpTo self.old past
            → is_done self.old.setup past self.new.due ≡ false
            → StandsFor self.new past }
        ensures up_to { (past : Past) → StandsUpTo self.old past
            → is_done self.old.setup past self.new.due ≡ true
            → StandsUpTo self.new past }
        ensures showdown { (past : Past) → StandsUpTo self.old past
            → is_done self.old.setup past self.new.due ≡ true
            → self.new.due ≡ dues.Show }
        ensures over { self.old.due ≡ dues.Show → self.new.due ≡ dues.Over }
        ensures same { IsSameHand self.old self.new }
    {
        match self.numbers.due {
            Due::Show => self.numbers.set_due(Due::Over),
            _ => self.bet(),
        }
    }

    // Ends the deal or the draw of the street.
    fn bet(&mut self)
        requires { is_deal_or_draw self.old.due ≡ true }
        ensures { IsDealtTo self.old self.new }
    {
        if self.numbers.is_bring_in_due(stud::<V>()) {
            self.numbers.set_turn(Due::BringIn, None);
        } else {
            pass::<V>(&mut self.numbers, false, None);
        }
    }
}

// Whether the game is a stud game.
fn stud<V: Variant>() -> bool
    ensures { result ≡ is_stud_game V.CODE }
{
    match V::OPEN {
        Opener::Blinds => false,
        Opener::LowUp | Opener::HighUp => true,
    }
}

// What comes if no bring-in is due: nothing if the hand is over, else a move of the player to act,
// the next street, or the showdown. `behind`, if known, is the only seat that can be next to act.
pub(crate) fn pass<V: Variant>(table: &mut BettingState, over: bool, behind: Option<Seat>)
    requires { IsReadyToPass V.CODE V.STREETS table.old behind }
    ensures passed { IsPassedTo over table.old table.new }
    ensures kept { AreHandNumbers V.STREETS table.new }
{
    if over {
        table.set_due(Due::Over);
        return;
    }
    let street = table.street;
    let next = player_to_act(table, behind);
    if next.is_some() {
        table.set_turn(Due::Move, next);
    } else if street < V::STREETS {
        table.next_street(cards::<V>(street + 1));
    } else {
        table.set_due(Due::Show);
    }
}

// Whose turn it is in a game with blinds: nobody's if no move is due. `behind`, if known, is the
// only seat that is looked at.
fn player_to_act(table: &BettingState, behind: Option<Seat>) -> Option<Seat>
    requires behind { IfSome behind (IsNextUp table.now) }
    ensures turn { in_turn (seat_said result)
        ≡ player_to_act_seen table.now
        (TheSeat (blinds_opener table.now.setup table.now.street)) }
    ensures due { is_some result ≡ is_move_due_seen table.now }
    ensures in_hand { IsOfTable table.now result }
{
    match behind {
        None => table.player_to_act(),
        Some(seat) if table.to_move(seat) => behind,
        Some(_) => None,
    }
}

// The deal or draw with which a street begins.
fn cards<V: Variant>(street: u8) -> Due
    requires first { 1 ≤ street }
    requires last { street ≤ V.STREETS }
    ensures { result ≡ street_cards V.CODE street }
{
    if V::street(street).draws {
        Due::Draw(street)
    } else {
        Due::Deal(street)
    }
}
