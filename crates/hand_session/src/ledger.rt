//! The rows of all names so far, each found by its name, and the steps so far.
ghost use Rattle.std.specs.Prelude.{◌≡◌, ◌-◌, ◌+◌, ℕ, List, false, [], bytes_eq, map, Some, IfOk, OnOk};
ghost use Rattle.std.specs.List.{list_any, position_from};
ghost use Rattle.chip_ledger.specs.Seat.{seats_of};
ghost use Rattle.printed_hands.specs.Indexed.{AreIndexed};
ghost use Rattle.hand_session.specs.Hands.{hand_of, seated_in};
ghost use Rattle.hand_session.specs.Ledgers.{HasGrown, TakesHand};
ghost use Rattle.hand_session.specs.Sessions.{is_named, names_among};
ghost use Rattle.hand_session.specs.Visits.{IsOfHand, IsOfHands, after_seat, session_at, session_names, sessions_with, steps_of_names, steps_of_seat, visit_seat, visit_steps, with_names};

use crate::player_sessions::PlayerSession;
use crate::rows::{add_visit, new_session, push_steps};
use crate::steps::Step;
use crate::visits::{Visit, visit_of};
use card_set::{Memory, TryPush};
use chip_ledger::Seat;
use hand_canon::{Play, name_of};
use printed_hands::NameIndex;
use std::alloc::Global;

/// The rows of names in the order in which they are first seen, an index of these names, and the
/// steps so far.
#[derive(Drop)]
pub struct Ledger {
    pub names: NameIndex,
    pub rows: Vec<PlayerSession>,
    pub steps: Vec<Step>,
}

/// A ledger without names.
pub fn new_ledger(alloc: Global) -> Ledger
    ensures names { AreIndexed result.names [] }
    ensures rows { result.rows.items ≡ [] }
    ensures steps { result.steps.items ≡ [] }
{
    Ledger {
        names: NameIndex::new(alloc),
        rows: Vec::new(alloc),
        steps: Vec::new(alloc),
    }
}

/// Adds what each name did in the hand with this number; names come in the order of their first
/// seats.
pub fn add_hand(alloc: Global, ledger: &mut Ledger, number: u32, play: &Play) -> Result<(), Memory>
    requires hand { TakesHand ledger.old number }
    requires within { (name : List ℕ)
        → IsOfHands (number - 1) (session_at ledger.old.rows.items name) }
    ensures { OnOk result (HasGrown ledger.old ledger.new
        (with_names (hand_of play.now) ledger.old.rows.items
        (names_among (hand_of play.now).seats))
        (steps_of_names number (hand_of play.now) ledger.old.rows.items
        (names_among (hand_of play.now).seats))) }
{
    for index in 0..play.trace.setup.stacks.seats {
        add_seat(alloc, ledger, number, play, Seat { number: index + 1 })?;
    }
    Ok(())
}

// Adds what the name of a seat did in its hand, unless a seat before it has the same name.
fn add_seat(
    alloc: Global,
    ledger: &mut Ledger,
    number: u32,
    play: &Play,
    seat: Seat,
) -> Result<(), Memory>
    requires hand { TakesHand ledger.old number }
    requires within { list_any (is_named (seated_in play.now seat.number).name)
        (map (seated_in play.now) (seats_of (seat.number - 1))) ≡ false
        → IsOfHands (number - 1)
        (session_at ledger.old.rows.items (seated_in play.now seat.number).name) }
    ensures { OnOk result (HasGrown ledger.old ledger.new
        (after_seat (hand_of play.now)
        (map (seated_in play.now) (seats_of (seat.number - 1)))
        ledger.old.rows.items (seated_in play.now seat.number).name)
        (steps_of_seat number (hand_of play.now)
        (map (seated_in play.now) (seats_of (seat.number - 1)))
        ledger.old.rows.items (seated_in play.now seat.number).name)) }
{
    let name = name_of(&play.hand.notes, seat);
    if is_name_before(play, name, seat) {
        return Ok(());
    }
    add_visit_of(alloc, ledger, number, name, visit_of(play, name))
}

// A seat before this one has the name.
fn is_name_before(play: &Play, name: &str, seat: Seat) -> bool
    ensures { result ≡ list_any (is_named name.now)
        (map (seated_in play.now) (seats_of (seat.number - 1))) }
{
    for index in 0..seat.number - 1 {
        if name == name_of(&play.hand.notes, Seat { number: index + 1 }) {
            return true;
        }
    }
    false
}

// Adds a visit of a name in the hand with this number.
fn add_visit_of(
    alloc: Global,
    ledger: &mut Ledger,
    number: u32,
    name: &str,
    visit: Visit,
) -> Result<(), Memory>
    requires hand { TakesHand ledger.old number }
    requires within { IsOfHands (number - 1) (session_at ledger.old.rows.items name.now) }
    requires visit { IsOfHand visit }
    ensures { OnOk result (HasGrown ledger.old ledger.new
        (visit_seat ledger.old.rows.items name.now visit)
        (visit_steps number (session_at ledger.old.rows.items name.now) visit)) }
{
    let place = session_index(alloc, ledger, name)?;
    push_steps(alloc, &mut ledger.steps, number, &ledger.rows[place], visit)?;
    add_visit(&mut ledger.rows[place], visit);
    Ok(())
}

// The place of the row of a name; the row is made if the name is new.
fn session_index(alloc: Global, ledger: &mut Ledger, name: &str) -> Result<usize, Memory>
    requires names { AreIndexed ledger.old.names (session_names ledger.old.rows.items) }
    ensures names { OnOk result (AreIndexed ledger.new.names
        (session_names ledger.new.rows.items)) }
    ensures rows { OnOk result (ledger.new.rows.items
        ≡ sessions_with ledger.old.rows.items name.now) }
    ensures steps { OnOk result (ledger.new.steps ≡ ledger.old.steps) }
    ensures place { IfOk result (λ place.
        position_from (bytes_eq name.now) 0 (session_names ledger.new.rows.items) ≡ Some place) }
{
    let rows = ledger.rows.len();
    let place = ledger.names.place_of(alloc, name, rows)?;
    if place == rows {
        ledger.rows.try_push(new_session(alloc, name)?)?;
    }
    Ok(place)
}
