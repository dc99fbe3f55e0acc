//! Checks the posts of a hand, and puts its script together.
ghost use Rattle.std.specs.Prelude.{◌≡◌, ◌≤◌, ◌+◌, ◌++◌, IfOk, OnOk, count_by, map};
ghost use Rattle.serde_json.specs.View.{view};
ghost use Rattle.play_event.specs.PlayedScript.{IsWithinLimits, is_move_event};
ghost use Rattle.card_set.specs.Row.{slots_of};
ghost use Rattle.chip_ledger.specs.Seat.{seats_of};
ghost use Rattle.first_fault.specs.declared.limits.TheConstants.{MOST_FILE_MOVES};
ghost use Rattle.play_event.specs.Said.{numbered, said_of};
ghost use Rattle.first_fault.specs.Reading.{Gives};
ghost use Rattle.ohh_rounds.specs.PostRules.{posts_checked};
ghost use Rattle.ohh_rounds.specs.Posts.{plain_post};
ghost use Rattle.ohh_rounds.specs.AntesAndBlinds.{AreAntesAndBlindsFor, antes_and_blinds_said, plain_antes_and_blinds};
ghost use Rattle.ohh_rounds.specs.NamedBlinds.{plain_named_blinds};
ghost use Rattle.ohh_rounds.specs.Play.{at_posts, event_in, events_in, hole_cards, plain_play, post_in, posts_in, rounds_said, script_said};
ghost use Rattle.ohh_rounds.specs.Play as hand_play;
ghost use Rattle.ohh_rounds.specs.HandContext.{plain_setting};
ghost use Rattle.ohh_rounds.specs.Steps.{plain_effect, plain_step};

use crate::actions::path_of;
use crate::antes_and_blinds::AntesAndBlinds;
use crate::checking::check_posts;
use crate::hand_context::HandContext;
use crate::named_blinds::NamedBlinds;
use crate::post::{Post, PostFault};
use crate::rounds::read_all_rounds;
use crate::rounds_so_far::RoundsSoFar;
use crate::step::{ActionEffect, RoundStep};
use card_set::{Memory, Slot, SlotRow, TryPush};
use chip_ledger::Seat;
use first_fault::ReadError;
use ohh_members::fault::{ActionMember, MemberFault, MemberFaultKind, Path};
use ohh_members::values::fault_at;
use play_event::{Event, Kind, Script};
use serde_json::Value;
use std::alloc::Global;

/// The rounds of a hand, as they are read.
#[derive(Debug, Drop)]
pub struct RoundsPlay {
    /// The antes and blinds.
    pub stakes: AntesAndBlinds,
    /// The hole deals of all seats, followed by the other events.
    pub script: Script,
    /// The number of moves in the file after this hand.
    pub file_moves: usize,
}

/// Reads the rounds of this hand: checks its posts, and puts its script together.
#[tactic(auto, unfolding(crate::specs::Play::rounds_said))]
pub fn read_rounds(
    alloc: Global,
    setting: &HandContext,
    ohh: &Value,
) -> Result<RoundsPlay, ReadError<MemberFault>>
    ensures said { Gives plain_play result
        (rounds_said (plain_setting setting.now) (view ohh.now)) }
    ensures stakes { IfOk result (λ play.
        AreAntesAndBlindsFor setting.now.table.stacks play.stakes) }
    ensures within { IfOk result (λ play. IsWithinLimits (map said_of play.script)) }
    ensures moves { IfOk result (λ play. play.file_moves
        ≡ setting.now.file_moves + count_by is_move_event (map said_of play.script)) }
    ensures few { IfOk result (λ play. play.file_moves ≤ MOST_FILE_MOVES) }
{
    let seen = read_all_rounds(alloc, setting, ohh)?;
    let stakes = read_stakes(alloc, &setting.table, seen.steps.as_slice())?;
    let script = script_of(alloc, &seen)?;
    Ok(RoundsPlay {
        stakes,
        script,
        file_moves: setting.file_moves + seen.moves,
    })
}

// The antes and blinds of the posts, which meet their conditions.
fn read_stakes(
    alloc: Global,
    table: &NamedBlinds,
    steps: &[RoundStep],
) -> Result<AntesAndBlinds, ReadError<MemberFault>>
    ensures checked { Gives (λ stakes. tt) result
        (at_posts (posts_checked
        (plain_named_blinds table.now) (posts_in (map plain_step steps.now)))) }
    ensures said { IfOk result (λ stakes. plain_antes_and_blinds stakes
        ≡ antes_and_blinds_said
        (plain_named_blinds table.now) (posts_in (map plain_step steps.now))) }
    ensures stakes { IfOk result (λ stakes. AreAntesAndBlindsFor table.now.stacks stakes) }
{
    let posts = posts_of(alloc, steps)?;
    check(table, posts.as_slice())?;
    Ok(AntesAndBlinds::of(table, posts.as_slice()))
}

// The posts, in order.
fn posts_of(alloc: Global, steps: &[RoundStep]) -> Result<Vec<Post>, Memory>
    ensures { IfOk result (λ posts. map plain_post posts.items
        ≡ posts_in (map plain_step steps.now)) }
{
    let mut posts = Vec::new(alloc);
    for step in steps {
        push_post(&mut posts, step.effect)?;
    }
    Ok(posts)
}

// Appends the post of a step, if it is one.
fn push_post(posts: &mut Vec<Post>, effect: ActionEffect) -> Result<(), Memory>
    ensures { OnOk result (map plain_post posts.new.items
        ≡ map plain_post posts.old.items ++ post_in (plain_effect effect)) }
{
    match effect {
        ActionEffect::Posted(post) => {
            posts.try_push(post)?;
            Ok(())
        }
        ActionEffect::Dealt { .. } | ActionEffect::Happened(_) | ActionEffect::Passed => Ok(()),
    }
}

// Checks the posts; the first that breaks a condition is reported at its action.
fn check(table: &NamedBlinds, posts: &[Post]) -> Result<(), ReadError<MemberFault>>
    ensures { Gives (λ x. x) result
        (at_posts (posts_checked (plain_named_blinds table.now) (map plain_post posts.now))) }
{
    match check_posts(table, posts) {
        Ok(()) => Ok(()),
        Err(PostFault::MissingBlind) => Err(fault_at(MemberFaultKind::BadPost, Path::Rounds)),
        Err(PostFault::At(place)) => {
            Err(fault_at(
                MemberFaultKind::BadPost,
                path_of(place, ActionMember::Itself),
            ))
        }
    }
}

// The script.
#[tactic(auto, unfolding(crate::specs::Play::script_said))]
fn script_of(alloc: Global, seen: &RoundsSoFar) -> Result<Script, Memory>
    ensures script { IfOk result (λ script. map numbered script
        ≡ script_said seen.now.setting.table.stacks.seats seen.now.setting.hole_cards
        (map plain_step seen.now.steps.items)) }
{
    let mut script = hole_deals(alloc, seen)?;
    push_events(&mut script, seen.steps.as_slice())?;
    Ok(script)
}

// The hole deals of all seats.
fn hole_deals(alloc: Global, seen: &RoundsSoFar) -> Result<Script, Memory>
    ensures { IfOk result (λ script. map numbered script
        ≡ map
        (hand_play.hole_deal seen.now.setting.hole_cards (map plain_step seen.now.steps.items))
        (seats_of seen.now.setting.table.stacks.seats)) }
{
    let mut script = Script::new(alloc);
    for index in 0..seen.setting.table.stacks.seats {
        script.push(make_hole_deal(seen, Seat { number: index + 1 }))?;
    }
    Ok(script)
}

// The deal of a seat's hole cards.
fn make_hole_deal(seen: &RoundsSoFar, seat: Seat) -> Event
    ensures { numbered result ≡ hand_play.hole_deal seen.now.setting.hole_cards
        (map plain_step seen.now.steps.items) seat.number }
{
    let kept = seen.seat(seat);
    let cards = filled(kept.cards, seen.setting.hole_cards);
    let at = match kept.first_deal {
        Some(number) => number,
        None => 0,
    };
    Event {
        at,
        kind: Kind::Hole { seat, cards },
    }
}

// The cards, filled up to `count` with unknown ones.
fn filled(cards: SlotRow, count: u8) -> SlotRow
    requires { count ≤ 7 }
    ensures { slots_of result ≡ hole_cards count (slots_of cards) }
{
    let mut all = cards;
    for _index in cards.len..count {
        all.push(Slot::Unknown);
    }
    all
}

// Appends the events of the steps.
fn push_events(script: &mut Script, steps: &[RoundStep]) -> Result<(), Memory>
    ensures { OnOk result (map numbered script.new
        ≡ map numbered script.old ++ events_in (map plain_step steps.now)) }
{
    for step in steps {
        push_event(script, *step)?;
    }
    Ok(())
}

// Appends the event of a step, if it is one.
fn push_event(script: &mut Script, step: RoundStep) -> Result<(), Memory>
    ensures { OnOk result (map numbered script.new
        ≡ map numbered script.old ++ event_in (plain_step step) (plain_effect step.effect)) }
{
    match step.effect {
        ActionEffect::Happened(kind) => script.push(Event {
            at: step.number,
            kind,
        }),
        ActionEffect::Posted(_) | ActionEffect::Dealt { .. } | ActionEffect::Passed => Ok(()),
    }
}
