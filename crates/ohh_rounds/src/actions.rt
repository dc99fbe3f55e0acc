//! Reads an action of a round: its word, its player, and then its amount or its cards.
ghost use Rattle.std.specs.Prelude.{◌≡◌, ◌≤◌, ◌+◌, IfOk, length, map};
ghost use Rattle.serde_json.specs.View.{view};
ghost use Rattle.card_set.specs.Row.{slots_of};
ghost use Rattle.play_event.specs.Said.{kind_said};
ghost use Rattle.play_event.specs.PlayedScript.{is_move_event};
ghost use Rattle.first_fault.specs.Reading.{Gives};
ghost use Rattle.ohh_rounds.specs.Actions.{at_action, called, chips_said, dealt_cards, effect_counted, effect_said, event_counted, mucked, posted, raise_by, raised, seat_said, shown, step_said, word_said};
ghost use Rattle.ohh_rounds.specs.HandContext.{plain_setting};
ghost use Rattle.ohh_rounds.specs.Posts.{plain_post};
ghost use Rattle.ohh_rounds.specs.Steps.{Dealt, Happened, HasRoom, IsWithin, LeavesFew, Posted, dealt_to, plain_effect, plain_step};

use crate::post::{ActionLocation, Post, PostKind};
use crate::rounds_so_far::RoundsSoFar;
use crate::step::{ActionEffect, RoundStep};
use card_set::SlotRow;
use chip_ledger::{Chips, MOST_CHIPS, Seat};
use first_fault::{MOST_FILE_MOVES, Quantity, ReadError};
use ohh_members::dialect::Dialect;
use ohh_members::fault::{ActionMember, MemberFault, MemberFaultKind, Path, RoundMember};
use ohh_members::values::{
    fault_at, field, read_cards, read_few, read_number, read_object, read_player, read_slots,
    read_text, required,
};
use ohh_members::words::{Word, deals_hole_cards, parse_word};
use play_event::{Kind, MOST_MOVES, MOST_OTHER_EVENTS, Spelled};
use serde_json::Value;

/// Reads an action after the steps before it, and checks the limits.
#[tactic(auto, unfolding(crate::specs::Actions::step_said, crate::specs::Actions::members_said))]
pub fn read_step(
    seen: &RoundsSoFar,
    place: ActionLocation,
    value: &Value,
) -> Result<RoundStep, ReadError<MemberFault>>
    ensures said { Gives plain_step result (step_said (plain_setting seen.now.setting)
        (map plain_step seen.now.steps.items) place (view value.now)) }
    ensures few { IfOk result (λ step. LeavesFew (map plain_step seen.now.steps.items)
        (plain_effect step.effect)) }
    ensures within { IfOk result (λ step. IsWithin seen.now.setting.table.stacks.seats
        seen.now.setting.file_moves (map plain_step seen.now.steps.items)
        (plain_effect step.effect)) }
{
    let path = path_of(place, ActionMember::Itself);
    let action = read_object(value, path)?;
    let word = read_word(place, action)?;
    let seat = read_seat(seen, place, action)?;
    let effect = read_effect(seen, place, seat, action, word)?;
    count_effect(seen, path, effect)?;
    let number = seen.next;
    Ok(RoundStep { number, effect })
}

// The word of an action.
#[tactic(auto, unfolding(crate::specs::Actions::word_said))]
fn read_word(place: ActionLocation, action: &Value) -> Result<Word, ReadError<MemberFault>>
    ensures { Gives (λ word. word) result (word_said place (view action.now)) }
{
    let path = path_of(place, ActionMember::Word);
    let text = read_text(required(action, path)?, path)?;
    let Some(word) = parse_word(text) else {
        return Err(fault_at(MemberFaultKind::UnsupportedAction, path));
    };
    if deals_hole_cards(word) && place.round != 0 {
        return Err(fault_at(MemberFaultKind::BadStreet, path));
    }
    Ok(word)
}

// The seat of the action's player.
#[tactic(auto, unfolding(crate::specs::Actions::seat_said))]
fn read_seat(
    seen: &RoundsSoFar,
    place: ActionLocation,
    action: &Value,
) -> Result<Seat, ReadError<MemberFault>>
    ensures { Gives (λ seat. seat.number) result
        (seat_said (plain_setting seen.now.setting) place (view action.now)) }
{
    let path = path_of(place, ActionMember::PlayerId);
    read_player(required(action, path)?, &seen.setting.players, path)
}

// What a word means for a player.
#[tactic(auto, unfolding(crate::specs::Actions::effect_said))]
fn read_effect(
    seen: &RoundsSoFar,
    place: ActionLocation,
    seat: Seat,
    action: &Value,
    word: Word,
) -> Result<ActionEffect, ReadError<MemberFault>>
    ensures said { Gives plain_effect result (effect_said (plain_setting seen.now.setting)
        (map plain_step seen.now.steps.items) place seat.number (view action.now) word) }
    ensures few { IfOk result (λ effect. LeavesFew (map plain_step seen.now.steps.items)
        (plain_effect effect)) }
{
    let actor = Some(seat);
    let effect = match word {
        Word::PostAnte => ActionEffect::Posted(read_post(
            PostKind::Ante,
            seen,
            place,
            seat,
            action,
        )?),
        Word::PostSmallBlind => ActionEffect::Posted(read_post(
            PostKind::SmallBlind,
            seen,
            place,
            seat,
            action,
        )?),
        Word::PostBigBlind => ActionEffect::Posted(read_post(
            PostKind::BigBlind,
            seen,
            place,
            seat,
            action,
        )?),
        Word::Straddle => ActionEffect::Posted(read_post(
            PostKind::Straddle,
            seen,
            place,
            seat,
            action,
        )?),
        Word::DealtCards => ActionEffect::Dealt {
            seat,
            cards: read_dealt(seen, place, seat, action)?,
        },
        Word::Fold => ActionEffect::Happened(Kind::Fold { actor }),
        Word::Check => ActionEffect::Happened(Kind::Call {
            actor,
            stated: Some(0),
        }),
        Word::Call => ActionEffect::Happened(read_call(place, seat, action)?),
        Word::Bet => ActionEffect::Happened(read_raise(Dialect::Added, place, seat, action)?),
        Word::Raise => ActionEffect::Happened(read_raise(
            seen.setting.dialect,
            place,
            seat,
            action,
        )?),
        Word::ShowsCards => ActionEffect::Happened(read_show(place, seat, action)?),
        Word::MucksCards => muck(seen, seat),
        Word::SitsDown | Word::StandsUp => ActionEffect::Passed,
    };
    Ok(effect)
}

// A post.
#[tactic(auto, unfolding(crate::specs::Actions::posted))]
fn read_post(
    kind: PostKind,
    seen: &RoundsSoFar,
    place: ActionLocation,
    seat: Seat,
    action: &Value,
) -> Result<Post, ReadError<MemberFault>>
    ensures { Gives (λ post. Posted (plain_post post)) result
        (posted kind (map plain_step seen.now.steps.items) place seat.number (view action.now)) }
{
    let amount = read_chips(place, action)?;
    let early = place.round == 0 && seen.moves == 0;
    Ok(Post {
        kind,
        seat,
        amount,
        early,
        place,
    })
}

// Hole cards, or none if they are missing.
#[tactic(auto, unfolding(crate::specs::Actions::dealt_cards, crate::specs::Actions::listed_cards, ohh_members::specs::Values::slots_said))]
fn read_dealt(
    seen: &RoundsSoFar,
    place: ActionLocation,
    seat: Seat,
    action: &Value,
) -> Result<SlotRow, ReadError<MemberFault>>
    ensures said { Gives (λ cards. Dealt seat.number (slots_of cards)) result
        (dealt_cards (map plain_step seen.now.steps.items) place seat.number (view action.now)) }
    ensures few { IfOk result (λ cards. length (dealt_to seat.number
        (map plain_step seen.now.steps.items)) + length (slots_of cards) ≤ 7) }
{
    let path = path_of(place, ActionMember::Cards);
    let dealt = seen.cards_dealt(seat);
    let Some(listed) = field(action, path) else {
        return Ok(SlotRow::new());
    };
    let values = read_few(listed, path)?;
    if dealt + values.len() > 7 {
        return Err(fault_at(MemberFaultKind::WrongType, path));
    }
    let cards = read_slots(listed, path)?;
    Ok(cards)
}

// A call that states the chips that it adds.
#[tactic(auto, unfolding(crate::specs::Actions::called))]
fn read_call(
    place: ActionLocation,
    seat: Seat,
    action: &Value,
) -> Result<Kind, ReadError<MemberFault>>
    ensures { Gives (λ kind. Happened (kind_said kind)) result
        (called place seat.number (view action.now)) }
{
    let amount = read_chips(place, action)?;
    Ok(Kind::Call {
        actor: Some(seat),
        stated: Some(amount.number),
    })
}

// A bet or a raise.
#[tactic(auto, unfolding(crate::specs::Actions::raised))]
fn read_raise(
    dialect: Dialect,
    place: ActionLocation,
    seat: Seat,
    action: &Value,
) -> Result<Kind, ReadError<MemberFault>>
    ensures { Gives (λ kind. Happened (kind_said kind)) result
        (raised dialect place seat.number (view action.now)) }
{
    let amount = read_chips(place, action)?;
    Ok(Kind::Raise {
        actor: Some(seat),
        amount: raise_of(dialect, amount),
    })
}

// The amount of an action.
#[tactic(auto, unfolding(crate::specs::Actions::chips_said))]
fn read_chips(place: ActionLocation, action: &Value) -> Result<Chips, ReadError<MemberFault>>
    ensures { Gives (λ chips. chips.number) result (chips_said place (view action.now)) }
{
    let path = path_of(place, ActionMember::Amount);
    let number = read_number(required(action, path)?, 0, MOST_CHIPS, path)?;
    Ok(Chips { number })
}

// The raise that this amount means in the dialect.
fn raise_of(dialect: Dialect, amount: Chips) -> Spelled
    ensures { result ≡ raise_by dialect amount.number }
{
    match dialect {
        Dialect::Added => Spelled::Added(amount.number),
        Dialect::To => Spelled::To(amount.number),
    }
}

// A show of cards.
#[tactic(auto, unfolding(crate::specs::Actions::shown))]
fn read_show(
    place: ActionLocation,
    seat: Seat,
    action: &Value,
) -> Result<Kind, ReadError<MemberFault>>
    ensures { Gives (λ kind. Happened (kind_said kind)) result
        (shown place seat.number (view action.now)) }
{
    let path = path_of(place, ActionMember::Cards);
    let cards = read_cards(required(action, path)?, path)?;
    Ok(Kind::Show { seat, cards })
}

/// The path of a member of an action.
pub fn path_of(place: ActionLocation, member: ActionMember) -> Path
    ensures { result ≡ at_action place member }
{
    Path::Round {
        index: place.round,
        member: RoundMember::Action {
            index: place.action,
            member,
        },
    }
}

// A muck, which is ignored if the player folded before.
fn muck(seen: &RoundsSoFar, seat: Seat) -> ActionEffect
    ensures said { plain_effect result ≡ mucked (map plain_step seen.now.steps.items) seat.number }
    ensures few { LeavesFew (map plain_step seen.now.steps.items) (plain_effect result) }
{
    if seen.has_folded(seat) {
        ActionEffect::Passed
    } else {
        ActionEffect::Happened(Kind::Muck { seat })
    }
}

// Checks that the action exceeds no limit.
fn count_effect(
    seen: &RoundsSoFar,
    path: Path,
    effect: ActionEffect,
) -> Result<(), ReadError<MemberFault>>
    ensures said { Gives (λ x. x) result (effect_counted (plain_setting seen.now.setting)
        (map plain_step seen.now.steps.items) path (plain_effect effect)) }
    ensures within { IfOk result (λ x. IsWithin seen.now.setting.table.stacks.seats
        seen.now.setting.file_moves (map plain_step seen.now.steps.items) (plain_effect effect)) }
{
    match effect {
        ActionEffect::Happened(kind) => count_event(seen, path, kind),
        ActionEffect::Posted(_) | ActionEffect::Dealt { .. } | ActionEffect::Passed => Ok(()),
    }
}

/// Checks that an event exceeds no limit.
#[tactic(auto, unfolding(crate::specs::Actions::event_counted))]
pub fn count_event(seen: &RoundsSoFar, path: Path, kind: Kind) -> Result<(), ReadError<MemberFault>>
    ensures said { Gives (λ x. x) result (event_counted (plain_setting seen.now.setting)
        (map plain_step seen.now.steps.items) path (kind_said kind)) }
    ensures room { IfOk result (λ x. HasRoom seen.now.setting.table.stacks.seats
        seen.now.setting.file_moves (is_move_event (kind_said kind))
        (map plain_step seen.now.steps.items)) }
{
    if kind.is_move() {
        if seen.moves >= MOST_MOVES {
            return Err(too_many(Quantity::Moves, path));
        }
        if seen.setting.file_moves + seen.moves >= MOST_FILE_MOVES {
            return Err(too_many(Quantity::FileMoves, path));
        }
        Ok(())
    } else {
        if usize::from(seen.setting.table.stacks.seats) + seen.other_events >= MOST_OTHER_EVENTS {
            return Err(too_many(Quantity::OtherEvents, path));
        }
        Ok(())
    }
}

// The fault of a quantity that exceeds its limit.
fn too_many(quantity: Quantity, path: Path) -> ReadError<MemberFault>
    ensures { result ≡ ReadError.Fault
        (record { what = MemberFaultKind.TooMany quantity; path = path }) }
{
    fault_at(MemberFaultKind::TooMany { quantity }, path)
}
