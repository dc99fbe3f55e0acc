//! Reads the rounds, each with its street, its cards and its actions.
ghost use Rattle.std.specs.Prelude.{◌≡◌, Some, IfOk, map};
ghost use Rattle.serde_json.specs.View.{view};
ghost use Rattle.card_set.specs.Row.{cards_of};
ghost use Rattle.first_fault.specs.Reading.{Gives};
ghost use Rattle.ohh_rounds.specs.Rounds.{actions_said, at_round, board_dealt, board_said, no_cards, round_said, rounds_listed, steps_said, street_said};
ghost use Rattle.ohh_rounds.specs.HandContext.{plain_setting};
ghost use Rattle.ohh_rounds.specs.Steps.{plain_step};

use crate::actions::{count_event, read_step};
use crate::hand_context::HandContext;
use crate::post::ActionLocation;
use crate::rounds_so_far::RoundsSoFar;
use crate::step::{ActionEffect, RoundStep};
use crate::street::{deals_board_cards, parse_next_street};
use card_set::CardRow;
use first_fault::ReadError;
use ohh_members::fault::{MemberFault, MemberFaultKind, Path, RoundMember};
use ohh_members::street::StreetName;
use ohh_members::values::{
    fault_at, field, read_cards, read_list, read_object, read_text, required,
};
use play_event::Kind;
use serde_json::Value;
use std::alloc::Global;

/// The steps of the rounds of the object.
#[tactic(auto, unfolding(crate::specs::Rounds::steps_said))]
pub fn read_all_rounds<'a>(
    alloc: Global,
    setting: &HandContext<'a>,
    ohh: &Value,
) -> Result<RoundsSoFar<'a>, ReadError<MemberFault>>
    ensures said { Gives (λ seen. map plain_step seen.steps.items) result
        (steps_said (plain_setting setting.now) (view ohh.now)) }
    ensures setting { IfOk result (λ seen. seen.setting ≡ setting.now) }
{
    let values = read_listed(ohh)?;
    let mut seen = RoundsSoFar::none(alloc, setting);
    let mut last = None;
    for (index, value) in values.iter().enumerate() {
        let street = read_round(&mut seen, last, index as u64, value)?;
        last = Some(street);
    }
    Ok(seen)
}

// The list of rounds: at least one.
#[tactic(auto, unfolding(crate::specs::Rounds::rounds_listed))]
fn read_listed(ohh: &Value) -> Result<&[Value], ReadError<MemberFault>>
    ensures { Gives (λ values. map view values.now) result (rounds_listed (view ohh.now)) }
{
    let values = read_list(required(ohh, Path::Rounds)?, Path::Rounds)?;
    if values.is_empty() {
        return Err(fault_at(MemberFaultKind::BadStreet, Path::Rounds));
    }
    Ok(values)
}

// Reads one more round.
#[tactic(auto, unfolding(crate::specs::Rounds::round_said, crate::specs::Rounds::opening_said))]
fn read_round(
    seen: &mut RoundsSoFar,
    last: Option<StreetName>,
    index: u64,
    value: &Value,
) -> Result<StreetName, ReadError<MemberFault>>
    ensures said { Gives (λ street. (Some street, map plain_step seen.new.steps.items)) result
        (round_said (plain_setting seen.old.setting)
        (last, map plain_step seen.old.steps.items) index (view value.now)) }
    ensures setting { seen.new.setting ≡ seen.old.setting }
{
    let round = read_object(value, path_of(index, RoundMember::Itself))?;
    let street = read_street(last, index, round)?;
    let cards = read_board(street, index, round)?;
    deal_board(seen, index, cards)?;
    read_actions(seen, index, round)?;
    Ok(street)
}

// The street of a round after the last one.
#[tactic(auto, unfolding(crate::specs::Rounds::street_said))]
fn read_street(
    last: Option<StreetName>,
    index: u64,
    round: &Value,
) -> Result<StreetName, ReadError<MemberFault>>
    ensures { Gives (λ street. street) result (street_said last index (view round.now)) }
{
    let path = path_of(index, RoundMember::Street);
    let text = read_text(required(round, path)?, path)?;
    match parse_next_street(last, text) {
        Some(street) => Ok(street),
        None => Err(fault_at(MemberFaultKind::BadStreet, path)),
    }
}

// The board cards of a round.
#[tactic(auto, unfolding(crate::specs::Rounds::board_said))]
fn read_board(
    street: StreetName,
    index: u64,
    round: &Value,
) -> Result<CardRow, ReadError<MemberFault>>
    ensures { Gives cards_of result (board_said street index (view round.now)) }
{
    let path = path_of(index, RoundMember::Cards);
    match field(round, path) {
        None => Ok(CardRow::new()),
        Some(cards) => if deals_board_cards(street) {
            read_cards(cards, path)
        } else {
            read_no_cards(cards, path)
        },
    }
}

// A list without cards.
#[tactic(auto, unfolding(crate::specs::Rounds::no_cards))]
fn read_no_cards(cards: &Value, path: Path) -> Result<CardRow, ReadError<MemberFault>>
    ensures { Gives cards_of result (no_cards path (view cards.now)) }
{
    let values = read_list(cards, path)?;
    if !values.is_empty() {
        return Err(fault_at(MemberFaultKind::BadStreet, path));
    }
    Ok(CardRow::new())
}

// Adds a deal to the board, if there are cards.
#[tactic(auto, unfolding(crate::specs::Rounds::board_dealt))]
fn deal_board(
    seen: &mut RoundsSoFar,
    index: u64,
    cards: CardRow,
) -> Result<(), ReadError<MemberFault>>
    ensures said { Gives (λ x. map plain_step seen.new.steps.items) result
        (board_dealt (plain_setting seen.old.setting)
        (map plain_step seen.old.steps.items) index (cards_of cards)) }
    ensures setting { seen.new.setting ≡ seen.old.setting }
{
    if cards.as_slice().is_empty() {
        return Ok(());
    }
    let kind = Kind::Board { cards };
    count_event(seen, path_of(index, RoundMember::Cards), kind)?;
    seen.push(RoundStep {
        number: 0,
        effect: ActionEffect::Happened(kind),
    })?;
    Ok(())
}

// The path of a member of a round.
fn path_of(index: u64, member: RoundMember) -> Path
    ensures { result ≡ at_round index member }
{
    Path::Round { index, member }
}

// Reads the actions that a round lists.
fn read_actions(
    seen: &mut RoundsSoFar,
    index: u64,
    round: &Value,
) -> Result<(), ReadError<MemberFault>>
    ensures said { Gives (λ x. map plain_step seen.new.steps.items) result
        (actions_said (plain_setting seen.old.setting) index
        (map plain_step seen.old.steps.items) (view round.now)) }
    ensures setting { seen.new.setting ≡ seen.old.setting }
{
    let path = path_of(index, RoundMember::Actions);
    let values = read_list(required(round, path)?, path)?;
    for (action, value) in values.iter().enumerate() {
        let place = ActionLocation {
            round: index,
            action: action as u64,
        };
        let step = read_step(seen, place, value)?;
        seen.push(step)?;
    }
    Ok(())
}
