//! Tests the betting: `betting SETUP: EVENT; EVENT..`. An event is a move, such as `raise - to 40`,
//! `call 2 10`, `fold -` or `bring_in -`; `dealt`, which completes what is due; `up 3 2c`, which
//! gives a seat its up-cards from then on; or a question: `due`, `targets`, `stacks`, `settled`.
ghost use Rattle.std.specs.Prelude.{◌≡◌, false};
ghost use Rattle.play_event.specs.Said.{kind_said};
ghost use Rattle.play_event.specs.ValidSetup.{IsValid};
ghost use Rattle.play_laws.specs.CardEvents.{is_card_said};

use crate::event_words::move_of;
use crate::setup_words::setup_of;
use crate::words::{first_and_rest, seat_of};
use betting_core::{Betting, Moved};
use card_set::read_slots;
use chip_ledger::Seat;
use play_event::{Code, Due, Event, Illegal, Kind, Rules, Setup, UpRow};
use std::alloc::{AllocError, Global};
use variant_table::{F2L3D, F7S, F7S8, FB, FO8, FR, FT, N2L1D, NS, NT, PO, Variant, is_valid};

/// The answers to the events of a row.
pub fn answer_to(alloc: Global, row: &str) -> Result<Option<String>, AllocError> {
    let Some((setup, events)) = row.split_once(": ") else {
        return Ok(None);
    };
    let Some((setup, rules)) = setup_of(setup) else {
        return Ok(None);
    };
    if !is_valid(&setup) {
        return Ok(Some(String::from_str(alloc, "no valid setup")?));
    }
    let answer = match setup.code {
        Code::FT => played::<FT>(alloc, &setup, &rules, events)?,
        Code::NT => played::<NT>(alloc, &setup, &rules, events)?,
        Code::NS => played::<NS>(alloc, &setup, &rules, events)?,
        Code::PO => played::<PO>(alloc, &setup, &rules, events)?,
        Code::FO8 => played::<FO8>(alloc, &setup, &rules, events)?,
        Code::F7S => played::<F7S>(alloc, &setup, &rules, events)?,
        Code::F7S8 => played::<F7S8>(alloc, &setup, &rules, events)?,
        Code::FR => played::<FR>(alloc, &setup, &rules, events)?,
        Code::N2L1D => played::<N2L1D>(alloc, &setup, &rules, events)?,
        Code::F2L3D => played::<F2L3D>(alloc, &setup, &rules, events)?,
        Code::FB => played::<FB>(alloc, &setup, &rules, events)?,
    };
    Ok(Some(answer))
}

// The answers for one game, one after another.
fn played<V: Variant>(
    alloc: Global,
    setup: &Setup,
    rules: &Rules,
    events: &str,
) -> Result<String, AllocError>
    requires valid { IsValid setup.now }
    requires code { setup.now.code ≡ V.CODE }
{
    let mut betting = Betting::<V>::start(setup, rules);
    let mut up = UpRow::new(setup.stacks.seats);
    let mut text = String::new(alloc);
    for event in events.split("; ") {
        if !text.is_empty() {
            text.push_str("; ")?;
        }
        let answer = answered(alloc, &mut betting, &mut up, event)?;
        text.push_str(answer.as_str())?;
    }
    Ok(text)
}

// The answer to one event.
fn answered<V: Variant>(
    alloc: Global,
    betting: &mut Betting<V>,
    up: &mut UpRow,
    event: &str,
) -> Result<String, AllocError> {
    let (word, rest) = first_and_rest(event);
    match word.as_bytes() {
        b"dealt" => ended(alloc, betting),
        b"up" => shown(alloc, up, rest),
        b"due" => due_text(alloc, betting.due()),
        b"targets" => targets_text(alloc, betting, up),
        b"stacks" => stacks_text(alloc, betting),
        b"settled" => {
            let settled = betting.settled();
            format!(in alloc; "{settled}")
        }
        _ => match move_of(word, rest) {
            Some(kind) => moved(alloc, betting, up, kind),
            None => String::from_str(alloc, "no event"),
        },
    }
}

// Completes the deal, the draw or the showing, and reports what is due then.
fn ended<V: Variant>(alloc: Global, betting: &mut Betting<V>) -> Result<String, AllocError> {
    match betting.due() {
        Due::Deal(_) | Due::Draw(_) | Due::Show => {
            betting.dealt();
            due_text(alloc, betting.due())
        }
        Due::BringIn | Due::Move | Due::Over => String::from_str(alloc, "nothing to end"),
    }
}

fn due_text(alloc: Global, due: Due) -> Result<String, AllocError> {
    format!(in alloc; "{due:?}")
}

// Gives a seat its up-cards.
fn shown(alloc: Global, up: &mut UpRow, words: &str) -> Result<String, AllocError> {
    let (seat, cards) = first_and_rest(words);
    let seat = seat_of(seat);
    let cards = read_slots(cards.as_bytes()).ok();
    match (seat, cards) {
        (Some(seat), Some(cards)) if seat.number <= up.seats => {
            up.set(seat, cards);
            String::from_str(alloc, "up")
        }
        _ => String::from_str(alloc, "no cards"),
    }
}

fn targets_text<V: Variant>(
    alloc: Global,
    betting: &Betting<V>,
    up: &UpRow,
) -> Result<String, AllocError> {
    if up.seats != betting.live().seats {
        return String::from_str(alloc, "no row");
    }
    match betting.targets(up) {
        Some(targets) => {
            let (least, greatest, all_in) = (targets.least, targets.greatest, targets.all_in);
            format!(in alloc; "{least} to {greatest}, all-in {all_in}")
        }
        None => String::from_str(alloc, "no targets"),
    }
}

fn stacks_text<V: Variant>(alloc: Global, betting: &Betting<V>) -> Result<String, AllocError> {
    let stacks = betting.stacks();
    let mut text = String::new(alloc);
    for index in 0..stacks.seats {
        if index > 0 {
            text.push_str(",")?;
        }
        let chips = stacks.get(Seat { number: index + 1 });
        write!(text, "{chips}")?;
    }
    Ok(text)
}

// Makes a move, and reports whose it was and where it went, or why it is refused.
fn moved<V: Variant>(
    alloc: Global,
    betting: &mut Betting<V>,
    up: &UpRow,
    kind: Kind,
) -> Result<String, AllocError>
    requires { is_card_said (kind_said kind) ≡ false }
{
    if up.seats != betting.live().seats {
        return String::from_str(alloc, "no row");
    }
    match betting.step(up, &Event { at: 0, kind }) {
        Ok(moved) => move_text(alloc, &moved),
        Err(reason) => reason_text(alloc, reason),
    }
}

fn move_text(alloc: Global, moved: &Moved) -> Result<String, AllocError> {
    let (seat, act, from, to) = (moved.seat.number, moved.act, moved.from, moved.to);
    let closed = if moved.closed { " closed" } else { "" };
    format!(in alloc; "{seat} {act:?} {from} to {to}{closed}")
}

fn reason_text(alloc: Global, reason: Illegal) -> Result<String, AllocError> {
    match reason {
        Illegal::AmountDiffers { stated, due } => {
            format!(in alloc; "AmountDiffers stated {stated} due {due}")
        }
        _ => format!(in alloc; "{reason:?}"),
    }
}
