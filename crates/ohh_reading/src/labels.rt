//! Reads where and when a hand was played from its members.
ghost use Rattle.std.specs.Prelude.{IfOk, IfSome};
ghost use Rattle.serde_json.specs.View.{view};
ghost use Rattle.first_fault.specs.Reading.{Gives, read_if, or_none};
ghost use Rattle.hand_canon.specs.AllowedNotes.{IsSeatCount};
ghost use Rattle.ohh_members.specs.declared.fault.Path.TheVariants as paths;
ghost use Rattle.ohh_reading.specs.LabelRanges.{AreLabels};
ghost use Rattle.ohh_reading.specs.MomentRanges.{IsMoment};
ghost use Rattle.ohh_reading.specs.Moments.{moment_said};
ghost use Rattle.ohh_reading.specs.Notes.{labels_said, seat_count_said};
ghost use Rattle.ohh_members.specs.Values as values;

use crate::moment::read_moment;
use crate::texts::{label_at, text_at};
use card_set::text_from;
use first_fault::{ReadError, Text};
use hand_canon::{Moment, TextNotes};
use ohh_members::fault::{MemberFault, Path};
use ohh_members::values::{field, read_number};
use serde_json::Value;
use std::alloc::Global;

/// Where and when a hand was played. What is missing, or equals its default, is `None`.
#[derive(Debug, Drop)]
pub struct Labels {
    pub hand: Option<Text>,
    pub texts: TextNotes,
    pub seat_count: Option<u8>,
    pub moment: Option<Moment>,
}

/// The labels of a hand with `seats` seats, at this place of its file, from 0.
#[tactic(auto, unfolding(crate::specs::Notes::labels_said))]
pub fn read_labels(
    alloc: Global,
    ohh: &Value,
    place: u32,
    seats: u8,
) -> Result<Labels, ReadError<MemberFault>>
    ensures said { Gives (λ labels. labels) result (labels_said place seats (view ohh.now)) }
    ensures fit { IfOk result (AreLabels seats) }
{
    let usual = text_from(alloc, place)?;
    let hand = label_at(alloc, ohh, Path::GameNumber, usual.as_str())?;
    let table = text_at(alloc, ohh, Path::TableName)?;
    let seat_count = seat_count_at(ohh, seats)?;
    let moment = moment_at(ohh)?;
    let currency = text_at(alloc, ohh, Path::Currency)?;
    let venue = text_at(alloc, ohh, Path::SiteName)?;
    Ok(Labels {
        hand,
        texts: TextNotes {
            table,
            venue,
            currency,
        },
        seat_count,
        moment,
    })
}

// The number of seats of the table, if it is there.
#[tactic(auto, unfolding(crate::specs::Notes::seat_count_said))]
fn seat_count_at(ohh: &Value, seats: u8) -> Result<Option<u8>, ReadError<MemberFault>>
    ensures said { Gives (λ count. count) result
        (or_none (seat_count_said seats) (values.member_at paths.TableSize (view ohh.now))) }
    ensures allowed { IfOk result (λ count. IfSome count (IsSeatCount seats)) }
{
    let Some(value) = field(ohh, Path::TableSize) else {
        return Ok(None);
    };
    let count = read_number(value, 1, 255, Path::TableSize)? as u8;
    if count == seats {
        Ok(None)
    } else {
        Ok(Some(count))
    }
}

// The moment at which the hand began, if it is there.
fn moment_at(ohh: &Value) -> Result<Option<Moment>, ReadError<MemberFault>>
    ensures said { Gives (λ moment. moment) result
        (read_if moment_said (values.member_at paths.StartDate (view ohh.now))) }
    ensures moment { IfOk result (λ moment. IfSome moment IsMoment) }
{
    match field(ohh, Path::StartDate) {
        Some(value) => {
            let moment = read_moment(value)?;
            Ok(Some(moment))
        }
        None => Ok(None),
    }
}
