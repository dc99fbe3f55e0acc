//! Compares the notes of two hands, in the order in which notes are listed.
ghost use Rattle.std.specs.Prelude.{◌≡◌, IfSome, bytes_eq, decimal, find, map, not, option_map};
ghost use Rattle.std.proofs.Props.{props};
ghost use Rattle.chip_ledger.specs.Seat.{seats_of};
ghost use Rattle.hand_canon.specs.AllowedNotes.{AreSeatNumbers};
ghost use Rattle.hand_canon.specs.SaidNotes.{hand_name_noted, name_said, numbers_said, said_notes};
ghost use Rattle.hand_differences.specs.BothAllowed.{AreBothAllowed};
ghost use Rattle.hand_differences.specs.FirstDifference.{difference_said};
ghost use Rattle.hand_differences.specs.FirstDifference as differences;
ghost use Rattle.hand_differences.specs.SameParts.{are_same_entries, is_same_clock, is_same_number, is_same_option};
ghost use Rattle.hand_differences.specs.SameParts as same_parts;

use crate::difference::Difference;
use chip_ledger::PlayerCount;
use first_fault::Text;
use hand_canon::{Clock, NoteName, Notes};

// The first note that differs in two hands with this number of players, each at this index of its
// file.
pub(crate) fn find_note_difference(
    index: usize,
    players: PlayerCount,
    notes: &Notes,
    others: &Notes,
) -> Option<Difference>
    requires { AreBothAllowed players.number notes.now others.now }
    ensures { option_map difference_said result ≡ differences.note_difference
        (said_notes index players.number notes.now)
        (said_notes index players.number others.now) }
{
    let names = NoteName::all();
    let both = BothNotes {
        index,
        players,
        notes,
        others,
    };
    match both.first_other(names.as_slice()) {
        Some(name) => Some(Difference::Note(name)),
        None => None,
    }
}

// The notes of two hands with this number of players, each at this index of its file.
#[derive(Clone, Copy)]
struct BothNotes<'a> {
    index: usize,
    players: PlayerCount,
    notes: &'a Notes,
    others: &'a Notes,
    ghost allowed: { AreBothAllowed players.number notes.now others.now } by { Prim.hlevel props },
}

impl BothNotes<'_> {
    // The first of some notes that differs.
    fn first_other(&self, names: &[NoteName]) -> Option<NoteName>
        ensures { result ≡ find (λ name. not (differences.agree_on_note
            (said_notes self.now.index self.now.players.number self.now.notes.now)
            (said_notes self.now.index self.now.players.number self.now.others.now) name))
            names.now }
    {
        match names {
            [] => None,
            [name, rest @ ..] => {
                if self.is_same_note(*name) {
                    self.first_other(rest)
                } else {
                    Some(*name)
                }
            }
        }
    }

    // The note is the same in both.
    fn is_same_note(&self, name: NoteName) -> bool
        ensures { result ≡ differences.agree_on_note
            (said_notes self.now.index self.now.players.number self.now.notes.now)
            (said_notes self.now.index self.now.players.number self.now.others.now) name }
    {
        let (notes, others) = (self.notes, self.others);
        match name {
            NoteName::Players => are_equal_names(self.players, &notes.names, &others.names),
            NoteName::Seats => are_equal_seats(self.players, &notes.seats, &others.seats),
            NoteName::SeatCount => are_equal_bytes(notes.seat_count, others.seat_count),
            NoteName::Hand => are_equal_labels(self.index, &notes.hand, &others.hand),
            NoteName::TimeZone => are_equal_texts(&notes.zone, &others.zone),
            NoteName::Year => are_equal_years(notes.year, others.year),
            NoteName::Month => are_equal_bytes(notes.month, others.month),
            NoteName::Day => are_equal_bytes(notes.day, others.day),
            NoteName::Time => are_equal_times(notes.time, others.time),
            _ => are_equal_plain_texts(notes.text(name), others.text(name)),
        }
    }
}

// The names of the players are the same, seat by seat.
fn are_equal_names(
    players: PlayerCount,
    names: &[Option<Text>; 10],
    others: &[Option<Text>; 10],
) -> bool
    ensures { result ≡ are_same_entries same_parts.is_same_text
        (map (name_said names.now) (seats_of players.number))
        (map (name_said others.now) (seats_of players.number)) }
{
    for index in 0..players.number as usize {
        if !are_equal_texts(&names[index], &others[index]) {
            return false;
        }
    }
    true
}

// The players' seat numbers at the table are the same. Numbers that are noted are never the default
// ones.
fn are_equal_seats(
    players: PlayerCount,
    seats: &Option<[u8; 10]>,
    others: &Option<[u8; 10]>,
) -> bool
    requires seats { IfSome seats.now (AreSeatNumbers players.number) }
    requires others { IfSome others.now (AreSeatNumbers players.number) }
    ensures { result ≡ same_parts.is_same_text (numbers_said players.number seats.now)
        (numbers_said players.number others.now) }
{
    match (seats, others) {
        (Some(a), Some(b)) => { a[..players.number as usize] == b[..players.number as usize] }
        (None, None) => true,
        (Some(_), None) | (None, Some(_)) => false,
    }
}

// The names of two hands are the same. A name that is the hand's index counts as missing.
fn are_equal_labels(index: usize, label: &Option<Text>, other: &Option<Text>) -> bool
    ensures { result ≡ same_parts.is_same_text (hand_name_noted index label.now)
        (hand_name_noted index other.now) }
{
    match (label_behind(index, label), label_behind(index, other)) {
        (Some(a), Some(b)) => a == b,
        (None, None) => true,
        (Some(_), None) | (None, Some(_)) => false,
    }
}

// The name of a hand, unless it is the hand's index.
fn label_behind<'a>(index: usize, label: &'a Option<Text>) -> Option<&'a [u8]>
    ensures { option_map (λ text. text.now) result ≡ hand_name_noted index label.now }
{
    let Some(text) = label else {
        return None;
    };
    let text = text.as_str().as_bytes();
    if is_decimal(text, index as u64) {
        None
    } else {
        Some(text)
    }
}

// The text is the decimal digits of the number.
fn is_decimal(text: &[u8], number: u64) -> bool
    ensures { result ≡ bytes_eq text.now (decimal number) }
{
    match text {
        [] => false,
        [front @ .., last] => {
            if u64::from(*last) != 48 + number % 10 {
                return false;
            }
            if number < 10 {
                front.is_empty()
            } else {
                is_decimal(front, number / 10)
            }
        }
    }
}

// Two optional texts are the same.
fn are_equal_texts(a: &Option<Text>, b: &Option<Text>) -> bool
    ensures { result ≡ same_parts.is_same_text a.now b.now }
{
    match (a, b) {
        (Some(a), Some(b)) => a.as_str() == b.as_str(),
        (None, None) => true,
        (Some(_), None) | (None, Some(_)) => false,
    }
}

// Two plain texts, each of which may be missing, are the same.
fn are_equal_plain_texts(a: Option<&Text>, b: Option<&Text>) -> bool
    ensures { result ≡ same_parts.is_same_text (option_map (λ text. text.now) a.entry)
        (option_map (λ text. text.now) b.entry) }
{
    match (a, b) {
        (Some(a), Some(b)) => a.as_str() == b.as_str(),
        (None, None) => true,
        (Some(_), None) | (None, Some(_)) => false,
    }
}

// Two optional small numbers are the same.
fn are_equal_bytes(a: Option<u8>, b: Option<u8>) -> bool
    ensures { result ≡ is_same_number a b }
{
    match (a, b) {
        (Some(a), Some(b)) => a == b,
        (None, None) => true,
        (Some(_), None) | (None, Some(_)) => false,
    }
}

// Two optional years are the same.
fn are_equal_years(a: Option<u16>, b: Option<u16>) -> bool
    ensures { result ≡ is_same_number a b }
{
    match (a, b) {
        (Some(a), Some(b)) => a == b,
        (None, None) => true,
        (Some(_), None) | (None, Some(_)) => false,
    }
}

// Two optional times of day are the same.
fn are_equal_times(a: Option<Clock>, b: Option<Clock>) -> bool
    ensures { result ≡ is_same_option is_same_clock a b }
{
    match (a, b) {
        (Some(a), Some(b)) => {
            a.hour == b.hour && a.minute == b.minute && a.second == b.second && a.nano == b.nano
        }
        (None, None) => true,
        (Some(_), None) | (None, Some(_)) => false,
    }
}
