//! Notes are what a record says of a hand besides its play: who played it, where and when.
ghost use Rattle.std.specs.Prelude.{◌≡◌, ◌≢◌, ◌≤◌, IfSome, option_map, take};
ghost use Rattle.std.specs.List.{range_with_len};
ghost use Rattle.chip_ledger.specs.SeatsSaid as seats_said;
ghost use Rattle.hand_canon.specs.AllowedNotes.{AreNoNotes, name_written};
ghost use Rattle.hand_canon.specs.AllowedNotes as allowed_notes;
ghost use Rattle.hand_canon.specs.NoteTable.{note_names, note_text, notes_with, text_named, text_names, texts_of};

use chip_ledger::Seat;
use first_fault::Text;

/// A time of day.
#[derive(Clone, Copy, Debug, PartialEq, Eq)]
pub struct Clock {
    /// 0 to 23.
    pub hour: u8,
    /// 0 to 59.
    pub minute: u8,
    /// 0 to 59.
    pub second: u8,
    /// 0 to 999,999,999.
    pub nano: u32,
}

/// A day of the calendar.
#[derive(Clone, Copy, Debug, PartialEq, Eq)]
pub struct CivilDate {
    /// 1 to 9999.
    pub year: u16,
    /// 1 to 12.
    pub month: u8,
    /// 1 to 31.
    pub day: u8,
}

/// A moment in universal time.
#[derive(Clone, Copy, Debug, PartialEq, Eq)]
pub struct Moment {
    pub day: CivilDate,
    pub time: Clock,
}

/// The notes of a hand. A note that equals its default, which a reader assumes if nothing is said,
/// is `None`.
#[derive(Debug, Drop)]
pub struct Notes {
    /// The names of the players, the first seat's at index 0. The default of seat 2 is `p2`.
    pub names: [Option<Text>; 10],
    /// The numbers of the seats at the table, and 0 after the last seat. By default 1, 2 and so on.
    pub seats: Option<[u8; 10]>,
    /// The number of seats of the table. By default as many as the hand has.
    pub seat_count: Option<u8>,
    /// The name of the hand. By default its place in its file, from 0, in decimal digits.
    pub hand: Option<Text>,
    /// The name of the table. This and the texts below are empty by default.
    pub table: Option<Text>,
    pub venue: Option<Text>,
    pub currency: Option<Text>,
    /// 1 to 9999.
    pub year: Option<u16>,
    /// 1 to 12.
    pub month: Option<u8>,
    /// 1 to 31.
    pub day: Option<u8>,
    pub time: Option<Clock>,
    pub zone: Option<Text>,
}

/// The notes of a hand that are plain texts and empty by default. The zone is not one of them: it
/// is a part of when the hand was played.
#[derive(Debug, Drop)]
pub struct TextNotes {
    pub table: Option<Text>,
    pub venue: Option<Text>,
    pub currency: Option<Text>,
}

impl Notes {
    /// A record without notes.
    pub fn none() -> Self
        ensures { AreNoNotes result }
    {
        Notes::with_texts(TextNotes {
            table: None,
            venue: None,
            currency: None,
        })
    }

    /// Notes that are these texts and nothing else.
    pub fn with_texts(texts: TextNotes) -> Self
        ensures { result ≡ notes_with texts }
    {
        let TextNotes {
            table,
            venue,
            currency,
        } = texts;
        Notes {
            names: [None, None, None, None, None, None, None, None, None, None],
            seats: None,
            seat_count: None,
            hand: None,
            table,
            venue,
            currency,
            year: None,
            month: None,
            day: None,
            time: None,
            zone: None,
        }
    }

    /// The text of the note with this name, if it is one of [`NoteName::texts`].
    pub fn text(&self, name: NoteName) -> Option<&Text>
        ensures { option_map (λ text. text.now) result ≡ text_named (texts_of self.now) name }
    {
        match name {
            NoteName::Table => reference(&self.table),
            NoteName::Venue => reference(&self.venue),
            NoteName::Currency => reference(&self.currency),
            _ => None,
        }
    }
}

impl Default for Notes {
    ghost is_default = { AreNoNotes };

    fn default() -> Self {
        Notes::none()
    }
}

// A reference to the text of a note.
fn reference(note: &Option<Text>) -> Option<&Text>
    ensures { option_map (λ text. text.now) result ≡ note.now }
{
    match note {
        Some(text) => Some(text),
        None => None,
    }
}

/// The kinds of notes, in the order in which notations check them.
#[derive(Clone, Copy, Debug, PartialEq, Eq)]
pub enum NoteName {
    Players,
    Seats,
    SeatCount,
    Hand,
    Table,
    Venue,
    Currency,
    TimeZone,
    Year,
    Month,
    Day,
    Time,
}

impl NoteName {
    /// The printed name of a note, such as `players` or `time_zone`.
    pub fn text(self) -> &'static str
        ensures { result.now ≡ note_text self }
    {
        match self {
            NoteName::Players => "players",
            NoteName::Seats => "seats",
            NoteName::SeatCount => "seat_count",
            NoteName::Hand => "hand",
            NoteName::Table => "table",
            NoteName::Venue => "venue",
            NoteName::Currency => "currency",
            NoteName::TimeZone => "time_zone",
            NoteName::Year => "year",
            NoteName::Month => "month",
            NoteName::Day => "day",
            NoteName::Time => "time",
        }
    }

    /// All notes, in the order in which they are compared.
    pub fn all() -> [NoteName; 12]
        ensures { result ≡ note_names }
    {
        [
            NoteName::Players,
            NoteName::Seats,
            NoteName::SeatCount,
            NoteName::Hand,
            NoteName::Table,
            NoteName::Venue,
            NoteName::Currency,
            NoteName::TimeZone,
            NoteName::Year,
            NoteName::Month,
            NoteName::Day,
            NoteName::Time,
        ]
    }

    /// The notes that are plain texts and empty by default.
    pub fn texts() -> [NoteName; 3]
        ensures { result ≡ text_names }
    {
        [NoteName::Table, NoteName::Venue, NoteName::Currency]
    }
}

/// The name of a seat's player: the one that is noted, or the default name of the seat, such as
/// `p2`.
pub fn name_of<'a>(notes: &'a Notes, seat: Seat) -> &'a str
    ensures { result.now ≡ name_written notes.now seat.number }
{
    match &notes.names[seat.number as usize - 1] {
        Some(name) => name.as_str(),
        None => default_name(seat),
    }
}

// The name of a seat if none is noted.
#[tactic(auto, using(chip_ledger::proofs::DefaultNames::short_name, chip_ledger::proofs::DefaultNames::long_name))]
fn default_name(seat: Seat) -> &'static str
    ensures { result.now ≡ seats_said.default_name seat.number }
{
    match seat.number {
        1 => "p1",
        2 => "p2",
        3 => "p3",
        4 => "p4",
        5 => "p5",
        6 => "p6",
        7 => "p7",
        8 => "p8",
        9 => "p9",
        _ => "p10",
    }
}

// The numbers of ten seats if none are noted.
const USUAL: [u8; 10] = [1, 2, 3, 4, 5, 6, 7, 8, 9, 10];

/// The numbers of `seats` seats at the table, the first seat's at index 0, or `None` if they are
/// the default: 1, 2 and so on.
pub fn omit_default_seats(numbers: [u8; 10], seats: usize) -> Option<[u8; 10]>
    requires { seats ≤ 10 }
    ensures said { option_map (take seats) result
        ≡ allowed_notes.non_default_seats seats (take seats numbers) }
    ensures same { IfSome result (λ noted. noted ≡ numbers) }
    ensures unusual { IfSome result (λ noted. take seats noted ≢ range_with_len 1 seats) }
{
    let (said, _fillers) = numbers.split_at(seats);
    let (usual, _others) = USUAL.split_at(seats);
    if said == usual { None } else { Some(numbers) }
}
