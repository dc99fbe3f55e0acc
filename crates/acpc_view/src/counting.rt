//! Counts the bytes of the lines that a seat saw, without allocating memory.
ghost use Rattle.std.specs.Prelude.{◌≡◌, ◌≤◌, ◌*◌, ◌++◌, Some, None, decimal, length, map, take};
ghost use Rattle.acpc_format.specs.Betting.{betting_text, letter, letter_on, letters_on, round_text};
ghost use Rattle.acpc_format.specs.Cards.{board_text, cards_text, hole_text, holes_text};
ghost use Rattle.acpc_format.specs.Names.{hand_text};
ghost use Rattle.acpc_format.specs.Rounds as rounds;
ghost use Rattle.acpc_format.specs.Seats.{bar_before};
ghost use Rattle.acpc_format.specs.Puts.{HaveFewChips};
ghost use Rattle.acpc_view.specs.Lengths.{IsLengthWithin, IsShort, hole_of, seen_by};
ghost use Rattle.acpc_view.specs.View.{seen_text, view_line, views_text};
ghost use Rattle.play_event.specs.CanonScript.{dealt_slots, plain_move, plain_moves};
ghost use Rattle.card_set.specs.Spelling.{spelling};
ghost use Rattle.hand_canon.specs.TraceRows.{place_said};
ghost use Rattle.play_event.specs.Past.{Raised};
ghost use Rattle.play_event.specs.Played.{act_said, move_said};
ghost use Rattle.play_event.specs.Said.{seat_named};

use crate::seeing::{has_reached_street, sees_seat_of};
use acpc_format::{
    add, can_write_hand_number, has_unknown, is_board_dealt, is_dealt, posted_chips,
};
use acpc_game::Game;
use chip_ledger::Seat;
use first_fault::Text;
use hand_canon::{SoundPlay, Trace};
use play_event::{Act, Move, Place, Setup};

/// The number of bytes of the lines that a seat saw of the play at a place of its file (from 0)
/// under the game of that file.
///
/// No memory is allocated.
pub fn views_len(game: &Game, play: &SoundPlay<'_>, place: u32, viewer: Seat) -> u64
    ensures { result ≡ length (views_text game.now.no_limit viewer.number place play.now) }
{
    let moves = play.play().trace.moves.len();
    let mut all: u64 = 0;
    for count in 0..moves {
        all += line_len(game.no_limit, play, place as usize, viewer, count);
    }
    all + line_len(game.no_limit, play, place as usize, viewer, moves)
}

// The number of bytes of one line.
fn line_len(no_limit: bool, play: &SoundPlay<'_>, place: usize, viewer: Seat, count: usize) -> u64
    requires { count ≤ length play.now.trace.moves }
    ensures { IsLengthWithin 400000 (view_line no_limit viewer.number place play.now count) result }
{
    let play = play.play();
    let seen = Seen {
        trace: &play.trace,
        viewer,
        count,
    };
    // `MATCHSTATE`, three colons, the digit of the seat, and the end of the line.
    15 + hand_len(place, &play.hand.notes.hand) + seen.seen_len(no_limit)
}

// The number of bytes of the number of a hand at a place of its file.
fn hand_len(place: usize, name: &Option<Text>) -> u64
    ensures { IsLengthWithin 20 (hand_text place name.now) result }
{
    let Some(name) = name else {
        return digits_len(place as u64);
    };
    let name = name.as_str().as_bytes();
    if can_write_hand_number(name) {
        name.len() as u64
    } else {
        digits_len(place as u64)
    }
}

// What a seat sees of a trace after its first moves.
#[derive(Clone, Copy)]
struct Seen<'a> {
    trace: &'a Trace,
    viewer: Seat,
    count: usize,
    ghost short: { IsShort trace.now },
    ghost there: { count ≤ length trace.now.moves },
}

impl Seen<'_> {
    // The number of bytes of the betting and the cards that the seat saw.
    fn seen_len(&self, no_limit: bool) -> u64
        ensures { IsLengthWithin 390000
            (seen_text no_limit self.now.trace.now self.now.viewer.number self.now.count) result }
    {
        self.betting_len(no_limit) + 1 + self.cards_len()
    }

    // The number of bytes of the betting.
    fn betting_len(&self, no_limit: bool) -> u64
        ensures { IsLengthWithin 360000 (betting_text no_limit self.now.trace.now.setup
            (seen_by self.now.trace.now self.now.viewer.number self.now.count)
            (plain_moves (map move_said (take self.now.count self.now.trace.now.moves)))) result }
    {
        let made = &self.trace.moves.as_slice()[..self.count];
        letters_len(no_limit, &self.trace.setup, made, 1)
            + self.round_len(no_limit, 2)
            + self.round_len(no_limit, 3)
            + self.round_len(no_limit, 4)
    }

    // The number of bytes of a further round, if it has begun.
    fn round_len(&self, no_limit: bool, street: u8) -> u64
        ensures { IsLengthWithin 90000 (round_text no_limit self.now.trace.now.setup
            (seen_by self.now.trace.now self.now.viewer.number self.now.count)
            (plain_moves (map move_said (take self.now.count self.now.trace.now.moves))) street)
            result }
    {
        let made = &self.trace.moves.as_slice()[..self.count];
        if self.is_board_seen(street) {
            1 + letters_len(no_limit, &self.trace.setup, made, street)
        } else {
            0
        }
    }

    // The board of a street is dealt, and its round has begun.
    fn is_board_seen(&self, street: u8) -> bool
        ensures { result ≡ rounds.has_board
            (seen_by self.now.trace.now self.now.viewer.number self.now.count) street }
    {
        has_reached_street(self.trace.moves.as_slice(), self.count, street)
            && is_board_dealt(self.trace.places.as_slice(), street)
    }

    // The number of bytes of the cards.
    fn cards_len(&self) -> u64
        ensures { IsLengthWithin 200 (cards_text
            (seen_by self.now.trace.now self.now.viewer.number self.now.count)
            self.now.trace.now.setup.stacks.seats) result }
    {
        self.holes_len() + self.board_len(2) + self.board_len(3) + self.board_len(4)
    }

    // The number of bytes of the hole cards, with the bars between them.
    fn holes_len(&self) -> u64
        ensures { IsLengthWithin 150 (holes_text
            (seen_by self.now.trace.now self.now.viewer.number self.now.count)
            self.now.trace.now.setup.stacks.seats) result }
    {
        let mut all: u64 = 0;
        for index in 0..self.trace.setup.stacks.seats {
            let seat = Seat { number: index + 1 };
            all += self.seat_len(seat);
        }
        all
    }

    // The number of bytes of the bar in front of a seat, and of its hole cards.
    fn seat_len(&self, seat: Seat) -> u64
        ensures { IsLengthWithin 15 (bar_before seat.number
            ++ hole_text (seen_by self.now.trace.now self.now.viewer.number self.now.count)
            seat.number) result }
    {
        if 1 < seat.number {
            1 + self.hole_len(seat)
        } else {
            self.hole_len(seat)
        }
    }

    // The number of bytes of the hole cards of a seat, if they are seen.
    fn hole_len(&self, seat: Seat) -> u64
        ensures { IsLengthWithin 14
            (hole_text (seen_by self.now.trace.now self.now.viewer.number self.now.count)
            seat.number) result }
    {
        if sees_seat_of(self.trace, self.viewer, self.count, seat) {
            known_len(self.trace.places.as_slice(), seat)
        } else {
            0
        }
    }

    // The number of bytes of the board of a further round, if it is seen.
    fn board_len(&self, street: u8) -> u64
        ensures { IsLengthWithin 15 (board_text
            (seen_by self.now.trace.now self.now.viewer.number self.now.count) street) result }
    {
        if self.is_board_seen(street) {
            1 + dealt_len(self.trace.places.as_slice(), None, street)
        } else {
            0
        }
    }
}

// The number of bytes of the letters of a street.
fn letters_len(no_limit: bool, setup: &Setup, moves: &[Move], street: u8) -> u64
    requires chips { HaveFewChips setup.now moves.now }
    requires short { length moves.now ≤ 4096 }
    ensures { IsLengthWithin (21 * length moves.now) (letters_on no_limit setup.now street
        (plain_moves (map move_said moves.now))) result }
{
    let mut put = posted_chips(setup);
    let mut all: u64 = 0;
    for played in moves {
        add(&mut put, *played);
        let total = put[played.seat.number as usize - 1];
        all += letter_len_on(no_limit, street, *played, total);
    }
    all
}

// The number of bytes of the letter of a move, or 0 if the move is on another street.
fn letter_len_on(no_limit: bool, street: u8, played: Move, total: u64) -> u64
    ensures { IsLengthWithin 21
        (letter_on no_limit street (plain_move (move_said played)) total) result }
{
    if played.street == street {
        letter_len(no_limit, played.act, total)
    } else {
        0
    }
}

// The number of bytes of the letter of a move.
fn letter_len(no_limit: bool, act: Act, total: u64) -> u64
    ensures { IsLengthWithin 21 (letter no_limit (act_said act) total) result }
{
    match act {
        Act::Fold => 1,
        Act::Call => 1,
        Act::Raise => raise_len(no_limit, total),
        Act::BringIn => 0,
    }
}

// The number of bytes of a bet or raise.
fn raise_len(no_limit: bool, total: u64) -> u64
    ensures { IsLengthWithin 21 (letter no_limit Raised total) result }
{
    if no_limit { 1 + digits_len(total) } else { 1 }
}

// The number of decimal digits of a number.
fn digits_len(number: u64) -> u64
    ensures { IsLengthWithin 20 (decimal number) result }
{
    if number < 10 {
        1
    } else {
        1 + digits_len(number / 10)
    }
}

// The number of bytes of the hole cards of a seat, if they are known.
fn known_len(places: &[Place], seat: Seat) -> u64
    requires { length (dealt_slots (map place_said places.now) (Some seat.number) 1) ≤ 7 }
    ensures { IsLengthWithin 14
        (hole_of (dealt_slots (map place_said places.now) (Some seat.number) 1)) result }
{
    if has_unknown(places, Some(seat), 1) {
        0
    } else {
        dealt_len(places, Some(seat), 1)
    }
}

// The number of bytes of the cards that an owner was dealt on a street: each has two.
fn dealt_len(places: &[Place], owner: Option<Seat>, street: u8) -> u64
    requires { length (dealt_slots (map place_said places.now) (seat_named owner) street) ≤ 7 }
    ensures { IsLengthWithin 14 (spelling
        (dealt_slots (map place_said places.now) (seat_named owner) street)) result }
{
    2 * dealt_count(places, owner, street)
}

// The number of cards that an owner was dealt on a street.
fn dealt_count(places: &[Place], owner: Option<Seat>, street: u8) -> u64
    ensures { result
        ≡ length (dealt_slots (map place_said places.now) (seat_named owner) street) }
{
    let mut count: u64 = 0;
    for place in places {
        if is_dealt(*place, owner, street) {
            count += 1;
        }
    }
    count
}
