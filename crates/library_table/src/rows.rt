//! Amounts, seats and cards as a row of the table writes them: parts separated by commas, `-` for
//! none.
ghost use Rattle.std.specs.Prelude.{◌<◌};

use card_set::{CardRow, CardSet, SlotRow, read_slots};
use chip_ledger::{LiveRow, MOST_AMOUNT, RakeRow, Seat, SeatRow};
use play_event::HandRow;

/// The amounts of two to ten seats, as `100,300,500`.
pub fn amounts(text: &str) -> Option<SeatRow> {
    let seats = part_count(text);
    if seats < 2 || 10 < seats {
        return None;
    }
    let mut row = SeatRow::new(seats);
    let mut number: u8 = 0;
    for part in text.split(',') {
        number = number.saturating_add(1);
        let seat = Seat::new(number)?;
        let amount = part.parse::<u64>().ok()?;
        if row.seats < seat.number || MOST_AMOUNT < amount {
            return None;
        }
        row.set(seat, amount);
    }
    Some(row)
}

/// The flags of `seats` seats, from the numbers of those that have them, such as `1,3`.
pub fn flags(seats: u8, text: &str) -> Option<LiveRow> {
    if seats < 2 || 10 < seats {
        return None;
    }
    let mut row = LiveRow::new(seats);
    for part in text.split(',') {
        let seat = Seat::new(part.parse::<u8>().ok()?)?;
        if row.seats < seat.number {
            return None;
        }
        row.set(seat, true);
    }
    Some(row)
}

/// The rakes of up to eleven pots, as `2,0,1`.
pub fn rakes(text: &str) -> Option<RakeRow> {
    let mut row = RakeRow::none();
    if text == "-" {
        return Some(row);
    }
    let mut index: usize = 0;
    for part in text.split(',') {
        if index >= 11 {
            return None;
        }
        row = with_rake(row, index, part.parse::<u64>().ok()?);
        index += 1;
    }
    Some(row)
}

fn with_rake(row: RakeRow, index: usize, rake: u64) -> RakeRow
    requires { index < 11 }
{
    let mut more = row;
    more.rakes[index] = rake;
    more
}

/// The hands of two to ten seats, as `AcKd,-,2h2s`, and which of them are shown: those that have
/// cards.
pub fn hands(text: &str) -> Option<(HandRow, LiveRow)> {
    let seats = part_count(text);
    if seats < 2 || 10 < seats {
        return None;
    }
    let mut held = HandRow::new(seats);
    let mut shown = LiveRow::new(seats);
    let mut number: u8 = 0;
    for part in text.split(',') {
        number = number.saturating_add(1);
        let seat = Seat::new(number)?;
        let cards = slots(part)?;
        if held.seats < seat.number || shown.seats < seat.number {
            return None;
        }
        held.set(seat, cards);
        shown.set(seat, cards.len > 0);
    }
    Some((held, shown))
}

fn part_count(text: &str) -> u8 {
    let mut count: u8 = 0;
    for _part in text.split(',') {
        count = count.saturating_add(1);
    }
    count
}

/// The cards of a board, as `KhKdQs`.
pub fn board(text: &str) -> Option<CardRow> {
    Some(slots(text)?.known_cards())
}

/// A set of cards, as `KhKdQs,2c`.
pub fn set(text: &str) -> Option<CardSet> {
    let mut cards = CardSet::empty();
    for part in text.split(',') {
        for card in board(part)?.as_slice() {
            cards.insert(*card);
        }
    }
    Some(cards)
}

fn slots(text: &str) -> Option<SlotRow> {
    let cards = if text == "-" { "" } else { text };
    read_slots(cards.as_bytes()).ok()
}
