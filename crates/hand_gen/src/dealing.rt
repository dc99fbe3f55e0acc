//! The next event of the deals and draws of a street.
ghost use Rattle.std.specs.Prelude.{◌≡◌, ◌≤◌, take, Some};
ghost use Rattle.card_set.specs.Row.{slots_of};
ghost use Rattle.chip_ledger.specs.SeatsSaid.{seat_said};
ghost use Rattle.deal_core.specs.Answered.{WhereLive};
ghost use Rattle.deal_core.specs.Standing.{StandsFor};
ghost use Rattle.play_event.specs.Held.{held_slots};
ghost use Rattle.play_event.specs.Past.{Past};
ghost use Rattle.play_event.specs.Said.{kind_said};
ghost use Rattle.play_event.specs.Table.{places_of};
ghost use Rattle.hand_gen.specs.Coming as comes;
ghost use Rattle.hand_gen.specs.Seen as seen;
ghost use Rattle.hand_gen.specs.HandSource.{after_draw};

use crate::hand_source::HandSource;
use card_places::{NextDeal, slots};
use card_set::SlotRow;
use chip_ledger::{LiveRow, Seat};
use deal_core::Cards;
use play_event::Kind;
use variant_table::Variant;

/// The next event of a street's draw: a discard, or a deal.
pub fn draw<V: Variant>(cards: &Cards<V>, live: &LiveRow, on: u8, stock: &mut HandSource) -> Kind
    requires street { on ≤ V.STREETS }
    requires live { live.now.seats ≡ cards.now.seats }
    ensures event { WhereLive cards.now live.now (λ setup past. setup.code ≡ V.CODE
        → Some (kind_said result) ≡ (comes.draw_comes setup past on stock.old).event) }
    ensures left { WhereLive cards.now live.now (λ setup past.
        stock.new ≡ (comes.draw_comes setup past on stock.old).left) }
{
    match cards.next_to_draw(live, on) {
        Some(seat) => discard(cards, seat, stock),
        None => deal(cards, live, on, stock),
    }
}

/// The next deal of the street: to a seat that is due cards, or to the board.
pub fn deal<V: Variant>(cards: &Cards<V>, live: &LiveRow, on: u8, stock: &mut HandSource) -> Kind
    requires street { on ≤ V.STREETS }
    requires live { live.now.seats ≡ cards.now.seats }
    ensures event { WhereLive cards.now live.now (λ setup past.
        Some (kind_said result) ≡ (comes.deal_comes setup past on stock.old).event) }
    ensures left { WhereLive cards.now live.now (λ setup past.
        stock.new ≡ (comes.deal_comes setup past on stock.old).left) }
{
    let next = cards.next_deal(live, on);
    dealt(next, stock)
}

// Deals this number of cards to a seat or to the board.
fn dealt(next: NextDeal, stock: &mut HandSource) -> Kind
    requires { next.count ≤ 7 }
    ensures event { Some (kind_said result)
        ≡ (seen.dealt_to (seat_said next.owner) next.count stock.old).event }
    ensures left { stock.new
        ≡ (seen.dealt_to (seat_said next.owner) next.count stock.old).left }
{
    let cards = stock.take_cards(next.count);
    match next.owner {
        Some(seat) => Kind::Hole {
            seat,
            cards: slots(&cards),
        },
        None => Kind::Board { cards },
    }
}

// The discard of a seat.
fn discard<V: Variant>(cards: &Cards<V>, seat: Seat, stock: &mut HandSource) -> Kind
    requires { seat.number ≤ cards.now.seats }
    ensures event { (past : Past) → StandsFor cards.now past → Some (kind_said result)
        ≡ (comes.discard_of (held_slots (Some seat.number) (places_of V.CODE past)) stock.old
        seat.number).event }
    ensures left { stock.new ≡ after_draw stock.old }
{
    let count = stock.draw(3) as u8;
    let held = cards.hands().get(seat);
    Kind::Discard {
        seat,
        cards: first_slots(&held, count),
    }
}

// The first slots of a row, `count` of them.
#[tactic(auto, using(std::proofs::lemmas::List::take_min))]
fn first_slots(row: &SlotRow, count: u8) -> SlotRow
    ensures { slots_of result ≡ take count (slots_of row.now) }
{
    let slots = row.as_slice();
    let count = (count as usize).min(slots.len());
    let mut first = SlotRow::new();
    for slot in &slots[..count] {
        first.push(*slot);
    }
    first
}
