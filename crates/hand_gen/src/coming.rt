//! Which event of a made hand comes next.
ghost use Rattle.std.specs.Prelude.{◌≡◌};
ghost use Rattle.play_event.specs.declared.reason.Due.TheVariants as dues;
ghost use Rattle.replay_core.specs.AddedMoves.{WhereTogether};
ghost use Rattle.betting_numbers.specs.TurnSaid.{in_turn_on};
ghost use Rattle.hand_gen.specs.Coming.{bring_in_comes, coming, move_comes};
ghost use Rattle.hand_gen.specs.Seen.{event_said};
ghost use Rattle.hand_gen.specs.HandSource as stocks;
ghost use Rattle.play_event.specs.Past.{moves_of};

use crate::dealing::{deal, draw};
use crate::hand_source::HandSource;
use crate::moving::make_move;
use play_event::{Due, Kind};
use replay_core::HandInPlay;
use variant_table::Variant;

/// The next event, if there is one. Its cards and numbers are taken from the stock.
pub fn next<V: Variant>(hand: &HandInPlay<V>, stock: &mut HandSource) -> Option<Kind>
    ensures event { WhereTogether hand.now.betting hand.now.cards
        (λ past. event_said result ≡ (coming hand.now.betting.setup
        hand.now.betting.rules past stock.old).event) }
    ensures left { WhereTogether hand.now.betting hand.now.cards
        (λ past. stock.new ≡ (coming hand.now.betting.setup
        hand.now.betting.rules past stock.old).left) }
{
    let live = hand.betting.live();
    match hand.betting.due() {
        Due::Deal(on) => Some(deal(&hand.cards, &live, on, stock)),
        Due::Draw(on) => Some(draw(&hand.cards, &live, on, stock)),
        Due::BringIn => bring_in(hand),
        Due::Move => acted(hand, stock),
        Due::Show => None,
        Due::Over => None,
    }
}

// The bring-in by the player to act.
fn bring_in<V: Variant>(hand: &HandInPlay<V>) -> Option<Kind>
    requires due { hand.now.betting.due ≡ dues.BringIn }
    ensures event { WhereTogether hand.now.betting hand.now.cards
        (λ past. (stock : stocks.HandSource) → event_said result
        ≡ (bring_in_comes stock (in_turn_on hand.now.betting.setup past
        hand.now.betting.street)).event) }
    ensures left { WhereTogether hand.now.betting hand.now.cards
        (λ past. (stock : stocks.HandSource) → stock
        ≡ (bring_in_comes stock (in_turn_on hand.now.betting.setup past
        hand.now.betting.street)).left) }
{
    let up = hand.opening_up_cards();
    match hand.betting.to_act(&up) {
        Some(seat) => Some(Kind::BringIn { actor: Some(seat) }),
        None => None,
    }
}

// The move of the player to act.
fn acted<V: Variant>(hand: &HandInPlay<V>, stock: &mut HandSource) -> Option<Kind>
    requires due { hand.now.betting.due ≡ dues.Move }
    ensures event { WhereTogether hand.now.betting hand.now.cards
        (λ past. event_said result
        ≡ (move_comes hand.now.betting.setup hand.now.betting.rules (moves_of past)
        hand.now.betting.street stock.old
        (in_turn_on hand.now.betting.setup past hand.now.betting.street)).event) }
    ensures left { WhereTogether hand.now.betting hand.now.cards
        (λ past. stock.new
        ≡ (move_comes hand.now.betting.setup hand.now.betting.rules (moves_of past)
        hand.now.betting.street stock.old
        (in_turn_on hand.now.betting.setup past hand.now.betting.street)).left) }
{
    let up = hand.opening_up_cards();
    match hand.betting.to_act(&up) {
        Some(seat) => Some(make_move(&hand.betting, &up, seat, stock)),
        None => None,
    }
}
