//! A variant is a type with the table of a game: generic code relies on its laws alone.
ghost use Rattle.std.specs.Prelude.{◌≡◌, ℕ, ◌≤◌, ◌-◌, Bool, Some, slice_get};
ghost use Rattle.card_set.specs.declared.card.Card.{Card};
ghost use Rattle.play_event.specs.declared.code.Code.{Code};
ghost use Rattle.play_event.specs.Games.{game_of};
ghost use Rattle.play_event.specs.Taken.{is_in_deck};
ghost use Rattle.card_set.specs.declared.pick.Pick.{Pick};
ghost use Rattle.play_event.specs.declared.limit.Limit.{Limit};
ghost use Rattle.play_event.specs.declared.limit.Opener.{Opener};
ghost use Rattle.variant_table.specs.Orders.{award_of, second_of};
ghost use Rattle.variant_table.specs.Variants.{AreValuesOf, IsOrder, IsUsable, AddsUp};
ghost use Rattle.variant_table.specs.TableLaws.{table_adds_up, usable_award, usable_second};

use crate::deck::SHORT_DECK;
use card_set::{Card, Rank, rank_index};
use hand_order::{HandOrder, Pick};
use play_event::{Code, Limit, Opener, Street};

/// A game with its table.
pub trait Variant {
    /// The order of hands that a pot is paid by, or its first half.
    type Award: HandOrder;
    /// The order of hands that the second half is paid by if `SPLIT` is true; else `Award`, and not
    /// used.
    type Second: HandOrder;

    ghost CODE: { Code };

    ghost SPLIT: { Bool };

    ghost PICK: { Pick };

    ghost LIMIT: { Limit };

    ghost OPEN: { Opener };

    ghost DECK: { ℕ };

    ghost SEATS: { ℕ };

    ghost STREETS: { ℕ };

    /// The code of the game.
    const CODE: Code;
    /// Whether half of a pot goes to the best low hand, if there is one.
    const SPLIT: bool;
    /// Which of a player's cards and the board's count.
    const PICK: Pick;

    /// What limits the amounts of bets and raises.
    const LIMIT: Limit;
    /// Who opens the streets: decided by the blinds or by the up-cards.
    const OPEN: Opener;
    /// How many cards the deck has.
    const DECK: u8;
    /// The most seats.
    const SEATS: u8;
    /// The number of streets of the game.
    const STREETS: u8;

    /// The street with this number, from 1 to `STREETS`.
    fn street(number: u8) -> Street
        requires first { 1 ≤ number }
        requires last { number ≤ STREETS }
        ensures { slice_get (game_of CODE).streets (number - 1) ≡ Some result };

    /// Whether the deck has this card.
    fn in_deck(card: Card) -> bool
        ensures { result ≡ is_in_deck CODE card }
    {
        Self::DECK != SHORT_DECK || rank_index(card.rank) >= rank_index(Rank::Six)
    }

    /// The constants are those of the table of games.
    ghost values: { AreValuesOf (game_of CODE) SPLIT PICK LIMIT OPEN DECK SEATS STREETS };

    /// The orders are those of the game's code.
    ghost award: { IsOrder (award_of CODE)
        Self.Award.HELD Self.Award.is_hand Self.Award.is_weaker };

    ghost second: { IsOrder (second_of CODE)
        Self.Second.HELD Self.Second.is_hand Self.Second.is_weaker };

    /// The streets deal a whole hand and board, and the deck has enough cards for a full table.
    ghost adds_up: { AddsUp (game_of CODE) } = { table_adds_up CODE };

    /// The pick works on a whole hand and board, in both orders.
    ghost award_usable: { IsUsable (game_of CODE) Self.Award.HELD PICK } = { usable_award CODE
        Self.Award.HELD PICK award.held_is values.pick_is };

    ghost second_usable: { IsUsable (game_of CODE) Self.Second.HELD PICK } = { usable_second CODE
        Self.Second.HELD PICK second.held_is values.pick_is };
}
