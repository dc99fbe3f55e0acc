//! Hold'em: two hole cards, a board of five, and any five of these seven cards make the hand.
ghost use Rattle.std.specs.Prelude.{false};
ghost use Rattle.play_event.specs.declared.code.Code.TheVariants as codes;
ghost use Rattle.card_set.specs.declared.pick.Pick.TheVariants as picks;
ghost use Rattle.play_event.specs.declared.limit.Limit.TheVariants as limits;
ghost use Rattle.play_event.specs.declared.limit.Opener.TheVariants as openers;
ghost use Rattle.variant_table.specs.declared.deck.TheConstants.{SHORT_DECK, WHOLE_DECK};
ghost use Rattle.variant_table.specs.declared.street.TheConstants.{FLOP_SEATS};
ghost use Rattle.variant_table.specs.Orders.{high_order, short_deck_order};
ghost use Rattle.variant_table.specs.TableLaws.{same_order, values_of};

use crate::deck::{SHORT_DECK, WHOLE_DECK};
use crate::street::{FLOP_SEATS, flop_street};
use crate::variant::Variant;
use hand_order::Pick;
use high_rank::{High, ShortDeckHigh};
use play_event::{Code, Limit, Opener, Size, Street};

/// Fixed-limit Texas hold'em.
#[derive(Clone, Copy, Debug)]
pub struct FT;

impl Variant for FT {
    type Award = High;

    type Second = High;

    ghost CODE = { codes.FT };

    ghost SPLIT = { false };

    ghost PICK = { picks.AnyFive };

    ghost LIMIT = { limits.Fixed };

    ghost OPEN = { openers.Blinds };

    ghost DECK = { WHOLE_DECK };

    ghost SEATS = { FLOP_SEATS };

    ghost STREETS = { 4 };

    const CODE: Code = Code::FT;

    const SPLIT: bool = false;

    const PICK: Pick = Pick::AnyFive;

    const LIMIT: Limit = Limit::Fixed;

    const OPEN: Opener = Opener::Blinds;

    const DECK: u8 = WHOLE_DECK;

    const SEATS: u8 = FLOP_SEATS;

    const STREETS: u8 = 4;

    fn street(number: u8) -> Street {
        flop_street(number, 2, Size::Small, Size::Big)
    }

    ghost values = { values_of codes.FT };

    ghost award = { same_order high_order };

    ghost second = { same_order high_order };
}

/// No-limit Texas hold'em.
#[derive(Clone, Copy, Debug)]
pub struct NT;

impl Variant for NT {
    type Award = High;

    type Second = High;

    ghost CODE = { codes.NT };

    ghost SPLIT = { false };

    ghost PICK = { picks.AnyFive };

    ghost LIMIT = { limits.No };

    ghost OPEN = { openers.Blinds };

    ghost DECK = { WHOLE_DECK };

    ghost SEATS = { FLOP_SEATS };

    ghost STREETS = { 4 };

    const CODE: Code = Code::NT;

    const SPLIT: bool = false;

    const PICK: Pick = Pick::AnyFive;

    const LIMIT: Limit = Limit::No;

    const OPEN: Opener = Opener::Blinds;

    const DECK: u8 = WHOLE_DECK;

    const SEATS: u8 = FLOP_SEATS;

    const STREETS: u8 = 4;

    fn street(number: u8) -> Street {
        flop_street(number, 2, Size::Least, Size::Least)
    }

    ghost values = { values_of codes.NT };

    ghost award = { same_order high_order };

    ghost second = { same_order high_order };
}

/// No-limit short-deck hold'em, with the 36 cards from the six up.
#[derive(Clone, Copy, Debug)]
pub struct NS;

impl Variant for NS {
    type Award = ShortDeckHigh;

    type Second = ShortDeckHigh;

    ghost CODE = { codes.NS };

    ghost SPLIT = { false };

    ghost PICK = { picks.AnyFive };

    ghost LIMIT = { limits.No };

    ghost OPEN = { openers.Blinds };

    ghost DECK = { SHORT_DECK };

    ghost SEATS = { FLOP_SEATS };

    ghost STREETS = { 4 };

    const CODE: Code = Code::NS;

    const SPLIT: bool = false;

    const PICK: Pick = Pick::AnyFive;

    const LIMIT: Limit = Limit::No;

    const OPEN: Opener = Opener::Blinds;

    const DECK: u8 = SHORT_DECK;

    const SEATS: u8 = FLOP_SEATS;

    const STREETS: u8 = 4;

    fn street(number: u8) -> Street {
        flop_street(number, 2, Size::Least, Size::Least)
    }

    ghost values = { values_of codes.NS };

    ghost award = { same_order short_deck_order };

    ghost second = { same_order short_deck_order };
}
