//! Omaha: four hole cards, a board of five, and exactly two hole cards with three of the board.
ghost use Rattle.std.specs.Prelude.{true, false};
ghost use Rattle.play_event.specs.declared.code.Code.TheVariants as codes;
ghost use Rattle.card_set.specs.declared.pick.Pick.TheVariants as picks;
ghost use Rattle.play_event.specs.declared.limit.Limit.TheVariants as limits;
ghost use Rattle.play_event.specs.declared.limit.Opener.TheVariants as openers;
ghost use Rattle.variant_table.specs.declared.deck.TheConstants.{WHOLE_DECK};
ghost use Rattle.variant_table.specs.declared.street.TheConstants.{FLOP_SEATS};
ghost use Rattle.variant_table.specs.Orders.{eight_low_order, high_order};
ghost use Rattle.variant_table.specs.TableLaws.{same_order, values_of};

use crate::deck::WHOLE_DECK;
use crate::street::{FLOP_SEATS, flop_street};
use crate::variant::Variant;
use hand_order::Pick;
use high_rank::High;
use low_rank::EightLow;
use play_event::{Code, Limit, Opener, Size, Street};

/// Pot-limit Omaha.
#[derive(Clone, Copy, Debug)]
pub struct PO;

impl Variant for PO {
    type Award = High;

    type Second = High;

    ghost CODE = { codes.PO };

    ghost SPLIT = { false };

    ghost PICK = { picks.TwoAndThree };

    ghost LIMIT = { limits.Pot };

    ghost OPEN = { openers.Blinds };

    ghost DECK = { WHOLE_DECK };

    ghost SEATS = { FLOP_SEATS };

    ghost STREETS = { 4 };

    const CODE: Code = Code::PO;

    const SPLIT: bool = false;

    const PICK: Pick = Pick::TwoAndThree;

    const LIMIT: Limit = Limit::Pot;

    const OPEN: Opener = Opener::Blinds;

    const DECK: u8 = WHOLE_DECK;

    const SEATS: u8 = FLOP_SEATS;

    const STREETS: u8 = 4;

    fn street(number: u8) -> Street {
        flop_street(number, 4, Size::Least, Size::Least)
    }

    ghost values = { values_of codes.PO };

    ghost award = { same_order high_order };

    ghost second = { same_order high_order };
}

/// Fixed-limit Omaha eight-or-better. The low hand, too, takes two hole cards and three of the
/// board.
#[derive(Clone, Copy, Debug)]
pub struct FO8;

impl Variant for FO8 {
    type Award = High;

    type Second = EightLow;

    ghost CODE = { codes.FO8 };

    ghost SPLIT = { true };

    ghost PICK = { picks.TwoAndThree };

    ghost LIMIT = { limits.Fixed };

    ghost OPEN = { openers.Blinds };

    ghost DECK = { WHOLE_DECK };

    ghost SEATS = { FLOP_SEATS };

    ghost STREETS = { 4 };

    const CODE: Code = Code::FO8;

    const SPLIT: bool = true;

    const PICK: Pick = Pick::TwoAndThree;

    const LIMIT: Limit = Limit::Fixed;

    const OPEN: Opener = Opener::Blinds;

    const DECK: u8 = WHOLE_DECK;

    const SEATS: u8 = FLOP_SEATS;

    const STREETS: u8 = 4;

    fn street(number: u8) -> Street {
        flop_street(number, 4, Size::Small, Size::Big)
    }

    ghost values = { values_of codes.FO8 };

    ghost award = { same_order high_order };

    ghost second = { same_order eight_low_order };
}
