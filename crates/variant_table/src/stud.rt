//! Stud: seven hole cards, four of them dealt face up, no board, and any five of the seven make the
//! hand.
ghost use Rattle.std.specs.Prelude.{◌≡◌, ◌≤◌, ◌-◌, Some, slice_get, true, false};
ghost use Rattle.play_event.specs.declared.code.Code.TheVariants as codes;
ghost use Rattle.play_event.specs.Games.{stud_streets};
ghost use Rattle.card_set.specs.declared.pick.Pick.TheVariants as picks;
ghost use Rattle.play_event.specs.declared.limit.Limit.TheVariants as limits;
ghost use Rattle.play_event.specs.declared.limit.Opener.TheVariants as openers;
ghost use Rattle.variant_table.specs.declared.deck.TheConstants.{WHOLE_DECK};
ghost use Rattle.variant_table.specs.declared.stud.TheConstants.{STUD_SEATS};
ghost use Rattle.variant_table.specs.Orders.{eight_low_order, high_order, razz_order};
ghost use Rattle.variant_table.specs.TableLaws.{same_order, values_of};

use crate::deck::WHOLE_DECK;
use crate::street::new_hole_street;
use crate::variant::Variant;
use hand_order::Pick;
use high_rank::High;
use low_rank::{EightLow, RazzLow};
use play_event::{Code, Limit, Opener, Size, Street};

// The most seats of a stud game.
const STUD_SEATS: u8 = 7;

/// Fixed-limit seven card stud.
#[derive(Clone, Copy, Debug)]
pub struct F7S;

impl Variant for F7S {
    type Award = High;

    type Second = High;

    ghost CODE = { codes.F7S };

    ghost SPLIT = { false };

    ghost PICK = { picks.AnyFive };

    ghost LIMIT = { limits.Fixed };

    ghost OPEN = { openers.LowUp };

    ghost DECK = { WHOLE_DECK };

    ghost SEATS = { STUD_SEATS };

    ghost STREETS = { 5 };

    const CODE: Code = Code::F7S;

    const SPLIT: bool = false;

    const PICK: Pick = Pick::AnyFive;

    const LIMIT: Limit = Limit::Fixed;

    const OPEN: Opener = Opener::LowUp;

    const DECK: u8 = WHOLE_DECK;

    const SEATS: u8 = STUD_SEATS;

    const STREETS: u8 = 5;

    fn street(number: u8) -> Street {
        stud_street(number)
    }

    ghost values = { values_of codes.F7S };

    ghost award = { same_order high_order };

    ghost second = { same_order high_order };
}

/// Fixed-limit seven card stud eight-or-better.
#[derive(Clone, Copy, Debug)]
pub struct F7S8;

impl Variant for F7S8 {
    type Award = High;

    type Second = EightLow;

    ghost CODE = { codes.F7S8 };

    ghost SPLIT = { true };

    ghost PICK = { picks.AnyFive };

    ghost LIMIT = { limits.Fixed };

    ghost OPEN = { openers.LowUp };

    ghost DECK = { WHOLE_DECK };

    ghost SEATS = { STUD_SEATS };

    ghost STREETS = { 5 };

    const CODE: Code = Code::F7S8;

    const SPLIT: bool = true;

    const PICK: Pick = Pick::AnyFive;

    const LIMIT: Limit = Limit::Fixed;

    const OPEN: Opener = Opener::LowUp;

    const DECK: u8 = WHOLE_DECK;

    const SEATS: u8 = STUD_SEATS;

    const STREETS: u8 = 5;

    fn street(number: u8) -> Street {
        stud_street(number)
    }

    ghost values = { values_of codes.F7S8 };

    ghost award = { same_order high_order };

    ghost second = { same_order eight_low_order };
}

/// Fixed-limit razz: the lowest hand wins, and the highest up-card brings in.
#[derive(Clone, Copy, Debug)]
pub struct FR;

impl Variant for FR {
    type Award = RazzLow;

    type Second = RazzLow;

    ghost CODE = { codes.FR };

    ghost SPLIT = { false };

    ghost PICK = { picks.AnyFive };

    ghost LIMIT = { limits.Fixed };

    ghost OPEN = { openers.HighUp };

    ghost DECK = { WHOLE_DECK };

    ghost SEATS = { STUD_SEATS };

    ghost STREETS = { 5 };

    const CODE: Code = Code::FR;

    const SPLIT: bool = false;

    const PICK: Pick = Pick::AnyFive;

    const LIMIT: Limit = Limit::Fixed;

    const OPEN: Opener = Opener::HighUp;

    const DECK: u8 = WHOLE_DECK;

    const SEATS: u8 = STUD_SEATS;

    const STREETS: u8 = 5;

    fn street(number: u8) -> Street {
        stud_street(number)
    }

    ghost values = { values_of codes.FR };

    ghost award = { same_order razz_order };

    ghost second = { same_order razz_order };
}

// Two cards down and one up, then three times one up, and one down. From the third street on, the
// big bet applies.
fn stud_street(number: u8) -> Street
    requires first { 1 ≤ number }
    requires last { number ≤ 5 }
    ensures { slice_get stud_streets (number - 1) ≡ Some result }
{
    match number {
        1 => new_hole_street(2, 1, Size::Small),
        2 => new_hole_street(0, 1, Size::Small),
        3 | 4 => new_hole_street(0, 1, Size::Big),
        _ => new_hole_street(1, 0, Size::Big),
    }
}
