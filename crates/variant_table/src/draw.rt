//! Draw games: hole cards only, which a seat may exchange; the hand is all that it holds at the
//! end.
ghost use Rattle.std.specs.Prelude.{◌≡◌, ◌≤◌, ◌-◌, Some, slice_get, false};
ghost use Rattle.play_event.specs.declared.code.Code.TheVariants as codes;
ghost use Rattle.play_event.specs.Games.{draw_street, draw_streets};
ghost use Rattle.card_set.specs.declared.pick.Pick.TheVariants as picks;
ghost use Rattle.play_event.specs.declared.limit.Limit.TheVariants as limits;
ghost use Rattle.play_event.specs.declared.limit.Opener.TheVariants as openers;
ghost use Rattle.variant_table.specs.declared.deck.TheConstants.{WHOLE_DECK};
ghost use Rattle.variant_table.specs.declared.draw.TheConstants.{DRAW_SEATS};
ghost use Rattle.variant_table.specs.Orders.{badugi_order, deuce_seven_order};
ghost use Rattle.variant_table.specs.TableLaws.{same_order, values_of};

use crate::deck::WHOLE_DECK;
use crate::street::{NO_STREET, new_hole_street};
use crate::variant::Variant;
use badugi_rank::Badugi;
use hand_order::Pick;
use low_rank::DeuceSeven;
use play_event::{Code, Limit, Opener, Size, Street};

// The most seats of a draw game.
const DRAW_SEATS: u8 = 6;

/// No-limit deuce-to-seven single draw.
#[derive(Clone, Copy, Debug)]
pub struct N2L1D;

impl Variant for N2L1D {
    type Award = DeuceSeven;

    type Second = DeuceSeven;

    ghost CODE = { codes.N2L1D };

    ghost SPLIT = { false };

    ghost PICK = { picks.AllHeld };

    ghost LIMIT = { limits.No };

    ghost OPEN = { openers.Blinds };

    ghost DECK = { WHOLE_DECK };

    ghost SEATS = { DRAW_SEATS };

    ghost STREETS = { 2 };

    const CODE: Code = Code::N2L1D;

    const SPLIT: bool = false;

    const PICK: Pick = Pick::AllHeld;

    const LIMIT: Limit = Limit::No;

    const OPEN: Opener = Opener::Blinds;

    const DECK: u8 = WHOLE_DECK;

    const SEATS: u8 = DRAW_SEATS;

    const STREETS: u8 = 2;

    fn street(number: u8) -> Street {
        match number {
            1 => new_hole_street(5, 0, Size::Least),
            _ => draw(Size::Least),
        }
    }

    ghost values = { values_of codes.N2L1D };

    ghost award = { same_order deuce_seven_order };

    ghost second = { same_order deuce_seven_order };
}

/// Fixed-limit deuce-to-seven triple draw.
#[derive(Clone, Copy, Debug)]
pub struct F2L3D;

impl Variant for F2L3D {
    type Award = DeuceSeven;

    type Second = DeuceSeven;

    ghost CODE = { codes.F2L3D };

    ghost SPLIT = { false };

    ghost PICK = { picks.AllHeld };

    ghost LIMIT = { limits.Fixed };

    ghost OPEN = { openers.Blinds };

    ghost DECK = { WHOLE_DECK };

    ghost SEATS = { DRAW_SEATS };

    ghost STREETS = { 4 };

    const CODE: Code = Code::F2L3D;

    const SPLIT: bool = false;

    const PICK: Pick = Pick::AllHeld;

    const LIMIT: Limit = Limit::Fixed;

    const OPEN: Opener = Opener::Blinds;

    const DECK: u8 = WHOLE_DECK;

    const SEATS: u8 = DRAW_SEATS;

    const STREETS: u8 = 4;

    fn street(number: u8) -> Street {
        triple_draw_street(number, 5)
    }

    ghost values = { values_of codes.F2L3D };

    ghost award = { same_order deuce_seven_order };

    ghost second = { same_order deuce_seven_order };
}

/// Fixed-limit badugi.
#[derive(Clone, Copy, Debug)]
pub struct FB;

impl Variant for FB {
    type Award = Badugi;

    type Second = Badugi;

    ghost CODE = { codes.FB };

    ghost SPLIT = { false };

    ghost PICK = { picks.AllHeld };

    ghost LIMIT = { limits.Fixed };

    ghost OPEN = { openers.Blinds };

    ghost DECK = { WHOLE_DECK };

    ghost SEATS = { DRAW_SEATS };

    ghost STREETS = { 4 };

    const CODE: Code = Code::FB;

    const SPLIT: bool = false;

    const PICK: Pick = Pick::AllHeld;

    const LIMIT: Limit = Limit::Fixed;

    const OPEN: Opener = Opener::Blinds;

    const DECK: u8 = WHOLE_DECK;

    const SEATS: u8 = DRAW_SEATS;

    const STREETS: u8 = 4;

    fn street(number: u8) -> Street {
        triple_draw_street(number, 4)
    }

    ghost values = { values_of codes.FB };

    ghost award = { same_order badugi_order };

    ghost second = { same_order badugi_order };
}

// The hole cards, and then three draws. From the third street on, the big bet applies.
fn triple_draw_street(number: u8, cards: u8) -> Street
    requires first { 1 ≤ number }
    requires last { number ≤ 4 }
    ensures { slice_get (draw_streets cards) (number - 1) ≡ Some result }
{
    match number {
        1 => new_hole_street(cards, 0, Size::Small),
        2 => draw(Size::Small),
        _ => draw(Size::Big),
    }
}

// A street on which each live seat draws.
fn draw(size: Size) -> Street
    ensures { result ≡ draw_street size }
{
    Street {
        draws: true,
        size,
        ..NO_STREET
    }
}
