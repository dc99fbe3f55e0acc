//! The classes of hands of the high orders, which differ only in whether a flush beats a full
//! house.
ghost use Rattle.std.specs.Prelude.{◌≡◌};
ghost use Rattle.hand_order.specs.Ladder as ladder;

/// How a flush ranks beside a full house.
#[derive(Clone, Copy, Debug, PartialEq, Eq)]
pub enum FlushRank {
    /// Below it, as with the whole deck.
    BelowFullHouse,
    /// Above it, as with the deck of 36.
    AboveFullHouse,
}

/// The class of a flush, 5 or 6.
pub fn class_of_flush(place: FlushRank) -> u32
    ensures { result ≡ ladder.flush_class place }
{
    match place {
        FlushRank::BelowFullHouse => 5,
        FlushRank::AboveFullHouse => 6,
    }
}

/// The class in this order of a hand whose class was found as if a full house were class 6.
pub fn adjust_class(place: FlushRank, class: u32) -> u32
    ensures { result ≡ ladder.flush_ranked place class }
{
    match place {
        FlushRank::BelowFullHouse => class,
        FlushRank::AboveFullHouse => if class == 6 { 5 } else { class },
    }
}
