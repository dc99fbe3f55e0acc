//! Reads and writes cards: the letter of the rank and the letter of the suit, or `??` for an
//! unknown card.
ghost use Rattle.std.specs.Prelude.{◌≡◌, ◌≤◌, List, [], ◌∷◌, length, IfOk, IfErr, IfSome, IfNone, IsOkAnd};
ghost use Rattle.card_set.specs.declared.card.Rank.{Rank};
ghost use Rattle.card_set.specs.declared.card.Suit.{Suit};
ghost use Rattle.card_set.specs.declared.card.Slot.{Slot};
ghost use Rattle.card_set.specs.Row.{slots_of};
ghost use Rattle.card_set.specs.Spelling.{rank_letter, suit_letter, slot_spelling, spelling, HasFault, IsRankLetter, IsSuitLetter, PairFault};

use crate::card::{Card, Rank, Slot, Suit};
use crate::row::SlotRow;

/// Why bytes do not write a row of slots.
#[derive(Clone, Copy, Debug, PartialEq, Eq)]
pub enum CardFault {
    /// An odd number of bytes.
    OddLength,
    /// The first byte of a pair is neither a letter of a rank nor `?`.
    BadRank,
    /// The second byte of a pair does not fit its first.
    BadSuit,
    /// More than seven pairs.
    TooMany,
}

/// The two letters of a slot, the same in every notation.
pub fn slot_text(slot: Slot) -> [u8; 2]
    ensures { result ≡ slot_spelling slot }
{
    match slot {
        Slot::Known(card) => [letter_of_rank(card.rank), letter_of_suit(card.suit)],
        Slot::Unknown => [b'?', b'?'],
    }
}

fn letter_of_rank(rank: Rank) -> u8
    ensures { result ≡ rank_letter rank }
{
    match rank {
        Rank::Two => b'2',
        Rank::Three => b'3',
        Rank::Four => b'4',
        Rank::Five => b'5',
        Rank::Six => b'6',
        Rank::Seven => b'7',
        Rank::Eight => b'8',
        Rank::Nine => b'9',
        Rank::Ten => b'T',
        Rank::Jack => b'J',
        Rank::Queen => b'Q',
        Rank::King => b'K',
        Rank::Ace => b'A',
    }
}

fn letter_of_suit(suit: Suit) -> u8
    ensures { result ≡ suit_letter suit }
{
    match suit {
        Suit::C => b'c',
        Suit::D => b'd',
        Suit::H => b'h',
        Suit::S => b's',
    }
}

/// The slots that the bytes write, two letters each and at most seven of them. An odd length is
/// reported before more than seven pairs, and both before the first bad pair.
#[tactic(auto, using(crate::proofs::Spelled::pair_fault))]
pub fn read_slots(bytes: &[u8]) -> Result<SlotRow, CardFault>
    ensures read { IfOk result (λ row. bytes.now ≡ spelling (slots_of row)) }
    ensures only { (slots : List Slot) → length slots ≤ 7 → bytes.now ≡ spelling slots
        → IsOkAnd result (λ row. slots_of row ≡ slots) }
    ensures fault { IfErr result (HasFault bytes.now) }
    ensures first_fault { (fault : CardFault) → HasFault bytes.now fault → result ≡ Err fault }
{
    if bytes.len() % 2 == 1 {
        return Err(CardFault::OddLength);
    }
    if bytes.len() > 14 {
        return Err(CardFault::TooMany);
    }
    let mut row = SlotRow::new();
    for index in 0..bytes.len() / 2 {
        let slot = read_slot(bytes[2 * index], bytes[2 * index + 1])?;
        row.push(slot);
    }
    Ok(row)
}

// The slot that a pair of letters writes.
fn read_slot(first: u8, second: u8) -> Result<Slot, CardFault>
    ensures read { IfOk result (λ slot. slot_spelling slot ≡ first ∷ second ∷ []) }
    ensures fault { IfErr result (PairFault first second) }
{
    if first == b'?' {
        return if second == b'?' {
            Ok(Slot::Unknown)
        } else {
            Err(CardFault::BadSuit)
        };
    }
    let Some(rank) = rank_of(first) else {
        return Err(CardFault::BadRank)
    };
    let Some(suit) = suit_of(second) else {
        return Err(CardFault::BadSuit)
    };
    Ok(Slot::Known(Card { rank, suit }))
}

fn rank_of(letter: u8) -> Option<Rank>
    ensures read { IfSome result (λ rank. rank_letter rank ≡ letter) }
    ensures none { IfNone result (IsRankLetter letter → ⊥) }
{
    match letter {
        b'2' => Some(Rank::Two),
        b'3' => Some(Rank::Three),
        b'4' => Some(Rank::Four),
        b'5' => Some(Rank::Five),
        b'6' => Some(Rank::Six),
        b'7' => Some(Rank::Seven),
        b'8' => Some(Rank::Eight),
        b'9' => Some(Rank::Nine),
        b'T' => Some(Rank::Ten),
        b'J' => Some(Rank::Jack),
        b'Q' => Some(Rank::Queen),
        b'K' => Some(Rank::King),
        b'A' => Some(Rank::Ace),
        _ => None,
    }
}

fn suit_of(letter: u8) -> Option<Suit>
    ensures read { IfSome result (λ suit. suit_letter suit ≡ letter) }
    ensures none { IfNone result (IsSuitLetter letter → ⊥) }
{
    match letter {
        b'c' => Some(Suit::C),
        b'd' => Some(Suit::D),
        b'h' => Some(Suit::H),
        b's' => Some(Suit::S),
        _ => None,
    }
}
