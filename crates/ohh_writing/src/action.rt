//! A hand is written as rounds of actions: each has a word, a player, and its details.
use card_set::SlotRow;
use ohh_members::street::StreetName;
use ohh_members::words::Word;

/// What an action has beside its word and its player.
#[derive(Clone, Copy)]
pub enum Detail {
    Nothing,
    /// Chips, and whether the player is all-in.
    Chips { amount: u64, all_in: bool },
    Cards(SlotRow),
}

/// An action. Its player is the number of a seat. Its word is one that a play can have: nobody sits
/// down or stands up during a hand.
#[derive(Clone, Copy)]
pub struct Action {
    pub word: Word,
    pub player: u8,
    pub detail: Detail,
}

/// A round, with the cards that it deals to the board.
#[derive(Drop)]
pub struct Round {
    pub street: StreetName,
    pub cards: SlotRow,
    pub actions: Vec<Action>,
}
