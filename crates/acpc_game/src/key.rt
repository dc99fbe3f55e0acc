//! The keys of a game file: words in capitals or small letters.
ghost use Rattle.std.specs.Prelude.{◌≡◌};
ghost use Rattle.acpc_game.specs.Keys.{key_order, most_of};
ghost use Rattle.acpc_game.specs.Keys as keys;

use chip_ledger::MOST_CHIPS;

/// What a line of a game file begins with, or is.
#[derive(Clone, Copy, Debug, PartialEq, Eq)]
pub enum GameKey {
    /// `GAMEDEF`
    Begin,
    /// `END GAMEDEF`
    End,
    Limit,
    NoLimit,
    NumPlayers,
    NumRounds,
    Stack,
    Blind,
    RaiseSize,
    /// `raiseSize` of a no-limit game: its numbers are ignored.
    UnusedSizes,
    FirstPlayer,
    MaxRaises,
    NumSuits,
    NumRanks,
    NumHoleCards,
    NumBoardCards,
}

/// The key that a word names, if it takes numbers.
pub fn parse_key(word: &[u8]) -> Option<GameKey>
    ensures { result ≡ keys.key_named word.now }
{
    match parse_card_key(word) {
        Some(key) => Some(key),
        None => parse_chip_key(word),
    }
}

// The key that a word names, if it takes one number or is that of the board cards.
#[tactic(auto, unfolding(crate::specs::Keys::card_key_named))]
fn parse_card_key(word: &[u8]) -> Option<GameKey>
    ensures { result ≡ keys.card_key_named word.now }
{
    if equals_ignoring_case("numPlayers", word) {
        Some(GameKey::NumPlayers)
    } else if equals_ignoring_case("numRounds", word) {
        Some(GameKey::NumRounds)
    } else if equals_ignoring_case("numSuits", word) {
        Some(GameKey::NumSuits)
    } else if equals_ignoring_case("numRanks", word) {
        Some(GameKey::NumRanks)
    } else if equals_ignoring_case("numHoleCards", word) {
        Some(GameKey::NumHoleCards)
    } else if equals_ignoring_case("numBoardCards", word) {
        Some(GameKey::NumBoardCards)
    } else {
        None
    }
}

// The key that a word names, if it is one of chips or of turns.
#[tactic(auto, unfolding(crate::specs::Keys::chip_key_named))]
fn parse_chip_key(word: &[u8]) -> Option<GameKey>
    ensures { result ≡ keys.chip_key_named word.now }
{
    if equals_ignoring_case("stack", word) {
        Some(GameKey::Stack)
    } else if equals_ignoring_case("blind", word) {
        Some(GameKey::Blind)
    } else if equals_ignoring_case("raiseSize", word) {
        Some(GameKey::RaiseSize)
    } else if equals_ignoring_case("firstPlayer", word) {
        Some(GameKey::FirstPlayer)
    } else if equals_ignoring_case("maxRaises", word) {
        Some(GameKey::MaxRaises)
    } else {
        None
    }
}

/// Whether the text is this word, in capitals or small letters.
#[tactic(auto, unfolding(crate::specs::Keys::is_word), using(card_set::proofs::Bytes::equal_by_test))]
pub fn equals_ignoring_case(name: &str, text: &[u8]) -> bool
    ensures { result ≡ keys.is_word name.now text.now }
{
    text.eq_ignore_ascii_case(name.as_bytes())
}

impl GameKey {
    /// The place of the key in a written file; `limit` and `nolimit` have the same place, and so do
    /// raise sizes that are used and raise sizes that are not.
    pub fn place(self) -> u8
        ensures { result ≡ key_order self }
    {
        match self {
            GameKey::Begin => 0,
            GameKey::Limit => 1,
            GameKey::NoLimit => 1,
            GameKey::NumPlayers => 2,
            GameKey::NumRounds => 3,
            GameKey::Stack => 4,
            GameKey::Blind => 5,
            GameKey::RaiseSize => 6,
            GameKey::UnusedSizes => 6,
            GameKey::FirstPlayer => 7,
            GameKey::MaxRaises => 8,
            GameKey::NumSuits => 9,
            GameKey::NumRanks => 10,
            GameKey::NumHoleCards => 11,
            GameKey::NumBoardCards => 12,
            GameKey::End => 13,
        }
    }

    /// The greatest number that the key takes.
    pub fn most(self) -> u64
        ensures { result ≡ most_of self }
    {
        match self {
            GameKey::MaxRaises => 4_294_967_295,
            _ => MOST_CHIPS,
        }
    }

    /// Whether the key takes `count` numbers.
    pub fn has_count(self, count: usize) -> bool
        ensures { result ≡ keys.takes_count self count }
    {
        match self {
            GameKey::Begin
            | GameKey::End
            | GameKey::Limit
            | GameKey::NoLimit
            | GameKey::UnusedSizes => count == 0,
            GameKey::Stack | GameKey::Blind => count > 0,
            GameKey::RaiseSize
            | GameKey::FirstPlayer
            | GameKey::MaxRaises
            | GameKey::NumBoardCards => count == 4,
            GameKey::NumPlayers
            | GameKey::NumRounds
            | GameKey::NumSuits
            | GameKey::NumRanks
            | GameKey::NumHoleCards => count == 1,
        }
    }
}
