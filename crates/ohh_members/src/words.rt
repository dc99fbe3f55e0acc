//! The words for what a player did.
ghost use Rattle.std.specs.Prelude.{◌≡◌};
ghost use Rattle.ohh_members.specs.Words.{word_text};
ghost use Rattle.ohh_members.specs.Words as words;

/// What a player did, as a word of the format.
#[derive(Clone, Copy, Debug, PartialEq, Eq)]
pub enum Word {
    PostAnte,
    PostSmallBlind,
    PostBigBlind,
    Straddle,
    DealtCards,
    Fold,
    Check,
    Call,
    Bet,
    Raise,
    ShowsCards,
    MucksCards,
    SitsDown,
    StandsUp,
}

impl Word {
    /// The word as it is written in the format.
    pub fn text(self) -> &'static str
        ensures { result.now ≡ word_text self }
    {
        match self {
            Word::PostAnte => "Post Ante",
            Word::PostSmallBlind => "Post SB",
            Word::PostBigBlind => "Post BB",
            Word::Straddle => "Straddle",
            Word::DealtCards => "Dealt Cards",
            Word::Fold => "Fold",
            Word::Check => "Check",
            Word::Call => "Call",
            Word::Bet => "Bet",
            Word::Raise => "Raise",
            Word::ShowsCards => "Shows Cards",
            Word::MucksCards => "Mucks Cards",
            Word::SitsDown => "Sits Down",
            Word::StandsUp => "Stands Up",
        }
    }
}

/// The word that a text is, if it is one.
#[tactic(auto, unfolding(crate::specs::Words::word_named))]
pub fn parse_word(text: &str) -> Option<Word>
    ensures { result ≡ words.word_named text.now }
{
    match text {
        "Post Ante" => Some(Word::PostAnte),
        "Post SB" => Some(Word::PostSmallBlind),
        "Post BB" => Some(Word::PostBigBlind),
        "Straddle" => Some(Word::Straddle),
        "Dealt Cards" => Some(Word::DealtCards),
        "Fold" => Some(Word::Fold),
        "Check" => Some(Word::Check),
        "Call" => Some(Word::Call),
        "Bet" => Some(Word::Bet),
        "Raise" => Some(Word::Raise),
        "Shows Cards" => Some(Word::ShowsCards),
        "Mucks Cards" => Some(Word::MucksCards),
        "Sits Down" => Some(Word::SitsDown),
        "Stands Up" => Some(Word::StandsUp),
        _ => None,
    }
}

/// Whether the word deals hole cards.
pub fn deals_hole_cards(word: Word) -> bool
    ensures { result ≡ words.is_deal word }
{
    word == Word::DealtCards
}
