//! What follows from the definition of equity, however it is computed. The functions do nothing:
//! each contract is a law.
ghost use Rattle.std.specs.Prelude.{◌≡◌, ◌-◌, ◌*◌, ◌/◌, ◌≤◌, ℕ, List, length};
ghost use Rattle.card_set.specs.declared.card.Card.{Card};
ghost use Rattle.card_set.specs.CardSet.{AreSameCards};
ghost use Rattle.hand_order.specs.Choices.{IsAmong};
ghost use Rattle.play_event.specs.declared.code.Code.{Code};
ghost use Rattle.hand_equity.specs.declared.row.EquityRow.{EquityRow};
ghost use Rattle.hand_equity.specs.Completions.{AreApart, IsCompletion};
ghost use Rattle.hand_equity.specs.Equity.{HasNothing, IsEquity, completions, lacking};
ghost use Rattle.hand_equity.specs.LiveHands.{IsLive};
ghost use Rattle.hand_equity.specs.Undealt.{Standing, rest_of};

/// The same cards on the table have one equity.
#[tactic(auto, using(crate::proofs::OneEquity::one_equity))]
pub fn law_of_one_equity()
    ensures { (code : Code) (standing : Standing) (row other : EquityRow)
        → IsEquity code standing row → IsEquity code standing other → row ≡ other }
{}

/// A seat that is not live, or is no seat of the hand, wins and ties 0 times.
#[tactic(auto, using(crate::proofs::Absent::absent))]
pub fn law_of_absent_seats()
    ensures { (code : Code) (standing : Standing) (row : EquityRow) (seat : ℕ)
        → IsEquity code standing row → 1 ≤ seat → ¬ (IsLive standing.hands seat)
        → HasNothing row seat }
{}

/// The completions are the sets of different cards of the rest that fill the board to five, each
/// once.
pub fn law_of_completions()
    ensures each { (code : Code) (standing : Standing) (more : List Card)
        → IsAmong more (completions code standing) → IsCompletion code standing more }
    ensures all { (code : Code) (standing : Standing) (cards : List Card)
        → IsCompletion code standing cards
        → (more : List Card) × IsAmong more (completions code standing) × AreSameCards more cards }
    ensures once { (code : Code) (standing : Standing) → AreApart (completions code standing) }
{}

/// With n cards in the rest there are 1, n or n (n - 1) / 2 completions if the board is missing no
/// card, one or two.
pub fn law_of_totals()
    ensures none { (code : Code) (standing : Standing) (row : EquityRow)
        → IsEquity code standing row → lacking code standing ≡ 0 → row.total ≡ 1 }
    ensures one { (code : Code) (standing : Standing) (row : EquityRow)
        → IsEquity code standing row → lacking code standing ≡ 1
        → row.total ≡ length (rest_of code standing) }
    ensures two { (code : Code) (standing : Standing) (row : EquityRow)
        → IsEquity code standing row → lacking code standing ≡ 2
        → let n = length (rest_of code standing) in row.total ≡ n * (n - 1) / 2 }
{}
