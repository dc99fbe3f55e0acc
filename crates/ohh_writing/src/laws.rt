//! What is written for a hand is one line, proved over the definitions.
ghost use Rattle.std.specs.Prelude.{◌≡◌, ◌==◌, ℕ, true, not};
ghost use Rattle.std.specs.List.{list_all};
ghost use Rattle.hand_canon.specs.declared.trace.Play.{Play};
ghost use Rattle.ohh_members.specs.declared.dialect.Dialect.{Dialect};
ghost use Rattle.ohh_writing.specs.Lines.{hand_text};

/// No byte of the text of a hand is a newline, whatever its names and texts are. The function does
/// nothing: its contract is a law.
#[tactic(auto, using(crate::proofs::Clean::hand_clean))]
pub fn law_of_lines()
    ensures { (dialect : Dialect) (place : ℕ) (play : Play)
        → list_all (λ byte. not (byte == 10)) (hand_text dialect place play) ≡ true }
{}
