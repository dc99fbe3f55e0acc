//! What is legal at a point of a hand is one value, and has one text.
ghost use Rattle.std.specs.Prelude.{◌≡◌, ℕ};
ghost use Rattle.hand_options.specs.Legal.{AreOptions};
ghost use Rattle.hand_options.specs.Printed.{options_said};
ghost use Rattle.hand_options.specs.declared.choices.Options.{Options};
ghost use Rattle.play_event.specs.Past.{Past};
ghost use Rattle.play_event.specs.declared.setup.Rules.{Rules};
ghost use Rattle.play_event.specs.declared.setup.Setup.{Setup};

/// Options of one point of a hand are one value: two right answers are equal. The function does
/// nothing: its contract is a law.
#[tactic(auto, using(crate::proofs::OneText::one_options))]
pub fn law_of_one_options()
    ensures { (setup : Setup) (rules : Rules) (past : Past) (a b : Options)
        → AreOptions setup rules past a → AreOptions setup rules past b → a ≡ b }
{}

/// Options of one point of a hand have one text. The function does nothing: its
/// contract is a law.
#[tactic(auto, using(crate::proofs::OneText::one_text))]
pub fn law_of_one_text()
    ensures { (hand events : ℕ) (setup : Setup) (rules : Rules) (past : Past) (a b : Options)
        → AreOptions setup rules past a → AreOptions setup rules past b
        → options_said hand events a ≡ options_said hand events b }
{}
