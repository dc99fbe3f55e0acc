//! Made hands make progress.
ghost use Rattle.std.specs.Prelude.{ℕ, List, reverse};
ghost use Rattle.play_event.specs.declared.setup.Setup.{Setup};
ghost use Rattle.play_event.specs.HistoryRules.{history_rules};
ghost use Rattle.play_event.specs.Said.{Said};
ghost use Rattle.hand_gen.specs.Made.{HaveCome, source_of};
ghost use Rattle.hand_gen.specs.Progress.{HasEnd, MakesProgress};
ghost use Rattle.hand_gen.specs.Setups.{IsMadeSetup};

/// In a hand of a made setup, made from its stock, every next event is legal and within the limits
/// of a hand; the hand ends; and when there is no next event, it is legal and complete. The
/// function does nothing: its contract is a law.
pub fn law_of_progress()
    ensures progress { (place number : ℕ) (setup : Setup) (script : List Said)
        → IsMadeSetup place number setup
        → HaveCome setup history_rules (source_of number setup) (reverse script)
        → MakesProgress setup (source_of number setup) script }
    ensures ends { (place number : ℕ) (setup : Setup) → IsMadeSetup place number setup
        → HasEnd setup (source_of number setup) }
{}
