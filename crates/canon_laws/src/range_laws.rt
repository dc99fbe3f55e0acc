//! Which events a canonical script can have, how many, and which rules a play suits. The functions
//! do nothing: each contract is a law.
ghost use Rattle.std.specs.Prelude.{◌≡◌, ◌≤◌, List, count_by};
ghost use Rattle.std.specs.List.{AllByRecursion};
ghost use Rattle.play_event.specs.CanonScript.{canon_of};
ghost use Rattle.play_event.specs.PlayedScript.{IsPlayed, IsWithinLimits, is_move_event};
ghost use Rattle.play_event.specs.TraceCore.{core_after};
ghost use Rattle.play_event.specs.declared.hand_limits.TheConstants.{MOST_MOVES};
ghost use Rattle.play_event.specs.Said.{Said};
ghost use Rattle.play_event.specs.ValidSetup.{IsValid};
ghost use Rattle.play_event.specs.declared.setup.Rules.{Rules};
ghost use Rattle.play_event.specs.declared.setup.Setup.{Setup};
ghost use Rattle.canon_laws.specs.OtherRules.{SuitsRules};
ghost use Rattle.play_event.specs.Ranges.{IsInRange};

/// If a script is played to its end, each event of its canonical script is within its range, and
/// the canonical script is within the limits of a hand if the moves of the script are.
pub fn law_of_ranges()
    ensures in_range { (setup : Setup) (rules : Rules) (script : List Said)
        → IsValid setup → IsPlayed setup rules script
        → AllByRecursion (IsInRange setup.stacks.seats) (canon_of setup script) }
    ensures within { (setup : Setup) (rules : Rules) (script : List Said)
        → IsPlayed setup rules script → count_by is_move_event script ≤ MOST_MOVES
        → IsWithinLimits (canon_of setup script) }
{}

/// The canonical script has as many moves as the script.
pub fn law_of_move_counts()
    ensures { (setup : Setup) (rules : Rules) (script : List Said)
        → IsPlayed setup rules script
        → count_by is_move_event (canon_of setup script) ≡ count_by is_move_event script }
{}

/// A play that is legal under some rules suits them: if only full raises reopen the betting, no
/// raise is made where it would be closed; if a fold needs a bet to fold to, each fold has one; and
/// raises are within the caps.
pub fn law_of_own_rules()
    ensures { (setup : Setup) (rules : Rules) (script : List Said)
        → IsPlayed setup rules script → SuitsRules rules (core_after setup script) }
{}
