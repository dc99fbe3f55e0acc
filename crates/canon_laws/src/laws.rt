//! Laws of traces and of their canonical scripts.
ghost use Rattle.std.specs.Prelude.{◌≡◌, ◌↔◌, ◌≤◌, List, count_by};
ghost use Rattle.play_event.specs.Said.{Said};
ghost use Rattle.play_event.specs.ValidSetup.{IsValid};
ghost use Rattle.play_event.specs.declared.setup.Rules.{Rules};
ghost use Rattle.play_event.specs.declared.setup.Setup.{Setup};
ghost use Rattle.play_event.specs.TraceCore.{core_after};
ghost use Rattle.play_event.specs.Tidy.{IsTidy};
ghost use Rattle.play_event.specs.PlayedScript.{IsPlayed, is_move_event};
ghost use Rattle.play_event.specs.declared.hand_limits.TheConstants.{MOST_MOVES};
ghost use Rattle.play_event.specs.CanonScript.{canon_of};
ghost use Rattle.canon_laws.specs.Confluence.{IsConfluent};
ghost use Rattle.canon_laws.specs.OtherRules.{SuitsRules};

/// If a script is played to its end, so is the canonical script of its trace, under the same rules
/// and with the same trace. The function does nothing: its contract is a law.
pub fn law_of_confluence()
    ensures confluent { (setup : Setup) (rules : Rules) (script : List Said)
        → IsPlayed setup rules script → IsConfluent setup rules script }
{}

/// Two scripts that are played to their ends, each under its own rules, leave the same trace if and
/// only if they have the same canonical script; and the canonical script of a canonical script is
/// itself.
pub fn law_of_canonical_scripts()
    ensures one_trace { (setup : Setup) (rules others : Rules) (script other : List Said)
        → IsPlayed setup rules script → IsPlayed setup others other
        → (core_after setup script ≡ core_after setup other)
        ↔ (canon_of setup script ≡ canon_of setup other) }
    ensures its_own { (setup : Setup) (rules : Rules) (script : List Said)
        → IsPlayed setup rules script
        → canon_of setup (canon_of setup script) ≡ canon_of setup script }
{}

/// The trace of a script that is played to its end is tidy, if its moves are within the limit.
pub fn law_of_tidy_traces()
    ensures tidy { (setup : Setup) (rules : Rules) (script : List Said)
        → IsPlayed setup rules script → count_by is_move_event script ≤ MOST_MOVES
        → IsTidy (core_after setup script) }
{}

/// A play that is legal under the rules of one notation is legal under those of another if it suits
/// them: if only full raises reopen the betting, no raise is made where it would be closed; if a
/// fold needs a bet to fold to, each fold has one; and raises are within the caps.
pub fn law_of_other_rules()
    ensures legal { (setup : Setup) (rules others : Rules) (script : List Said)
        → IsValid setup → IsPlayed setup rules script
        → SuitsRules others (core_after setup script) → IsPlayed setup others script }
{}
