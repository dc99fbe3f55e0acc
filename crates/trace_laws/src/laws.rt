//! Laws of whole traces: a past has at most one, the canonical script of a legal hand is legal, and
//! what a row of a trace says about a place.
ghost use Rattle.std.specs.Prelude.{◌≡◌, ◌↔◌, ℕ, List};
ghost use Rattle.play_event.specs.Past.{Past};
ghost use Rattle.play_event.specs.Played.{IsPlace};
ghost use Rattle.play_event.specs.Said.{Said};
ghost use Rattle.play_event.specs.Trace.{TracedPlace};
ghost use Rattle.play_event.specs.declared.played.Place.{Place};
ghost use Rattle.play_event.specs.declared.setup.Rules.{Rules};
ghost use Rattle.play_event.specs.declared.setup.Setup.{Setup};
ghost use Rattle.play_event.specs.CanonScript.{canon_of};
ghost use Rattle.play_event.specs.PlayedScript.{IsPlayed};
ghost use Rattle.play_event.specs.TraceCore.{core_after, core_of};
ghost use Rattle.hand_canon.specs.LegalHand.{IsLegalHand};
ghost use Rattle.hand_canon.specs.TraceRows.{place_said};
ghost use Rattle.hand_canon.specs.WholeTrace.{HasShares, IsTraceOf};
ghost use Rattle.hand_canon.specs.declared.trace.Trace.{Trace};

/// A past has at most one whole trace. Whole traces of two pasts under one setup are the same if
/// and only if the pasts have the same places, moves, shown and mucked seats, pots and returns:
/// these determine the shares and the finishing stacks. The function does nothing: its contract is
/// a law.
pub fn law_of_one_trace()
    ensures one_past { (setup : Setup) (past : Past) (trace other : Trace)
        → IsTraceOf setup past trace → IsTraceOf setup past other → trace ≡ other }
    ensures one_core { (setup : Setup) (past later : Past) (trace other : Trace)
        → IsTraceOf setup past trace → IsTraceOf setup later other
        → (trace ≡ other) ↔ (core_of setup past ≡ core_of setup later) }
{}

/// The canonical script of the trace of a legal hand is a legal hand under the same rules, with the
/// same shares and finishing stacks.
pub fn law_of_canonical_hands()
    ensures legal { (setup : Setup) (rules : Rules) (script : List Said)
        → IsLegalHand setup rules script → IsLegalHand setup rules (canon_of setup script) }
    ensures same_shares { (setup : Setup) (rules : Rules) (script : List Said)
        → (shares : List (ℕ → ℕ)) (finish : ℕ → ℕ) → IsPlayed setup rules script
        → HasShares setup (core_after setup script) shares finish
        ↔ HasShares setup (core_after setup (canon_of setup script)) shares finish }
{}

/// A row describes a place (`IsPlace`, as places are gathered card by card) if and only if this
/// place is what a trace with that row keeps.
pub fn law_of_places()
    ensures { (row : Place) (place : TracedPlace) → IsPlace row place ↔ (place_said row ≡ place) }
{}
