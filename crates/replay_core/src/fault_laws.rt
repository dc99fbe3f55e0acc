//! A script has at most one fault.
ghost use Rattle.std.specs.Prelude.{◌≡◌, List};
ghost use Rattle.hand_canon.specs.LegalHand.{IsLegalHand};
ghost use Rattle.play_event.specs.declared.event.Event.{Event};
ghost use Rattle.play_event.specs.declared.setup.Rules.{Rules};
ghost use Rattle.play_event.specs.declared.setup.Setup.{Setup};
ghost use Rattle.replay_core.specs.Events.{said_by};
ghost use Rattle.replay_core.specs.Faults.{IsFaultOf, IsOutOfMemory};
ghost use Rattle.replay_core.specs.declared.fault.ReplayFault.{ReplayFault};

/// A script has at most one fault, apart from out of memory, and a legal hand has none. The
/// function does nothing: its contract is a law.
pub fn law_of_one_fault()
    ensures one { (setup : Setup) (rules : Rules) (script : List Event) (fault other : ReplayFault)
        → (IsOutOfMemory fault → ⊥) → (IsOutOfMemory other → ⊥)
        → IsFaultOf setup rules script fault → IsFaultOf setup rules script other
        → fault ≡ other }
    ensures none { (setup : Setup) (rules : Rules) (script : List Event) (fault : ReplayFault)
        → (IsOutOfMemory fault → ⊥) → IsLegalHand setup rules (said_by script)
        → IsFaultOf setup rules script fault → ⊥ }
{}
