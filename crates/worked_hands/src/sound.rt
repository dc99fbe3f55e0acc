//! Plays of the hand in which p3 steals the blinds, a sound one and others. Each function does
//! nothing: its contract is computed from the definition of sound plays.
ghost use Rattle.std.specs.Prelude.{◌≡◌, codes, None, Some, replicate};
ghost use Rattle.play_event.specs.HistoryRules.{history_rules};
ghost use Rattle.hand_canon.specs.Sound.{IsSound};
ghost use Rattle.hand_canon.specs.SoundRecord.{script_said};
ghost use Rattle.hand_canon.specs.declared.record.Record.{Record};
ghost use Rattle.worked_hands.specs.Setups.{greater_second_blind, no_limit};
ghost use Rattle.worked_hands.specs.Words.{muck};
ghost use Rattle.worked_hands.specs.Plays.{SaysHand, cut_short, early_raise, play_of};
ghost use Rattle.worked_hands.specs.Traces.{steal, steal_trace};
ghost use Rattle.worked_hands.specs.WrittenNotes.{at_table, named, no_notes};
ghost use Rattle.worked_hands.specs.WrongTraces.{chip_from_p2};

/// A record of the hand with its trace, with and without notes.
pub fn sound_plays()
    ensures without_notes { (hand : Record) → SaysHand no_limit history_rules steal no_notes hand
        → IsSound (play_of hand steal_trace) }
    ensures with_a_table { (hand : Record)
        → SaysHand no_limit history_rules steal (at_table (codes "7")) hand
        → IsSound (play_of hand steal_trace) }
{}

/// Plays that each break one condition.
pub fn unsound_plays()
    ensures another_trace { (hand : Record) → SaysHand no_limit history_rules steal no_notes hand
        → ¬ (IsSound (play_of hand chip_from_p2)) }
    ensures a_default_note { (hand : Record)
        → SaysHand no_limit history_rules steal (named None (Some (codes "p2")) None) hand
        → ¬ (IsSound (play_of hand steal_trace)) }
    ensures a_script_cut_short { (hand : Record)
        → SaysHand no_limit history_rules cut_short no_notes hand
        → ¬ (IsSound (play_of hand steal_trace)) }
    ensures an_event_out_of_turn { (hand : Record)
        → SaysHand no_limit history_rules early_raise no_notes hand
        → ¬ (IsSound (play_of hand steal_trace)) }
    ensures a_setup_that_is_not_valid { (hand : Record) → hand.setup ≡ greater_second_blind
        → ¬ (IsSound (play_of hand steal_trace)) }
    ensures too_many_events { (hand : Record) → script_said hand ≡ replicate 257 (muck 1)
        → ¬ (IsSound (play_of hand steal_trace)) }
{}
