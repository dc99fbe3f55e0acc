//! Stated facts compared with the trace of a hand that is written out: the first that differs is
//! found, in the order finishing stacks, wins, pots, values. Each function does nothing: its
//! contract is computed from the rules.
ghost use Rattle.std.specs.Prelude.{◌≡◌, None, Some, negsuc, pos};
ghost use Rattle.hand_canon.specs.Agreement.{Finish, Pots, Value, Win, comparison, first_difference};
ghost use Rattle.worked_hands.specs.StatedFacts.{all_states, finish_states, nothing_stated, pot_states, value_states, win_states};
ghost use Rattle.worked_hands.specs.Traces.{steal_trace};

/// A fact that is not stated does not differ, nor does one that is stated rightly.
pub fn agreeing_facts()
    ensures nothing { first_difference steal_trace nothing_stated ≡ None }
    ensures everything { first_difference steal_trace all_states ≡ None }
{}

/// Each kind of fact differs by one chip or more; of several that differ the first is named.
pub fn differing_facts()
    ensures stack_of_the_second { first_difference steal_trace finish_states
        ≡ Some (comparison (Finish 2) (pos 97) (pos 98)) }
    ensures win_with_the_returned_chips { first_difference steal_trace win_states
        ≡ Some (comparison (Win 3) (pos 9) (pos 5)) }
    ensures pots_with_the_returned_chips { first_difference steal_trace pot_states
        ≡ Some (comparison Pots (pos 9) (pos 5)) }
    ensures value_without_its_sign { first_difference steal_trace value_states
        ≡ Some (comparison (Value 1) (pos 1) (negsuc 0)) }
{}
