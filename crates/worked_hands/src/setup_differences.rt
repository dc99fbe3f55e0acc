//! Setups that differ. The function does nothing: its contract is computed from the definition of
//! the first difference.
ghost use Rattle.std.specs.Prelude.{◌≡◌, None, Some};
ghost use Rattle.hand_differences.specs.FirstDifference.{Antes, BetSizes, Blinds, Rake, SeatCount, Stacks, Variant};
ghost use Rattle.hand_canon.specs.declared.record.Record.{Record};
ghost use Rattle.worked_hands.specs.OtherTraces.{between, greater_blind, greater_least_bet, more_chips, short_deck_antes, under, with_antes, with_dead_antes};
ghost use Rattle.worked_hands.specs.Setups.{heads_up, no_limit, raked};
ghost use Rattle.worked_hands.specs.Traces.{steal_trace};

/// Each part of a setup that differs alone, and the first of two that differ.
pub fn differing_setups()
    ensures the_same { (hand : Record) → between hand steal_trace (under no_limit) ≡ None }
    ensures a_variant_before_antes { (hand : Record)
        → between hand steal_trace (under short_deck_antes) ≡ Some Variant }
    ensures a_seat_less_before_its_stack { (hand : Record)
        → between hand steal_trace (under heads_up) ≡ Some SeatCount }
    ensures a_stack { (hand : Record) → between hand steal_trace (under more_chips) ≡ Some Stacks }
    ensures a_bet_size { (hand : Record)
        → between hand steal_trace (under greater_least_bet) ≡ Some BetSizes }
    ensures an_ante { (hand : Record) → between hand steal_trace (under with_antes) ≡ Some Antes }
    ensures dead_antes { (hand : Record)
        → between hand (under with_antes) (under with_dead_antes) ≡ Some Antes }
    ensures a_blind { (hand : Record)
        → between hand steal_trace (under greater_blind) ≡ Some Blinds }
    ensures a_rake { (hand : Record) → between hand steal_trace (under (raked 1)) ≡ Some Rake }
{}
