//! Traces that differ. The function does nothing: its contract is computed from the definition of
//! the first difference.
ghost use Rattle.std.specs.Prelude.{◌≡◌, None, Some, codes};
ghost use Rattle.hand_differences.specs.FirstDifference.{Card, Move, Shown};
ghost use Rattle.hand_canon.specs.declared.record.Record.{Record};
ghost use Rattle.worked_hands.specs.WrongTraces.{cards_named, chip_from_p2, fold_forgotten, muck_shown};
ghost use Rattle.worked_hands.specs.OtherTraces.{between, one_discard, other_card, with_flop};
ghost use Rattle.worked_hands.specs.Traces.{checked_trace, steal_trace};

/// Moves, cards and shown seats; the seat of a move is the one of the first play. Finishing stacks
/// alone are not a difference: no two legal hands differ in nothing else.
pub fn differing_traces()
    ensures a_move { (hand : Record) → between hand steal_trace fold_forgotten ≡ Some (Move 2 1 1) }
    ensures the_other_way_round { (hand : Record)
        → between hand fold_forgotten steal_trace ≡ Some (Move 2 1 2) }
    ensures a_card_that_is_known { (hand : Record)
        → between hand steal_trace cards_named ≡ Some (Card 1 1 (Some 1)) }
    ensures another_card { (hand : Record)
        → between hand steal_trace other_card ≡ Some (Card 6 1 (Some 3)) }
    ensures a_discard { (hand : Record)
        → between hand steal_trace one_discard ≡ Some (Card 6 1 (Some 3)) }
    ensures a_card_of_the_board { (hand : Record)
        → between hand (with_flop (codes "2c3c4c")) (with_flop (codes "2c3d4d"))
        ≡ Some (Card 8 2 None) }
    ensures a_shown_seat { (hand : Record)
        → between hand checked_trace muck_shown ≡ Some (Shown 2) }
    ensures a_finishing_stack { (hand : Record) → between hand steal_trace chip_from_p2 ≡ None }
{}
