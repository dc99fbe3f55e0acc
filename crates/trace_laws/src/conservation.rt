//! Laws of the chips of a whole trace: pots and returns are what was put in, what leaves the hand
//! is the part of the pots that no seat gets, and of contested pots only unbeaten shown hands get
//! chips.
ghost use Rattle.std.specs.Prelude.{◌≡◌, ◌+◌, List, sum_by};
ghost use Rattle.chip_ledger.specs.declared.pots.Pot.{Pot};
ghost use Rattle.chip_ledger.specs.PotRow.{plain_shares, pots_in, shares_in};
ghost use Rattle.chip_ledger.specs.Rakes.{nets_of};
ghost use Rattle.chip_ledger.specs.SeatRow.{total_of};
ghost use Rattle.play_event.specs.Laws.{AreLegal};
ghost use Rattle.play_event.specs.Past.{Past, moves_of};
ghost use Rattle.play_event.specs.CurrentBet.{all_chips_put};
ghost use Rattle.play_event.specs.Said.{Said};
ghost use Rattle.play_event.specs.Scripts.{past_of};
ghost use Rattle.play_event.specs.ValidSetup.{IsValid};
ghost use Rattle.play_event.specs.declared.setup.Rules.{Rules};
ghost use Rattle.play_event.specs.declared.setup.Setup.{Setup};
ghost use Rattle.hand_canon.specs.LegalHand.{showdown_in};
ghost use Rattle.play_event.specs.TraceCore.{core_of};
ghost use Rattle.hand_canon.specs.WholeTrace.{IsTraceOf};
ghost use Rattle.hand_canon.specs.declared.trace.Trace.{Trace};
ghost use Rattle.trace_laws.specs.Winners.{AllGoToBest};

/// The pots of a whole trace, before rakes, and what is returned are together all chips that the
/// seats put in.
pub fn law_of_pots_and_returns()
    ensures { (setup : Setup) (past : Past) (trace : Trace) → IsTraceOf setup past trace
        → sum_by (λ (pot : Pot). pot.chips) (pots_in trace.pots) + total_of trace.pots.returned
        ≡ all_chips_put setup (moves_of past) }
{}

/// After legal events the finishing stacks and the pots, before rakes, are together the starting
/// stacks and the shares: so the chips that leave the hand are the part of the pots that no seat
/// gets.
pub fn law_of_finishing_stacks()
    ensures { (setup : Setup) (rules : Rules) (events : List Said) (trace : Trace)
        → IsValid setup → AreLegal setup rules events
        → IsTraceOf setup (past_of setup events) trace
        → total_of trace.finish + sum_by (λ (pot : Pot). pot.chips) (pots_in trace.pots)
        ≡ total_of setup.stacks + sum_by total_of (shares_in trace.shares) }
{}

/// A seat that gets chips of a pot that two or more seats may win is one of those seats and shown,
/// and no other shown one of them beats it: in the first order of hands or, if a low hand is shown,
/// in the low order.
pub fn law_of_winners()
    ensures { (setup : Setup) (past : Past) (trace : Trace) → IsTraceOf setup past trace
        → AllGoToBest setup.code (showdown_in setup (core_of setup past))
        (nets_of setup.rakes (core_of setup past).pots) (plain_shares trace.shares) }
{}
