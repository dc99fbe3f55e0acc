//! What each seat ends with in a hand that is won by folds, proved from the definitions.
ghost use Rattle.std.specs.Prelude.{◌≡◌, ℕ, ◌+◌, ◌≤◌, true, false, List};
ghost use Rattle.chip_ledger.specs.RakeRow.{rake_of};
ghost use Rattle.chip_ledger.specs.Rakes.{HaveRakes};
ghost use Rattle.play_event.specs.declared.setup.Setup.{Setup};
ghost use Rattle.play_event.specs.Past.{Move};
ghost use Rattle.play_event.specs.Chips.{chips_left};
ghost use Rattle.play_event.specs.CurrentBet.{all_chips_put};
ghost use Rattle.play_event.specs.Seats.{is_live, live_count};
ghost use Rattle.play_event.specs.Stakes.{pots_after, stack_by_folds};

/// In a hand that is won by folds, a seat that folded ends with its stack minus what it put in. The
/// last live seat ends with its stack plus what the others put in, minus the rake of the only pot.
/// The function does nothing: its contract is a law.
pub fn law_of_folds()
    ensures folded { (setup : Setup) (moves : List Move) (seat : ℕ)
        → live_count setup moves ≤ 1 → is_live moves seat ≡ false
        → stack_by_folds setup moves seat ≡ chips_left setup moves seat }
    ensures last { (setup : Setup) (moves : List Move) (seat : ℕ)
        → live_count setup moves ≤ 1 → is_live moves seat ≡ true
        → 1 ≤ seat → seat ≤ setup.stacks.seats
        → HaveRakes (pots_after setup moves) setup.rakes
        → stack_by_folds setup moves seat + rake_of setup.rakes 1
        ≡ chips_left setup moves seat + all_chips_put setup moves }
{}
