//! What the shares of a pot mean, however they were computed. The functions do nothing: each
//! contract is a law.
ghost use Rattle.std.specs.Prelude.{◌≡◌, ℕ, List};
ghost use Rattle.chip_ledger.specs.Pots.{PlainPot};
ghost use Rattle.play_event.specs.declared.code.Code.{Code};
ghost use Rattle.play_event.specs.declared.setup.Setup.{Setup};
ghost use Rattle.play_event.specs.Past.{Move};
ghost use Rattle.play_event.specs.Seats.{live_count};
ghost use Rattle.play_event.specs.Stakes.{nets_after, shares_by_folds};
ghost use Rattle.variant_table.specs.Shares.{AllShared, AreSharesOf, Showdown};
ghost use Rattle.showdown_split.specs.Laws.{GoesToBest, LeavesNoneOut};

/// Only shown seats that no other shown seat beats win chips of a pot that they contend for.
pub fn only_the_best_shown_hands_win()
    ensures { (code : Code) (showdown : Showdown) (pot : PlainPot) (share : ℕ → ℕ)
        → AreSharesOf code showdown pot share → GoesToBest code showdown pot share }
{}

/// A seat without a share may not win the pot, or is not shown, or is beaten, or is too late in
/// line for an odd chip.
pub fn no_winner_is_left_out()
    ensures { (code : Code) (showdown : Showdown) (pot : PlainPot) (share : ℕ → ℕ)
        → AreSharesOf code showdown pot share → LeavesNoneOut code showdown pot share }
{}

/// If one seat is live, the net of each pot goes to this seat, whatever is shown: so these are the
/// shares of a hand that is won by folds.
pub fn the_last_live_seat_wins()
    ensures { (setup : Setup) (moves : List Move) (showdown : Showdown) → live_count setup moves ≡ 1
        → AllShared setup.code showdown (nets_after setup moves) (shares_by_folds setup moves) }
{}
