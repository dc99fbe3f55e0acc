//! The laws of logs: a written log reads back as the hands of its plays.
ghost use Rattle.std.specs.Prelude.{◌≡◌, ◌≤◌, ℕ, true, List, None, Ok, Some, length, map, sum_by};
ghost use Rattle.std.specs.List.{AllByRecursion};
ghost use Rattle.play_event.specs.ValidSetup.{IsValid};
ghost use Rattle.hand_canon.specs.Sound.{IsSound};
ghost use Rattle.first_fault.specs.declared.limits.TheConstants.{MOST_FILE_MOVES, MOST_HANDS};
ghost use Rattle.hand_canon.specs.declared.record.Record.{Record};
ghost use Rattle.hand_canon.specs.declared.trace.Play.{Play};
ghost use Rattle.hand_canon.specs.declared.writing.Keep.{Keep};
ghost use Rattle.hand_canon.specs.declared.writing.Unspelled.{Unspelled};
ghost use Rattle.acpc_game.specs.declared.game.Game.{Game as AnyGame};
ghost use Rattle.acpc_format.specs.Line.{log_text};
ghost use Rattle.acpc_format.specs.Spelled.{unspelled};
ghost use Rattle.acpc_format.specs.Texts.{HasTexts};
ghost use Rattle.acpc_reading.specs.Logs.{reading};
ghost use Rattle.acpc_reading.specs.RecordView.{IsOfGame, IsSetupOf, record_said};
ghost use Rattle.acpc_format.specs.Again.{hands_again};
ghost use Rattle.hand_canon.specs.ReadAgain.{AreAgain};
ghost use Rattle.hand_canon.specs.SaidNotes.{KeepsNotes};
ghost use Rattle.acpc_format.specs.KeptNotes.{kept_in_acpc};
ghost use Rattle.hand_canon.specs.Sharp.{IsOther, is_sharp};
ghost use Rattle.hand_canon.specs.WriteRefusals.{first_refusal};
ghost use Rattle.hand_canon.specs.Plays.{moves_written};

/// If the logs of a game can write sound plays, their lines read back as the hands of these plays:
/// with their canonical scripts in the log's letters, their values and their kept notes. The
/// function does nothing: its contract is a law.
pub fn law_of_reading_again()
    ensures { (game : AnyGame) (keep : Keep) (plays : List Play)
        → length plays ≤ MOST_HANDS → AllByRecursion IsSound plays → AllByRecursion HasTexts plays
        → first_refusal (unspelled game keep) plays ≡ None
        → sum_by moves_written plays ≤ MOST_FILE_MOVES
        → reading game (log_text game.no_limit plays) ≡ Ok (hands_again game.no_limit 0 plays) }
{}

/// If the logs of a game can write a play, the play has the setup of that game, as every hand of
/// its logs has. The function does nothing: its contract is a law.
pub fn law_of_one_setup()
    ensures { (game : AnyGame) (keep : Keep) (play : Play)
        → IsValid play.trace.setup → unspelled game keep play ≡ None
        → IsSetupOf game play.trace.setup }
{}

/// If the logs of a game can write sound plays, the records that their lines say are the hands of
/// these plays again, one for each, in order: each record has the setup of its play, is a legal
/// hand under the rules of the game with the whole trace of the play, states nothing that differs,
/// and has the kept notes. The function does nothing: its contract is a law.
pub fn law_of_reading_back()
    ensures { (game : AnyGame) (keep : Keep) (plays : List Play)
        → length plays ≤ MOST_HANDS → AllByRecursion IsSound plays → AllByRecursion HasTexts plays
        → first_refusal (unspelled game keep) plays ≡ None
        → sum_by moves_written plays ≤ MOST_FILE_MOVES
        → (records : List Record) → AllByRecursion (IsOfGame game) records
        → reading game (log_text game.no_limit plays) ≡ Ok (map record_said records)
        → AreAgain (KeepsNotes kept_in_acpc) 0 plays records }
{}

/// If the logs of a game cannot write a fact of a play, no record that any bytes say is a legal
/// hand with the trace of that play. Exceptions are an odd chip or a note: a line may well have
/// these. The function does nothing: its contract is a law.
pub fn law_of_sharpness()
    ensures { (game : AnyGame) (keep : Keep) (play : Play) (fact : Unspelled)
        → unspelled game keep play ≡ Some fact → is_sharp fact ≡ true
        → (bytes : List ℕ) (records : List Record) → AllByRecursion (IsOfGame game) records
        → reading game bytes ≡ Ok (map record_said records)
        → AllByRecursion (IsOther play) records }
{}
