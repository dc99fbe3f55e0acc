//! The law that the game that a hand fits has a game file that reads back as that game.
ghost use Rattle.std.specs.Prelude.{◌≡◌, Ok};
ghost use Rattle.play_event.specs.ValidSetup.{IsValid};
ghost use Rattle.play_event.specs.declared.setup.Setup.{Setup as AnySetup};
ghost use Rattle.acpc_game.specs.GameFile.{GameSaid, game_said};
ghost use Rattle.acpc_game.specs.GameText.{game_text};
ghost use Rattle.acpc_format.specs.GameOf.{game_for};

/// If a hand with a valid setup fits a game, the game file written for it reads back as that game.
/// The function does nothing: its contract is a law.
pub fn law_of_game_files()
    ensures { (setup : AnySetup) (game : GameSaid)
        → IsValid setup → game_for setup ≡ Ok game
        → game_said (game_text game) ≡ Ok game }
{}
