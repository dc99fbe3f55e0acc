//! The law that a written game file reads back as its game.
ghost use Rattle.std.specs.Prelude.{◌≡◌, true, IfSome, Ok};
ghost use Rattle.acpc_game.specs.GameFile.{GameSaid, game_said};
ghost use Rattle.acpc_game.specs.GameText.{game_text};
ghost use Rattle.acpc_game.specs.GameView.{game_in};
ghost use Rattle.acpc_game.specs.SaidGames.{IsGame, are_caps};

use crate::game::Game;

/// A written game file reads back as its game. The function only shows that caps are four numbers
/// of 32 bits: its contract is a law.
pub fn law_of_reading_again(game: Game)
    ensures { game_said (game_text (game_in game)) ≡ Ok (game_in game) }
{
    show_caps(game.caps);
}

/// If the numbers of a game are those of a game that handref supports, its written file reads back
/// as that game. The function does nothing: its contract is a law.
pub fn law_of_spellings()
    ensures { (game : GameSaid) → IsGame game → game_said (game_text game) ≡ Ok game }
{}

// Caps are four numbers of 32 bits.
fn show_caps(caps: Option<[u32; 4]>)
    ensures { IfSome caps (λ caps. are_caps caps ≡ true) }
{
    if let Some(caps) = caps {
        show_four(caps);
    }
}

// Four caps are four numbers of 32 bits.
#[tactic(auto, using(crate::proofs::GameAgain::caps_fit))]
fn show_four(caps: [u32; 4])
    ensures { are_caps caps ≡ true }
{
    let [_first, _second, _third, _fourth] = caps;
}
