//! The games that the format can write, and the words that name them.
ghost use Rattle.std.specs.Prelude.{◌≡◌};
ghost use Rattle.ohh_writing.specs.Games as games;

use play_event::Code;

/// Whether the format can write the game.
pub fn can_write_game(code: Code) -> bool
    ensures { result ≡ games.is_spelled_game code }
{
    match code {
        Code::FT | Code::NT | Code::PO | Code::FO8 => true,
        Code::NS | Code::F7S | Code::F7S8 | Code::FR => false,
        Code::N2L1D | Code::F2L3D | Code::FB => false,
    }
}

/// The word for the game.
pub fn game_type(code: Code) -> &'static str
    ensures { result.now ≡ games.game_word code }
{
    match code {
        Code::PO => "Omaha",
        Code::FO8 => "OmahaHiLo",
        Code::FT | Code::NT | Code::NS | Code::F7S | Code::F7S8 | Code::FR => "Holdem",
        Code::N2L1D | Code::F2L3D | Code::FB => "Holdem",
    }
}

/// The word for the limit of the game.
pub fn bet_type(code: Code) -> &'static str
    ensures { result.now ≡ games.bet_word code }
{
    match code {
        Code::NT | Code::NS | Code::N2L1D => "NL",
        Code::PO => "PL",
        Code::FT | Code::FO8 | Code::F7S | Code::F7S8 | Code::FR => "FL",
        Code::F2L3D | Code::FB => "FL",
    }
}
