//! The eleven games that are known, each by its code.
ghost use Rattle.std.specs.Prelude.{◌≡◌, ◌≤◌, IfSome, IfNone};
ghost use Rattle.play_event.specs.declared.code.Code.{Code};
ghost use Rattle.play_event.specs.Code.{code_text};
ghost use Rattle.play_event.specs.Games.{game_of};
ghost use Rattle.play_event.specs.Streets.{is_stud_game, limit_of};
ghost use Rattle.play_event.specs.ValidSetup.{is_fixed_limit};

use crate::limit::Limit;

/// The code of a game, as the Poker Hand History format has it.
#[derive(Clone, Copy, Debug, PartialEq, Eq, Hash)]
pub enum Code {
    /// Fixed-limit Texas hold'em.
    FT,
    /// No-limit Texas hold'em.
    NT,
    /// No-limit short-deck hold'em.
    NS,
    /// Pot-limit Omaha.
    PO,
    /// Fixed-limit Omaha eight-or-better, written `FO/8`.
    FO8,
    /// Fixed-limit seven card stud.
    F7S,
    /// Fixed-limit seven card stud eight-or-better, written `F7S/8`.
    F7S8,
    /// Fixed-limit razz.
    FR,
    /// No-limit deuce-to-seven single draw.
    N2L1D,
    /// Fixed-limit deuce-to-seven triple draw.
    F2L3D,
    /// Fixed-limit badugi.
    FB,
}

impl Code {
    /// The game with this code, or `None` if the text is not one of the eleven codes.
    pub fn read(text: &str) -> Option<Code>
        ensures read { IfSome result (λ code. code_text code ≡ text.now) }
        ensures none { IfNone result ((code : Code) → code_text code ≡ text.now → ⊥) }
    {
        match text {
            "FT" => Some(Code::FT),
            "NT" => Some(Code::NT),
            "NS" => Some(Code::NS),
            "PO" => Some(Code::PO),
            "FO/8" => Some(Code::FO8),
            "F7S" => Some(Code::F7S),
            "F7S/8" => Some(Code::F7S8),
            "FR" => Some(Code::FR),
            "N2L1D" => Some(Code::N2L1D),
            "F2L3D" => Some(Code::F2L3D),
            "FB" => Some(Code::FB),
            _ => None,
        }
    }

    /// The code as it is written.
    pub fn text(self) -> &'static str
        ensures { result.now ≡ code_text self }
    {
        match self {
            Code::FT => "FT",
            Code::NT => "NT",
            Code::NS => "NS",
            Code::PO => "PO",
            Code::FO8 => "FO/8",
            Code::F7S => "F7S",
            Code::F7S8 => "F7S/8",
            Code::FR => "FR",
            Code::N2L1D => "N2L1D",
            Code::F2L3D => "F2L3D",
            Code::FB => "FB",
        }
    }

    /// The limit on bets and raises in the game.
    pub fn limit(self) -> Limit
        ensures { result ≡ limit_of self }
    {
        match self {
            Code::NT | Code::NS | Code::N2L1D => Limit::No,
            Code::PO => Limit::Pot,
            Code::FT | Code::FO8 | Code::F7S | Code::F7S8 | Code::FR | Code::F2L3D | Code::FB => {
                Limit::Fixed
            }
        }
    }

    /// Whether the game is played in fixed limit, with a small and a big bet.
    pub fn is_fixed(self) -> bool
        ensures { result ≡ is_fixed_limit (limit_of self) }
    {
        match self.limit() {
            Limit::Fixed => true,
            Limit::Pot | Limit::No => false,
        }
    }

    /// Whether the game is a stud game, which has a bring-in and no blinds.
    pub fn is_stud(self) -> bool
        ensures { result ≡ is_stud_game self }
    {
        match self {
            Code::F7S | Code::F7S8 | Code::FR => true,
            Code::FT | Code::NT | Code::NS | Code::PO | Code::FO8 => false,
            Code::N2L1D | Code::F2L3D | Code::FB => false,
        }
    }

    /// How many hole cards the game deals to a seat.
    pub fn hole_cards(self) -> u8
        ensures said { result ≡ (game_of self).hole }
        ensures few { result ≤ 7 }
    {
        match self {
            Code::FT | Code::NT | Code::NS => 2,
            Code::PO | Code::FO8 | Code::FB => 4,
            Code::N2L1D | Code::F2L3D => 5,
            Code::F7S | Code::F7S8 | Code::FR => 7,
        }
    }

    /// The most seats of the game.
    pub fn most_seats(self) -> u8
        ensures { result ≡ (game_of self).seats }
    {
        match self {
            Code::FT | Code::NT | Code::NS | Code::PO | Code::FO8 => 10,
            Code::F7S | Code::F7S8 | Code::FR => 7,
            Code::N2L1D | Code::F2L3D | Code::FB => 6,
        }
    }
}
