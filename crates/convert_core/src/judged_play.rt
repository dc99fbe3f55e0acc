//! A legal hand of a file, as it is passed to a visitor.
ghost use Rattle.std.specs.Prelude.{◌≡◌, ◌<◌};
ghost use Rattle.first_fault.specs.declared.limits.TheConstants.{MOST_HANDS};
ghost use Rattle.hand_canon.specs.LegalPlay.{IsLegalPlay};
ghost use Rattle.hand_canon.specs.Sound.{IsSound};

use hand_canon::Play;
use std::marker::Model;

/// The place of a hand in its file, from 0: below the most hands of a file.
#[derive(Clone, Copy, Debug, PartialEq, Eq)]
pub struct HandIndex {
    pub index: usize,
    pub ghost within: { index < MOST_HANDS },
}

/// The play of a legal hand that agrees with what is stated of it.
#[derive(Debug, Drop)]
pub struct JudgedPlay<'a> {
    play: &'a Play,
}

impl<'a> Model for JudgedPlay<'a> {
    ghost use Rattle.hand_canon.specs.LegalPlay.{IsLegalPlay};
    ghost use Rattle.hand_canon.specs.Sound.{IsSound};
    ghost use Rattle.hand_canon.specs.declared.trace.Play.{Play as AnyPlay};

    ghost Value = { AnyPlay };

    ghost view = { λ it. it.play.now };

    ghost invariant = { λ it. IsSound it.play.now × IsLegalPlay it.play.now };
}

impl<'a> JudgedPlay<'a> {
    /// The same play.
    pub fn new(play: &'a Play) -> Self
        requires sound { IsSound play.now }
        requires judged { IsLegalPlay play.now }
        ensures { result ≡ play.now }
    {
        JudgedPlay { play }
    }

    /// The play.
    pub fn play(&self) -> &'a Play
        ensures same { result.now ≡ self.now }
        ensures sound { IsSound result.now }
        ensures judged { IsLegalPlay result.now }
    {
        self.play
    }
}
