//! Sound plays, alone and as those of a file. What writes hands or answers about them takes these
//! types, so that it asks for nothing else.
ghost use Rattle.std.specs.Prelude.{◌≡◌, ◌<◌, ◌≤◌, Some, length, slice_get};
ghost use Rattle.std.specs.List.{AllByRecursion};
ghost use Rattle.first_fault.specs.declared.limits.TheConstants.{MOST_HANDS};
ghost use Rattle.hand_canon.specs.Sound.{IsSound};

use crate::trace::Play;
use std::marker::Model;

/// The play of a legal hand, with its trace and notes that are allowed.
#[derive(Debug, Drop)]
pub struct SoundPlay<'a> {
    play: &'a Play,
}

impl<'a> Model for SoundPlay<'a> {
    ghost use Rattle.hand_canon.specs.Sound.{IsSound};
    ghost use Rattle.hand_canon.specs.declared.trace.Play.{Play as AnyPlay};

    ghost Value = { AnyPlay };

    ghost view = { λ it. it.play.now };

    ghost invariant = { λ it. IsSound it.play.now };
}

impl<'a> SoundPlay<'a> {
    /// The same play.
    pub fn new(play: &'a Play) -> Self
        requires { IsSound play.now }
        ensures { result ≡ play.now }
    {
        SoundPlay { play }
    }

    /// The play.
    pub fn play(&self) -> &'a Play
        ensures same { result.now ≡ self.now }
        ensures sound { IsSound result.now }
    {
        self.play
    }
}

/// The sound plays of a file, in order: at most as many as a file may have hands.
#[derive(Debug, Drop)]
pub struct SoundPlays<'a> {
    plays: &'a [Play],
}

impl<'a> Model for SoundPlays<'a> {
    ghost use Rattle.std.specs.Prelude.{◌≤◌, List, length};
    ghost use Rattle.std.specs.List.{AllByRecursion};
    ghost use Rattle.first_fault.specs.declared.limits.TheConstants.{MOST_HANDS};
    ghost use Rattle.hand_canon.specs.Sound.{IsSound};
    ghost use Rattle.hand_canon.specs.declared.trace.Play.{Play as AnyPlay};

    ghost Value = { List AnyPlay };

    ghost view = { λ it. it.plays.now };

    ghost invariant = { λ it.
        (length it.plays.now ≤ MOST_HANDS) × AllByRecursion IsSound it.plays.now };
}

impl<'a> SoundPlays<'a> {
    /// The same plays.
    pub fn new(plays: &'a [Play]) -> Self
        requires few { length plays.now ≤ MOST_HANDS }
        requires sound { AllByRecursion IsSound plays.now }
        ensures { result ≡ plays.now }
    {
        SoundPlays { plays }
    }

    /// The plays.
    pub fn as_slice(&self) -> &'a [Play]
        ensures same { result.now ≡ self.now }
        ensures few { length result.now ≤ MOST_HANDS }
        ensures sound { AllByRecursion IsSound result.now }
    {
        self.plays
    }

    /// The number of plays.
    pub fn len(&self) -> usize
        ensures { result ≡ length self.now }
    {
        self.plays.len()
    }

    /// The play at this index, from 0. Check first that the index is below `len`.
    pub fn get(&self, index: usize) -> SoundPlay<'a>
        requires { index < length self.now }
        ensures { slice_get self.now index ≡ Some result }
    {
        let plays = self.as_slice();
        SoundPlay::new(&plays[index])
    }
}
