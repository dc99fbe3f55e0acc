//! Compares two plays and names their first difference.
ghost use Rattle.std.specs.Prelude.{◌≡◌, IfNone, option_map};
ghost use Rattle.hand_differences.specs.FirstDifference.{difference_said};
ghost use Rattle.hand_differences.specs.FirstDifference as differences;

use crate::difference::Difference;
use crate::lists::{find_card_difference, find_move_difference, find_shown_difference};
use crate::notes::find_note_difference;
use crate::setups::find_setup_difference;
use hand_canon::{Play, SoundPlay};

/// The first difference of two plays, each at this index of its file, from 0; `None` if they are
/// the same hand. Notes are compared only if `notes` is set; a note that equals its default counts
/// as missing, and so does a hand's name that is its index.
///
/// Nothing is allocated. By `law_of_same_hands` the result is `None` if and only if the traces are
/// the same and, if notes are compared, the notes.
pub fn first_difference(
    notes: bool,
    index: usize,
    play: &SoundPlay<'_>,
    other: &SoundPlay<'_>,
) -> Option<Difference>
    ensures { option_map difference_said result
        ≡ differences.reported_difference notes index play.now other.now }
{
    let play = play.play();
    let other = other.play();
    let found = find_play_difference(play, other);
    if found.is_some() {
        return found;
    }
    if !notes {
        return None;
    }
    find_note_difference(
        index,
        play.trace.setup.stacks.players(),
        &play.hand.notes,
        &other.hand.notes,
    )
}

// The first difference of two plays, leaving their notes aside.
fn find_play_difference(play: &Play, other: &Play) -> Option<Difference>
    ensures named { option_map difference_said result
        ≡ differences.play_difference play.now other.now }
    ensures seats { IfNone result
        (play.now.trace.setup.stacks.seats ≡ other.now.trace.setup.stacks.seats) }
{
    let found = find_setup_difference(&play.trace.setup, &other.trace.setup);
    if found.is_some() {
        return found;
    }
    let found = find_move_difference(play.trace.moves.as_slice(), other.trace.moves.as_slice());
    if found.is_some() {
        return found;
    }
    let found = find_card_difference(play.trace.places.as_slice(), other.trace.places.as_slice());
    if found.is_some() {
        return found;
    }
    find_shown_difference(&play.trace.shown, &other.trace.shown)
}
