//! Numbers the events of a script 1, 2 and so on while it is written.
ghost use Rattle.std.specs.Prelude.{◌≡◌, [], ◌∷◌, ◌++◌, ◌+◌, OnOk};
ghost use Rattle.play_event.specs.Said.{kind_said};
ghost use Rattle.hand_canon.specs.Numbers.{AreNumbered};
ghost use Rattle.first_fault.specs.Numbers.{saturated};

use card_set::Memory;
use play_event::{Event, Kind, Script};
use std::alloc::Global;

/// A script that is being written.
#[derive(Debug, Drop)]
pub(crate) struct Numbered {
    pub(crate) script: Script,
    ghost numbered: { AreNumbered script },
}

impl Numbered {
    ghost use Rattle.hand_canon.specs.SaidSoFar.{words_of};

    /// A script without events.
    pub(crate) fn new(alloc: Global) -> Self
        ensures { words_of result ≡ [] }
    {
        Numbered {
            script: Script::new(alloc),
        }
    }

    /// Appends an event.
    pub(crate) fn push(&mut self, kind: Kind) -> Result<(), Memory>
        ensures { OnOk result (words_of self.new ≡ words_of self.old ++ kind_said kind ∷ []) }
    {
        let at = number_after(self.script.len());
        self.script.push(Event { at, kind })
    }
}

// The number of the event after `count` others, limited to the greatest number that an event can
// have.
fn number_after(count: usize) -> u32
    ensures { result ≡ saturated (count + 1) }
{
    if count < u32::MAX as usize {
        count as u32 + 1
    } else {
        u32::MAX
    }
}
