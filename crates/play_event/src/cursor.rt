//! Goes over the events of a script, from the first to the last.
ghost use Rattle.play_event.specs.PackedScript.{PackedScript};
ghost use Rattle.play_event.specs.PackedOnce.{one_script};

use crate::event::Event;
use crate::unpacking::read_event;
use std::marker::Model;

/// The events of a script that are still to come, in order. It borrows the script's bytes and
/// allocates nothing.
#[derive(Debug, Drop)]
pub struct Cursor<'a> {
    bytes: &'a [u8],
    ghost script: { PackedScript bytes.now } by { one_script bytes.now },
}

impl<'a> Model for Cursor<'a> {
    ghost use Rattle.std.specs.Prelude.{List};
    ghost use Rattle.play_event.specs.declared.event.Event.{Event};

    ghost Value = { List Event };

    ghost view = { λ cursor. cursor.script.events };
}

impl<'a> Cursor<'a> {
    ghost use Rattle.std.specs.Prelude.{◌≡◌, List, [], ◌∷◌, IfSome, IfNone};
    ghost use Rattle.play_event.specs.declared.event.Event.{Event};
    ghost use Rattle.play_event.specs.EventNumbers.{AreEvents};
    ghost use Rattle.play_event.specs.PackedForm.{packed_events};

    /// A cursor over the events whose packed form is `bytes`.
    pub(crate) fn new(bytes: &'a [u8]) -> Self
        requires { PackedScript bytes.now }
        ensures { (events : List Event)
            → AreEvents events → bytes.now ≡ packed_events events → result ≡ events }
    {
        Cursor { bytes }
    }

    /// The next event, or `None` after the last.
    pub fn next(&mut self) -> Option<Event>
        ensures first { IfSome result (λ event. self.old ≡ event ∷ self.new) }
        ensures end { IfNone result ((self.old ≡ []) × (self.new ≡ [])) }
    {
        let (event, rest) = read_event(self.bytes)?;
        self.bytes = rest;
        Some(event)
    }
}
