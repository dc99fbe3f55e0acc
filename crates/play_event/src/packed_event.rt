//! A buffer on the stack for the bytes of one event, until they are complete.
ghost use Rattle.std.specs.Prelude.{◌≡◌, ◌+◌, ◌<◌, ◌≤◌, [], ◌∷◌, ◌++◌, length, OnOk, OnErr};

use card_set::{Memory, TryExtend};
use std::marker::Model;

/// The bytes of a packed event so far, at most fifteen: those of a raise, or of a call with chips.
#[derive(Drop)]
pub(crate) struct PackedEvent {
    bytes: [u8; 15],
    len: usize,
}

impl Model for PackedEvent {
    ghost use Rattle.std.specs.Prelude.{ℕ, ◌≤◌, List, take};

    ghost Value = { List ℕ };

    ghost view = { λ event. take event.len event.bytes };

    ghost invariant = { λ event. event.len ≤ 15 };
}

impl PackedEvent {
    /// A buffer without bytes.
    pub(crate) fn new() -> Self
        ensures { result ≡ [] }
    {
        PackedEvent {
            bytes: [0; 15],
            len: 0,
        }
    }

    /// Appends bytes, in order.
    pub(crate) fn extend(&mut self, bytes: &[u8])
        requires { length self.old + length bytes.now ≤ 15 }
        ensures { self.new ≡ self.old ++ bytes.now }
    {
        let end = self.len + bytes.len();
        self.bytes[self.len..end].copy_from_slice(bytes);
        self.len = end;
    }

    /// Appends a byte.
    pub(crate) fn push(&mut self, byte: u8)
        requires { length self.old < 15 }
        ensures { self.new ≡ self.old ++ byte ∷ [] }
    {
        self.bytes[self.len] = byte;
        self.len += 1;
    }

    /// Appends these bytes to a script. All fifteen are copied and the rest is cut off again,
    /// because a copy of a fixed size needs no call.
    pub(crate) fn append_to(&self, script: &mut Vec<u8>) -> Result<(), Memory>
        ensures appended { OnOk result (script.new.items ≡ script.old.items ++ self.now) }
        ensures unchanged { OnErr result (script.new.items ≡ script.old.items) }
    {
        let before = script.len();
        script.try_extend_from_slice(&self.bytes)?;
        script.truncate(before + self.len);
        Ok(())
    }
}
