//! What a sink takes is appended to the bytes that it holds.
ghost use Rattle.std.specs.Prelude.{◌≡◌, ◌<◌, ◌≤◌, List, [], ℕ, length, Option, IfOk, IsOk, OnOk, OnErr};
ghost use Rattle.std.specs.Io.{WritesAtMost};
ghost use Rattle.std.specs.Io.KnownBytes.{WriteAppends, Appends};
ghost use Rattle.host_io.specs.Faults.{Rose};
ghost use Rattle.host_io.specs.Bytes.{AppendsPart};

use crate::fault::Failed;

/// Where bytes are written to.
pub trait Sink {
    /// The bytes held, if the sink's contract says them.
    ghost held: { Self → Option (List ℕ) };

    /// How often the sink has failed. The count never falls.
    ghost faults: { Self → ℕ };

    /// Takes bytes from the front of the piece, and appends them to those held. `Ok` has their
    /// number, which is above zero unless the piece is empty. After `Failed` the bytes held are as
    /// before.
    fn write(&mut self, bytes: &[u8]) -> Result<usize, Failed>
        ensures bound { WritesAtMost result bytes.now }
        ensures some { IfOk result (λ count. 0 < length bytes.now → 0 < count) }
        ensures bytes { WriteAppends (held self.old) (held self.new) result bytes.now }
        ensures later { faults self.old ≤ faults self.new }
        ensures failed { OnErr result (Rose (faults self.old) (faults self.new)) };
}

/// Writes all the bytes. After `Failed` the sink has taken only a part of them, from the front. The
/// sink is not called for no bytes.
pub fn write_all<K: Sink>(out: &mut K, bytes: &[u8]) -> Result<(), Failed>
    ensures held { OnOk result (Appends (K.held out.old) (K.held out.new) bytes.now) }
    ensures part { OnErr result (AppendsPart (K.held out.old) (K.held out.new) bytes.now) }
    ensures uncalled { bytes.now ≡ [] → IsOk result × (out.new ≡ out.old) }

    ensures later { K.faults out.old ≤ K.faults out.new }
    ensures failed { OnErr result (Rose (K.faults out.old) (K.faults out.new)) }
{
    let mut written = 0;
    while written < bytes.len() {
        written += out.write(&bytes[written..])?;
    }
    Ok(())
}
