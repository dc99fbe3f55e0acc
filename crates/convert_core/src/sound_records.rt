//! Records that were read from a file: each is sound, and they are at most as many as a file may
//! have.
ghost use Rattle.std.specs.Prelude.{◌≡◌, ◌<◌, ◌≤◌, All, Some, length, slice_get};
ghost use Rattle.first_fault.specs.declared.limits.TheConstants.{MOST_HANDS};
ghost use Rattle.hand_canon.specs.SoundRecord.{IsSoundRecord};
ghost use Rattle.convert_core.specs.SoundOnce.{IsSoundRecord-prop};

use hand_canon::{Record, Records};
use std::marker::Model;

/// The records of a file, in order. Each is sound, and they are at most as many as a file may have.
#[derive(Debug, Drop)]
pub struct SoundRecords {
    records: Records,
}

impl Model for SoundRecords {
    ghost use Rattle.std.specs.Prelude.{◌≤◌, All, List, length};
    ghost use Rattle.first_fault.specs.declared.limits.TheConstants.{MOST_HANDS};
    ghost use Rattle.hand_canon.specs.SoundRecord.{IsSoundRecord};
    ghost use Rattle.hand_canon.specs.declared.record.Record.{Record as AnyRecord};

    ghost Value = { List AnyRecord };

    ghost view = { λ it. it.records };

    ghost invariant = { λ it. (length it.records ≤ MOST_HANDS) × All IsSoundRecord it.records };
}

impl SoundRecords {
    /// The same records.
    pub fn new(records: Records) -> Self
        requires few { length records ≤ MOST_HANDS }
        requires sound { All IsSoundRecord records }
        ensures { result ≡ records }
    {
        SoundRecords { records }
    }

    /// How many records there are.
    pub fn len(&self) -> usize
        ensures count { result ≡ length self.now }
        ensures few { result ≤ MOST_HANDS }
    {
        self.records.len()
    }

    /// The record at this index, from 0. Ask first that the index is below `len`.
    pub fn get(&self, index: usize) -> SoundRecord<'_>
        requires { index < length self.now }
        ensures { slice_get self.now index ≡ Some result.record.now }
    {
        SoundRecord {
            record: self.records.get(index),
        }
    }

    /// The same records as a vector.
    pub fn into_vec(self) -> Vec<Record>
        ensures same { result.items ≡ self }
        ensures few { length result.items ≤ MOST_HANDS }
        ensures sound { All IsSoundRecord result.items }
    {
        self.records.into_vec()
    }
}

/// A sound record.
#[derive(Clone, Copy)]
pub struct SoundRecord<'a> {
    pub record: &'a Record,
    pub ghost sound: { IsSoundRecord record.now } by { IsSoundRecord-prop record.now },
}
