//! A record is what a notation says of one hand.
ghost use Rattle.std.specs.Prelude.{◌≡◌, ◌≢◌, ◌≤◌, ℕ, pos, length, slice_index_or};

use crate::notes::Notes;
use card_set::{Memory, TryPush};
use chip_ledger::{Seat, SeatRow};
use play_event::{Rules, Script, Setup};
use std::alloc::Global;
use std::marker::Model;

/// What each seat won or lost, in chips. The first seat's is at index 0; after the last seat there
/// is 0.
#[derive(Clone, Copy, Debug, PartialEq, Eq)]
pub struct NetRow {
    pub seats: u8,
    pub nets: [i64; 10],
    pub ghost greatest: { seats ≤ 10 },
    pub ghost full: { length nets ≡ 10 },
    pub ghost filler: { (k : ℕ) → seats ≤ k → slice_index_or nets k (pos 0) ≡ pos 0 },
}

impl NetRow {
    ghost use Rattle.hand_canon.specs.NetRow.{net_of};

    /// A row of `seats` seats, each with 0.
    pub fn new(seats: u8) -> Self
        requires { seats ≤ 10 }
        ensures seats { result.seats ≡ seats }
        ensures all_zero { (n : ℕ) → net_of result n ≡ pos 0 }
    {
        NetRow {
            seats,
            nets: [0; 10],
        }
    }

    /// What the seat won or lost.
    pub fn get(&self, seat: Seat) -> i64
        ensures { result ≡ net_of self.now seat.number }
    {
        self.nets[seat.number as usize - 1]
    }

    /// Gives the seat this number.
    pub fn set(&mut self, seat: Seat, net: i64)
        requires { seat.number ≤ self.old.seats }
        ensures seats { self.new.seats ≡ self.old.seats }
        ensures net { net_of self.new seat.number ≡ net }
        ensures others { (n : ℕ)
            → 1 ≤ n → n ≢ seat.number → net_of self.new n ≡ net_of self.old n }
    {
        self.nets[seat.number as usize - 1] = net;
    }
}

/// What a record states of the end of a hand, in chips. `None` means that it is not stated.
#[derive(Clone, Copy, Debug, PartialEq, Eq)]
pub struct Stated {
    /// The finishing stacks.
    pub finish: Option<SeatRow>,
    /// What each seat is paid from the pots, not counting returned chips.
    pub wins: Option<SeatRow>,
    /// All pots together, not counting returned chips.
    pub pot_total: Option<u64>,
    /// The finishing stacks minus the starting stacks.
    pub values: Option<NetRow>,
}

impl Stated {
    ghost use Rattle.hand_canon.specs.StatedFacts.{IsNothingStated};

    /// Nothing is stated.
    pub fn nothing() -> Self
        ensures { IsNothingStated result }
    {
        Stated {
            finish: None,
            wins: None,
            pot_total: None,
            values: None,
        }
    }
}

/// One hand as a notation says it.
#[derive(Debug, Drop)]
pub struct Record {
    pub setup: Setup,
    pub rules: Rules,
    pub script: Script,
    pub stated: Stated,
    pub notes: Notes,
}

/// The records of a file, in order.
#[derive(Debug, Drop)]
pub struct Records {
    records: Vec<Record>,
}

impl Model for Records {
    ghost use Rattle.std.specs.Prelude.{List};
    ghost use Rattle.hand_canon.specs.declared.record.Record.{Record};

    ghost Value = { List Record };

    ghost view = { λ r. r.records.items };
}

impl Records {
    ghost use Rattle.std.specs.Prelude.{◌<◌, [], ◌∷◌, ◌++◌, slice_get, Some, OnOk, OnErr};

    /// A list without records.
    pub fn new(alloc: Global) -> Self
        ensures { result ≡ [] }
    {
        Records {
            records: Vec::new(alloc),
        }
    }

    /// Reserves room for this many more records at once, so that the records need not be moved as
    /// they come. If there is no memory for all of them, room is made as they come.
    pub fn reserve(&mut self, more: usize)
        ensures { self.new ≡ self.old }
    {
        let _ = self.records.try_reserve_exact(more);
    }

    /// Appends a record. If memory runs out, the list stays as it was and the record is dropped.
    pub fn push(&mut self, item: Record) -> Result<(), Memory>
        ensures pushed { OnOk result (self.new ≡ self.old ++ item ∷ []) }
        ensures unchanged { OnErr result (self.new ≡ self.old) }
    {
        self.records.try_push(item)
    }

    /// The record at this index, from 0. Ask first that the index is below `len`.
    pub fn get(&self, index: usize) -> &Record
        requires { index < length self.now }
        ensures { slice_get self.now index ≡ Some result.now }
    {
        &self.records[index]
    }

    /// How many records there are.
    pub fn len(&self) -> usize
        ensures { result ≡ length self.now }
    {
        self.records.len()
    }

    /// The same records as a vector.
    pub fn into_vec(self) -> Vec<Record>
        ensures { result.items ≡ self }
    {
        self.records
    }
}
