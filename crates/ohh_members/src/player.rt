//! A player of a hand, as it is listed.
ghost use Rattle.std.specs.Prelude.{◌≤◌, length};
ghost use Rattle.std.specs.Option.{ForSome};
ghost use Rattle.chip_ledger.specs.declared.numbers.TheConstants.{MOST_CHIPS};
ghost use Rattle.first_fault.specs.declared.limits.TheConstants.{MOST_TEXT_BYTES};

/// A player of a hand.
#[derive(Clone, Copy)]
pub struct Player<'a> {
    /// The player's id: any whole number that no other player of the hand has.
    pub id: i128,
    /// The number of the seat at the table, from 1.
    pub seat: u8,
    pub name: Option<&'a str>,
    /// The starting stack in chips, at least 1.
    pub stack: u64,
    pub ghost first_seat: { 1 ≤ seat },
    pub ghost last_seat: { seat ≤ 255 },
    pub ghost some_chips: { 1 ≤ stack },
    pub ghost most_chips: { stack ≤ MOST_CHIPS },
    pub ghost short_name: { ForSome name (λ name. length name.now ≤ MOST_TEXT_BYTES) },
}
