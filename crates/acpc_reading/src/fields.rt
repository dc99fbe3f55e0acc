//! The six fields of a line of a hand.

/// The fields of a line.
#[derive(Drop)]
pub struct Fields<'a> {
    pub state: &'a [u8],
    pub hand: &'a [u8],
    pub betting: &'a [u8],
    pub cards: &'a [u8],
    pub values: &'a [u8],
    pub names: &'a [u8],
}
