//! State while a script is written: what is still to be written of it.

/// What is still to be written of a script.
#[derive(Clone, Copy)]
pub struct Pending<'a> {
    /// The number of the next letter, from 1.
    pub number: u64,
    /// The number of cards of the next board deal.
    pub size: u8,
    /// The cards of the rounds that are left, separated by strokes, if there are any.
    pub boards: Option<&'a [u8]>,
}
