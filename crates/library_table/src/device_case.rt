//! A row of the table that names a device, how it is made, and what is asked of it.
use std::alloc::{AllocError, Global};

/// One case: `DEVICE PIECE CALL LIMIT TEXT`, where `-` means no piece or no call.
#[derive(Clone, Copy)]
pub struct Case<'a> {
    pub device: &'a str,
    /// The most bytes of one call.
    pub piece: Option<usize>,
    /// The number of the call that fails, from 0.
    pub failing: Option<u64>,
    /// The most bytes to read, or the room to write to.
    pub limit: usize,
    /// What is read or written, or the name that is looked up.
    pub text: &'a str,
}

impl<'a> Case<'a> {
    /// The case that the row says, or `None` if the limit is not a number.
    pub fn of(row: &'a str) -> Option<Case<'a>> {
        let mut words = row.split(' ');
        Some(Case {
            device: words.next()?,
            piece: words.next()?.parse().ok(),
            failing: words.next()?.parse().ok(),
            limit: words.next()?.parse().ok()?,
            text: words.next().unwrap_or(""),
        })
    }

    /// The numbers of the calls that fail, at most one.
    pub fn fail_at(&self, alloc: Global) -> Result<Vec<u64>, AllocError> {
        match self.failing {
            Some(number) => Ok(vec![in alloc; number]?),
            None => Ok(Vec::new(alloc)),
        }
    }
}
