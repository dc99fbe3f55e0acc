//! A reader and a writer of std that take a few bytes at a time, and fail at one of their calls.
use std::io;
use std::io::{Error, ErrorKind};

/// Counts calls from 0, and fails one of them.
#[derive(Drop)]
pub struct Calls {
    next: u64,
    failing: Option<u64>,
}

impl Calls {
    /// Before the first call; the call with this number fails, or none.
    pub fn new(failing: Option<u64>) -> Self {
        Calls { next: 0, failing }
    }

    fn begin(&mut self) -> io::Result<()> {
        let number = self.next;
        self.next = number.saturating_add(1);
        if self.failing == Some(number) {
            return Err(Error::from(ErrorKind::Other));
        }
        Ok(())
    }
}

/// Reads these bytes, at most `piece` per call.
#[derive(Drop)]
pub struct Reader<'a> {
    pub bytes: &'a [u8],
    pub piece: usize,
    pub calls: Calls,
}

impl io::Read for Reader<'_> {
    fn read(&mut self, buf: &mut [u8]) -> io::Result<usize> {
        self.calls.begin()?;
        let most = buf.len().min(self.piece);
        self.bytes.read(&mut buf[..most])
    }
}

/// Writes into these bytes, at most `piece` per call, and takes none once they are full.
#[derive(Drop)]
pub struct Writer {
    pub bytes: Vec<u8>,
    pub room: usize,
    pub piece: usize,
    pub calls: Calls,
}

impl io::Write for Writer {
    fn write(&mut self, buf: &[u8]) -> io::Result<usize> {
        self.calls.begin()?;
        let room = self.room.saturating_sub(self.bytes.len());
        let count = buf.len().min(self.piece).min(room);
        self.bytes.extend_from_slice(&buf[..count])?;
        Ok(count)
    }

    fn flush(&mut self) -> io::Result<()> {
        Ok(())
    }
}
