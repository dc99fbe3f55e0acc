//! A row: the words that the program is run on, its devices, and how these fail.
use crate::pieces::{Pieces, parted};
use card_set::{Memory, TryPush, string_from, vec_from};
use std::alloc::Global;

/// The words of a run, and its devices.
#[derive(Drop)]
pub struct Row {
    pub words: Vec<String>,
    pub input: Vec<u8>,
    pub files: Vec<(String, Vec<u8>)>,
    /// The most bytes that the input gives in one call.
    pub give: usize,
    /// The most bytes that the output takes in one call.
    pub take: usize,
    /// The number of bytes that the output takes in all.
    pub room: usize,
    pub fails: Fails,
}

/// The calls that fail, by their numbers from 0.
#[derive(Drop)]
pub struct Fails {
    pub read: Vec<u64>,
    pub fetch: Vec<u64>,
    pub write: Vec<u64>,
    pub line: Vec<u64>,
}

/// The room of an output that is not meant to fill up.
pub const ROOM: usize = 1_000;

/// Reads a row: words, `<`, and the input. A word that begins with `@` is not given to the program,
/// but sets a device: a call fails (`@read=1`, `@fetch=0`, `@write=0`, `@line=0`), the input comes
/// or the output goes in pieces (`@give=7`, `@take=5`) or both do (`@pieces=7`), the input is cut
/// (`@first=30`), the output takes few bytes (`@room=10`), or a piece of text lies on the shelf
/// (`@file=NAME:PIECE`).
pub fn read_row(alloc: Global, pieces: &Pieces, row: &str) -> Result<Row, Memory> {
    let (words, input) = parted(row, "<");
    let input = input.strip_prefix(' ').unwrap_or(input);
    let mut read = Row {
        words: Vec::new(alloc),
        input: pieces.bytes_of(alloc, input)?,
        files: Vec::new(alloc),
        give: usize::MAX,
        take: usize::MAX,
        room: ROOM,
        fails: Fails {
            read: Vec::new(alloc),
            fetch: Vec::new(alloc),
            write: Vec::new(alloc),
            line: Vec::new(alloc),
        },
    };
    for word in words.split_whitespace() {
        match word.strip_prefix('@') {
            Some(device) => read_device(alloc, pieces, &mut read, device)?,
            None => read.words.try_push(string_from(alloc, word)?)?,
        }
    }
    Ok(read)
}

// Sets in the row what a word says of a device.
fn read_device(alloc: Global, pieces: &Pieces, row: &mut Row, word: &str) -> Result<(), Memory> {
    let (device, value) = parted(word, "=");
    let number = value.parse::<u32>().unwrap_or(0);
    let call = u64::from(number);
    match device.as_bytes() {
        b"read" => row.fails.read.try_push(call)?,
        b"fetch" => row.fails.fetch.try_push(call)?,
        b"write" => row.fails.write.try_push(call)?,
        b"line" => row.fails.line.try_push(call)?,
        b"give" => row.give = number as usize,
        b"take" => row.take = number as usize,
        b"pieces" => {
            row.give = number as usize;
            row.take = number as usize;
        }
        b"first" => row.input.truncate(number as usize),
        b"room" => row.room = number as usize,
        b"file" => {
            let (name, piece) = parted(value, ":");
            let bytes = vec_from(alloc, pieces.piece(piece))?;
            row.files.try_push((string_from(alloc, name)?, bytes))?;
        }
        _ => {}
    }
    Ok(())
}
