//! Reads rows of hands from the input, one per line, and prints each with the answer of the betting
//! or the cards, or of `replay` followed by `canon` or `check_stated`.
#![tactic(auto)]

mod answers;
mod betting;
mod card_words;
mod cards;
mod event_words;
mod facts;
mod hands;
mod lists;
mod setup_words;
mod traces;
mod words;

use crate::words::first_and_rest;
use std::alloc::{AllocError, Global};
use std::io;

fn main(rt: HostRuntime) -> io::Result<()> {
    let alloc = rt.alloc();
    for line in rt.lines(alloc) {
        let row = answered(alloc, line?.as_str())?;
        println!(rt; "{row}")?;
    }
    Ok(())
}

// A row followed by its answer. Headings, which begin with `#`, and empty lines stay as they are.
fn answered(alloc: Global, row: &str) -> Result<String, AllocError> {
    if row.is_empty() || row.starts_with('#') {
        return String::from_str(alloc, row);
    }
    match answer_to(alloc, row)? {
        Some(answer) => format!(in alloc; "{row} = {answer}"),
        None => format!(in alloc; "{row} ? no such row"),
    }
}

// The answer to the row, by its first word, or `None` if the row cannot be read.
fn answer_to(alloc: Global, row: &str) -> Result<Option<String>, AllocError> {
    let (word, rest) = first_and_rest(row);
    match word.as_bytes() {
        b"betting" => betting::answer_to(alloc, rest),
        b"cards" => cards::answer_to(alloc, rest),
        b"replay" => answers::replayed(alloc, rest),
        b"canon" => answers::canonical(alloc, rest),
        b"stated" => answers::compared(alloc, rest),
        b"times" => answers::repeated(alloc, rest),
        b"push" => lists::pushed(alloc, rest),
        b"text" => lists::copied(alloc, rest),
        _ => Ok(None),
    }
}
