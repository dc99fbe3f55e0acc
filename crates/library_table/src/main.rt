//! Reads rows about the rules and devices from the input, one per line, and prints each with the
//! answer of the libraries.
#![tactic(auto)]

mod cards;
mod device_case;
mod devices;
mod equities;
mod games;
mod playable;
mod pots;
mod rows;
mod scripts;
mod shares;
mod spelling;
mod std_devices;
mod words;

use std::alloc::AllocError;
use std::io;
use std::io::{Error, ErrorKind};
use std::rt::Files;

fn main(rt: HostRuntime) -> io::Result<()> {
    for line in rt.lines(rt.alloc()) {
        match answered(&rt, line?.as_str()) {
            Ok(row) => println!(rt; "{row}")?,
            Err(_) => return Err(Error::from(ErrorKind::OutOfMemory)),
        }
    }
    Ok(())
}

// A row followed by its answer. Headings, which begin with `#`, and empty lines stay as they are.
fn answered(rt: &(impl Files + AllocGlobal), row: &str) -> Result<String, AllocError> {
    let alloc = rt.alloc();
    if row.is_empty() || row.starts_with('#') {
        return Ok(String::from_str(alloc, row)?);
    }
    match answer_to(rt, row)? {
        Some(answer) => Ok(format!(in alloc; "{row} = {answer}")?),
        None => Ok(format!(in alloc; "{row} ? no such row")?),
    }
}

// The answer of the subject that the first word names, or `None` if the row cannot be read there. A
// word that is not a subject of the rules names a device.
fn answer_to(rt: &(impl Files + AllocGlobal), row: &str) -> Result<Option<String>, AllocError> {
    let alloc = rt.alloc();
    let (subject, rest) = words::first_and_rest(row);
    let answer = match subject.as_bytes() {
        b"cards" => cards::answer_to(alloc, rest)?,
        b"equity" => equities::answer_to(alloc, rest)?,
        b"games" => games::answer_to(alloc, rest)?,
        b"pots" => pots::answer_to(alloc, rest)?,
        b"scripts" => scripts::answer_to(alloc, rest)?,
        b"spelling" => spelling::answer_to(alloc, rest)?,
        _ => devices::answer_to(rt, row)?,
    };
    Ok(answer)
}
