//! Reads rows from the input, one per line, runs the program for each over devices in memory, and
//! prints each row with its answer. With words it does a part of that, which `bench/` times.
#![tactic(auto)]

mod answer;
mod known_answers;
mod known_conversions;
mod known_laws;
mod known_run;
mod libraries;
mod made;
mod parts;
mod pieces;
mod row;
mod series;
mod timing;
mod way;

use card_set::Memory;
use pieces::{Pieces, parted};
use std::alloc::Global;
use std::{env, io};

fn main(rt: HostRuntime) -> io::Result<()> {
    let alloc = rt.alloc();
    let mut words = Vec::new(alloc);
    for word in env::args(&rt)?.skip(1) {
        words.push(word)?;
    }
    if !words.is_empty() {
        return timing::answer_words(&rt, words.as_slice());
    }
    print_answers(&rt)
}

// Prints each line of the input, followed by the answer if the line is a row.
fn print_answers(rt: &HostRuntime) -> io::Result<()> {
    let alloc = rt.alloc();
    let mut pieces = Pieces::new(alloc);
    for line in rt.lines(alloc) {
        let line = line?;
        rt.println(line.as_str())?;
        match answer_to(alloc, &mut pieces, line.as_str()) {
            Ok(Some(answer)) => println!(rt; "    {answer}")?,
            Ok(None) => {}
            Err(_) => return Err(io::Error::from(io::ErrorKind::OutOfMemory)),
        }
    }
    Ok(())
}

// The answer to a line that is a row. `let NAME = TEXT` names a piece of text, `made SEED HANDS`
// gives the hands to make, `way FROM BY TO GAME` a conversion to repeat through another notation,
// and `library CALL` a library call to make in place of a run; a heading begins with `#`.
fn answer_to(alloc: Global, pieces: &mut Pieces, line: &str) -> Result<Option<String>, Memory> {
    if line.is_empty() || line.starts_with('#') {
        return Ok(None);
    }
    if let Some(definition) = line.strip_prefix("let ") {
        pieces.define(alloc, definition)?;
        return Ok(None);
    }
    let (kind, row) = parted(line, " ");
    match kind {
        "made" => Ok(Some(made::answer_to(alloc, row)?)),
        "way" => Ok(Some(way::answer_to(alloc, pieces, row)?)),
        "library" => Ok(Some(libraries::answer_to(alloc, pieces, row)?)),
        _ => Ok(Some(series::answers_to(alloc, pieces, line)?)),
    }
}
