//! For `bench/` to time: makes files of hands, and reads, replays and writes them, each alone.
ghost use Rattle.std.specs.Prelude.{◌≤◌};

use crate::made::file_made;
use crate::parts::{read_hands, write_hands};
use card_set::Memory;
use std::io::{self, Read, Write};
use std::time::Instant;

/// SEED HANDS: prints the file of HANDS made hands. FROM: reads the input in a notation, and prints
/// how long it took to get the records, by the wall clock and without the time to free them. FROM
/// TO TIMES: reads and replays the hands of the input, and writes them TIMES times. Notations are
/// `phh`, `ohh` and `acpc`; logs are under the game of the hands of `bench/convert`.
pub fn answer_words(rt: &HostRuntime, words: &[String]) -> io::Result<()> {
    match words {
        [from] => time_reading(rt, from),
        [seed, hands] => match (seed.parse::<u64>(), hands.parse::<u32>()) {
            (Ok(seed), Ok(hands)) if hands <= 65_536 => print_file(rt, seed, hands),
            _ => Ok(()),
        },
        [from, to, times] => count_written(rt, from, to, times.parse().unwrap_or(0)),
        _ => Ok(()),
    }
}

// Prints how long it takes to read the input, and its number of hands.
fn time_reading(rt: &HostRuntime, from: &str) -> io::Result<()> {
    let bytes = input(rt)?;
    let begun = Instant::now(rt)?;
    let hands = read_hands(rt.alloc(), from, &bytes);
    let taken = begun.elapsed(rt)?;
    println!(rt; "{} microseconds", taken.as_micros())?;
    print_count(rt, "hands", hands.map(|hands| hands.len()))
}

// Prints the file of `hands` made hands.
fn print_file(rt: &HostRuntime, seed: u64, hands: u32) -> io::Result<()>
    requires { hands ≤ 65536 }
{
    match file_made(rt.alloc(), seed, hands) {
        Ok(file) => rt.stdout().write_all(&file.bytes),
        Err(why) => match why.text(rt.alloc()) {
            Ok(text) => rt.println(text.as_str()),
            Err(_) => Err(io::Error::from(io::ErrorKind::OutOfMemory)),
        },
    }
}

// Writes the hands of the input `times` times, and prints the number of bytes.
fn count_written(rt: &HostRuntime, from: &str, to: &str, times: u32) -> io::Result<()> {
    let bytes = input(rt)?;
    let written = write_hands(rt.alloc(), from, to, times, &bytes);
    print_count(rt, "bytes", written)
}

fn input(rt: &HostRuntime) -> io::Result<Vec<u8>> {
    let mut bytes = Vec::new(rt.alloc());
    rt.stdin().read_to_end(&mut bytes)?;
    Ok(bytes)
}

// Prints a count of something, if it is known.
fn print_count(rt: &HostRuntime, what: &str, count: Option<usize>) -> io::Result<()> {
    match count {
        Some(count) => println!(rt; "{count} {what}"),
        None => println!(rt; "no {what}"),
    }
}
