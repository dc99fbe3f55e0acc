//! Scores every hand that can be dealt in each order, and prints how many hands there are of each
//! class.
//!
//! With the words ORDER CARDS ROUNDS it scores hands of CARDS cards instead, for `bench/scores` to
//! time.
#![tactic(auto)]

mod dealing;
mod speed;
mod tables;
mod tally;

use std::{env, io};

fn main(rt: HostRuntime) -> io::Result<()> {
    let mut words = Vec::new(rt.alloc());
    for word in env::args(&rt)?.skip(1) {
        words.push(word)?;
    }
    if let [order, cards, rounds] = words.as_slice() {
        if let (Ok(cards), Ok(rounds)) = (cards.parse::<u8>(), rounds.parse::<u32>()) {
            if let Some(scored) = speed::score_order(order, cards, rounds) {
                let hands = scored.hands;
                let points = scored.points;
                println!(rt; "{hands} hands, {points} points")?;
            }
        }
        return Ok(());
    }
    for line in tables::all_counts(rt.alloc())? {
        println!(rt; "{line}")?;
    }
    Ok(())
}
