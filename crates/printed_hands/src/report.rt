//! The report on hands: one line per game that was played, one for all hands, and one per name.
ghost use Rattle.std.specs.Prelude.{◌≡◌, ◌≤◌, ◌<◌, ◌++◌, ◌∷◌, [], List, flat_map, length, IfOk, OnOk, string_bytes};
ghost use Rattle.std.specs.List.{AllByRecursion};
ghost use Rattle.first_fault.specs.declared.limits.TheConstants.{MOST_HANDS};
ghost use Rattle.hand_canon.specs.declared.trace.Play.{Play as AnyPlay};
ghost use Rattle.printed_hands.specs.Report.{report_said};
ghost use Rattle.printed_hands.specs.SoFar.{IsReportSoFar};
ghost use Rattle.printed_hands.specs.Tallies.{IsRowWithin, named_tallies, named_tally_line};

use crate::games::{Sums, add_to_sums, no_sums, push_sums};
use crate::index::NameIndex;
use crate::lines::push_name_line;
use crate::names::tally_seat;
use crate::tally::NamedTally;
use card_set::Memory;
use chip_ledger::Seat;
use hand_canon::Play;
use indexmap::IndexMap;
use std::alloc::Global;

/// A report in progress: of each hand only what it adds to the report is kept.
#[derive(Drop)]
pub struct OpenReport {
    places: NameIndex,
    tallies: IndexMap<usize, NamedTally>,
    sums: Vec<Sums>,
    hands: u64,
}

impl OpenReport {
    /// A report on no hands.
    ///
    /// # Errors
    ///
    /// Out of memory for the games.
    pub fn new(alloc: Global) -> Result<Self, Memory>
        ensures { IfOk result (λ report. IsReportSoFar report []) }
    {
        let sums = no_sums(alloc)?;
        Ok(OpenReport {
            places: NameIndex::new(alloc),
            tallies: IndexMap::new(alloc),
            sums,
            hands: 0,
        })
    }

    /// Adds the play of one more hand.
    ///
    /// # Errors
    ///
    /// A request for memory was refused. The report is not to be used any more then.
    pub fn add_play(&mut self, alloc: Global, play: &Play) -> Result<(), Memory>
        requires { (before : List AnyPlay) × (IsReportSoFar self.old before)
            × (length before < MOST_HANDS) }
        ensures { (before : List AnyPlay) → IsReportSoFar self.old before
            → OnOk result (IsReportSoFar self.new (before ++ play.now ∷ [])) }
    {
        let number = self.hands + 1;
        for index in 0..play.trace.setup.stacks.seats {
            let seat = Seat { number: index + 1 };
            tally_seat(
                alloc,
                &mut self.places,
                &mut self.tallies,
                number,
                play,
                seat,
            )?;
        }
        add_to_sums(&mut self.sums, play);
        self.hands = number;
        Ok(())
    }

    /// The text of the report on the hands so far.
    ///
    /// # Errors
    ///
    /// Out of memory for the text.
    pub fn text(&self, alloc: Global) -> Result<String, Memory>
        requires { (plays : List AnyPlay) × (IsReportSoFar self.now plays)
            × (length plays ≤ MOST_HANDS) }
        ensures { (plays : List AnyPlay) → IsReportSoFar self.now plays
            → IfOk result (λ text. string_bytes text ≡ report_said plays) }
    {
        let mut text = String::new(alloc);
        push_sums(alloc, &mut text, &self.sums)?;
        push_names(alloc, &mut text, &self.tallies)?;
        Ok(text)
    }
}

/// The text of the report on these hands: one line per game that was played, in the order of the
/// table of games, one for all hands, and one per name, in the order in which names are first seen.
/// Pots are counted before rakes are taken. A seat without a name has its default, as `p2`.
///
/// # Errors
///
/// Out of memory for the names or the text.
pub fn report_text(alloc: Global, plays: &[Play]) -> Result<String, Memory>
    requires few { length plays.now ≤ MOST_HANDS }
    ensures { IfOk result (λ text. string_bytes text ≡ report_said plays.now) }
{
    let mut report = OpenReport::new(alloc)?;
    for play in plays {
        report.add_play(alloc, play)?;
    }
    report.text(alloc)
}

// Appends the line of each name, in the order of the map.
fn push_names(
    alloc: Global,
    text: &mut String,
    tallies: &IndexMap<usize, NamedTally>,
) -> Result<(), Memory>
    requires { AllByRecursion IsRowWithin (named_tallies tallies.now.entries) }
    ensures { OnOk result (string_bytes text.new ≡ string_bytes text.old
        ++ flat_map named_tally_line (named_tallies tallies.now.entries)) }
{
    for index in 0..tallies.len() {
        let (_, named) = tallies.get_index(index).unwrap();
        push_name_line(alloc, text, named.name.as_str(), named.tally)?;
    }
    Ok(())
}
