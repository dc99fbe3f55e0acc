//! What is asked: one case for each command, with what it needs.
ghost use Rattle.std.specs.Prelude.{◌≡◌, ℕ, List, option_map};
ghost use Rattle.command_words.specs.Command.{command_in, has_input, has_other_file, is_about_logs, plain_command, with_notations};

use crate::hand_count::HandCount;
use crate::notation::{NotationName, PlainNotation};
use chip_ledger::Seat;
use hand_canon::Keep;

/// What is asked: one case for each command. `N` names a notation, and `from` is that of the input.
/// Hands and streets are counted from 1.
#[derive(Clone, Copy, Debug, PartialEq, Eq)]
pub enum Command<N> {
    /// The chips that each seat of each hand ends with.
    Check { from: N },
    /// Each hand step by step.
    Replay { from: N },
    /// Hands and pots by game, and chips by name.
    Report { from: N },
    /// The stacks of each player over the hands, and how often each played and won.
    Session { from: N },
    /// The game file that fits the first hand.
    Game { from: N },
    /// The legal moves after the first `events` events of a hand.
    Options { from: N, hand: u32, events: u32 },
    /// How often each live hand would win, from a street of a hand on.
    Equity { from: N, hand: u32, street: u8 },
    /// The verdict on each hand: whether it is legal, and why it is not; `lines` asks for the line
    /// on which it begins, too.
    Judge { from: N, lines: bool },
    /// The messages that a seat received in the hands of a log.
    Views { from: N, seat: Seat },
    /// The answer to a question that hands answer each by itself.
    Each { from: N, question: EachQuestion },
    /// The same hands in another notation; `keep` says which notes are kept.
    Convert { from: N, to: N, keep: Keep },
    /// Whether the hands are the same as those of another file, in the notation `other`, with or
    /// without their notes. The name of the file is beside the command.
    Compare { from: N, other: N, notes: bool },
    /// The summary of hands that are made from a seed. It reads no input.
    Load { seed: u64, hands: HandCount },
}

impl<N> Command<N> {
    /// The same command, where each notation is what `notation` gives for it.
    pub fn map<M, F: Fn(N) -> M>(self, notation: F) -> Command<M>
        requires { F.IsAlwaysCallable notation }
        ensures { (meaning : N → M)
            → ((name : N) (given : M) → F.post notation name given → given ≡ meaning name)
            → (file : List ℕ)
            → command_in file result ≡ with_notations meaning (command_in file self) }
    {
        match self {
            Command::Check { from } => Command::Check {
                from: notation(from),
            },
            Command::Replay { from } => Command::Replay {
                from: notation(from),
            },
            Command::Report { from } => Command::Report {
                from: notation(from),
            },
            Command::Session { from } => Command::Session {
                from: notation(from),
            },
            Command::Game { from } => Command::Game {
                from: notation(from),
            },
            Command::Options { from, hand, events } => Command::Options {
                from: notation(from),
                hand,
                events,
            },
            Command::Equity { from, hand, street } => Command::Equity {
                from: notation(from),
                hand,
                street,
            },
            Command::Judge { from, lines } => Command::Judge {
                from: notation(from),
                lines,
            },
            Command::Views { from, seat } => Command::Views {
                from: notation(from),
                seat,
            },
            Command::Each { from, question } => Command::Each {
                from: notation(from),
                question,
            },
            Command::Convert { from, to, keep } => Command::Convert {
                from: notation(from),
                to: notation(to),
                keep,
            },
            Command::Compare { from, other, notes } => Command::Compare {
                from: notation(from),
                other: notation(other),
                notes,
            },
            Command::Load { seed, hands } => Command::Load { seed, hands },
        }
    }

    /// Whether the command reads another file.
    pub fn reads_file(&self) -> bool
        ensures { (file : List ℕ) → result ≡ has_other_file (command_in file self.now) }
    {
        match self {
            Command::Compare { .. } => true,
            _ => false,
        }
    }

    /// Whether the command reads the input.
    pub fn reads_input(&self) -> bool
        ensures { (file : List ℕ) → result ≡ has_input (command_in file self.now) }
    {
        match self {
            Command::Load { .. } => false,
            _ => true,
        }
    }
}

impl Command<NotationName> {
    /// Whether one of the notations of the command is that of logs.
    pub fn names_log(&self) -> bool
        ensures { (file : List ℕ) → result ≡ is_about_logs (command_in file self.now) }
    {
        match self {
            Command::Check { from }
            | Command::Replay { from }
            | Command::Report { from }
            | Command::Session { from }
            | Command::Game { from }
            | Command::Options { from, .. }
            | Command::Equity { from, .. }
            | Command::Judge { from, .. }
            | Command::Views { from, .. }
            | Command::Each { from, .. } => from.is_log(),
            Command::Convert { from, to, .. } => from.is_log() || to.is_log(),
            Command::Compare { from, other, .. } => from.is_log() || other.is_log(),
            Command::Load { .. } => false,
        }
    }

    /// The same command, if none of its notations is that of logs.
    pub fn plain(self) -> Option<Command<PlainNotation>>
        ensures { (file : List ℕ)
            → option_map (command_in file) result ≡ plain_command (command_in file self) }
    {
        Some(match self {
            Command::Check { from } => Command::Check {
                from: from.plain()?,
            },
            Command::Replay { from } => Command::Replay {
                from: from.plain()?,
            },
            Command::Report { from } => Command::Report {
                from: from.plain()?,
            },
            Command::Session { from } => Command::Session {
                from: from.plain()?,
            },
            Command::Game { from } => Command::Game {
                from: from.plain()?,
            },
            Command::Options { from, hand, events } => Command::Options {
                from: from.plain()?,
                hand,
                events,
            },
            Command::Equity { from, hand, street } => Command::Equity {
                from: from.plain()?,
                hand,
                street,
            },
            Command::Judge { from, lines } => Command::Judge {
                from: from.plain()?,
                lines,
            },
            Command::Views { from, seat } => Command::Views {
                from: from.plain()?,
                seat,
            },
            Command::Each { from, question } => Command::Each {
                from: from.plain()?,
                question,
            },
            Command::Convert { from, to, keep } => Command::Convert {
                from: from.plain()?,
                to: to.plain()?,
                keep,
            },
            Command::Compare { from, other, notes } => Command::Compare {
                from: from.plain()?,
                other: other.plain()?,
                notes,
            },
            Command::Load { seed, hands } => Command::Load { seed, hands },
        })
    }
}

/// What is asked about hands of the input each by itself: a refused hand is answered up to its
/// refused event, whatever the others are. Hands are counted from 1.
#[derive(Clone, Copy, Debug, PartialEq, Eq)]
pub enum EachQuestion {
    /// All hands step by step, and the verdict on each refused one.
    Replay,
    /// The legal moves of a hand at every point, and the verdict on it if it is refused.
    EveryPoint { hand: u32 },
    /// The legal moves after the first `events` events of a hand.
    Point { hand: u32, events: u32 },
}
