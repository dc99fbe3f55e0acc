//! Reads the words of a command line with a parser.
ghost use Rattle.std.specs.Prelude.{◌≡◌, map, option_map, string_bytes, IfErr, IfOk, Ok, None, Some, is_some, true};
ghost use Rattle.clap.specs.Simple.{new_rule};
ghost use Rattle.clap.specs.Words.{app_of, found_of, kind_of};
ghost use Rattle.clap.specs.declared.builder.action.ArgAction.TheVariants.{SetTrue};
ghost use Rattle.clap.specs.declared.error.kind.ErrorKind.TheVariants.{OutOfMemory};
ghost use Rattle.command_words.specs.Requests.{AreFound, IsSaidBy, options_in, request_in};
ghost use Rattle.command_words.specs.GivenOptions.{GivenOptions as OptionsSaid};
ghost use Rattle.command_words.specs.Parser.{IsArgument, are_taken, handref};
ghost use Rattle.command_words.specs.Words.{request_said};

use crate::given_options::{GivenOptions, read_options};
use crate::request::Request;
use crate::words::request_of;
use card_set::Memory;
use clap::{Arg, ArgAction, ArgMatches};
use std::alloc::{AllocError, Global};

/// What the words ask for, or `None` if they are no command. Out of memory is reported only for
/// words that the parser takes: for these it fails for no other reason.
#[tactic(auto, using(crate::proofs::Taken::all_taken))]
pub fn read_words<'a>(alloc: Global, words: &'a [String]) -> Result<Option<Request<'a>>, Memory>
    ensures read { IfOk result (λ request. option_map request_in request
        ≡ request_said (map string_bytes words.now)) }
    ensures none { request_said (map string_bytes words.now) ≡ None → result ≡ Ok None }
    ensures memory { IfErr result (λ _. are_taken (map string_bytes words.now) ≡ true) }
{
    if request_in_words(words).is_none() {
        return Ok(None);
    }
    let matches = match parsed(alloc, words) {
        Ok(matches) => matches,
        Err(error) => return Err(refused_by_clap(&error)),
    };
    let Some(word) = matches.get_str("command") else {
        return Ok(None);
    };
    Ok(request_of(word, options_found(&matches)))
}

// What the words ask for, found without allocating memory.
#[tactic(auto, unfolding(crate::specs::GivenOptions::options_said))]
fn request_in_words(words: &[String]) -> Option<Request<'_>>
    ensures { option_map request_in result ≡ request_said (map string_bytes words.now) }
{
    let (word, words) = words.split_first()?;
    let options = read_options(words)?;
    request_of(word.as_str(), options)
}

// Turns an error of the parser that says out of memory into `Memory`.
#[tactic(auto, using(card_set::specs::Refusal::an_allocator_said_so))]
fn refused_by_clap(_error: &clap::Error) -> Memory
    requires { kind_of _error.now ≡ OutOfMemory }
{
    Memory {}
}

// The parsed words of a command, by name. The parser takes them all, so it fails only if memory
// runs out.
fn parsed<'a>(alloc: Global, words: &'a [String]) -> Result<ArgMatches<'a>, clap::Error>
    requires { is_some (request_said (map string_bytes words.now)) ≡ true }
    ensures said { IfOk result (λ matches.
        IsSaidBy (map string_bytes words.now) (found_of matches)) }
    ensures memory { IfErr result (λ error. kind_of error ≡ OutOfMemory) }
{
    parser(alloc)?.try_get_matches_from(words)
}

// The parser.
fn parser<'a>(alloc: Global) -> Result<clap::Command<'a>, AllocError>
    ensures { IfOk result (λ parser. app_of parser ≡ handref) }
{
    let command = Arg::new(alloc, "command");
    clap::Command::new(alloc, "handref")
        .no_binary_name(true)
        .arg(command)?
        .arg(option(alloc, "from"))?
        .arg(option(alloc, "to"))?
        .arg(option(alloc, "game"))?
        .arg(option(alloc, "seed"))?
        .arg(option(alloc, "hands"))?
        .arg(option(alloc, "seat"))?
        .arg(option(alloc, "hand"))?
        .arg(option(alloc, "after"))?
        .arg(option(alloc, "street"))?
        .arg(option(alloc, "with"))?
        .arg(option(alloc, "as"))?
        .arg(flag(alloc, "drop-notes"))?
        .arg(flag(alloc, "no-notes"))?
        .arg(flag(alloc, "lines"))?
        .arg(flag(alloc, "each"))
}

// An option of this name.
fn option<'a>(alloc: Global, name: &'a str) -> Arg<'a>
    ensures { IsArgument result (record (new_rule name.now) { long = Some name.now }) }
{
    Arg::new(alloc, name).long(name)
}

// A flag of this name.
fn flag<'a>(alloc: Global, name: &'a str) -> Arg<'a>
    ensures { IsArgument result
        (record (new_rule name.now) { long = Some name.now; action = Some SetTrue }) }
{
    option(alloc, name).action(ArgAction::SetTrue)
}

// The options that the parser found.
fn options_found<'a>(matches: &ArgMatches<'a>) -> GivenOptions<'a>
    ensures { (options : OptionsSaid) → AreFound (found_of matches.now) options
        → options_in result ≡ options }
{
    GivenOptions {
        from: matches.get_str("from"),
        to: matches.get_str("to"),
        game: matches.get_str("game"),
        seed: matches.get_str("seed"),
        hands: matches.get_str("hands"),
        seat: matches.get_str("seat"),
        hand: matches.get_str("hand"),
        after: matches.get_str("after"),
        street: matches.get_str("street"),
        other_file: matches.get_str("with"),
        other_notation: matches.get_str("as"),
        drops_notes: matches.get_flag("drop-notes"),
        ignores_notes: matches.get_flag("no-notes"),
        shows_lines: matches.get_flag("lines"),
        asks_each: matches.get_flag("each"),
    }
}
