//! The notations that a command names: how they are read and written, with the game for logs.
ghost use Rattle.std.specs.Prelude.{◌≡◌, ℕ, List};
ghost use Rattle.command_words.specs.Command.{command_in};
ghost use Rattle.poker_cli.specs.NamedFormats as definition;

use acpc_game::Game;
use command_words::{Command, NotationName, PlainNotation};
use convert_core::Format;
use ohh_members::Dialect;

/// A command about notations that need no game.
pub fn to_plain_formats(command: Command<PlainNotation>) -> Command<Format>
    ensures { (file : List ℕ)
        → command_in file result ≡ definition.in_plain_formats (command_in file command) }
{
    command.map(to_plain_format)
}

/// A command, where logs are under a game.
pub fn to_formats_under(game: Game, command: Command<NotationName>) -> Command<Format>
    ensures { (file : List ℕ)
        → command_in file result ≡ definition.in_formats_under game (command_in file command) }
{
    command.map(|notation| to_format_under(game, notation))
}

// The notation of this name, with the game for logs.
fn to_format_under(game: Game, notation: NotationName) -> Format
    ensures { result ≡ definition.format_under game notation }
{
    match notation {
        NotationName::Plain(notation) => to_plain_format(notation),
        NotationName::Acpc => Format::Acpc(game),
    }
}

// The notation of this name, which needs no game.
fn to_plain_format(notation: PlainNotation) -> Format
    ensures { result ≡ definition.plain_format notation }
{
    match notation {
        PlainNotation::Phh => Format::Phh,
        PlainNotation::Ohh => Format::Ohh(Dialect::Added),
        PlainNotation::OhhTo => Format::Ohh(Dialect::To),
    }
}
