//! A command about logs, with its game file.
ghost use Rattle.std.specs.Prelude.{◌≡◌, true};
ghost use Rattle.command_words.specs.Command.{command_in, is_about_logs};

use crate::command::Command;
use crate::notation::NotationName;

/// A command of which a notation is that of logs, with the names of its files.
#[derive(Clone, Copy)]
pub struct LogCommand<'a> {
    pub game: &'a str,
    pub command: Command<NotationName>,
    /// The name of the other file; empty if the command reads none.
    pub file: &'a str,
    pub ghost of_log: { is_about_logs (command_in file.now command) ≡ true },
}
