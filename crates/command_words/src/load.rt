//! The words of `load`: the summary of hands made from a seed.
ghost use Rattle.std.specs.Prelude.{◌≡◌, option_map};
ghost use Rattle.command_words.specs.Command.{command_in};
ghost use Rattle.command_words.specs.Requests.{file_given, options_in};
ghost use Rattle.command_words.specs.Load.{load_asked};

use crate::command::Command;
use crate::given_options::{GivenOptions, has_no_options};
use crate::notation::NotationName;
use crate::numbers::{read_count, read_seed};

/// Makes hands from a seed.
pub fn command(options: GivenOptions<'_>) -> Option<Command<NotationName>>
    ensures { option_map (command_in (file_given (options_in options.entry))) result
        ≡ load_asked (options_in options.entry) }
{
    let others = GivenOptions {
        seed: None,
        hands: None,
        ..options
    };
    if !has_no_options(others) {
        return None;
    }
    let seed = read_seed(options.seed?)?;
    let hands = read_count(options.hands?)?;
    Some(Command::Load { seed, hands })
}
