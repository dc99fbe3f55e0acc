//! Parses a text, or says that it is no document.
ghost use Rattle.std.specs.Prelude.{◌≡◌, option_map, IfOk};
ghost use Rattle.toml.specs.Errors.{IsMemory};
ghost use Rattle.toml.specs.Parse.{parse_document};
ghost use Rattle.toml.specs.View.{table_view};

use card_set::Memory;
use std::alloc::Global;
use toml::Table;
use toml::de::Error;

/// The document that a text is, or nothing if it is not TOML.
pub fn document(alloc: Global, text: &str) -> Result<Option<Table>, Memory>
    ensures { IfOk result (λ found.
        option_map (λ table. table_view table) found ≡ parse_document text.now) }
{
    match toml::table_from_str(alloc, text) {
        Ok(table) => Ok(Some(table)),
        Err(error) => {
            if error.is_memory() {
                Err(refused_in_parser(&error))
            } else {
                Ok(None)
            }
        }
    }
}

// The parser reports out of memory only if a request was refused; that is assumed here.
#[tactic(auto, using(card_set::specs::Refusal::an_allocator_said_so))]
fn refused_in_parser(_error: &Error) -> Memory
    requires { IsMemory _error.now }
{
    Memory {}
}
