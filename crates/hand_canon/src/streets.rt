//! How many streets a game has, and which of them draw.
ghost use Rattle.std.specs.Prelude.{◌≡◌, ◌≤◌};
ghost use Rattle.play_event.specs.Games.{street_count};
ghost use Rattle.play_event.specs.Streets.{has_draw};

use play_event::Code;
use variant_table::table_of;

/// How many streets the game has.
pub(crate) fn count_streets(code: Code) -> u8
    ensures { result ≡ street_count code }
{
    table_of(code).streets
}

/// Whether the street of the game, from 1, draws.
pub(crate) fn draws(code: Code, street: u8) -> bool
    requires { 1 ≤ street }
    ensures { result ≡ has_draw code street }
{
    let table = table_of(code);
    street <= table.streets && table.rows[street as usize - 1].draws
}
