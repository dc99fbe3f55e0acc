//! The setup and the rules of a test row: `NT 14,100,100 blinds=1,2,0 min=2 rakes=1 always_open`.
ghost use Rattle.std.specs.Prelude.{◌<◌};

use crate::words;
use chip_ledger::{RakeRow, SeatRow};
use play_event::{Code, Reopen, Rules, Setup};

/// What a row begins with: the code of the game, the stacks, and whatever else is not 0 or the
/// default.
pub fn setup_of(text: &str) -> Option<(Setup, Rules)> {
    let (code, rest) = words::first_and_rest(text);
    let (stacks, rest) = words::first_and_rest(rest);
    let stacks = words::row_of(stacks)?;
    let mut setup = Setup {
        code: Code::read(code)?,
        stacks,
        antes: SeatRow::new(stacks.seats),
        dead_antes: false,
        blinds: SeatRow::new(stacks.seats),
        bring_in: 0,
        small_bet: 0,
        big_bet: 0,
        min_bet: 0,
        rakes: RakeRow::none(),
    };
    let mut rules = Rules {
        reopen: Reopen::Full,
        free_fold: true,
        caps: None,
    };
    for word in rest.split(' ') {
        let (name, value) = word.split_once('=').unwrap_or((word, ""));
        set_value(&mut setup, &mut rules, name, value)?;
    }
    Some((setup, rules))
}

fn set_value(setup: &mut Setup, rules: &mut Rules, name: &str, value: &str) -> Option<()> {
    match name.as_bytes() {
        b"antes" => setup.antes = words::row_of(value)?,
        b"dead" => setup.dead_antes = true,
        b"blinds" => setup.blinds = words::row_of(value)?,
        b"bring_in" => setup.bring_in = value.parse::<u64>().ok()?,
        b"small" => setup.small_bet = value.parse::<u64>().ok()?,
        b"big" => setup.big_bet = value.parse::<u64>().ok()?,
        b"min" => setup.min_bet = value.parse::<u64>().ok()?,
        b"rakes" => setup.rakes = rakes_of(value)?,
        b"always_open" => rules.reopen = Reopen::Always,
        b"no_free_fold" => rules.free_fold = false,
        b"caps" => rules.caps = Some([value.parse::<u32>().ok()?; 4]),
        _ => return None,
    }
    Some(())
}

// The rakes of up to eleven pots, from the lowest: `0,1`.
fn rakes_of(text: &str) -> Option<RakeRow> {
    let mut row = RakeRow::none();
    for (index, rake) in text.split(',').enumerate() {
        if index >= 11 {
            return None;
        }
        row = with_rake(row, index, rake.parse::<u64>().ok()?);
    }
    Some(row)
}

fn with_rake(row: RakeRow, index: usize, rake: u64) -> RakeRow
    requires { index < 11 }
{
    let mut more = row;
    more.rakes[index] = rake;
    more
}
