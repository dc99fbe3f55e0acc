//! The set of legal targets, from the lowest and the highest of them and the game's limit.
ghost use Rattle.std.specs.Prelude.{◌≡◌};
ghost use Rattle.play_event.specs.declared.limit.Limit.TheVariants as limits;
ghost use Rattle.hand_options.specs.Sets.{set_of};
ghost use Rattle.hand_options.specs.Sets as sets;

use crate::choices::RaiseSet;
use betting_core::Targets;
use play_event::Limit;

/// The set of legal targets between these, the lowest and the highest of them.
pub fn raise_set(limit: Limit, ends: Option<Targets>) -> RaiseSet
    ensures { result ≡ set_of limit ends }
{
    match ends {
        None => RaiseSet::None,
        Some(ends) => targets_between(limit, ends.least, ends.greatest),
    }
}

// The set of legal targets from `least` to `greatest`. In fixed limit there are no others.
fn targets_between(limit: Limit, least: u64, greatest: u64) -> RaiseSet
    ensures { result ≡ sets.set_between limit least greatest }
{
    match limit {
        Limit::No | Limit::Pot => RaiseSet::Range { least, greatest },
        Limit::Fixed => listed(least, greatest),
    }
}

// One target or two.
fn listed(least: u64, greatest: u64) -> RaiseSet
    ensures { result ≡ sets.set_between limits.Fixed least greatest }
{
    if least == greatest {
        RaiseSet::List {
            count: 1,
            to: [least, 0],
        }
    } else {
        RaiseSet::List {
            count: 2,
            to: [least, greatest],
        }
    }
}
