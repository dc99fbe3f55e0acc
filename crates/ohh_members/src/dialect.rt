//! The two dialects, which write the amount of a raise in two ways.

/// How the amount of a raise is written: the chips that it adds, or the bet on the street that it
/// raises to.
#[derive(Clone, Copy, Debug, PartialEq, Eq)]
pub enum Dialect {
    Added,
    To,
}
