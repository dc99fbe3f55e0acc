//! A number of hands that a file may have.
ghost use Rattle.std.specs.Prelude.{◌≤◌};
ghost use Rattle.first_fault.specs.declared.limits.TheConstants.{MOST_HANDS};

/// A number of made hands, at most as many as a file may have.
#[derive(Clone, Copy, Debug, PartialEq, Eq)]
pub struct HandCount {
    pub number: u32,
    pub ghost few: { number ≤ MOST_HANDS },
}
