//! The steps of all names, by hand, and within a hand by the first seat of each name.
ghost use Rattle.std.specs.Prelude.{◌≡◌, ◌<◌, length, slice_get, Some};

use first_fault::Text;
use std::marker::Model;

/// What happened to a name between hands. Amounts are chips.
#[derive(Clone, Copy, Debug, PartialEq, Eq)]
pub enum StepKind {
    /// It is new, and starts with this number of chips.
    Join(u64),
    /// It starts with this number of chips more than it finished its last hand with; fewer are
    /// below 0.
    Gap(i64),
}

/// A step of a name: it joins, or starts a hand with another number of chips than it had.
#[derive(Debug, Drop)]
pub struct Step {
    /// The number of the hand, from 1.
    pub hand: u32,
    pub name: Text,
    pub kind: StepKind,
}

/// Steps, by hand and within a hand by the first seat of each name.
#[derive(Debug, Drop)]
pub struct Steps {
    steps: Vec<Step>,
}

impl Model for Steps {
    ghost use Rattle.std.specs.Prelude.{List};
    ghost use Rattle.hand_session.specs.declared.steps.Step.{Step};

    ghost Value = { List Step };

    ghost view = { λ s. s.steps.items };
}

impl Steps {
    /// These steps.
    pub(crate) fn from_vec(steps: Vec<Step>) -> Self
        ensures { result ≡ steps.items }
    {
        Steps { steps }
    }

    /// The step at this index, from 0. Ask first that the index is below `len`.
    pub fn get(&self, index: usize) -> &Step
        requires { index < length self.now }
        ensures { slice_get self.now index ≡ Some result.now }
    {
        &self.steps[index]
    }

    /// How many steps there are.
    pub fn len(&self) -> usize
        ensures { result ≡ length self.now }
    {
        self.steps.len()
    }

    /// The steps, in order.
    pub fn as_slice(&self) -> &[Step]
        ensures { result.now ≡ self.now }
    {
        self.steps.as_slice()
    }
}
