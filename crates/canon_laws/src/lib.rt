//! Laws of canonical scripts: how their parts take place, that a script and the canonical script of
//! its trace have one trace, and the ranges of what a canonical script says.
#![tactic(auto)]

mod laws;
mod range_laws;

pub use laws::{
    law_of_canonical_scripts, law_of_confluence, law_of_other_rules, law_of_tidy_traces,
};
pub use range_laws::{law_of_move_counts, law_of_own_rules, law_of_ranges};
