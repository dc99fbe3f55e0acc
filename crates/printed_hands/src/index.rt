//! An index of names: a balanced tree finds the place of a name, so that no choice of names makes
//! it slow.
ghost use Rattle.std.specs.Prelude.{◌≡◌, ℕ, List, [], length, Some, bytes_eq, IfOk, OnErr, OnOk};
ghost use Rattle.std.specs.List.{position_from};
ghost use Rattle.printed_hands.specs.Indexed.{AreIndexed};
ghost use Rattle.printed_hands.specs.Names.{with_name};

use card_set::{Memory, TryInsert, string_from};
use std::alloc::Global;
use std::collections::BTreeMap;

/// The places of different names in the order in which they came, from 0. The index has a copy of
/// each name; its user keeps the list of names, and knows how many there are.
#[derive(Drop)]
pub struct NameIndex {
    places: BTreeMap<String, usize>,
}

impl NameIndex {
    /// An index without names.
    pub fn new(alloc: Global) -> Self
        ensures { AreIndexed result [] }
    {
        NameIndex {
            places: BTreeMap::new(alloc),
        }
    }

    /// The place of a name. A new name gets the next place, `others`, the number of names before
    /// it. Names are compared byte for byte, and finding a name takes about as many comparisons as
    /// the number of names has binary digits.
    ///
    /// # Errors
    ///
    /// Out of memory for a new name.
    pub fn place_of(&mut self, alloc: Global, name: &str, others: usize) -> Result<usize, Memory>
        ensures names { (names : List (List ℕ)) → AreIndexed self.old names
            → length names ≡ others
            → OnOk result (AreIndexed self.new (with_name names name.now)) }
        ensures place { (names : List (List ℕ)) → AreIndexed self.old names
            → length names ≡ others
            → IfOk result (λ place. position_from (bytes_eq name.now) 0 (with_name names name.now)
            ≡ Some place) }
        ensures refused { (names : List (List ℕ)) → AreIndexed self.old names
            → OnErr result (AreIndexed self.new names) }
    {
        if let Some(place) = self.places.get(name) {
            return Ok(*place);
        }
        let name = string_from(alloc, name)?;
        self.places.try_insert(name, others)?;
        Ok(others)
    }
}
