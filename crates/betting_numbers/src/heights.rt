//! Ranks in order, for any up-cards that a row holds.
ghost use Rattle.std.specs.Prelude.{◌≡◌, ◌+◌, ◌<◌, ◌≤◌, [], ◌∷◌, ◌++◌, length};

/// Ranks in order, as numbers: the first `len` of `heights`.
#[derive(Clone, Copy, Debug)]
pub struct Heights {
    pub len: u8,
    pub heights: [u8; 56],
    ghost fits: { len ≤ 56 },
    ghost entries: { length heights ≡ 56 },
}

impl Heights {
    ghost use Rattle.betting_numbers.specs.HeightRow.{heights_in};

    /// A row without ranks.
    pub fn new() -> Self
        ensures empty { heights_in result ≡ [] }
        ensures len { result.len ≡ 0 }
    {
        Heights {
            len: 0,
            heights: [0; 56],
        }
    }

    /// Appends a rank.
    pub fn push(&mut self, height: u8)
        requires { self.old.len < 56 }
        ensures entries { heights_in self.new ≡ heights_in self.old ++ height ∷ [] }
        ensures longer { self.new.len ≡ self.old.len + 1 }
    {
        self.heights[self.len as usize] = height;
        self.len += 1;
    }

    /// The ranks, in order.
    pub fn as_slice(&self) -> &[u8]
        ensures { result.now ≡ heights_in self.now }
    {
        &self.heights[..self.len as usize]
    }
}
