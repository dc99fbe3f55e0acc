//! A row of up to five heights: as many as a hand has different ranks.
ghost use Rattle.std.specs.Prelude.{◌≡◌, ◌+◌, ◌<◌, ◌≤◌, [], ◌∷◌, ◌++◌, length};

/// Heights in order: the first `len` of `heights`.
#[derive(Clone, Copy, Debug)]
pub struct RankRow {
    len: u8,
    heights: [u8; 5],
    ghost fits: { len ≤ 5 },
    ghost entries: { length heights ≡ 5 },
}

impl RankRow {
    ghost use Rattle.hand_order.specs.Heights.{heights_of};

    /// A row without heights.
    pub fn new() -> Self
        ensures { heights_of result ≡ [] }
    {
        RankRow {
            len: 0,
            heights: [0; 5],
        }
    }

    /// Appends a height. A row holds at most five.
    pub fn push(&mut self, height: u8)
        requires { length (heights_of self.old) < 5 }
        ensures { heights_of self.new ≡ heights_of self.old ++ height ∷ [] }
    {
        self.heights[self.len as usize] = height;
        self.len += 1;
    }

    /// The heights, in order.
    pub fn as_slice(&self) -> &[u8]
        ensures { result.now ≡ heights_of self.now }
    {
        &self.heights[..self.len as usize]
    }
}

impl Default for RankRow {
    ghost use Rattle.hand_order.specs.Heights.{heights_of};

    ghost is_default = { λ row. heights_of row ≡ [] };

    fn default() -> Self {
        RankRow::new()
    }
}
