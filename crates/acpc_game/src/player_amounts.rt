//! The amounts that a game file says of its two to ten players.
ghost use Rattle.std.specs.Prelude.{◌≡◌, ◌≤◌, true, length};
ghost use Rattle.acpc_game.specs.Games.{are_chips};

/// An amount of chips for each player of a game, the first seat's first.
#[derive(Clone, Copy)]
pub struct PlayerAmounts<'a> {
    pub amounts: &'a [u64],
    pub ghost some: { 2 ≤ length amounts.now },
    pub ghost few: { length amounts.now ≤ 10 },
    pub ghost chips: { are_chips amounts.now ≡ true },
}
