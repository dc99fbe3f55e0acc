//! The bet sizes of a hand follow from its big blind.
ghost use Rattle.std.specs.Prelude.{◌≡◌, ◌≤◌, ◌*◌, not, true};
ghost use Rattle.chip_ledger.specs.declared.numbers.TheConstants.{MOST_CHIPS};
ghost use Rattle.play_event.specs.ValidSetup.{IsSizeWhere};
ghost use Rattle.ohh_members.specs.Blinds.{is_fixed_game};
ghost use Rattle.ohh_reading.specs.Sizes as sizes;

use hand_canon::Sizes;
use play_event::Code;

/// The bet sizes of a game with this big blind.
pub fn make_bet_sizes(code: Code, big_blind: u64) -> Sizes
    requires least { 1 ≤ big_blind }
    requires most { big_blind ≤ MOST_CHIPS }
    requires fixed { is_fixed_game code ≡ true → 2 * big_blind ≤ MOST_CHIPS }
    ensures said { result ≡ sizes.sizes_of code big_blind }
    ensures bring_in { result.bring_in ≡ 0 }
    ensures small_bet { IsSizeWhere (is_fixed_game code) result.small_bet }
    ensures big_bet { IsSizeWhere (is_fixed_game code) result.big_bet }
    ensures min_bet { IsSizeWhere (not (is_fixed_game code)) result.min_bet }
{
    if code.is_fixed() {
        Sizes {
            bring_in: 0,
            small_bet: big_blind,
            big_bet: 2 * big_blind,
            min_bet: 0,
        }
    } else {
        Sizes {
            bring_in: 0,
            small_bet: 0,
            big_bet: 0,
            min_bet: big_blind,
        }
    }
}
