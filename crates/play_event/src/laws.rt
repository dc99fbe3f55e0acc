//! Laws of play that a reader expects, proved from the definitions.
ghost use Rattle.std.specs.Prelude.{◌≡◌, ℕ, ◌+◌, ◌≤◌, ◌<◌, ◌↔◌, true, false, List, Some, None, nat_le};
ghost use Rattle.card_set.specs.declared.card.Card.{Card};
ghost use Rattle.card_set.specs.UpCards.{IsWeakerUpHigh, IsWeakerLow};
ghost use Rattle.chip_ledger.specs.SeatRow.{amount_of};
ghost use Rattle.play_event.specs.declared.event.Spelled.{Spelled};
ghost use Rattle.play_event.specs.declared.event.Spelled.TheVariants as spelled;
ghost use Rattle.play_event.specs.declared.reason.Due.{Due};
ghost use Rattle.play_event.specs.declared.reason.Illegal.{Illegal};
ghost use Rattle.play_event.specs.declared.setup.Reopen.{Reopen};
ghost use Rattle.play_event.specs.declared.setup.Rules.{Rules};
ghost use Rattle.play_event.specs.declared.setup.Setup.{Setup};
ghost use Rattle.play_event.specs.Chips.{chips_put, chips_left, all_in};
ghost use Rattle.play_event.specs.Due.{turn, due_on, has_to_move, is_unfinished};
ghost use Rattle.play_event.specs.Games.{street_count};
ghost use Rattle.play_event.specs.Laws.{IsFirstStreet, NoneHold, AreLegal, AreLegalUnfixed, IsInTurn, NoneClash, moves_by, spelled_out};
ghost use Rattle.play_event.specs.PlayerToAct.{player_to_act};
ghost use Rattle.play_event.specs.Openers.{UpCards, TheSeat, is_weaker_up_high, is_weaker_low};
ghost use Rattle.play_event.specs.Past.{Past, Move, moves_of, newest_street};
ghost use Rattle.play_event.specs.CurrentBet.{current_bet, full_raise};
ghost use Rattle.play_event.specs.Reasons.{why, all_reasons};
ghost use Rattle.play_event.specs.Said.{Said, Raise};
ghost use Rattle.play_event.specs.Scripts.{past_of, with_event, HasNoIllegalEvent, IsFirstIllegal, illegal_event};
ghost use Rattle.play_event.specs.Seats.{can_act, live_count};
ghost use Rattle.play_event.specs.Table.{places_of};
ghost use Rattle.play_event.specs.Targets.{floor, is_legal_target, least_target, greatest_target};
ghost use Rattle.play_event.specs.TurnTargets.{AreTargets, has_targets};
ghost use Rattle.play_event.specs.ValidSetup.{IsValid};

/// What is due is due on the earliest street, not before the newest so far, on which anything is
/// due. The function does nothing: its contract is a law.
pub fn law_of_streets()
    ensures due_is_first { (setup : Setup) (past : Past) (street : ℕ) (due : Due)
        → turn setup past ≡ (street, due) → is_unfinished due ≡ true
        → IsFirstStreet (due_on setup past) (newest_street past) street due }
    ensures first_is_due { (setup : Setup) (past : Past) (street : ℕ) (due : Due)
        → nat_le (live_count setup (moves_of past)) 1 ≡ false
        → IsFirstStreet (due_on setup past) (newest_street past) street due
        → street ≤ street_count setup.code → turn setup past ≡ (street, due) }
{}

/// The player to act has a move to make, and so is live and has chips left.
pub fn law_of_movers()
    ensures has_to_move { (setup : Setup) (ups : UpCards) (moves : List Move) (street seat : ℕ)
        → player_to_act setup ups moves street ≡ TheSeat seat → has_to_move setup moves street seat
        ≡ true }
    ensures can_act { (setup : Setup) (ups : UpCards) (moves : List Move) (street seat : ℕ)
        → player_to_act setup ups moves street ≡ TheSeat seat → can_act setup moves seat ≡ true }
{}

/// After legal events no seat has put in more than its stack, and what it put in plus what it has
/// left is the stack.
pub fn law_of_chips()
    ensures puts_within { (setup : Setup) (rules : Rules) (events : List Said) (seat : ℕ)
        → IsValid setup → AreLegal setup rules events
        → chips_put setup (moves_by setup events) seat ≤ amount_of setup.stacks seat }
    ensures put_and_left { (setup : Setup) (rules : Rules) (events : List Said) (seat : ℕ)
        → IsValid setup → AreLegal setup rules events
        → chips_put setup (moves_by setup events) seat
        + chips_left setup (moves_by setup events) seat ≡ amount_of setup.stacks seat }
{}

/// The lowest and the highest legal target are legal, in each limit, and no legal target is outside
/// them; so a seat that may raise has a target.
pub fn law_of_targets()
    ensures { (setup : Setup) (rules : Rules) (moves : List Move) (street seat : ℕ)
        → AreTargets setup rules moves street seat
        (least_target rules.reopen setup moves street seat)
        (greatest_target setup moves street seat) (all_in setup moves street seat) }
{}

/// A raise by a named seat is legal only if the player to act has legal targets, and a raise by the
/// player to act to a legal target is legal.
pub fn law_of_raises()
    ensures only { (setup : Setup) (rules : Rules) (past : Past) (seat : ℕ) (amount : Spelled)
        → why setup rules past (Raise (Some seat) amount) ≡ None
        → has_targets setup rules past ≡ true }
    ensures legal { (setup : Setup) (rules : Rules) (past : Past) (seat target : ℕ)
        → has_targets setup rules past ≡ true → IsInTurn setup past seat
        → is_legal_target rules.reopen setup (moves_of past) (turn setup past).0 seat target ≡ true
        → why setup rules past (Raise (Some seat) (spelled.To target)) ≡ None }
{}

/// In no limit and pot limit the lowest raise that is not all-in goes above the current bet, and by
/// at most a full raise, even if betting always reopens.
pub fn law_of_floors()
    ensures above_current_bet { (setup : Setup) (rules : Rules) (events : List Said)
        → AreLegalUnfixed setup rules events → (reopens : Reopen) (street : ℕ)
        → current_bet setup (moves_by setup events) street
        < floor reopens setup (moves_by setup events) street }
    ensures within_full_raise { (setup : Setup) (rules : Rules) (events : List Said)
        → AreLegalUnfixed setup rules events → (reopens : Reopen) (street : ℕ)
        → floor reopens setup (moves_by setup events) street
        ≤ current_bet setup (moves_by setup events) street
        + full_raise setup (moves_by setup events) street }
{}

/// The tests by which up-cards decide who opens a street agree with the orders of up-cards.
pub fn law_of_up_cards()
    ensures high { (a b : List Card) → (is_weaker_up_high a b ≡ true) ↔ IsWeakerUpHigh a b }
    ensures low { (a b : List Card) → (is_weaker_low a b ≡ true) ↔ IsWeakerLow a b }
{}

/// If an event is legal, none of the twelve reasons holds; and if none holds, it is legal.
pub fn law_of_reasons()
    ensures none_holds { (setup : Setup) (rules : Rules) (past : Past) (event : Said)
        → why setup rules past event ≡ None
        → NoneHold (all_reasons setup rules past (turn setup past) event) }
    ensures legal { (setup : Setup) (rules : Rules) (past : Past) (event : Said)
        → NoneHold (all_reasons setup rules past (turn setup past) event)
        → why setup rules past event ≡ None }
{}

/// No legal event makes two dealt cards clash: after legal events no two known cards are the same,
/// unless one was discarded or folded before the other was dealt past the deck.
pub fn law_of_places()
    ensures { (setup : Setup) (rules : Rules) (events : List Said) → AreLegal setup rules events
        → NoneClash (places_of setup.code (past_of setup events)) }
{}

/// The computation that the worked hands use finds the first illegal event of a script, or that
/// there is none.
pub fn law_of_scripts()
    ensures refused { (setup : Setup) (rules : Rules) (script : List Said)
        → (index : ℕ) (reason : Illegal)
        → illegal_event setup rules script ≡ Some (index + 1, reason)
        → IsFirstIllegal setup rules script index reason }
    ensures legal { (setup : Setup) (rules : Rules) (script : List Said)
        → illegal_event setup rules script ≡ None → HasNoIllegalEvent setup rules script }
{}

/// A raise without an actor, however its amount is written, has the same reason and the same
/// outcome as a raise by the player to act to the target that is written.
pub fn law_of_spellings()
    ensures same_reason { (setup : Setup) (rules : Rules) (past : Past) (seat : ℕ)
        → (amount : Spelled) → IsInTurn setup past seat
        → why setup rules past (Raise None amount)
        ≡ why setup rules past (spelled_out setup past seat amount) }
    ensures same_past { (setup : Setup) (past : Past) (seat : ℕ) (amount : Spelled)
        → IsInTurn setup past seat
        → with_event setup (Raise None amount) past
        ≡ with_event setup (spelled_out setup past seat amount) past }
{}
