//! The betting of a hand of one game, and what can be seen of it.
ghost use Rattle.std.specs.Prelude.{◌≡◌, [], ℕ, true, IfSome, is_none, is_some};
ghost use Rattle.play_event.specs.declared.reason.Due.TheVariants as dues;
ghost use Rattle.play_event.specs.Past.{Past, moves_of};
ghost use Rattle.chip_ledger.specs.SeatRow.{amount_of};
ghost use Rattle.play_event.specs.Chips.{chips_left, chips_put};
ghost use Rattle.play_event.specs.Due.{is_settled, turn};
ghost use Rattle.play_event.specs.Openers.{TheSeat};
ghost use Rattle.play_event.specs.TurnTargets.{has_targets, is_bet_due};
ghost use Rattle.betting_numbers.specs.TurnSaid.{turn_of};
ghost use Rattle.play_event.specs.Streets.{unit};
ghost use Rattle.betting_core.specs.HandNumbers.{AreOfGame, IsOfTable};
ghost use Rattle.betting_core.specs.Seen.{TellsLive, TellsSeats};
ghost use Rattle.betting_core.specs.Seen.{moved_last};
ghost use Rattle.betting_numbers.specs.Standing.{StandsFor};
ghost use Rattle.betting_numbers.specs.LegalMoves.{IsTurn, WhereUps};
ghost use Rattle.betting_numbers.specs.UpTo.{StandsUpTo};
ghost use Rattle.play_laws.specs.Dues.{IsDueWithin};
ghost use Rattle.betting_numbers.specs.Turn.{IsFirstBehind};
ghost use Rattle.play_event.specs.ValidSetup.{IsValid};
ghost use Rattle.betting_numbers.specs.Targeted.{AreEndsFor};
ghost use Rattle.chip_ledger.specs.SeatsSaid.{seat_said};

use betting_numbers::{BettingState, Targets, ToAct, start};
use chip_ledger::{LiveRow, Seat, SeatRow};
use play_event::{Due, Rules, Setup, UpRow};
use std::marker::{Model, PhantomData};
use variant_table::{Opener, Size, Variant};

/// The betting of a hand of the game `V`, at some moment of the hand. Contracts see it as its
/// running numbers.
///
/// Its answers are stated by pasts. A past is any list of what took place in a hand, and
/// `StandsFor` says that the state is what the rules make of that past. A state stands up to its
/// due (`StandsUpTo`) if the deal, draw or show that it waits for is complete in the past, but
/// [`dealt`](Betting::dealt) has not been called yet.
#[derive(Drop)]
pub struct Betting<V: Variant> {
    pub(crate) numbers: BettingState,
    game: PhantomData<V>,
}

impl<V: Variant> Model for Betting<V> {
    ghost use Rattle.betting_numbers.specs.declared.betting_state.BettingState.{BettingState};
    ghost use Rattle.betting_core.specs.HandNumbers.{AreOfGame};

    ghost Value = { BettingState };

    ghost view = { λ b. b.numbers };

    ghost invariant = { λ b. AreOfGame V.CODE V.STREETS b.numbers };
}

impl<V: Variant> Betting<V> {
    /// The betting before the first card: antes and blinds are posted, and the first deal is due.
    pub fn start(setup: &Setup, rules: &Rules) -> Self
        requires valid { IsValid setup.now }
        requires code { setup.now.code ≡ V.CODE }
        ensures stands { StandsFor result [] }
        ensures due { result.due ≡ dues.Deal 1 }
        ensures setup { result.setup ≡ setup.now }
        ensures rules { result.rules ≡ rules.now }
    {
        let size = match V::street(1).size {
            Size::Small => setup.small_bet,
            Size::Big => setup.big_bet,
            Size::Least => setup.min_bet,
        };
        Betting {
            numbers: start(setup, rules, size),
            game: PhantomData,
        }
    }

    /// What is due: a deal, a draw, a bring-in, a move, the showdown, or nothing once the hand is
    /// over.
    pub fn due(&self) -> Due
        ensures value { result ≡ self.now.due }
        ensures within { IsDueWithin V.STREETS result }
        ensures stands { (past : Past) → StandsFor self.now past
            → result ≡ (turn self.now.setup past).1 }
        ensures game { AreOfGame V.CODE V.STREETS self.now }
    {
        self.numbers.due
    }

    /// Whether no seat has moved on the street yet.
    #[tactic(auto, using(crate::proofs::ToCall::unmoved_after))]
    pub fn nobody_acted(&self) -> bool
        ensures value { result ≡ is_none self.now.last }
        ensures past { (past : Past) → StandsFor self.now past
            → result ≡ is_none (moved_last (moves_of past) self.now.street) }
        ensures game { AreOfGame V.CODE V.STREETS self.now }
    {
        self.numbers.last.is_none()
    }

    /// Which seats are live: those that have not folded.
    pub fn live(&self) -> LiveRow
        ensures { TellsLive result self.now }
    {
        self.numbers.live
    }

    /// The chips that each seat has put in this hand, antes included.
    pub fn puts(&self) -> SeatRow
        ensures { TellsSeats result.seats self.now (λ past seat.
            amount_of result seat ≡ chips_put self.now.setup (moves_of past) seat) }
    {
        self.numbers.puts
    }

    /// The chips that each seat has left.
    pub fn stacks(&self) -> SeatRow
        ensures { TellsSeats result.seats self.now (λ past seat.
            amount_of result seat ≡ chips_left self.now.setup (moves_of past) seat) }
    {
        self.numbers.stacks_left()
    }

    /// Whether the hand is settled: two or more seats are live, and no more betting is possible.
    pub fn settled(&self) -> bool
        ensures stands { (past : Past) → StandsFor self.now past
            → result
            ≡ is_settled self.now.setup (moves_of past) (turn self.now.setup past) }
        ensures up_to { (past : Past) → StandsUpTo self.now past
            → result
            ≡ is_settled self.now.setup (moves_of past)
            (self.now.street, self.now.due) }
    {
        self.numbers.settled()
    }

    /// Where the player to act may raise to: the least and the greatest legal target, and all-in.
    /// `None` if no move or bring-in is due, if it is not known whose turn it is, or if that seat
    /// may not raise.
    pub fn targets(&self, up: &UpRow) -> Option<Targets>
        ensures some { WhereUps self.now up.now
            (λ past. is_some result ≡ has_targets self.now.setup self.now.rules past) }
        ensures ends { WhereUps self.now up.now
            (λ past. IfSome result (λ targets. (seat : ℕ)
            → IsTurn self.now past (TheSeat seat)
            → AreEndsFor self.now (moves_of past) seat targets)) }
    {
        if self.numbers.due.is_bet() {
            let turn = self.to_act(up);
            let size = self.unit();
            self.numbers.targets_of(turn, V::LIMIT, size)
        } else {
            None
        }
    }

    /// Whose turn it is, if known, when a bring-in or a move is due. The row of up-cards is read
    /// only in stud, before the first move of a street.
    pub fn to_act(&self, up: &UpRow) -> Option<Seat>
        requires { is_bet_due self.now.due ≡ true }
        ensures turn { WhereUps self.now up.now
            (λ past. IsTurn self.now past (turn_of (seat_said result))) }
        ensures in_hand { IsOfTable self.now result }
    {
        self.turn_found(up).seat
    }

    // Whose turn it is, if known, and the seat after it if the row was read. Nobody if neither a
    // bring-in nor a move is due.
    pub(crate) fn turn_found(&self, up: &UpRow) -> ToAct
        ensures turn { WhereUps self.now up.now
            (λ past. is_bet_due self.now.due ≡ true
            → IsTurn self.now past (turn_of (seat_said result.seat))) }
        ensures in_hand { IsOfTable self.now result.seat }
        ensures behind { IfSome result.seat
            (λ seat. IfSome result.behind (IsFirstBehind self.now seat.number)) }
    {
        if !self.numbers.due.is_bet() {
            return ToAct {
                seat: None,
                behind: None,
            };
        }
        let kept = ToAct {
            seat: self.numbers.next,
            behind: None,
        };
        match self.numbers.last {
            Some(_) => kept,
            None => match V::OPEN {
                Opener::Blinds => kept,
                Opener::LowUp => self.numbers.up_opener(Opener::LowUp, up),
                Opener::HighUp => self.numbers.up_opener(Opener::HighUp, up),
            },
        }
    }

    // The bet size of the street.
    pub(crate) fn unit(&self) -> u64
        ensures { result ≡ unit self.now.setup self.now.street }
    {
        match V::street(self.numbers.street).size {
            Size::Small => self.numbers.setup.small_bet,
            Size::Big => self.numbers.setup.big_bet,
            Size::Least => self.numbers.setup.min_bet,
        }
    }
}
