//! The betting and the cards of a hand, and how one more event changes them.
ghost use Rattle.std.specs.Prelude.{◌≡◌, [], true, false, OnErr};
ghost use Rattle.betting_numbers.specs.UpSeen.{HoldsOpeningUps};
ghost use Rattle.chip_ledger.specs.LiveRow.{flag_of};
ghost use Rattle.chip_ledger.specs.SeatRow.{amount_of};
ghost use Rattle.deal_core.specs.Answered.{IsAnswered, IsSettledAs};
ghost use Rattle.play_event.specs.Chips.{chips_left, chips_put};
ghost use Rattle.play_event.specs.Due.{turn};
ghost use Rattle.play_event.specs.Past.{Past, moves_of};
ghost use Rattle.play_event.specs.Said.{said_of};
ghost use Rattle.play_event.specs.Seats.{is_live};
ghost use Rattle.play_event.specs.ValidSetup.{IsValid};
ghost use Rattle.play_event.specs.declared.reason.Due.TheVariants as dues;
ghost use Rattle.play_laws.specs.CardEvents.{is_card_said};
ghost use Rattle.play_laws.specs.Done.{is_done};
ghost use Rattle.play_laws.specs.Dues.{IsDueWithin};
ghost use Rattle.replay_core.specs.Together.{StandTogether, StandUpToDue};
ghost use Rattle.replay_core.specs.Advances.{Advances, IsHandOf};
ghost use Rattle.replay_core.specs.AddedMoves.{HoldsForSeats, WhereTogether};

use betting_core::Betting;
use chip_ledger::{LiveRow, SeatRow};
use deal_core::Cards;
use play_event::{Due, Event, Illegal, Kind, Move, Opener, Rules, Setup, UpRow};
use variant_table::Variant;

/// A hand of the game `V` at some moment: its betting and its cards.
///
/// What the methods say of the past holds for every past that both betting and cards describe
/// (`StandTogether`).
#[derive(Drop)]
pub struct HandInPlay<V: Variant> {
    pub betting: Betting<V>,
    pub cards: Cards<V>,
    /// Cards and betting have the same seats.
    pub ghost seats: { betting.setup.stacks.seats ≡ cards.seats },
}

impl<V: Variant> HandInPlay<V> {
    /// The hand before its first card.
    pub fn start(setup: &Setup, rules: &Rules) -> Self
        requires valid { IsValid setup.now }
        requires code { setup.now.code ≡ V.CODE }
        ensures stands { StandTogether result.betting result.cards [] }
        ensures setup { result.betting.setup ≡ setup.now }
        ensures rules { result.betting.rules ≡ rules.now }
        ensures seats { result.cards.seats ≡ setup.now.stacks.seats }
    {
        HandInPlay {
            betting: Betting::<V>::start(setup, rules),
            cards: Cards::<V>::start(setup.stacks.seats),
        }
    }

    /// The chips that each seat has put into this hand, antes included.
    pub fn puts(&self) -> SeatRow
        ensures { HoldsForSeats result.seats self.now.betting self.now.cards
            (λ past seat. amount_of result seat
            ≡ chips_put self.now.betting.setup (moves_of past) seat) }
    {
        self.betting.puts()
    }

    /// The chips that each seat has left.
    pub fn stacks(&self) -> SeatRow
        ensures { HoldsForSeats result.seats self.now.betting self.now.cards
            (λ past seat. amount_of result seat
            ≡ chips_left self.now.betting.setup (moves_of past) seat) }
    {
        self.betting.stacks()
    }

    /// Plays one more event. It is illegal if and only if the rules say so, and then the hand stays
    /// as it was. A fold, a call, a raise or a bring-in is returned as the trace keeps it; for
    /// other events nothing is returned.
    pub fn advance(&mut self, event: &Event) -> Result<Option<Move>, Illegal>
        ensures advanced { Advances
            self.old.betting self.new.betting
            self.old.cards self.new.cards (said_of event.now) result }
        ensures unchanged { OnErr result (self.new ≡ self.old) }
    {
        match event.kind {
            Kind::Fold { actor: _ }
            | Kind::Call {
                actor: _,
                stated: _,
            }
            | Kind::Raise {
                actor: _,
                amount: _,
            }
            | Kind::BringIn { actor: _ } => self.bet(event),
            Kind::Hole { seat: _, cards: _ }
            | Kind::Board { cards: _ }
            | Kind::Discard { seat: _, cards: _ }
            | Kind::Show { seat: _, cards: _ }
            | Kind::Muck { seat: _ } => self.take_cards(event),
        }
    }

    // Plays a move, and for a fold updates the cards.
    fn bet(&mut self, event: &Event) -> Result<Option<Move>, Illegal>
        requires { is_card_said (said_of event.now) ≡ false }
        ensures advanced { Advances
            self.old.betting self.new.betting
            self.old.cards self.new.cards (said_of event.now) result }
        ensures unchanged { OnErr result (self.new ≡ self.old) }
    {
        let up = self.opening_up_cards();
        let moved = self.betting.step(&up, event)?;
        if moved.act.is_fold() {
            self.cards.folded(moved.seat);
        }
        Ok(Some(moved))
    }

    /// The up-cards of each seat, if no seat has moved on the street yet: in stud they decide who
    /// opens it. After that nobody reads them, and the row is empty. In games with blinds no card
    /// is dealt face up.
    pub fn opening_up_cards(&self) -> UpRow
        ensures seats { result.seats ≡ self.now.cards.seats }
        ensures ups { WhereTogether self.now.betting self.now.cards
            (HoldsOpeningUps self.now.betting result) }
    {
        if self.betting.nobody_acted() {
            match V::OPEN {
                Opener::Blinds => UpRow::new(self.cards.seats()),
                Opener::LowUp | Opener::HighUp => self.cards.up(),
            }
        } else {
            UpRow::new(self.cards.seats())
        }
    }

    // Plays an event of cards, and ends what it completes.
    fn take_cards(&mut self, event: &Event) -> Result<Option<Move>, Illegal>
        requires { is_card_said (said_of event.now) ≡ true }
        ensures advanced { Advances
            self.old.betting self.new.betting
            self.old.cards self.new.cards (said_of event.now) result }
        ensures unchanged { OnErr result (self.new ≡ self.old) }
    {
        let due = self.betting.due();
        let live = self.betting.live();
        let settled = self.betting.settled();
        apply_cards(&mut self.cards, due, &live, settled, event)?;
        self.end();
        Ok(None)
    }

    // Ends what is due, and then the showdown, if they are complete.
    fn end(&mut self)
        ensures stands { (past : Past)
            → StandUpToDue self.old.betting self.old.cards past
            → StandTogether self.new.betting self.new.cards past }
        ensures same { IsHandOf
            self.old.betting self.new.betting
            self.old.cards self.new.cards }
    {
        if self.end_one() {
            self.end_one();
        }
    }

    // Ends the deal, the draw or the show that is due, if it is complete.
    fn end_one(&mut self) -> bool
        ensures up_to { (past : Past)
            → StandUpToDue self.old.betting self.old.cards past
            → StandUpToDue self.new.betting self.new.cards past }
        ensures done { (past : Past)
            → StandUpToDue self.old.betting self.old.cards past → result ≡ true
            → is_done self.old.betting.setup past self.old.betting.due ≡ true }
        ensures next { (past : Past)
            → StandUpToDue self.old.betting self.old.cards past → result ≡ true
            → is_done self.new.betting.setup past self.new.betting.due ≡ true
            → self.new.betting.due ≡ dues.Show }
        ensures over { result ≡ true → self.old.betting.due ≡ dues.Show
            → self.new.betting.due ≡ dues.Over }
        ensures undone { (past : Past)
            → StandUpToDue self.old.betting self.old.cards past → result ≡ false
            → StandTogether self.new.betting self.new.cards past }
        ensures same { IsHandOf
            self.old.betting self.new.betting
            self.old.cards self.new.cards }
    {
        let due = self.betting.due();
        let live = self.betting.live();
        if self.cards.done(due, &live) {
            self.betting.dealt();
            true
        } else {
            false
        }
    }

    /// What is due.
    pub fn due(&self) -> Due
        ensures { WhereTogether self.now.betting self.now.cards
            (λ past. result ≡ (turn self.now.betting.setup past).1) }
    {
        self.betting.due()
    }

    /// Which seats are live: those that have not folded.
    pub fn live(&self) -> LiveRow
        ensures { HoldsForSeats result.seats self.now.betting self.now.cards
            (λ past seat. flag_of result seat ≡ is_live (moves_of past) seat) }
    {
        self.betting.live()
    }
}

// Applies an event of cards: a deal, a discard, a show or a muck.
fn apply_cards<V: Variant>(
    cards: &mut Cards<V>,
    due: Due,
    live: &LiveRow,
    settled: bool,
    event: &Event,
) -> Result<(), Illegal>
    requires kind { is_card_said (said_of event.now) ≡ true }
    requires due { IsDueWithin V.STREETS due }
    ensures { IsAnswered cards.old cards.new due live.now (IsSettledAs settled)
        (said_of event.now) result }
{
    match event.kind {
        Kind::Hole { seat: _, cards: _ } | Kind::Board { cards: _ } => {
            cards.deal(due, live, event)
        }
        Kind::Discard { seat: _, cards: _ } => cards.discard(due, live, event),
        Kind::Show { seat: _, cards: _ } | Kind::Muck { seat: _ } => {
            cards.show(due, live, settled, event)
        }
        // The precondition allows no other kind.
        _ => Err(Illegal::WrongKind),
    }
}
