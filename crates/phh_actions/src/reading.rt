//! Reads the words of an action as an event.
ghost use Rattle.std.specs.Prelude.{◌≡◌, option_map};
ghost use Rattle.play_event.specs.Said.{kind_said};
ghost use Rattle.phh_actions.specs.Action.{action_said, act_said, act_with_said, four_say, seen_by, three_say, two_say, words_say};
ghost use Rattle.first_fault.specs.Words.{words_of};

use crate::fault::ActionFault;
use crate::parts::{known_cards, read_amount, read_seat, read_slots};
use crate::words::{is_word, strip_commentary};
use card_set::SlotRow;
use chip_ledger::{PlayerCount, Seat};
use first_fault::next_word;
use play_event::{Kind, Spelled};

/// The event of an action in a hand with this number of players; an action without a word is no
/// event.
///
/// The forms are those of the format's own document: `d dh pN cards`, `d db cards`, `pN f`, `pN
/// cc`, `pN cbr amount`, `pN pb`, `pN sd`, `pN sd cards`, `pN sm` and `pN sm cards`.
pub fn read_action(text: &str, players: PlayerCount) -> Result<Option<Kind>, ActionFault>
    ensures { seen_by (option_map kind_said) result ≡ action_said players.number text.now }
{
    ActionReader { players }.read_words(strip_commentary(text.as_bytes()))
}

// Reads the words of the actions of a hand with this number of players.
#[derive(Clone, Copy)]
struct ActionReader {
    players: PlayerCount,
}

impl ActionReader {
    // The event of the words of an action: two words are a seat and what it does, three add cards
    // or an amount or deal to the board, and four deal to a seat.
    #[tactic(auto, unfolding(crate::specs::Action::words_say))]
    fn read_words(self, text: &[u8]) -> Result<Option<Kind>, ActionFault>
        ensures { seen_by (option_map kind_said) result
            ≡ words_say self.players.number (words_of text.now) }
    {
        let Some((first, rest)) = next_word(text) else {
            return Ok(None);
        };
        let Some((second, rest)) = next_word(rest) else {
            return Err(ActionFault::BadAction);
        };
        let Some((third, rest)) = next_word(rest) else {
            return Ok(Some(self.read_two(first, second)?));
        };
        let Some((fourth, rest)) = next_word(rest) else {
            return Ok(Some(self.read_three(first, second, third)?));
        };
        match next_word(rest) {
            None => Ok(Some(self.read_four(first, second, third, fourth)?)),
            Some(_) => Err(ActionFault::BadAction),
        }
    }

    // A seat, and what it does.
    #[tactic(auto, unfolding(crate::specs::Action::two_say))]
    fn read_two(self, first: &[u8], second: &[u8]) -> Result<Kind, ActionFault>
        ensures { seen_by kind_said result ≡ two_say self.players.number first.now second.now }
    {
        let seat = read_seat(self.players, first)?;
        read_act(seat, second)
    }

    // A deal to the board, or what a seat does in two words.
    #[tactic(auto, unfolding(crate::specs::Action::three_say, crate::specs::Action::cards_said))]
    fn read_three(self, first: &[u8], second: &[u8], third: &[u8]) -> Result<Kind, ActionFault>
        ensures { seen_by kind_said result
            ≡ three_say self.players.number first.now second.now third.now }
    {
        if is_word(first, "d") && is_word(second, "db") {
            let cards = known_cards(read_slots(5, third)?)?;
            return Ok(Kind::Board { cards });
        }
        let seat = read_seat(self.players, first)?;
        read_act_with(seat, second, third)
    }

    // Hole cards for a seat.
    #[tactic(auto, unfolding(crate::specs::Action::four_say))]
    fn read_four(
        self,
        first: &[u8],
        second: &[u8],
        third: &[u8],
        fourth: &[u8],
    ) -> Result<Kind, ActionFault>
        ensures { seen_by kind_said result
            ≡ four_say self.players.number first.now second.now third.now fourth.now }
    {
        if !(is_word(first, "d") && is_word(second, "dh")) {
            return Err(ActionFault::BadAction);
        }
        let seat = read_seat(self.players, third)?;
        let cards = read_slots(7, fourth)?;
        Ok(Kind::Hole { seat, cards })
    }
}

// What a seat does, in one word.
#[tactic(auto, unfolding(crate::specs::Action::act_said))]
fn read_act(seat: Seat, act: &[u8]) -> Result<Kind, ActionFault>
    ensures { seen_by kind_said result ≡ act_said seat.number act.now }
{
    let actor = Some(seat);
    if is_word(act, "f") {
        Ok(Kind::Fold { actor })
    } else if is_word(act, "cc") {
        Ok(Kind::Call {
            actor,
            stated: None,
        })
    } else if is_word(act, "pb") {
        Ok(Kind::BringIn { actor })
    } else if is_word(act, "sd") {
        let cards = SlotRow::new();
        Ok(Kind::Discard { seat, cards })
    } else if is_word(act, "sm") {
        Ok(Kind::Muck { seat })
    } else {
        Err(ActionFault::BadAction)
    }
}

// What a seat does, in two words.
#[tactic(auto, unfolding(crate::specs::Action::act_with_said, crate::specs::Action::cards_said))]
fn read_act_with(seat: Seat, act: &[u8], more: &[u8]) -> Result<Kind, ActionFault>
    ensures { seen_by kind_said result ≡ act_with_said seat.number act.now more.now }
{
    if is_word(act, "cbr") {
        let amount = Spelled::To(read_amount(more)?);
        let actor = Some(seat);
        Ok(Kind::Raise { actor, amount })
    } else if is_word(act, "sd") {
        let cards = read_slots(5, more)?;
        Ok(Kind::Discard { seat, cards })
    } else if is_word(act, "sm") {
        let cards = known_cards(read_slots(7, more)?)?;
        Ok(Kind::Show { seat, cards })
    } else {
        Err(ActionFault::BadAction)
    }
}
