//! Laws of events that say the same in different ways.
ghost use Rattle.std.specs.Prelude.{◌≡◌, ◌↔◌, ℕ, List, Option};
ghost use Rattle.play_event.specs.Laws.{AreLegal, IsInTurn};
ghost use Rattle.play_event.specs.Past.{Past};
ghost use Rattle.play_event.specs.Reasons.{why};
ghost use Rattle.play_event.specs.Said.{Raise, Said};
ghost use Rattle.play_event.specs.Scripts.{past_of, with_event};
ghost use Rattle.play_event.specs.declared.event.Spelled.{Spelled};
ghost use Rattle.play_event.specs.declared.setup.Rules.{Rules};
ghost use Rattle.play_event.specs.declared.setup.Setup.{Setup};
ghost use Rattle.play_laws.specs.Spellings.{all_in_full, target_after, with_actor};

/// A move that names no actor is a move of the player to act: naming this seat changes neither why
/// the move is illegal nor what takes place. The function does nothing: its contract is a law.
pub fn law_of_actors()
    ensures same_reason { (setup : Setup) (rules : Rules) (past : Past) (seat : ℕ) (event : Said)
        → IsInTurn setup past seat
        → why setup rules past (with_actor seat event) ≡ why setup rules past event }
    ensures same_past { (setup : Setup) (past : Past) (seat : ℕ) (event : Said)
        → IsInTurn setup past seat
        → with_event setup (with_actor seat event) past ≡ with_event setup event past }
{}

/// However a raise is written, and whether or not it names its seat, its target alone decides why
/// it is illegal and what takes place.
pub fn law_of_equal_targets()
    ensures same_reason { (setup : Setup) (rules : Rules) (past : Past) (named : Option ℕ)
        → (amount other : Spelled)
        → target_after setup past named amount ≡ target_after setup past named other
        → why setup rules past (Raise named amount) ≡ why setup rules past (Raise named other) }
    ensures same_past { (setup : Setup) (past : Past) (named : Option ℕ)
        → (amount other : Spelled)
        → target_after setup past named amount ≡ target_after setup past named other
        → with_event setup (Raise named amount) past ≡ with_event setup (Raise named other) past }
{}

/// A script in full names the seat of each move and states the target of each raise in chips of the
/// street. It is legal if and only if the script is, and leaves the same past; so two scripts that
/// are the same in full leave the same past.
pub fn law_of_full_spellings()
    ensures legal { (setup : Setup) (rules : Rules) (events : List Said)
        → AreLegal setup rules events ↔ AreLegal setup rules (all_in_full setup events) }
    ensures past { (setup : Setup) (events : List Said)
        → past_of setup (all_in_full setup events) ≡ past_of setup events }
    ensures one_past { (setup : Setup) (events others : List Said)
        → all_in_full setup events ≡ all_in_full setup others
        → past_of setup events ≡ past_of setup others }
{}
