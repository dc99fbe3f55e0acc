//! What every legal past guarantees.
ghost use Rattle.std.specs.Prelude.{◌↔◌, List, reverse};
ghost use Rattle.play_event.specs.Laws.{AreLegal, moves_by};
ghost use Rattle.play_event.specs.Past.{newest_street};
ghost use Rattle.play_event.specs.Said.{Said};
ghost use Rattle.play_event.specs.Scripts.{HasNoIllegalEvent, past_of};
ghost use Rattle.play_event.specs.declared.setup.Rules.{Rules};
ghost use Rattle.play_event.specs.declared.setup.Setup.{Setup};
ghost use Rattle.play_laws.specs.LegalPlaces.{AreLawful, PlacesLaw, UnknownsFirst, places_by};
ghost use Rattle.play_laws.specs.PastLaws.{DoneLaw, PastLaw};

/// A script has no illegal event if and only if its events, newest first, are legal one by one. The
/// function does nothing: its contract is a law.
pub fn law_of_legal_scripts()
    ensures { (setup : Setup) (rules : Rules) (script : List Said)
        → HasNoIllegalEvent setup rules script ↔ AreLegal setup rules (reverse script) }
{}

/// After legal events: the street that the hand has reached, what each draw and fold leaves owed,
/// and that earlier streets are done.
pub fn law_of_legal_pasts()
    ensures past { (setup : Setup) (rules : Rules) (events : List Said)
        → AreLegal setup rules events → PastLaw setup (past_of setup events) }
    ensures done { (setup : Setup) (rules : Rules) (events : List Said)
        → AreLegal setup rules events → DoneLaw setup (past_of setup events) }
{}

/// After legal events: where the cards are, which of them are gone and since when; and of a seat's
/// unknown cards, those dealt first are discarded first.
pub fn law_of_legal_places()
    ensures places { (setup : Setup) (rules : Rules) (events : List Said)
        → AreLegal setup rules events
        → PlacesLaw setup.code (moves_by setup events) (newest_street (past_of setup events))
        (places_by setup events) }
    ensures lawful { (setup : Setup) (rules : Rules) (events : List Said)
        → AreLegal setup rules events
        → AreLawful setup.code (moves_by setup events) (places_by setup events) }
    ensures unknowns_first { (setup : Setup) (rules : Rules) (events : List Said)
        → AreLegal setup rules events → UnknownsFirst (places_by setup events) }
{}
