//! The laws of play that replay and conversion rely on. Each is the contract of a function that
//! does nothing.

/// After legal events no seat has put in more than its stack, and what it put in and what it has
/// left are its stack.
pub use play_event::law_of_chips;

/// After legal events no two places have the same card, unless one was gone before the other was
/// dealt past the end of the deck.
pub use play_event::law_of_places;

/// However a raise of the player to act is written, its target alone decides whether it is legal
/// and what it does.
pub use play_event::law_of_spellings;

/// A move that names no seat is that of the player to act.
pub use play_laws::law_of_actors;

/// Raises with equal targets are equally legal and lead to the same state, whether they name their
/// seat or not.
pub use play_laws::law_of_equal_targets;

/// A script in full form names the seat of each move and gives each raise by its target. It is
/// legal if and only if the script is, and leads to the same past.
pub use play_laws::law_of_full_spellings;

/// After legal events: which street the hand is on, what each draw and fold leaves due, and that
/// earlier streets are complete.
pub use play_laws::law_of_legal_pasts;

/// After legal events: where the cards are, and which of them are gone and since when.
pub use play_laws::law_of_legal_places;

/// A script has no illegal event if and only if its events are legal one by one.
pub use play_laws::law_of_legal_scripts;

/// A script that is played to its end and the canonical script of its trace have the same trace,
/// under the same rules, in whatever order the script dealt, showed or made cards known.
pub use canon_laws::law_of_confluence;

/// The canonical script of a legal hand is a legal hand with the same shares and finishing stacks.
pub use trace_laws::law_of_canonical_hands;

/// Two scripts that are played to their ends have the same trace if and only if they have the same
/// canonical script.
pub use canon_laws::law_of_canonical_scripts;

/// The trace of a script that is played to its end is tidy, so that its canonical script can be
/// written.
pub use canon_laws::law_of_tidy_traces;

/// A play that is legal under the rules of one notation is legal under those of another if it fits
/// them.
pub use canon_laws::law_of_other_rules;

/// A script has at most one fault, apart from out of memory, and a legal hand has none.
pub use crate::fault_laws::law_of_one_fault;

/// A past has at most one whole trace.
pub use trace_laws::law_of_one_trace;

/// The pots of a whole trace and what is returned are all chips that were put in.
pub use trace_laws::law_of_pots_and_returns;

/// After legal events the finishing stacks and the pots are together the starting stacks and the
/// shares.
pub use trace_laws::law_of_finishing_stacks;

/// In a pot that two or more seats may win, only shown seats get chips that no other shown seat in
/// the pot beats: in the first order of hands or, if a low hand is shown, in the low order.
pub use trace_laws::law_of_winners;
