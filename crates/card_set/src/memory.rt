//! Out of memory: one fault, the same in every crate. Here it is made for the calls of `growing`
//! and `room`, after the library answered that memory was refused.
ghost use Rattle.card_set.specs.Refusal.{WasRefused, WasRefused-prop};

/// A request for memory was refused, for whatever reason.
#[derive(Clone, Copy, Debug, PartialEq, Eq)]
pub struct Memory {
    pub ghost refused: { WasRefused } by { WasRefused-prop },
}

// Only the calls of this crate that ask for memory use this, after the library refused it.
#[tactic(auto, using(crate::specs::Refusal::an_allocator_said_so))]
pub(crate) fn refused() -> Memory {
    Memory {}
}
