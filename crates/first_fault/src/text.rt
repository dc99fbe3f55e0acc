//! A copy of a text.
use card_set::{Memory, boxed, string_from};
use std::alloc::Global;
use std::marker::Model;

/// The text of a note, or of the place of a fault.
///
/// It takes one machine word in the value that holds it, and its bytes are elsewhere: most records
/// have room for many notes but few notes.
#[derive(Debug, Drop)]
pub struct Text {
    text: Box<String>,
}

impl Model for Text {
    ghost use Rattle.std.specs.Prelude.{ℕ, List, string_bytes};

    ghost Value = { List ℕ };

    ghost view = { λ t. string_bytes t.text.value };
}

impl Text {
    ghost use Rattle.std.specs.Prelude.{◌≡◌, IfOk};

    /// A copy of the text.
    pub fn new(alloc: Global, text: &str) -> Result<Self, Memory>
        ensures { IfOk result (λ copy. copy ≡ text.now) }
    {
        let text = boxed(alloc, string_from(alloc, text)?)?;
        Ok(Text { text })
    }

    /// The text.
    pub fn as_str(&self) -> &str
        ensures { result.now ≡ self.now }
    {
        self.text.as_str()
    }
}
