//! The notations and their names on the command line.
ghost use Rattle.std.specs.Prelude.{◌≡◌, option_map};
ghost use Rattle.command_words.specs.Command.{is_of_logs, plain_of};
ghost use Rattle.command_words.specs.Notations.{notation_named, notation_of_name};

/// A notation that needs no game file.
#[derive(Clone, Copy, Debug, PartialEq, Eq)]
pub enum PlainNotation {
    /// The Poker Hand History format.
    Phh,
    /// Open Hand History, where a raise states the chips that it adds.
    Ohh,
    /// Open Hand History, where a raise states the amount that it goes to.
    OhhTo,
}

/// A notation of hands.
#[derive(Clone, Copy, Debug, PartialEq, Eq)]
pub enum NotationName {
    /// A notation that needs no game file.
    Plain(PlainNotation),
    /// The logs of the Annual Computer Poker Competition, which need a game file.
    Acpc,
}

impl NotationName {
    /// Whether it is the notation of logs.
    pub fn is_log(&self) -> bool
        ensures { result ≡ is_of_logs self.now }
    {
        match self {
            NotationName::Plain(_) => false,
            NotationName::Acpc => true,
        }
    }

    /// The same notation, if it needs no game file.
    pub fn plain(self) -> Option<PlainNotation>
        ensures { result ≡ plain_of self }
    {
        match self {
            NotationName::Plain(notation) => Some(notation),
            NotationName::Acpc => None,
        }
    }
}

/// The notation with this name, if a name is given and known.
pub fn parse_given_notation(name: Option<&str>) -> Option<NotationName>
    ensures { result ≡ notation_named (option_map (λ s. s.now) name.entry) }
{
    parse_notation(name?)
}

// The notation with this name.
fn parse_notation(name: &str) -> Option<NotationName>
    ensures { result ≡ notation_of_name name.now }
{
    match name {
        "phh" => Some(NotationName::Plain(PlainNotation::Phh)),
        "ohh" => Some(NotationName::Plain(PlainNotation::Ohh)),
        "ohh-to" => Some(NotationName::Plain(PlainNotation::OhhTo)),
        "acpc" => Some(NotationName::Acpc),
        _ => None,
    }
}
