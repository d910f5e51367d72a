// What clauses match, and where they end.
ghost use Rattle.std.specs.Prelude.{◌≡◌};
ghost use Rattle.core_grammar.specs.inside.Decoder.{word_behind};

use core_tokens::Keyword;

/// What clauses match.
#[derive(Clone, Copy)]
pub enum Subject {
    /// The values of a `case`, any number of them.
    Values,
    /// One message of a `receive`.
    Message,
}

impl Subject {
    /// The keyword that follows the clauses.
    pub fn word_behind(self) -> Keyword
        ensures { result ≡ word_behind self }
    {
        match self {
            Subject::Values => Keyword::End,
            Subject::Message => Keyword::After,
        }
    }
}
