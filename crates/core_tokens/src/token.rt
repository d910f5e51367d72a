// The tokens of Core Erlang 1.0.3 ("Lexical definitions").
use term_core::Atom;

/// A token with the place of its first byte in the text.
#[derive(Drop)]
pub struct Token {
    pub at: usize,
    pub lexeme: Lexeme,
}

/// What a token is.
#[derive(Drop)]
pub enum Lexeme {
    Word(Keyword),
    Mark(Mark),
    /// An atom, with its escapes replaced by the characters that they stand for.
    Atom(Atom),
    /// A variable's name, which is ASCII.
    Variable(Vec<u8>),
    Integer(i64),
    /// A float, which no form takes.
    Float,
    /// The character of `$` and one character or escape.
    Character(char),
    /// The characters of a string.
    Text(Vec<char>),
}

/// The keywords.
#[derive(Clone, Copy, Debug, PartialEq, Eq)]
pub enum Keyword {
    Module,
    Attributes,
    End,
    Fun,
    Let,
    In,
    Case,
    Of,
    When,
    Apply,
    Call,
    Primop,
    Do,
    Try,
    Catch,
    Receive,
    After,
    Letrec,
}

/// The marks.
#[derive(Clone, Copy, Debug, PartialEq, Eq)]
pub enum Mark {
    /// `(`
    LeftParenthesis,
    /// `)`
    RightParenthesis,
    /// `[`
    LeftBracket,
    /// `]`
    RightBracket,
    /// `{`
    LeftBrace,
    /// `}`
    RightBrace,
    /// `<`
    Less,
    /// `>`
    Greater,
    /// `,`
    Comma,
    /// `|`
    Bar,
    /// `=`
    Equals,
    /// `/`
    Slash,
    /// `:`
    Colon,
    /// `->`
    Arrow,
    /// `-|`
    Note,
    /// `#`
    Hash,
    /// `~`
    Tilde,
}
