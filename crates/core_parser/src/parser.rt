// What the grammar reads tokens with: one token at a time, with the fault where it cannot be.
ghost use Rattle.std.specs.Prelude.{◌≡◌, IfOk, is_some};
ghost use Rattle.core_tokens.specs.Piece.{shape_of, pieces};
ghost use Rattle.core_grammar.specs.inside.Decoder.{MovesUnlessMemory, PassesUnlessMemory, mark_number, word_number, is_foreign, after_mark, after_word, Skips, fault_of, refusal, place_of, fault, too_deep, mark_at, word_at, comma_at, atom_at, placed_atom_at, arity_at};
ghost use Rattle.core_parser.specs.inside.ParserView.{state_of};

use core_grammar::Unserved;
use core_tokens::{Keyword, Lexeme, Mark, ReadFault, Token};
use std::alloc::{AllocError, Global};
use term_core::Atom;

/// The tokens that are left to read.
#[derive(Drop)]
pub struct Parser<'a> {
    /// Where memory comes from.
    pub alloc: Global,
    /// The tokens that are left.
    pub tokens: &'a [Token],
    /// What was read whole and is not served, with the least place.
    pub refused: Option<Unserved>,
    /// The length of the text in bytes.
    pub length: usize,
}

fn mark_number(mark: Mark) -> u8
    ensures { result ≡ mark_number mark }
{
    mark as u8
}

fn word_number(word: Keyword) -> u8
    ensures { result ≡ word_number word }
{
    word as u8
}

/// Whether no form takes the token.
pub fn is_foreign(lexeme: &Lexeme) -> bool
    ensures { result ≡ is_foreign (shape_of lexeme.now) }
{
    matches!(
        lexeme,
        Lexeme::Float | Lexeme::Mark(Mark::Hash) | Lexeme::Mark(Mark::Tilde)
    )
}

/// The fault at a token that cannot be here, in a text of this length.
pub(crate) fn fault_of(length: usize, tokens: &[Token]) -> ReadFault
    ensures { result ≡ fault_of length (pieces tokens.now) }
{
    match tokens {
        [] => ReadFault::Expected(length),
        [token, ..] => {
            if is_foreign(&token.lexeme) {
                ReadFault::UnsupportedForm(token.at)
            } else {
                ReadFault::Expected(token.at)
            }
        }
    }
}

impl<'a> Parser<'a> {
    /// The fault, unless something that was read whole is not served.
    pub fn refusal(&self, fault: ReadFault) -> ReadFault
        ensures { result ≡ refusal self.now.refused fault }
    {
        match self.refused {
            Some(unserved) => unserved.fault(),
            None => fault,
        }
    }

    /// The place of the next token, or the text's length.
    pub fn place(&self) -> usize
        ensures { result ≡ place_of self.now.length (pieces self.now.tokens.now) }
    {
        match self.tokens {
            [] => self.length,
            [token, ..] => token.at,
        }
    }

    /// The fault at a token that cannot be here.
    #[tactic(auto, unfolding(core_grammar::specs::inside::Decoder::fault))]
    pub fn fault(&self) -> ReadFault
        ensures { result ≡ fault (state_of self.now) }
    {
        self.refusal(fault_of(self.length, self.tokens))
    }

    /// The fault at a token that opens a level past the last.
    #[tactic(auto, unfolding(core_grammar::specs::inside::Decoder::too_deep))]
    pub fn too_deep(&self) -> ReadFault
        ensures { result ≡ too_deep (state_of self.now) }
    {
        self.refusal(ReadFault::TooDeep(self.place()))
    }

    /// Whether the mark comes next.
    pub fn is_at_mark(&self, mark: Mark) -> bool
        ensures { result ≡ is_some (after_mark mark (state_of self.now).pieces) }
    {
        match self.tokens {
            [
                Token {
                    lexeme: Lexeme::Mark(found),
                    ..
                },
                ..
            ] => mark_number(*found) == mark_number(mark),
            _ => false,
        }
    }

    /// Whether the keyword comes next.
    pub fn is_at_word(&self, word: Keyword) -> bool
        ensures { result ≡ is_some (after_word word (state_of self.now).pieces) }
    {
        match self.tokens {
            [
                Token {
                    lexeme: Lexeme::Word(found),
                    ..
                },
                ..
            ] => word_number(*found) == word_number(word),
            _ => false,
        }
    }

    /// Steps over the mark, if it comes next.
    pub fn skip_mark(&mut self, mark: Mark) -> bool
        ensures { Skips result (after_mark mark (state_of self.old).pieces) (state_of self.old) (state_of self.new) }
    {
        let tokens = self.tokens;
        if let [
            Token {
                lexeme: Lexeme::Mark(found),
                ..
            },
            rest @ ..,
        ] = tokens
        {
            if mark_number(*found) == mark_number(mark) {
                self.tokens = rest;
                return true;
            }
        }
        false
    }

    /// Steps over the keyword, if it comes next.
    pub fn skip_word(&mut self, word: Keyword) -> bool
        ensures { Skips result (after_word word (state_of self.old).pieces) (state_of self.old) (state_of self.new) }
    {
        let tokens = self.tokens;
        if let [
            Token {
                lexeme: Lexeme::Word(found),
                ..
            },
            rest @ ..,
        ] = tokens
        {
            if word_number(*found) == word_number(word) {
                self.tokens = rest;
                return true;
            }
        }
        false
    }

    /// Steps over the mark.
    #[tactic(auto, unfolding(core_grammar::specs::inside::Decoder::mark_at))]
    pub fn mark(&mut self, mark: Mark) -> Result<(), ReadFault>
        ensures { PassesUnlessMemory result (state_of self.new) (mark_at mark (state_of self.old)) }
    {
        if self.skip_mark(mark) {
            Ok(())
        } else {
            Err(self.fault())
        }
    }

    /// Steps over the keyword.
    #[tactic(auto, unfolding(core_grammar::specs::inside::Decoder::word_at))]
    pub fn word(&mut self, word: Keyword) -> Result<(), ReadFault>
        ensures { PassesUnlessMemory result (state_of self.new) (word_at word (state_of self.old)) }
    {
        if self.skip_word(word) {
            Ok(())
        } else {
            Err(self.fault())
        }
    }

    /// Steps over a comma, but before the first of several.
    pub fn comma(&mut self, is_first: bool) -> Result<(), ReadFault>
        ensures { PassesUnlessMemory result (state_of self.new) (comma_at is_first (state_of self.old)) }
    {
        if is_first {
            Ok(())
        } else {
            Ok(self.mark(Mark::Comma)?)
        }
    }

    /// An atom.
    #[tactic(auto, unfolding(core_grammar::specs::inside::Decoder::atom_at))]
    pub fn atom(&mut self) -> Result<Atom, ReadFault>
        ensures { MovesUnlessMemory (λ a. a) result (state_of self.new) (atom_at (state_of self.old)) }
    {
        let tokens = self.tokens;
        match tokens {
            [
                Token {
                    lexeme: Lexeme::Atom(atom),
                    ..
                },
                rest @ ..,
            ] => {
                self.tokens = rest;
                Ok(atom.copy()?)
            }
            _ => Err(self.fault()),
        }
    }

    /// The atom of a function's name, with its place.
    #[tactic(auto, unfolding(core_grammar::specs::inside::Decoder::placed_atom_at))]
    pub fn placed_atom(&mut self) -> Result<(usize, Atom), ReadFault>
        ensures { MovesUnlessMemory (λ a. a) result (state_of self.new) (placed_atom_at (state_of self.old)) }
    {
        let tokens = self.tokens;
        match tokens {
            [
                Token {
                    at,
                    lexeme: Lexeme::Atom(atom),
                },
                rest @ ..,
            ] => {
                self.tokens = rest;
                Ok((*at, atom.copy()?))
            }
            _ => Err(self.fault()),
        }
    }

    /// The number of a function's arguments, 0 to 255.
    #[tactic(auto, unfolding(core_grammar::specs::inside::Decoder::arity_at))]
    pub fn arity(&mut self) -> Result<u8, ReadFault>
        ensures { MovesUnlessMemory (λ n. n) result (state_of self.new) (arity_at (state_of self.old)) }
    {
        let tokens = self.tokens;
        match tokens {
            [
                Token {
                    lexeme: Lexeme::Integer(number),
                    ..
                },
                rest @ ..,
            ] => match u8::try_from(*number) {
                Ok(arity) => {
                    self.tokens = rest;
                    Ok(arity)
                }
                Err(_) => Err(self.fault()),
            },
            _ => Err(self.fault()),
        }
    }
}
