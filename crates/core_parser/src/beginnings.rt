// What an expression begins with, and the fault where none does (Core Erlang 1.0.3, "Expressions").
ghost use Rattle.std.specs.Prelude.{◌≡◌};
ghost use Rattle.core_tokens.specs.Piece.{shape_of, pieces};
ghost use Rattle.core_grammar.specs.inside.DecoderForms.{is_function, begins_expression, deep_expression_of, expression_fault_of, deep_expression, expression_fault};
ghost use Rattle.core_parser.specs.inside.ParserView.{state_of};

use crate::parser::{Parser, fault_of, is_foreign};
use core_tokens::{Keyword, Lexeme, Mark, ReadFault, Token};

/// Whether an expression begins with the token.
#[tactic(auto, unfolding(core_grammar::specs::Beginnings::beginning))]
pub(crate) fn begins_expression(lexeme: &Lexeme) -> bool
    ensures { result ≡ begins_expression (shape_of lexeme.now) }
{
    match lexeme {
        Lexeme::Word(
            Keyword::Let
            | Keyword::Case
            | Keyword::Apply
            | Keyword::Call
            | Keyword::Primop
            | Keyword::Do
            | Keyword::Try
            | Keyword::Catch
            | Keyword::Receive,
        ) => true,
        Lexeme::Mark(Mark::Less | Mark::LeftBrace | Mark::LeftBracket | Mark::LeftParenthesis) =>
            true,
        Lexeme::Variable(_)
        | Lexeme::Integer(_)
        | Lexeme::Character(_)
        | Lexeme::Text(_)
        | Lexeme::Atom(_) => true,
        _ => false,
    }
}

/// Whether a function as a value begins with these tokens: `fun`, `letrec`, or a function's name.
#[tactic(auto, unfolding(core_grammar::specs::Beginnings::beginning))]
pub(crate) fn is_function(lexeme: &Lexeme, rest: &[Token]) -> bool
    ensures { result ≡ is_function (shape_of lexeme.now) (pieces rest.now) }
{
    match lexeme {
        Lexeme::Word(Keyword::Fun | Keyword::Letrec) => true,
        Lexeme::Atom(_) => matches!(
            rest,
            [
                Token {
                    lexeme: Lexeme::Mark(Mark::Slash),
                    ..
                },
                ..
            ]
        ),
        _ => false,
    }
}

fn deep_expression_of(length: usize, tokens: &[Token]) -> ReadFault
    ensures { result ≡ deep_expression_of length (pieces tokens.now) }
{
    match tokens {
        [] => ReadFault::Expected(length),
        [token, rest @ ..] => {
            if is_function(&token.lexeme, rest) {
                ReadFault::HigherOrder(token.at)
            } else if begins_expression(&token.lexeme) {
                ReadFault::TooDeep(token.at)
            } else if is_foreign(&token.lexeme) {
                ReadFault::UnsupportedForm(token.at)
            } else {
                ReadFault::Expected(token.at)
            }
        }
    }
}

fn expression_fault_of(length: usize, tokens: &[Token]) -> ReadFault
    ensures { result ≡ expression_fault_of length (pieces tokens.now) }
{
    match tokens {
        [] => ReadFault::Expected(length),
        [token, rest @ ..] => {
            if is_function(&token.lexeme, rest) {
                ReadFault::HigherOrder(token.at)
            } else {
                fault_of(length, tokens)
            }
        }
    }
}

impl<'a> Parser<'a> {
    /// The fault at a token past the last level.
    #[tactic(auto, unfolding(core_grammar::specs::inside::DecoderForms::deep_expression))]
    pub fn deep_expression(&self) -> ReadFault
        ensures { result ≡ deep_expression (state_of self.now) }
    {
        self.refusal(deep_expression_of(self.length, self.tokens))
    }

    /// The fault at a token that begins no expression that is read.
    #[tactic(auto, unfolding(core_grammar::specs::inside::DecoderForms::expression_fault))]
    pub fn expression_fault(&self) -> ReadFault
        ensures { result ≡ expression_fault (state_of self.now) }
    {
        self.refusal(expression_fault_of(self.length, self.tokens))
    }
}
