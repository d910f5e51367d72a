// From the bytes of a text to its tokens.
ghost use Rattle.std.specs.Prelude.{◌≡◌, ℕ, List, IfOk, IfErr, MatchResult, true};
ghost use Rattle.core_tokens.specs.Piece.{Piece, shape_of, pieces};
ghost use Rattle.core_tokens.specs.Tokens.{AreTokens, IsTokenFault, is_slash, in_range};
ghost use Rattle.core_tokens.specs.inside.Lexing.{GivesUnlessMemory, word_token_at, variable_token_at, atom_token_at, text_token_at, dollar_token_at, token_at, ranged_token_at};

mod blanks;
mod number;
mod quoted;
mod trouble;
mod word;

use self::trouble::TokenError;
use crate::fault::ReadFault;
use crate::token::{Lexeme, Mark, Token};
use std::alloc::Global;
use term_core::Atom;

#[tactic(auto, unfolding(crate::specs::inside::Lexing::word_token_at))]
fn word_token(text: &[u8]) -> Result<(Lexeme, &[u8]), TokenError>
    ensures { GivesUnlessMemory (λ x. (shape_of x.0, x.1.now)) result (word_token_at text.now) }
{
    match word::word(text) {
        Some((keyword, rest)) => Ok((Lexeme::Word(keyword), rest)),
        None => Err(TokenError::NoToken),
    }
}

#[tactic(auto, unfolding(crate::specs::inside::Lexing::variable_token_at))]
fn variable_token(alloc: Global, text: &[u8]) -> Result<(Lexeme, &[u8]), TokenError>
    ensures { GivesUnlessMemory (λ x. (shape_of x.0, x.1.now)) result (variable_token_at text.now) }
{
    match word::variable_name(text) {
        Some((name, rest)) => Ok((Lexeme::Variable(Vec::from_slice(alloc, name)?), rest)),
        None => Err(TokenError::NoToken),
    }
}

// The atom of what follows a single quote.
#[tactic(auto, unfolding(crate::specs::inside::Lexing::atom_token_at))]
fn atom_token(alloc: Global, text: &[u8]) -> Result<(Lexeme, &[u8]), TokenError>
    ensures { GivesUnlessMemory (λ x. (shape_of x.0, x.1.now)) result (atom_token_at text.now) }
{
    let (characters, rest) = quoted::quoted(alloc, b'\'', text)?;
    let name = quoted::string_of(alloc, &characters)?;
    Ok((Lexeme::Atom(Atom::from_string(alloc, name)?), rest))
}

// The string of what follows a double quote.
#[tactic(auto, unfolding(crate::specs::inside::Lexing::text_token_at))]
fn text_token(alloc: Global, text: &[u8]) -> Result<(Lexeme, &[u8]), TokenError>
    ensures { GivesUnlessMemory (λ x. (shape_of x.0, x.1.now)) result (text_token_at text.now) }
{
    let (characters, rest) = quoted::quoted(alloc, b'"', text)?;
    Ok((Lexeme::Text(characters), rest))
}

// The character of what follows `$`.
#[tactic(auto, unfolding(crate::specs::inside::Lexing::dollar_token_at))]
fn dollar_token(text: &[u8]) -> Result<(Lexeme, &[u8]), TokenError>
    ensures { GivesUnlessMemory (λ x. (shape_of x.0, x.1.now)) result (dollar_token_at text.now) }
{
    match quoted::dollar_character(text) {
        Some((character, rest)) => Ok((Lexeme::Character(character), rest)),
        None => Err(TokenError::NoToken),
    }
}

// The token at the front and what follows it; an integer is one of 64 bits.
#[tactic(auto, unfolding(crate::specs::inside::Lexing::token_at))]
fn token(alloc: Global, text: &[u8]) -> Result<(Lexeme, &[u8]), TokenError>
    ensures { GivesUnlessMemory (λ x. (shape_of x.0, x.1.now)) result (token_at text.now) }
{
    let [first, rest @ ..] = text else {
        return Err(TokenError::NoToken);
    };
    if first.is_ascii_lowercase() {
        word_token(text)
    } else if first.is_ascii_uppercase() || *first == b'_' {
        variable_token(alloc, text)
    } else if *first == b'\'' {
        atom_token(alloc, rest)
    } else if *first == b'"' {
        text_token(alloc, rest)
    } else if *first == b'$' {
        dollar_token(rest)
    } else if let Some((mark, rest)) = word::mark(text) {
        Ok((Lexeme::Mark(mark), rest))
    } else {
        number::number(text)
    }
}

fn is_slash(lexeme: &Lexeme) -> bool
    ensures { result ≡ is_slash (shape_of lexeme.now) }
{
    matches!(lexeme, Lexeme::Mark(Mark::Slash))
}

// Whether a token may follow `/`: an integer only where it is an arity.
fn may_follow_slash(lexeme: &Lexeme) -> bool
    ensures { result ≡ in_range true (shape_of lexeme.now) }
{
    match lexeme {
        Lexeme::Integer(number) => u8::try_from(*number).is_ok(),
        _ => true,
    }
}

// The token at the front and what follows it; an integer is in range.
#[tactic(auto, unfolding(crate::specs::inside::Lexing::ranged_token_at))]
fn ranged_token(
    alloc: Global,
    behind_slash: bool,
    text: &[u8],
) -> Result<(Lexeme, &[u8]), TokenError>
    ensures { GivesUnlessMemory (λ x. (shape_of x.0, x.1.now)) result (ranged_token_at behind_slash text.now) }
{
    let (lexeme, rest) = token(alloc, text)?;
    if behind_slash && !may_follow_slash(&lexeme) {
        return Err(TokenError::OutOfRange);
    }
    Ok((lexeme, rest))
}

/// The tokens of a text (Core Erlang 1.0.3, "Lexical definitions"): all of it, with blanks, tabs, line
/// ends and comments between them. Each token has the place of its first byte. The text stays the
/// caller's; the tokens take their memory from `alloc`. The time is linear in the length of the text.
///
/// # Errors
///
/// `BadToken` at the first place where no token begins and neither a blank nor a comment; `BadInteger` where an integer
/// before that place is outside 64 bits or, right after `/`, outside 0 to 255; `Memory` only where a growth was
/// refused.
pub fn tokens(alloc: Global, text: &[u8]) -> Result<Vec<Token>, ReadFault>
    // What is read is spelt so.
    ensures sound { IfOk result (λ found. AreTokens text.now (pieces found.items)) }
    // What is spelt so is read, and nothing else, unless memory runs out.
    ensures complete { (ps : List Piece) → AreTokens text.now ps
        → MatchResult result (λ found. pieces found.items ≡ ps) (λ e. e ≡ ReadFault.Memory) }
    // What a fault says holds at its place, after tokens alone.
    ensures fault { IfErr result (λ e. IsTokenFault text.now e) }
{
    let mut tokens = Vec::new(alloc);
    let mut behind_slash = false;
    let mut rest = blanks::behind_blanks(text);
    while !rest.is_empty() {
        let at = text.len() - rest.len();
        let (lexeme, after) = match ranged_token(alloc, behind_slash, rest) {
            Ok(found) => found,
            Err(trouble) => return Err(trouble.at(at)),
        };
        behind_slash = is_slash(&lexeme);
        tokens.push(Token { at, lexeme })?;
        rest = blanks::behind_blanks(after);
    }
    Ok(tokens)
}

/// A law: a text is one list of tokens at most.
pub fn tokens_are_unique()
    ensures { (text : List ℕ) (ps qs : List Piece) → AreTokens text ps → AreTokens text qs → ps ≡ qs }
{}
