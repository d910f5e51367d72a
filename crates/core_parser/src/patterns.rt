// Patterns (Core Erlang 1.0.3, "Patterns").
ghost use Rattle.std.specs.Prelude.{◌≡◌, map};
ghost use Rattle.core_tokens.specs.Piece.{shape_of, pieces};
ghost use Rattle.core_tree.specs.Syntax.{patterns_of};
ghost use Rattle.core_tree.specs.Pattern as patterns;
ghost use Rattle.core_tree.specs.Tree.{pattern_of};
ghost use Rattle.core_grammar.specs.inside.Decoder.{BuildsUnlessMemory, MovesUnlessMemory, begins_pattern, deep_pattern_of, deep_pattern, items_at, closed_at, brackets_at, constant_at, in_note_at, pattern_tuple_at, pattern_list_at, pattern_form_at, alias_at, pattern_at};
ghost use Rattle.core_parser.specs.inside.ParserView.{state_of};

use crate::constants::begins_constant;
use crate::names::variable_of;
use crate::parser::{Parser, is_foreign};
use core_tokens::{Lexeme, Mark, ReadFault, Token};
use core_tree::{Alias, OntoPattern, Pattern, Patterns, Variable};
use std::alloc::Global;

#[tactic(auto, unfolding(core_grammar::specs::Beginnings::beginning))]
fn begins_pattern(lexeme: &Lexeme) -> bool
    ensures { result ≡ begins_pattern (shape_of lexeme.now) }
{
    matches!(lexeme, Lexeme::Variable(_)) || begins_constant(lexeme)
}

fn deep_pattern_of(length: usize, tokens: &[Token]) -> ReadFault
    ensures { result ≡ deep_pattern_of length (pieces tokens.now) }
{
    match tokens {
        [] => ReadFault::Expected(length),
        [token, ..] => {
            if begins_pattern(&token.lexeme) {
                ReadFault::TooDeep(token.at)
            } else if is_foreign(&token.lexeme) {
                ReadFault::UnsupportedForm(token.at)
            } else {
                ReadFault::Expected(token.at)
            }
        }
    }
}

fn onto(alloc: Global, items: Vec<Pattern>, tail: Pattern) -> Result<Pattern, ReadFault>
    ensures { BuildsUnlessMemory pattern_of result (patterns.Onto (patterns_of (map pattern_of items.items)) (pattern_of tail)) }
{
    let items = Patterns(items);
    Ok(Pattern::Onto(Box::new(alloc, OntoPattern { items, tail })?))
}

fn alias_of(alloc: Global, variable: Variable, whole: Pattern) -> Result<Pattern, ReadFault>
    ensures { BuildsUnlessMemory pattern_of result (patterns.Alias variable (pattern_of whole)) }
{
    Ok(Pattern::Alias(Box::new(alloc, Alias { variable, whole })?))
}

impl<'a> Parser<'a> {
    // The fault at a token past the last level.
    #[tactic(auto, unfolding(core_grammar::specs::inside::Decoder::deep_pattern))]
    fn deep_pattern(&self) -> ReadFault
        ensures { result ≡ deep_pattern (state_of self.now) }
    {
        self.refusal(deep_pattern_of(self.length, self.tokens))
    }

    /// A pattern of at most so many levels.
    #[cycle(patterns)]
    pub fn pattern(&mut self, levels: u16) -> Result<Pattern, ReadFault>
        ensures { MovesUnlessMemory pattern_of result (state_of self.new) (pattern_at levels (state_of self.old)) }
    {
        if levels == 0 {
            return Err(self.deep_pattern());
        }
        let pattern = self.pattern_form(levels - 1)?;
        Ok(self.alias(pattern, levels - 1)?)
    }

    /// The pattern that was read, or the alias that its variable begins.
    #[cycle(patterns)]
    #[tactic(auto, unfolding(core_grammar::specs::inside::Decoder::alias_at))]
    pub fn alias(&mut self, pattern: Pattern, levels: u16) -> Result<Pattern, ReadFault>
        ensures { MovesUnlessMemory pattern_of result (state_of self.new) (alias_at (pattern_at levels) (constant_at levels) (pattern_of pattern) (state_of self.old)) }
    {
        match pattern {
            Pattern::Variable(variable) => {
                if !self.skip_mark(Mark::Equals) {
                    return Ok(Pattern::Variable(variable));
                }
                let whole = self.pattern(levels)?;
                Ok(alias_of(self.alloc, variable, whole)?)
            }
            other => Ok(other),
        }
    }

    // A pattern that is no alias, whose parts have at most so many levels.
    #[cycle(patterns)]
    #[tactic(auto, unfolding(core_grammar::specs::inside::Decoder::pattern_form_at))]
    fn pattern_form(&mut self, levels: u16) -> Result<Pattern, ReadFault>
        ensures { MovesUnlessMemory pattern_of result (state_of self.new) (pattern_form_at (pattern_at levels) (constant_at levels) (state_of self.old)) }
    {
        let fault = self.fault();
        let tokens = self.tokens;
        match tokens {
            [] => Err(fault),
            [token, rest @ ..] => {
                self.tokens = rest;
                match &token.lexeme {
                    Lexeme::Integer(number) => Ok(Pattern::Integer(*number)),
                    Lexeme::Character(character) => Ok(Pattern::Character(*character)),
                    Lexeme::Text(text) => Ok(Pattern::Text(Vec::from_slice(self.alloc, text)?)),
                    Lexeme::Atom(atom) => Ok(Pattern::Atom(atom.copy()?)),
                    Lexeme::Variable(name) => {
                        Ok(Pattern::Variable(variable_of(self.alloc, token.at, name)?))
                    }
                    Lexeme::Mark(Mark::LeftBrace) => Ok(self.pattern_tuple(levels)?),
                    Lexeme::Mark(Mark::LeftBracket) => Ok(self.pattern_list(levels)?),
                    Lexeme::Mark(Mark::LeftParenthesis) => Ok(self.pattern_in_note(levels)?),
                    _ => Err(fault),
                }
            }
        }
    }

    // What is in the parentheses of an annotated pattern, and the end of the annotation.
    #[cycle(patterns)]
    #[tactic(auto, unfolding(core_grammar::specs::inside::Decoder::in_note_at))]
    fn pattern_in_note(&mut self, levels: u16) -> Result<Pattern, ReadFault>
        ensures { MovesUnlessMemory pattern_of result (state_of self.new) (in_note_at (constant_at levels) (pattern_at levels) (state_of self.old)) }
    {
        let pattern = self.pattern(levels)?;
        self.note(levels)?;
        Ok(pattern)
    }

    // What follows the brace of a tuple.
    #[cycle(patterns)]
    #[tactic(auto, unfolding(core_grammar::specs::inside::Decoder::pattern_tuple_at))]
    fn pattern_tuple(&mut self, levels: u16) -> Result<Pattern, ReadFault>
        ensures { MovesUnlessMemory pattern_of result (state_of self.new) (pattern_tuple_at (pattern_at levels) (constant_at levels) (state_of self.old)) }
    {
        let items = self.patterns(levels, Mark::RightBrace)?;
        Ok(Pattern::Tuple(Patterns(items)))
    }

    // What follows the bracket of a list.
    #[cycle(patterns)]
    #[tactic(auto, unfolding(core_grammar::specs::inside::Decoder::pattern_list_at, core_grammar::specs::inside::Decoder::brackets_at))]
    fn pattern_list(&mut self, levels: u16) -> Result<Pattern, ReadFault>
        ensures { MovesUnlessMemory pattern_of result (state_of self.new) (pattern_list_at (pattern_at levels) (constant_at levels) (state_of self.old)) }
    {
        if self.skip_mark(Mark::RightBracket) {
            return Ok(Pattern::List(Patterns(Vec::new(self.alloc))));
        }
        let items = self.pattern_items(levels)?;
        if self.skip_mark(Mark::Bar) {
            let tail = self.pattern(levels)?;
            self.mark(Mark::RightBracket)?;
            return Ok(onto(self.alloc, items, tail)?);
        }
        self.mark(Mark::RightBracket)?;
        Ok(Pattern::List(Patterns(items)))
    }

    /// Any number of patterns, and the closing mark.
    #[cycle(patterns)]
    #[tactic(auto, unfolding(core_grammar::specs::inside::Decoder::closed_at))]
    pub fn patterns(&mut self, levels: u16, close: Mark) -> Result<Vec<Pattern>, ReadFault>
        ensures { MovesUnlessMemory (λ v. map pattern_of v.items) result (state_of self.new) (closed_at (pattern_at levels) close (state_of self.old)) }
    {
        if self.skip_mark(close) {
            return Ok(Vec::new(self.alloc));
        }
        let items = self.pattern_items(levels)?;
        self.mark(close)?;
        Ok(items)
    }

    // Patterns with commas between them.
    #[cycle(patterns)]
    fn pattern_items(&mut self, levels: u16) -> Result<Vec<Pattern>, ReadFault>
        ensures { MovesUnlessMemory (λ v. map pattern_of v.items) result (state_of self.new) (items_at (pattern_at levels) (state_of self.old)) }
    {
        let mut items = Vec::new(self.alloc);
        let count = self.tokens.len();
        'items: for _taken in 0..count {
            items.push(self.pattern(levels)?)?;
            if !self.skip_mark(Mark::Comma) {
                return Ok(items);
            }
        }
        Err(self.fault())
    }
}
