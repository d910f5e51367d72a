// The constants of attributes and annotations (Core Erlang 1.0.3, "Constant literals").
ghost use Rattle.std.specs.Prelude.{◌≡◌, map};
ghost use Rattle.core_tokens.specs.Piece.{shape_of, pieces};
ghost use Rattle.core_tree.specs.Syntax.{constants_of};
ghost use Rattle.core_tree.specs.Constant as constants;
ghost use Rattle.core_grammar.specs.inside.Decoder.{BuildsUnlessMemory, MovesUnlessMemory, PassesUnlessMemory, begins_constant, deep_constant_of, deep_constant, items_at, closed_at, brackets_at, note_at, in_note_at, constant_tuple_at, constant_list_at, constant_form_at, constant_at};
ghost use Rattle.core_parser.specs.inside.ParserView.{state_of};
ghost use Rattle.core_tree.specs.Tree.{constant_of};

use crate::parser::{Parser, is_foreign};
use core_tokens::{Lexeme, Mark, ReadFault, Token};
use core_tree::{Const, Consts, OntoConst};
use std::alloc::Global;

/// Whether a constant begins with the token.
#[tactic(auto, unfolding(core_grammar::specs::Beginnings::beginning))]
pub(crate) fn begins_constant(lexeme: &Lexeme) -> bool
    ensures { result ≡ begins_constant (shape_of lexeme.now) }
{
    matches!(
        lexeme,
        Lexeme::Integer(_)
            | Lexeme::Character(_)
            | Lexeme::Text(_)
            | Lexeme::Atom(_)
            | Lexeme::Mark(Mark::LeftBrace)
            | Lexeme::Mark(Mark::LeftBracket)
            | Lexeme::Mark(Mark::LeftParenthesis)
    )
}

fn deep_constant_of(length: usize, tokens: &[Token]) -> ReadFault
    ensures { result ≡ deep_constant_of length (pieces tokens.now) }
{
    match tokens {
        [] => ReadFault::Expected(length),
        [token, ..] => {
            if begins_constant(&token.lexeme) {
                ReadFault::TooDeep(token.at)
            } else if is_foreign(&token.lexeme) {
                ReadFault::UnsupportedForm(token.at)
            } else {
                ReadFault::Expected(token.at)
            }
        }
    }
}

fn onto(alloc: Global, items: Vec<Const>, tail: Const) -> Result<Const, ReadFault>
    ensures { BuildsUnlessMemory constant_of result (constants.Onto (constants_of (map constant_of items.items)) (constant_of tail)) }
{
    let items = Consts(items);
    Ok(Const::Onto(Box::new(alloc, OntoConst { items, tail })?))
}

impl<'a> Parser<'a> {
    // The fault at a token past the last level.
    #[tactic(auto, unfolding(core_grammar::specs::inside::Decoder::deep_constant))]
    fn deep_constant(&self) -> ReadFault
        ensures { result ≡ deep_constant (state_of self.now) }
    {
        self.refusal(deep_constant_of(self.length, self.tokens))
    }

    /// A constant of at most so many levels.
    #[cycle(constants)]
    pub fn constant(&mut self, levels: u16) -> Result<Const, ReadFault>
        ensures { MovesUnlessMemory constant_of result (state_of self.new) (constant_at levels (state_of self.old)) }
    {
        if levels == 0 {
            Err(self.deep_constant())
        } else {
            Ok(self.constant_form(levels - 1)?)
        }
    }

    // A constant whose parts have at most so many levels.
    #[cycle(constants)]
    #[tactic(auto, unfolding(core_grammar::specs::inside::Decoder::constant_form_at))]
    fn constant_form(&mut self, levels: u16) -> Result<Const, ReadFault>
        ensures { MovesUnlessMemory constant_of result (state_of self.new) (constant_form_at (constant_at levels) (state_of self.old)) }
    {
        let fault = self.fault();
        let tokens = self.tokens;
        match tokens {
            [] => Err(fault),
            [token, rest @ ..] => {
                self.tokens = rest;
                match &token.lexeme {
                    Lexeme::Integer(number) => Ok(Const::Integer(*number)),
                    Lexeme::Character(character) => Ok(Const::Character(*character)),
                    Lexeme::Text(text) => Ok(Const::Text(Vec::from_slice(self.alloc, text)?)),
                    Lexeme::Atom(atom) => Ok(Const::Atom(atom.copy()?)),
                    Lexeme::Mark(Mark::LeftBrace) => Ok(self.constant_tuple(levels)?),
                    Lexeme::Mark(Mark::LeftBracket) => Ok(self.constant_list(levels)?),
                    Lexeme::Mark(Mark::LeftParenthesis) => Ok(self.constant_in_note(levels)?),
                    _ => Err(fault),
                }
            }
        }
    }

    // What is in the parentheses of an annotated constant, and the end of the annotation.
    #[cycle(constants)]
    #[tactic(auto, unfolding(core_grammar::specs::inside::Decoder::in_note_at))]
    fn constant_in_note(&mut self, levels: u16) -> Result<Const, ReadFault>
        ensures { MovesUnlessMemory constant_of result (state_of self.new) (in_note_at (constant_at levels) (constant_at levels) (state_of self.old)) }
    {
        let constant = self.constant(levels)?;
        self.note(levels)?;
        Ok(constant)
    }

    /// The end of an annotation: `-| [const, ..] )`.
    #[cycle(constants)]
    #[tactic(auto, unfolding(core_grammar::specs::inside::Decoder::note_at))]
    pub fn note(&mut self, levels: u16) -> Result<(), ReadFault>
        ensures { PassesUnlessMemory result (state_of self.new) (note_at (constant_at levels) (state_of self.old)) }
    {
        self.mark(Mark::Note)?;
        self.mark(Mark::LeftBracket)?;
        let _notes = self.constants(levels, Mark::RightBracket)?;
        self.mark(Mark::RightParenthesis)?;
        Ok(())
    }

    // What follows the brace of a tuple.
    #[cycle(constants)]
    #[tactic(auto, unfolding(core_grammar::specs::inside::Decoder::constant_tuple_at))]
    fn constant_tuple(&mut self, levels: u16) -> Result<Const, ReadFault>
        ensures { MovesUnlessMemory constant_of result (state_of self.new) (constant_tuple_at (constant_at levels) (state_of self.old)) }
    {
        let items = self.constants(levels, Mark::RightBrace)?;
        Ok(Const::Tuple(Consts(items)))
    }

    // Any number of constants, and the closing mark.
    #[cycle(constants)]
    #[tactic(auto, unfolding(core_grammar::specs::inside::Decoder::closed_at))]
    fn constants(&mut self, levels: u16, close: Mark) -> Result<Vec<Const>, ReadFault>
        ensures { MovesUnlessMemory (λ v. map constant_of v.items) result (state_of self.new) (closed_at (constant_at levels) close (state_of self.old)) }
    {
        if self.skip_mark(close) {
            return Ok(Vec::new(self.alloc));
        }
        let items = self.constant_items(levels)?;
        self.mark(close)?;
        Ok(items)
    }

    // What follows the bracket of a list.
    #[cycle(constants)]
    #[tactic(auto, unfolding(core_grammar::specs::inside::Decoder::constant_list_at, core_grammar::specs::inside::Decoder::brackets_at))]
    fn constant_list(&mut self, levels: u16) -> Result<Const, ReadFault>
        ensures { MovesUnlessMemory constant_of result (state_of self.new) (constant_list_at (constant_at levels) (state_of self.old)) }
    {
        if self.skip_mark(Mark::RightBracket) {
            return Ok(Const::List(Consts(Vec::new(self.alloc))));
        }
        let items = self.constant_items(levels)?;
        if self.skip_mark(Mark::Bar) {
            let tail = self.constant(levels)?;
            self.mark(Mark::RightBracket)?;
            return Ok(onto(self.alloc, items, tail)?);
        }
        self.mark(Mark::RightBracket)?;
        Ok(Const::List(Consts(items)))
    }

    // Constants with commas between them.
    #[cycle(constants)]
    fn constant_items(&mut self, levels: u16) -> Result<Vec<Const>, ReadFault>
        ensures { MovesUnlessMemory (λ v. map constant_of v.items) result (state_of self.new) (items_at (constant_at levels) (state_of self.old)) }
    {
        let mut items = Vec::new(self.alloc);
        let count = self.tokens.len();
        'items: for _taken in 0..count {
            items.push(self.constant(levels)?)?;
            if !self.skip_mark(Mark::Comma) {
                return Ok(items);
            }
        }
        Err(self.fault())
    }
}
