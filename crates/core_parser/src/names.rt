// Names of functions and variables, each annotated any number of times (Core Erlang 1.0.3, "Annotations").
ghost use Rattle.std.specs.Prelude.{◌≡◌, IfOk, true};
ghost use Rattle.core_tokens.specs.declared.token.Mark.TheVariants.{Greater};
ghost use Rattle.core_grammar.specs.inside.Decoder.{MovesUnlessMemory, Opens, behind_atom_at, bare_name_at, bare_variable_at, function_name_at, variable_at, items_at, closed_at, exactly_at, bare_variables_at, variables_at, bare_caught_at, caught_at};
ghost use Rattle.core_parser.specs.inside.ParserView.{state_of};

use crate::parser::Parser;
use core_tokens::{Lexeme, Mark, ReadFault, Token};
use core_tree::{FunctionName, NamedFunction, Variable};
use std::alloc::{AllocError, Global};
use term_core::Atom;

/// A variable at its place, with a copy of its name.
pub fn variable_of(alloc: Global, at: usize, name: &[u8]) -> Result<Variable, AllocError>
    ensures { IfOk result (λ v. v ≡ record { at = at; name = name.now }) }
{
    Ok(Variable {
        at,
        name: Vec::from_slice(alloc, name)?,
    })
}

impl<'a> Parser<'a> {
    /// Steps over the parenthesis of an annotation, if one comes next: it takes one of so many levels.
    pub fn opens_note(&mut self, levels: u16) -> Result<bool, ReadFault>
        ensures { Opens levels result (state_of self.old) (state_of self.new) }
    {
        let deep = self.too_deep();
        if !self.skip_mark(Mark::LeftParenthesis) {
            return Ok(false);
        }
        if levels == 0 {
            return Err(deep);
        }
        Ok(true)
    }

    /// What follows the atom of a function's name: `/ Integer`.
    #[tactic(auto, unfolding(core_grammar::specs::inside::Decoder::behind_atom_at))]
    pub fn behind_atom(&mut self, at: usize, name: Atom) -> Result<NamedFunction, ReadFault>
        ensures { MovesUnlessMemory (λ e. e) result (state_of self.new) (behind_atom_at at name (state_of self.old)) }
    {
        self.mark(Mark::Slash)?;
        let arity = self.arity()?;
        Ok(NamedFunction {
            at,
            function: FunctionName { name, arity },
        })
    }

    /// A function's name without annotations: `Atom / Integer`.
    #[tactic(auto, unfolding(core_grammar::specs::inside::Decoder::bare_name_at))]
    pub fn bare_name(&mut self) -> Result<NamedFunction, ReadFault>
        ensures { MovesUnlessMemory (λ e. e) result (state_of self.new) (bare_name_at (state_of self.old)) }
    {
        let (at, name) = self.placed_atom()?;
        Ok(self.behind_atom(at, name)?)
    }

    /// A variable without annotations.
    #[tactic(auto, unfolding(core_grammar::specs::inside::Decoder::bare_variable_at))]
    pub fn bare_variable(&mut self) -> Result<Variable, ReadFault>
        ensures { MovesUnlessMemory (λ v. v) result (state_of self.new) (bare_variable_at (state_of self.old)) }
    {
        let tokens = self.tokens;
        match tokens {
            [
                Token {
                    at,
                    lexeme: Lexeme::Variable(name),
                },
                rest @ ..,
            ] => {
                self.tokens = rest;
                Ok(variable_of(self.alloc, *at, name)?)
            }
            _ => Err(self.fault()),
        }
    }

    /// A function's name, annotated in at most so many levels.
    pub fn function_name(&mut self, levels: u16) -> Result<NamedFunction, ReadFault>
        ensures { MovesUnlessMemory (λ e. e) result (state_of self.new) (function_name_at levels (state_of self.old)) }
    {
        if !self.opens_note(levels)? {
            return Ok(self.bare_name()?);
        }
        let name = self.function_name(levels - 1)?;
        self.note(levels - 1)?;
        Ok(name)
    }

    /// A variable, annotated in at most so many levels.
    pub fn variable(&mut self, levels: u16) -> Result<Variable, ReadFault>
        ensures { MovesUnlessMemory (λ v. v) result (state_of self.new) (variable_at levels (state_of self.old)) }
    {
        if !self.opens_note(levels)? {
            return Ok(self.bare_variable()?);
        }
        let variable = self.variable(levels - 1)?;
        self.note(levels - 1)?;
        Ok(variable)
    }

    // Variables with commas between them.
    fn variable_items(&mut self, levels: u16) -> Result<Vec<Variable>, ReadFault>
        ensures { MovesUnlessMemory (λ v. v.items) result (state_of self.new) (items_at (variable_at levels) (state_of self.old)) }
    {
        let mut items = Vec::new(self.alloc);
        let count = self.tokens.len();
        'items: for _taken in 0..count {
            items.push(self.variable(levels)?)?;
            if !self.skip_mark(Mark::Comma) {
                return Ok(items);
            }
        }
        Err(self.fault())
    }

    // Any number of variables, and the closing angle.
    #[tactic(auto, unfolding(core_grammar::specs::inside::Decoder::closed_at))]
    fn variables_in_angles(&mut self, levels: u16) -> Result<Vec<Variable>, ReadFault>
        ensures { MovesUnlessMemory (λ v. v.items) result (state_of self.new) (closed_at (variable_at levels) Greater (state_of self.old)) }
    {
        if self.skip_mark(Mark::Greater) {
            return Ok(Vec::new(self.alloc));
        }
        let items = self.variable_items(levels)?;
        self.mark(Mark::Greater)?;
        Ok(items)
    }

    /// So many variables, with commas between them.
    pub fn parameters(&mut self, arity: u8, levels: u16) -> Result<Vec<Variable>, ReadFault>
        ensures { MovesUnlessMemory (λ v. v.items) result (state_of self.new) (exactly_at (variable_at levels) true arity (state_of self.old)) }
    {
        let mut parameters = Vec::new(self.alloc);
        'parameters: for taken in 0..arity {
            self.comma(taken == 0)?;
            parameters.push(self.variable(levels)?)?;
        }
        Ok(parameters)
    }

    // A variable, or variables in angles, without annotations round them.
    #[tactic(auto, unfolding(core_grammar::specs::inside::Decoder::bare_variables_at))]
    fn bare_variables(&mut self, levels: u16) -> Result<Vec<Variable>, ReadFault>
        ensures { MovesUnlessMemory (λ v. v.items) result (state_of self.new) (bare_variables_at levels (state_of self.old)) }
    {
        if self.skip_mark(Mark::Less) {
            return Ok(self.variables_in_angles(levels)?);
        }
        let mut variables = Vec::new(self.alloc);
        variables.push(self.bare_variable()?)?;
        Ok(variables)
    }

    /// A variable, or variables in angles, annotated in at most so many levels.
    pub fn variables(&mut self, levels: u16) -> Result<Vec<Variable>, ReadFault>
        ensures { MovesUnlessMemory (λ v. v.items) result (state_of self.new) (variables_at levels (state_of self.old)) }
    {
        if !self.opens_note(levels)? {
            return Ok(self.bare_variables(levels)?);
        }
        let variables = self.variables(levels - 1)?;
        self.note(levels - 1)?;
        Ok(variables)
    }

    // Two or three variables in angles, without annotations round them.
    #[tactic(auto, unfolding(core_grammar::specs::inside::Decoder::bare_caught_at))]
    fn bare_caught(&mut self, levels: u16) -> Result<Vec<Variable>, ReadFault>
        ensures { MovesUnlessMemory (λ v. v.items) result (state_of self.new) (bare_caught_at levels (state_of self.old)) }
    {
        self.mark(Mark::Less)?;
        let mut variables = Vec::new(self.alloc);
        variables.push(self.variable(levels)?)?;
        self.mark(Mark::Comma)?;
        variables.push(self.variable(levels)?)?;
        if self.skip_mark(Mark::Comma) {
            variables.push(self.variable(levels)?)?;
        }
        self.mark(Mark::Greater)?;
        Ok(variables)
    }

    /// Two or three variables in angles, annotated in at most so many levels.
    pub fn caught(&mut self, levels: u16) -> Result<Vec<Variable>, ReadFault>
        ensures { MovesUnlessMemory (λ v. v.items) result (state_of self.new) (caught_at levels (state_of self.old)) }
    {
        if !self.opens_note(levels)? {
            return Ok(self.bare_caught(levels)?);
        }
        let variables = self.caught(levels - 1)?;
        self.note(levels - 1)?;
        Ok(variables)
    }
}
