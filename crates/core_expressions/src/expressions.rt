// Expressions (Core Erlang 1.0.3, "Expressions"), except calls and clauses.
ghost use Rattle.std.specs.Prelude.{◌≡◌, map};
ghost use Rattle.core_tokens.specs.Piece.{shape_of, pieces};
ghost use Rattle.core_tokens.specs.Piece as lexemes;
ghost use Rattle.core_tokens.specs.declared.token.Mark.TheVariants.{Slash};
ghost use Rattle.core_tree.specs.Syntax.{trees_of};
ghost use Rattle.core_tree.specs.Expression as trees;
ghost use Rattle.core_tree.specs.Tree.{tree_of};
ghost use Rattle.core_grammar.specs.inside.Decoder.{BuildsUnlessMemory, MovesUnlessMemory, items_at, closed_at, in_note_at, constant_at, after_mark};
ghost use Rattle.core_grammar.specs.inside.DecoderForms.{is_function, begins_expression, deep_expression_of, expression_fault_of, deep_expression, expression_fault, name_by, tuple_at, list_at, values_at, body_at, in_at, bound_at, let_at, do_at, success_at, handler_at, branches_at, try_at, catch_at, form_by, form_at, expression_at, start_at};
ghost use Rattle.core_expressions.specs.inside.FormView.{branch_of, mark_form_at, state_in};

use crate::form_reader::FormReader;
use core_parser::variable_of;
use core_tokens::{Keyword, Lexeme, Mark, ReadFault, Token};
use core_tree::{Catch, Do, Expr, Exprs, Let, Onto, Try, Variable};
use std::alloc::Global;
use term_core::Atom;

fn onto(alloc: Global, items: Vec<Expr>, tail: Expr) -> Result<Expr, ReadFault>
    ensures { BuildsUnlessMemory tree_of result (trees.Onto (trees_of (map tree_of items.items)) (tree_of tail)) }
{
    let items = Exprs(items);
    Ok(Expr::Onto(Box::new(alloc, Onto { items, tail })?))
}

fn let_of(
    alloc: Global,
    variables: Vec<Variable>,
    value: Expr,
    body: Expr,
) -> Result<Expr, ReadFault>
    ensures { BuildsUnlessMemory tree_of result (trees.Let variables.items (tree_of value) (tree_of body)) }
{
    Ok(Expr::Let(Box::new(
        alloc,
        Let {
            variables,
            value,
            body,
        },
    )?))
}

fn do_both(alloc: Global, first: Expr, second: Expr) -> Result<Expr, ReadFault>
    ensures { BuildsUnlessMemory tree_of result (trees.Do (tree_of first) (tree_of second)) }
{
    Ok(Expr::Do(Box::new(alloc, Do { first, second })?))
}

/// What a `try` does with a value or with an exception: the variables of its parts, and what is evaluated.
#[derive(Drop)]
struct Branch {
    variables: Vec<Variable>,
    body: Expr,
}

fn try_of(
    alloc: Global,
    at: usize,
    value: Expr,
    success: Branch,
    handler: Branch,
) -> Result<Expr, ReadFault>
    ensures { BuildsUnlessMemory tree_of result (trees.Try at (tree_of value) (branch_of success).0 (branch_of success).1 (branch_of handler).0 (branch_of handler).1) }
{
    let Branch { variables, body } = success;
    let Branch {
        variables: caught,
        body: handler,
    } = handler;
    Ok(Expr::Try(Box::new(
        alloc,
        Try {
            at,
            value,
            variables,
            body,
            caught,
            handler,
        },
    )?))
}

fn catch_of(alloc: Global, at: usize, value: Expr) -> Result<Expr, ReadFault>
    ensures { BuildsUnlessMemory tree_of result (trees.Catch at (tree_of value)) }
{
    Ok(Expr::Catch(Box::new(alloc, Catch { at, value })?))
}

impl<'a> FormReader<'a> {
    /// An expression of the module `own`, of at most so many levels.
    #[cycle(expressions)]
    pub fn expression(&mut self, own: &Atom, levels: u16) -> Result<Expr, ReadFault>
        ensures { MovesUnlessMemory tree_of result (state_in self.new) (expression_at own.now levels (state_in self.old)) }
    {
        if levels == 0 {
            Err(self.parser.deep_expression())
        } else {
            Ok(self.form(own, levels - 1)?)
        }
    }

    // An expression whose parts have at most so many levels.
    #[cycle(expressions)]
    #[tactic(auto, unfolding(core_grammar::specs::inside::DecoderForms::form_at))]
    fn form(&mut self, own: &Atom, levels: u16) -> Result<Expr, ReadFault>
        ensures { MovesUnlessMemory tree_of result (state_in self.new) (form_at own.now levels (expression_at own.now levels) (start_at own.now levels) (state_in self.old)) }
    {
        let fault = self.parser.expression_fault();
        let tokens = self.parser.tokens;
        match tokens {
            [] => Err(fault),
            [token, rest @ ..] => match &token.lexeme {
                Lexeme::Mark(mark) => Ok(self.mark_form(own, levels, *mark, rest)?),
                Lexeme::Word(word) => Ok(self.word_form(own, levels, token.at, *word, rest)?),
                Lexeme::Atom(atom) => Ok(self.name(atom, rest)?),
                Lexeme::Integer(number) => {
                    self.parser.tokens = rest;
                    Ok(Expr::Integer(*number))
                }
                Lexeme::Character(character) => {
                    self.parser.tokens = rest;
                    Ok(Expr::Character(*character))
                }
                Lexeme::Text(text) => {
                    self.parser.tokens = rest;
                    Ok(Expr::Text(Vec::from_slice(self.parser.alloc, text)?))
                }
                Lexeme::Variable(name) => {
                    self.parser.tokens = rest;
                    Ok(Expr::Variable(variable_of(self.parser.alloc, token.at, name)?))
                }
                Lexeme::Float => Err(fault),
            },
        }
    }

    // An expression that begins with a mark, with these tokens after it.
    #[cycle(expressions)]
    fn mark_form(
        &mut self,
        own: &Atom,
        levels: u16,
        mark: Mark,
        rest: &'a [Token],
    ) -> Result<Expr, ReadFault>
        ensures { MovesUnlessMemory tree_of result (state_in self.new) (mark_form_at own.now levels mark (pieces rest.now) (state_in self.old)) }
    {
        let fault = self.parser.expression_fault();
        self.parser.tokens = rest;
        match mark {
            Mark::LeftBrace => Ok(self.tuple(own, levels)?),
            Mark::LeftBracket => Ok(self.list(own, levels)?),
            Mark::Less => Ok(self.values(own, levels)?),
            Mark::LeftParenthesis => Ok(self.expression_in_note(own, levels)?),
            _ => Err(fault),
        }
    }

    // An expression that begins with the keyword at `at`, with these tokens after it.
    #[cycle(expressions)]
    fn word_form(
        &mut self,
        own: &Atom,
        levels: u16,
        at: usize,
        word: Keyword,
        rest: &'a [Token],
    ) -> Result<Expr, ReadFault>
        ensures { MovesUnlessMemory tree_of result (state_in self.new) (form_by own.now levels (expression_at own.now levels) (start_at own.now levels) at (lexemes.Word word) (pieces rest.now) (state_in self.old)) }
    {
        let fault = self.parser.expression_fault();
        self.parser.tokens = rest;
        match word {
            Keyword::Let => Ok(self.let_in(own, levels)?),
            Keyword::Case => Ok(self.case(own, levels, at)?),
            Keyword::Do => Ok(self.do_then(own, levels)?),
            Keyword::Apply => Ok(self.apply(own, levels, at)?),
            Keyword::Call => Ok(self.call(own, levels, at)?),
            Keyword::Primop => Ok(self.primop(own, levels, at)?),
            Keyword::Try => Ok(self.try_in(own, levels, at)?),
            Keyword::Catch => Ok(self.catch(own, levels, at)?),
            Keyword::Receive => Ok(self.receive(own, levels, at)?),
            _ => Err(fault),
        }
    }

    // An atom with these tokens after it, if it begins no function's name.
    fn name(&mut self, atom: &Atom, rest: &'a [Token]) -> Result<Expr, ReadFault>
        ensures { MovesUnlessMemory tree_of result (state_in self.new) (name_by (after_mark Slash (pieces rest.now)) atom.now (pieces rest.now) (state_in self.old)) }
    {
        if matches!(
            rest,
            [
                Token {
                    lexeme: Lexeme::Mark(Mark::Slash),
                    ..
                },
                ..
            ]
        ) {
            return Err(self.parser.expression_fault());
        }
        self.parser.tokens = rest;
        Ok(Expr::Atom(atom.copy()?))
    }

    // What is in the parentheses of an annotated expression, and the end of the annotation.
    #[cycle(expressions)]
    #[tactic(auto, unfolding(core_grammar::specs::inside::Decoder::in_note_at))]
    fn expression_in_note(&mut self, own: &Atom, levels: u16) -> Result<Expr, ReadFault>
        ensures { MovesUnlessMemory tree_of result (state_in self.new) (in_note_at (constant_at levels) (expression_at own.now levels) (state_in self.old)) }
    {
        let expression = self.expression(own, levels)?;
        self.parser.note(levels)?;
        Ok(expression)
    }

    // What follows the brace of a tuple.
    #[cycle(expressions)]
    #[tactic(auto, unfolding(core_grammar::specs::inside::DecoderForms::tuple_at))]
    fn tuple(&mut self, own: &Atom, levels: u16) -> Result<Expr, ReadFault>
        ensures { MovesUnlessMemory tree_of result (state_in self.new) (tuple_at own.now levels (expression_at own.now levels) (state_in self.old)) }
    {
        let items = self.expressions(own, levels, Mark::RightBrace)?;
        Ok(Expr::Tuple(Exprs(items)))
    }

    // What follows the bracket of a list.
    #[cycle(expressions)]
    #[tactic(auto, unfolding(core_grammar::specs::inside::DecoderForms::list_at, core_grammar::specs::inside::Decoder::brackets_at))]
    fn list(&mut self, own: &Atom, levels: u16) -> Result<Expr, ReadFault>
        ensures { MovesUnlessMemory tree_of result (state_in self.new) (list_at own.now levels (expression_at own.now levels) (state_in self.old)) }
    {
        if self.parser.skip_mark(Mark::RightBracket) {
            return Ok(Expr::List(Exprs(Vec::new(self.parser.alloc))));
        }
        let items = self.expression_items(own, levels)?;
        if self.parser.skip_mark(Mark::Bar) {
            let tail = self.expression(own, levels)?;
            self.parser.mark(Mark::RightBracket)?;
            return Ok(onto(self.parser.alloc, items, tail)?);
        }
        self.parser.mark(Mark::RightBracket)?;
        Ok(Expr::List(Exprs(items)))
    }

    // What follows the angle of a list of values.
    #[cycle(expressions)]
    #[tactic(auto, unfolding(core_grammar::specs::inside::DecoderForms::values_at))]
    fn values(&mut self, own: &Atom, levels: u16) -> Result<Expr, ReadFault>
        ensures { MovesUnlessMemory tree_of result (state_in self.new) (values_at own.now levels (expression_at own.now levels) (state_in self.old)) }
    {
        let values = self.expressions(own, levels, Mark::Greater)?;
        Ok(Expr::Values(Exprs(values)))
    }

    /// An arrow, and the expression after it.
    #[cycle(expressions)]
    #[tactic(auto, unfolding(core_grammar::specs::inside::DecoderForms::body_at))]
    pub(crate) fn body(&mut self, own: &Atom, levels: u16) -> Result<Expr, ReadFault>
        ensures { MovesUnlessMemory tree_of result (state_in self.new) (body_at own.now levels (expression_at own.now levels) (state_in self.old)) }
    {
        self.parser.mark(Mark::Arrow)?;
        Ok(self.expression(own, levels)?)
    }

    // The body of a `let`, and the `in` before it.
    #[cycle(expressions)]
    #[tactic(auto, unfolding(core_grammar::specs::inside::DecoderForms::in_at))]
    fn behind_in(&mut self, own: &Atom, levels: u16) -> Result<Expr, ReadFault>
        ensures { MovesUnlessMemory tree_of result (state_in self.new) (in_at own.now levels (expression_at own.now levels) (state_in self.old)) }
    {
        self.parser.word(Keyword::In)?;
        Ok(self.expression(own, levels)?)
    }

    // The value of a `let` and its body.
    #[cycle(expressions)]
    #[tactic(auto, unfolding(core_grammar::specs::inside::DecoderForms::bound_at))]
    fn bound(&mut self, own: &Atom, levels: u16) -> Result<(Expr, Expr), ReadFault>
        ensures { MovesUnlessMemory (λ p. (tree_of p.0, tree_of p.1)) result (state_in self.new) (bound_at own.now levels (expression_at own.now levels) (state_in self.old)) }
    {
        self.parser.mark(Mark::Equals)?;
        let value = self.expression(own, levels)?;
        let body = self.behind_in(own, levels)?;
        Ok((value, body))
    }

    // What follows a `let`.
    #[cycle(expressions)]
    fn let_in(&mut self, own: &Atom, levels: u16) -> Result<Expr, ReadFault>
        ensures { MovesUnlessMemory tree_of result (state_in self.new) (let_at own.now levels (expression_at own.now levels) (state_in self.old)) }
    {
        let variables = self.parser.variables(levels)?;
        let (value, body) = self.bound(own, levels)?;
        Ok(let_of(self.parser.alloc, variables, value, body)?)
    }

    // What follows a `do`.
    #[cycle(expressions)]
    #[tactic(auto, unfolding(core_grammar::specs::inside::DecoderForms::do_at))]
    fn do_then(&mut self, own: &Atom, levels: u16) -> Result<Expr, ReadFault>
        ensures { MovesUnlessMemory tree_of result (state_in self.new) (do_at own.now levels (expression_at own.now levels) (state_in self.old)) }
    {
        let first = self.expression(own, levels)?;
        let second = self.expression(own, levels)?;
        Ok(do_both(self.parser.alloc, first, second)?)
    }

    // What a `try` does with its value.
    #[cycle(expressions)]
    #[tactic(auto, unfolding(core_grammar::specs::inside::DecoderForms::success_at))]
    fn success(&mut self, own: &Atom, levels: u16) -> Result<Branch, ReadFault>
        ensures { MovesUnlessMemory branch_of result (state_in self.new) (success_at own.now levels (expression_at own.now levels) (state_in self.old)) }
    {
        self.parser.word(Keyword::Of)?;
        let variables = self.parser.variables(levels)?;
        let body = self.body(own, levels)?;
        Ok(Branch { variables, body })
    }

    // What a `try` does with an exception.
    #[cycle(expressions)]
    #[tactic(auto, unfolding(core_grammar::specs::inside::DecoderForms::handler_at))]
    fn handler(&mut self, own: &Atom, levels: u16) -> Result<Branch, ReadFault>
        ensures { MovesUnlessMemory branch_of result (state_in self.new) (handler_at own.now levels (expression_at own.now levels) (state_in self.old)) }
    {
        self.parser.word(Keyword::Catch)?;
        let variables = self.parser.caught(levels)?;
        let body = self.body(own, levels)?;
        Ok(Branch { variables, body })
    }

    // What a `try` does with its value, and with an exception.
    #[cycle(expressions)]
    #[tactic(auto, unfolding(core_grammar::specs::inside::DecoderForms::branches_at))]
    fn branches(&mut self, own: &Atom, levels: u16) -> Result<(Branch, Branch), ReadFault>
        ensures { MovesUnlessMemory (λ p. (branch_of p.0, branch_of p.1)) result (state_in self.new) (branches_at own.now levels (expression_at own.now levels) (state_in self.old)) }
    {
        let success = self.success(own, levels)?;
        let handler = self.handler(own, levels)?;
        Ok((success, handler))
    }

    // What follows the `try` at `at`.
    #[cycle(expressions)]
    fn try_in(&mut self, own: &Atom, levels: u16, at: usize) -> Result<Expr, ReadFault>
        ensures { MovesUnlessMemory tree_of result (state_in self.new) (try_at own.now levels (expression_at own.now levels) at (state_in self.old)) }
    {
        let value = self.expression(own, levels)?;
        let (success, handler) = self.branches(own, levels)?;
        Ok(try_of(self.parser.alloc, at, value, success, handler)?)
    }

    // What follows the `catch` at `at`.
    #[cycle(expressions)]
    #[tactic(auto, unfolding(core_grammar::specs::inside::DecoderForms::catch_at))]
    fn catch(&mut self, own: &Atom, levels: u16, at: usize) -> Result<Expr, ReadFault>
        ensures { MovesUnlessMemory tree_of result (state_in self.new) (catch_at own.now levels (expression_at own.now levels) at (state_in self.old)) }
    {
        let value = self.expression(own, levels)?;
        Ok(catch_of(self.parser.alloc, at, value)?)
    }

    /// Any number of expressions, and the closing mark.
    #[cycle(expressions)]
    #[tactic(auto, unfolding(core_grammar::specs::inside::Decoder::closed_at))]
    pub(crate) fn expressions(
        &mut self,
        own: &Atom,
        levels: u16,
        close: Mark,
    ) -> Result<Vec<Expr>, ReadFault>
        ensures { MovesUnlessMemory (λ v. map tree_of v.items) result (state_in self.new) (closed_at (expression_at own.now levels) close (state_in self.old)) }
    {
        if self.parser.skip_mark(close) {
            return Ok(Vec::new(self.parser.alloc));
        }
        let items = self.expression_items(own, levels)?;
        self.parser.mark(close)?;
        Ok(items)
    }

    // Expressions with commas between them.
    #[cycle(expressions)]
    fn expression_items(&mut self, own: &Atom, levels: u16) -> Result<Vec<Expr>, ReadFault>
        ensures { MovesUnlessMemory (λ v. map tree_of v.items) result (state_in self.new) (items_at (expression_at own.now levels) (state_in self.old)) }
    {
        let mut items = Vec::new(self.parser.alloc);
        let count = self.parser.tokens.len();
        'items: for _taken in 0..count {
            items.push(self.expression(own, levels)?)?;
            if !self.parser.skip_mark(Mark::Comma) {
                return Ok(items);
            }
        }
        Err(self.parser.fault())
    }
}
