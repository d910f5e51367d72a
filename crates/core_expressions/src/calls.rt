// Calls, applications and `primop` (Core Erlang 1.0.3, "Expressions").
ghost use Rattle.std.specs.Prelude.{◌≡◌, map, length, true, option_map};
ghost use Rattle.core_tokens.specs.Piece.{pieces};
ghost use Rattle.core_tokens.specs.declared.token.Mark.TheVariants.{LeftParenthesis};
ghost use Rattle.core_tree.specs.Tree.{tree_of, callee_of};
ghost use Rattle.core_grammar.specs.inside.Decoder.{MovesUnlessMemory, after_mark, exactly_at};
ghost use Rattle.core_grammar.specs.inside.DecoderForms.{callee_fault_of, callee_fault, bare_callee_at, callee_at, applied_fault_of, applied_fault, applied_atom_at, behind_applied_by, bare_applied_at, applied_at, export_called, unlisted_called, callee_named, operation_named, earlier, refuse, judged, apply_at, call_at, primop_at, expression_at};
ghost use Rattle.core_expressions.specs.inside.FormView.{state_in};

use crate::form_reader::FormReader;
use core_parser::{Unserved, callee_named, operation_named};
use core_tokens::{Lexeme, Mark, ReadFault, Token};
use core_tree::{Call, CallKind, Callee, Expr, Exprs, FunctionName, NamedFunction, PureCall};
use term_core::Atom;

impl<'a> FormReader<'a> {
    /// What follows the `apply` at `at`.
    #[cycle(expressions)]
    #[tactic(auto, unfolding(core_grammar::specs::inside::DecoderForms::apply_at))]
    pub(crate) fn apply(&mut self, own: &Atom, levels: u16, at: usize) -> Result<Expr, ReadFault>
        ensures { MovesUnlessMemory tree_of result (state_in self.new) (apply_at own.now levels (expression_at own.now levels) at (state_in self.old)) }
    {
        let named = self.parser.applied(levels)?;
        self.parser.mark(Mark::LeftParenthesis)?;
        let arguments = self.arguments(own, levels, named.function.arity)?;
        self.parser.mark(Mark::RightParenthesis)?;
        Ok(Expr::Call(Call {
            at,
            callee: Callee::Defined(named),
            arguments: Exprs(arguments),
        }))
    }

    // So many expressions, with commas between them.
    #[cycle(expressions)]
    fn arguments(&mut self, own: &Atom, levels: u16, arity: u8) -> Result<Vec<Expr>, ReadFault>
        ensures { MovesUnlessMemory (λ v. map tree_of v.items) result (state_in self.new) (exactly_at (expression_at own.now levels) true arity (state_in self.old)) }
    {
        let mut arguments = Vec::new(self.parser.alloc);
        'arguments: for taken in 0..arity {
            self.parser.comma(taken == 0)?;
            arguments.push(self.expression(own, levels)?)?;
        }
        Ok(arguments)
    }

    /// What follows the `call` at `at`.
    #[cycle(expressions)]
    #[tactic(auto, unfolding(core_grammar::specs::inside::DecoderForms::call_at))]
    pub(crate) fn call(&mut self, own: &Atom, levels: u16, at: usize) -> Result<Expr, ReadFault>
        ensures { MovesUnlessMemory tree_of result (state_in self.new) (call_at own.now levels (expression_at own.now levels) at (state_in self.old)) }
    {
        let module_name = self.parser.callee(at, levels)?;
        self.parser.mark(Mark::Colon)?;
        let function_name = self.parser.callee(at, levels)?;
        self.parser.mark(Mark::LeftParenthesis)?;
        let arguments = self.expressions(own, levels, Mark::RightParenthesis)?;
        let callee = callee_named(own, &module_name, function_name, arguments.len());
        Ok(
            self.parser
                .judged(at, Unserved::Call(at), callee, arguments),
        )
    }

    /// What follows the `primop` at `at`.
    #[cycle(expressions)]
    #[tactic(auto, unfolding(core_grammar::specs::inside::DecoderForms::primop_at))]
    pub(crate) fn primop(&mut self, own: &Atom, levels: u16, at: usize) -> Result<Expr, ReadFault>
        ensures { MovesUnlessMemory tree_of result (state_in self.new) (primop_at own.now levels (expression_at own.now levels) at (state_in self.old)) }
    {
        let name = self.parser.atom()?;
        self.parser.mark(Mark::LeftParenthesis)?;
        let arguments = self.expressions(own, levels, Mark::RightParenthesis)?;
        let callee = operation_named(&name, arguments.len());
        Ok(
            self.parser
                .judged(at, Unserved::Primop(at), callee, arguments),
        )
    }
}
