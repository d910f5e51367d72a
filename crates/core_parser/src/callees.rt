// What is called and applied: the two atoms of a `call`, the function of an `apply`, the name of a `primop`
// (Core Erlang 1.0.3, "Expressions").
ghost use Rattle.std.specs.Prelude.{◌≡◌, map, option_map};
ghost use Rattle.core_tokens.specs.Piece.{pieces};
ghost use Rattle.core_tokens.specs.declared.token.Mark.TheVariants.{LeftParenthesis};
ghost use Rattle.core_tree.specs.Tree.{tree_of, callee_of};
ghost use Rattle.core_grammar.specs.inside.Decoder.{MovesUnlessMemory, after_mark};
ghost use Rattle.core_grammar.specs.inside.DecoderForms.{callee_fault_of, callee_fault, bare_callee_at, callee_at, applied_fault_of, applied_fault, applied_atom_at, behind_applied_by, bare_applied_at, applied_at, export_called, unlisted_called, callee_named, operation_named, earlier, refuse, judged};
ghost use Rattle.core_parser.specs.inside.ParserView.{state_of};

use crate::beginnings::{begins_expression, is_function};
use crate::parser::{Parser, is_foreign};
use core_grammar::Unserved;
use core_tokens::{Lexeme, Mark, ReadFault, Token};
use core_tree::{Call, CallKind, Callee, Expr, Exprs, FunctionName, NamedFunction, PureCall};
use term_core::Atom;

fn callee_fault_of(at: usize, length: usize, tokens: &[Token]) -> ReadFault
    ensures { result ≡ callee_fault_of at length (pieces tokens.now) }
{
    match tokens {
        [] => ReadFault::Expected(length),
        [token, ..] => {
            if is_function(&token.lexeme, &[]) || begins_expression(&token.lexeme) {
                ReadFault::UnsupportedCall(at)
            } else if is_foreign(&token.lexeme) {
                ReadFault::UnsupportedForm(token.at)
            } else {
                ReadFault::Expected(token.at)
            }
        }
    }
}

fn applied_fault_of(length: usize, tokens: &[Token]) -> ReadFault
    ensures { result ≡ applied_fault_of length (pieces tokens.now) }
{
    match tokens {
        [] => ReadFault::Expected(length),
        [token, ..] => {
            if is_function(&token.lexeme, &[]) || begins_expression(&token.lexeme) {
                ReadFault::HigherOrder(token.at)
            } else if is_foreign(&token.lexeme) {
                ReadFault::UnsupportedForm(token.at)
            } else {
                ReadFault::Expected(token.at)
            }
        }
    }
}

// What a call in the module `own` calls where no list has it: an exported function of that module, as far as the names
// show.
fn export_called(
    own: &Atom,
    module_name: &Atom,
    function_name: Atom,
    arity: usize,
) -> Option<Callee>
    ensures { option_map callee_of result ≡ export_called own.now module_name.now function_name arity }
{
    if own != module_name {
        return None;
    }
    let arity = u8::try_from(arity).ok()?;
    Some(Callee::Exported(FunctionName {
        name: function_name,
        arity,
    }))
}

// What a call in the module `own` calls, if the world does not serve it.
fn unlisted_called(
    own: &Atom,
    module_name: &Atom,
    function_name: Atom,
    arity: usize,
    pure: Option<PureCall>,
) -> Option<Callee>
    ensures { option_map callee_of result ≡ unlisted_called own.now module_name.now function_name arity pure }
{
    match pure {
        Some(kind) => Some(Callee::Pure(kind)),
        None => export_called(own, module_name, function_name, arity),
    }
}

/// What a call in the module `own` calls, by its two names and the number of its arguments.
#[tactic(auto, unfolding(core_grammar::specs::inside::DecoderForms::callee_named))]
pub fn callee_named(
    own: &Atom,
    module_name: &Atom,
    function_name: Atom,
    arity: usize,
) -> Option<Callee>
    ensures { option_map callee_of result ≡ callee_named own.now module_name.now function_name arity }
{
    let module_text = module_name.as_str();
    match CallKind::named(module_text, function_name.as_str(), arity) {
        Some(kind) => Some(Callee::World(kind)),
        None => {
            let pure = PureCall::named(module_text, function_name.as_str(), arity);
            unlisted_called(own, module_name, function_name, arity, pure)
        }
    }
}

/// The operation of a `primop`, by its name and the number of its arguments.
#[tactic(auto, unfolding(core_grammar::specs::inside::DecoderForms::operation_named))]
pub fn operation_named(name: &Atom, arity: usize) -> Option<Callee>
    ensures { option_map callee_of result ≡ operation_named name.now arity }
{
    if name.as_str() == "match_fail" && arity == 1 {
        Some(Callee::MatchFail)
    } else if name.as_str() == "raise" && arity == 2 {
        Some(Callee::Raise)
    } else {
        None
    }
}

// Of two things that are not served the one at the lesser place.
fn earlier(unserved: Unserved, before: Option<Unserved>) -> Unserved
    ensures { result ≡ earlier unserved before }
{
    match before {
        None => unserved,
        Some(before) => {
            if unserved.place() < before.place() {
                unserved
            } else {
                before
            }
        }
    }
}

impl<'a> Parser<'a> {
    // The fault where an atom of the call at `at` should be.
    #[tactic(auto, unfolding(core_grammar::specs::inside::DecoderForms::callee_fault))]
    fn callee_fault(&self, at: usize) -> ReadFault
        ensures { result ≡ callee_fault at (state_of self.now) }
    {
        self.refusal(callee_fault_of(at, self.length, self.tokens))
    }

    // One of the two atoms of the call at `at`, without annotations.
    #[tactic(auto, unfolding(core_grammar::specs::inside::DecoderForms::bare_callee_at))]
    fn bare_callee(&mut self, at: usize) -> Result<Atom, ReadFault>
        ensures { MovesUnlessMemory (λ a. a) result (state_of self.new) (bare_callee_at at (state_of self.old)) }
    {
        let tokens = self.tokens;
        match tokens {
            [
                Token {
                    lexeme: Lexeme::Atom(atom),
                    ..
                },
                rest @ ..,
            ] => {
                self.tokens = rest;
                Ok(atom.copy()?)
            }
            _ => Err(self.callee_fault(at)),
        }
    }

    /// One of the two atoms of the call at `at`, annotated in at most so many levels.
    pub fn callee(&mut self, at: usize, levels: u16) -> Result<Atom, ReadFault>
        ensures { MovesUnlessMemory (λ a. a) result (state_of self.new) (callee_at at levels (state_of self.old)) }
    {
        if !self.opens_note(levels)? {
            return Ok(self.bare_callee(at)?);
        }
        let name = self.callee(at, levels - 1)?;
        self.note(levels - 1)?;
        Ok(name)
    }

    // The fault where the name of the function of an `apply` should be.
    #[tactic(auto, unfolding(core_grammar::specs::inside::DecoderForms::applied_fault))]
    fn applied_fault(&self) -> ReadFault
        ensures { result ≡ applied_fault (state_of self.now) }
    {
        self.refusal(applied_fault_of(self.length, self.tokens))
    }

    // The atom of the function of an `apply`, with its place.
    #[tactic(auto, unfolding(core_grammar::specs::inside::DecoderForms::applied_atom_at))]
    fn applied_atom(&mut self) -> Result<(usize, Atom), ReadFault>
        ensures { MovesUnlessMemory (λ a. a) result (state_of self.new) (applied_atom_at (state_of self.old)) }
    {
        let tokens = self.tokens;
        match tokens {
            [
                Token {
                    at,
                    lexeme: Lexeme::Atom(atom),
                },
                rest @ ..,
            ] => {
                self.tokens = rest;
                Ok((*at, atom.copy()?))
            }
            _ => Err(self.applied_fault()),
        }
    }

    // What follows the atom of an `apply`: with arguments there the atom is a value that is applied.
    fn behind_applied(&mut self, at: usize, name: Atom) -> Result<NamedFunction, ReadFault>
        ensures { MovesUnlessMemory (λ e. e) result (state_of self.new) (behind_applied_by at name (after_mark LeftParenthesis (state_of self.old).pieces) (state_of self.old)) }
    {
        if self.is_at_mark(Mark::LeftParenthesis) {
            return Err(self.refusal(ReadFault::HigherOrder(at)));
        }
        Ok(self.behind_atom(at, name)?)
    }

    // The name of the function of an `apply`, without annotations.
    #[tactic(auto, unfolding(core_grammar::specs::inside::DecoderForms::bare_applied_at))]
    fn bare_applied(&mut self) -> Result<NamedFunction, ReadFault>
        ensures { MovesUnlessMemory (λ e. e) result (state_of self.new) (bare_applied_at (state_of self.old)) }
    {
        let (at, name) = self.applied_atom()?;
        Ok(self.behind_applied(at, name)?)
    }

    /// The name of the function of an `apply`, annotated in at most so many levels.
    pub fn applied(&mut self, levels: u16) -> Result<NamedFunction, ReadFault>
        ensures { MovesUnlessMemory (λ e. e) result (state_of self.new) (applied_at levels (state_of self.old)) }
    {
        if !self.opens_note(levels)? {
            return Ok(self.bare_applied()?);
        }
        let named = self.applied(levels - 1)?;
        self.note(levels - 1)?;
        Ok(named)
    }

    // Remembers what was read whole and is not served: reading goes on, since it may be inside something whose place
    // is less.
    fn refuse(&mut self, unserved: Unserved)
        ensures { state_of self.new ≡ refuse unserved (state_of self.old) }
    {
        self.refused = Some(earlier(unserved, self.refused));
    }

    /// The call at `at` of this callee, or, if nothing serves it, a placeholder: the fault is recorded, and
    /// parsing continues.
    pub fn judged(
        &mut self,
        at: usize,
        unserved: Unserved,
        callee: Option<Callee>,
        arguments: Vec<Expr>,
    ) -> Expr
        ensures { judged at unserved (option_map callee_of callee) (map tree_of arguments.items) (state_of self.old)
            ≡ Ok (tree_of result, state_of self.new) }
    {
        match callee {
            Some(callee) => Expr::Call(Call {
                at,
                callee,
                arguments: Exprs(arguments),
            }),
            None => {
                self.refuse(unserved);
                Expr::List(Exprs(Vec::new(self.alloc)))
            }
        }
    }
}
