// From the tokens of a module to its tree.
ghost use Rattle.std.specs.Prelude.{IfOk, IfErr};
ghost use Rattle.core_grammar.specs.Places.{IsFaultOf};
ghost use Rattle.core_tokens.specs.Piece.{pieces};
ghost use Rattle.core_tree.specs.Syntax.{ModuleTree};
ghost use Rattle.core_grammar.specs.Grammar.{Spells};
ghost use Rattle.core_grammar.specs.inside.DecoderModules.{module_at};
ghost use Rattle.core_scopes.specs.Drafts.{draft_of};
ghost use Rattle.core_scopes.specs.Scopes.{IsLawful};
ghost use Rattle.core_scopes.specs.Outcomes.{GivesUnlessMemory};
ghost use Rattle.core_grammar.specs.Whole.{start, IsReadAs};

use crate::grammar::ModuleReader;
use core_expressions::FormReader;
use core_grammar::laws;
use core_parser::Parser;
use core_scopes::{Draft, closed_module};
use core_tokens::{ReadFault, Token};
use core_tree::Module;
use std::alloc::Global;

// What the tokens spell, before its names are looked at.
fn drafted(alloc: Global, tokens: &[Token], length: usize) -> Result<Draft, ReadFault>
    ensures { GivesUnlessMemory draft_of result (module_at (start length (pieces tokens.now))) }
{
    let parser = Parser {
        alloc,
        tokens,
        refused: None,
        length,
    };
    let mut reader = ModuleReader {
        forms: FormReader { parser },
    };
    reader.module()
}

/// The module that the tokens, all of them, spell; `length` is the length of their text in bytes. The
/// tokens are only read, and stay the caller's.
///
/// Of the faults of the grammar the one with the least place is given: `Expected` at a token with which the grammar
/// cannot go on (or at the text's end), `HigherOrder` at a function as a value, `UnsupportedCall` at the word `call` of
/// a call that is not served, `TooDeep` at the token that opens level 1,001 of construct within construct,
/// `UnsupportedForm` at a form that is not read. Without such a fault, the first fault of scopes in the text:
/// `NoFunction` at an exported or an applied name without a definition, `DuplicateFunction` at the name of a second
/// definition, `DuplicateVariable` at a variable that has the name of one bound with it and before it, `Unbound` at a
/// variable with no binding, `UnsupportedCall` at a call of a function of this module that is not exported,
/// `EffectInGuard` at what a guard may not do. Then `NoMain` at the last `end`, where `main/0` has no definition.
/// `Memory` may come at any moment.
pub fn read_tokens(alloc: Global, tokens: &[Token], length: usize) -> Result<Module, ReadFault>
    // What is read is spelt by the tokens, closed, and has `main/0`.
    ensures spelt { IfOk result (λ m. Spells (pieces tokens.now) m) }
    ensures lawful { IfOk result (λ m. IsLawful m) }
    // What is spelt so is read, unless memory runs out.
    ensures only { (m : ModuleTree) → Spells (pieces tokens.now) m → IsLawful m → IsReadAs m result }
    // What a fault says of the tokens is true.
    ensures fault { IfErr result (λ f. IsFaultOf (pieces tokens.now) length f) }
{
    laws::decoded_is_spelt();
    laws::spelt_is_decoded();
    laws::fault_of_decoding_stands();
    laws::fault_of_scopes_stands();
    let draft = drafted(alloc, tokens, length)?;
    closed_module(alloc, draft)
}
