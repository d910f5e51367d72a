// From the bytes of a text to its module.
ghost use Rattle.std.specs.Prelude.{◌<◌, ◌≤◌, length, IfOk, IfErr, IsErrOf};
ghost use Rattle.std.specs.Str.{IsUtf8};
ghost use Rattle.std.specs.Str.Lossy.{utf8_valid_len};
ghost use Rattle.core_tree.specs.Syntax.{ModuleTree};
ghost use Rattle.core_tokens.specs.Text.{text_limit};
ghost use Rattle.core_tokens.specs.Within.{IsPlacedWithin};
ghost use Rattle.core_reader.specs.ModuleText.{SpellsModule};
ghost use Rattle.core_reader.specs.Refusal.{IsRefusalOf};
ghost use Rattle.core_grammar.specs.Whole.{IsReadAs};

use crate::module_tokens::read_tokens;
use core_tokens::{ReadFault, check_text, tokens};
use core_tree::Module;
use std::alloc::Global;

/// Reads a module of Core Erlang 1.0.3 in the profile of docs/LANGUAGE.md: at most 1,048,576 bytes of
/// UTF-8. The text stays the caller's; the module takes its memory from `alloc`. The time is linear in
/// the length of the text.
///
/// # Errors
///
/// The first fault of the first pass that has one, with its place: the length of the text, its
/// encoding, its tokens, its grammar, its scopes and names, and `main/0`, in this order. `Memory` where
/// a growth was refused, at any moment.
pub fn read_module(alloc: Global, text: &[u8]) -> Result<Module, ReadFault>
    // What is read is what the text says.
    ensures spelt { IfOk result (λ m. SpellsModule text.now m) }
    // What a text says is read, and nothing else, unless memory runs out.
    ensures only { (m : ModuleTree) → SpellsModule text.now m → IsReadAs m result }
    // Length and encoding are judged first.
    ensures long { text_limit < length text.now → IsErrOf result (ReadFault.TooLong text_limit) }
    ensures ill { length text.now ≤ text_limit → ¬ (IsUtf8 text.now) → IsErrOf result (ReadFault.NotUtf8 (utf8_valid_len text.now)) }
    // A refusal says what is true of the text.
    ensures refusal { IfErr result (IsRefusalOf text.now) }
    // Each refusal but that for memory names a place in the text, or its end.
    ensures place { IfErr result (IsPlacedWithin (length text.now)) }
{
    check_text(text)?;
    let tokens = tokens(alloc, text)?;
    read_tokens(alloc, &tokens, text.len())
}
