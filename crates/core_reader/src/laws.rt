// Laws of texts as modules. Each function here does nothing: its contract is the law.
ghost use Rattle.std.specs.Prelude.{◌≡◌, ℕ, List};
ghost use Rattle.core_tree.specs.Servable.{IsServableModule};
ghost use Rattle.core_tree.specs.Syntax.{ModuleTree};
ghost use Rattle.core_reader.specs.ModuleText.{SpellsModule};
ghost use Rattle.core_reader.specs.SmallModule.{ASmallTextIsSaid};

use core_grammar::laws::{spelt_calls_are_read, tokens_spell_one_module};
use core_tokens::lexer::tokens_are_unique;

/// A text says at most one module.
pub fn texts_say_one_module()
    ensures { (text : List ℕ) (a b : ModuleTree) → SpellsModule text a → SpellsModule text b → a ≡ b }
{
    tokens_are_unique();
    tokens_spell_one_module();
}

/// In a module that a text says each call of the world has as many arguments as it takes.
pub fn said_calls_are_read()
    ensures { (text : List ℕ) (m : ModuleTree) → SpellsModule text m → IsServableModule m }
{
    spelt_calls_are_read();
}

/// A worked row: the text of a small module says it.
#[tactic(auto, using(crate::proofs::SmallTexts::small_text_said))]
pub fn a_small_text_is_said()
    ensures { ASmallTextIsSaid }
{}
