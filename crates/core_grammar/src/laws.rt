// Laws of the grammar and of decoding by it. Each function here does nothing: its contract is the law.
ghost use Rattle.std.specs.Prelude.{◌≡◌, ℕ, List, Ok, Err};
ghost use Rattle.core_tokens.specs.declared.fault.ReadFault.{ReadFault};
ghost use Rattle.core_tokens.specs.Piece.{Piece};
ghost use Rattle.core_tree.specs.Servable.{IsServableModule};
ghost use Rattle.core_tree.specs.Syntax.{ModuleTree};
ghost use Rattle.core_scopes.specs.ScopeFaults.{IsFaultOfModule};
ghost use Rattle.core_grammar.specs.Grammar.{Spells};
ghost use Rattle.core_grammar.specs.Places.{IsFaultOf};
ghost use Rattle.core_grammar.specs.inside.DecoderModules.{module_at};
ghost use Rattle.core_grammar.specs.Whole.{start};

/// What is decoded is spelt by the tokens.
#[tactic(auto, using(crate::proofs::WholeLaws::decoded_spelt))]
pub fn decoded_is_spelt()
    ensures { (stop : ℕ) (ps : List Piece) (x : ModuleTree × ℕ) → module_at (start stop ps) ≡ Ok x → Spells ps x.0 }
{}

/// What is spelt by the tokens is decoded from them.
#[tactic(auto, using(crate::proofs::WholeLaws::spelt_decoded))]
pub fn spelt_is_decoded()
    ensures { (stop : ℕ) (ps : List Piece) (m : ModuleTree) → Spells ps m → (at : ℕ) × (module_at (start stop ps) ≡ Ok (m, at)) }
{}

/// The tokens spell at most one module.
#[tactic(auto, using(crate::proofs::WholeLaws::spelt_once))]
pub fn tokens_spell_one_module()
    ensures { (ps : List Piece) (a b : ModuleTree) → Spells ps a → Spells ps b → a ≡ b }
{}

/// In a module that tokens spell each call of the world has as many arguments as it takes.
#[tactic(auto, using(crate::proofs::ServableTrees::module_servable))]
pub fn spelt_calls_are_read()
    ensures { (ps : List Piece) (m : ModuleTree) → Spells ps m → IsServableModule m }
{}

/// A fault of decoding is one that the tokens can have.
#[tactic(auto, using(crate::proofs::FaultLaws::decoding_stands))]
pub fn fault_of_decoding_stands()
    ensures { (stop : ℕ) (ps : List Piece) (f : ReadFault) → module_at (start stop ps) ≡ Err f → IsFaultOf ps stop f }
{}

/// A fault of the scopes of what is decoded is one that the tokens can have.
pub fn fault_of_scopes_stands()
    ensures { (stop : ℕ) (ps : List Piece) (x : ModuleTree × ℕ) (f : ReadFault) → module_at (start stop ps) ≡ Ok x → IsFaultOfModule x.0 x.1 f → IsFaultOf ps stop f }
{}
