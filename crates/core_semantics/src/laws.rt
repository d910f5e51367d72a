// Laws of the definitions of evaluation. Each function here does nothing: its contract is the law.
ghost use Rattle.std.specs.Prelude.{◌≡◌, ℕ, List};
ghost use Rattle.core_tree.specs.Servable.{IsServableModule};
ghost use Rattle.core_tree.specs.Syntax.{Function, ModuleTree};
ghost use Rattle.term_core.specs.Meaning.{Meaning};
ghost use Rattle.core_semantics.specs.Applications.{applied_once, apply_of};
ghost use Rattle.core_semantics.specs.Ask.{Entry, ask};
ghost use Rattle.core_semantics.specs.Asked.{Answered};
ghost use Rattle.core_semantics.specs.Evaluation.{State};
ghost use Rattle.core_semantics.specs.Servable.{IsReadRequest};

/// An application of a function of a module gives what its body gives where the applications in the body
/// are applications like it, or runs away where as many were made as may be: how deep they are nested has
/// no bound but that (Core Erlang 1.0.3, "Function application").
#[tactic(auto, using(crate::proofs::ApplyLaw::apply_law))]
pub fn applications_nest_as_they_are()
    ensures { (m : ModuleTree) (own : List ℕ) (f : Function) (arguments : List Meaning) (s : State) →
        apply_of m own f arguments s ≡ applied_once m own (apply_of m own) f arguments s }
{}

/// Where each call of the world in a module has as many arguments as it takes, so has each call that its
/// processes ask.
#[tactic(auto, using(crate::proofs::ReadRequests::asks_what_is_read))]
pub fn only_calls_that_are_read_are_asked()
    ensures { (m : ModuleTree) (pid : List ℕ) (e : Entry) (answers : List Answered) → IsServableModule m → IsReadRequest (ask m pid e answers) }
{}
