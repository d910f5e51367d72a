// Functions: each is defined once, each exported name has a definition, and so has `main/0`.
ghost use Rattle.std.specs.Prelude.{◌≡◌, ◌≢◌, ◌++◌, [], ◌∷◌, map, take, true, false, None, IfOk, IfErr, OnOk};
ghost use Rattle.core_tokens.specs.declared.fault.ReadFault.TheVariants.{Memory};
ghost use Rattle.core_tree.specs.Syntax.{Function};
ghost use Rattle.core_tree.specs.Definitions.{definition_of, keys_in};
ghost use Rattle.core_scopes.specs.Scopes.{Setting as Place, functions, exported_by, main_function, IsLawful};
ghost use Rattle.core_scopes.specs.ScopeFaults.{IsFaultOfModule};
ghost use Rattle.core_scopes.specs.ScopeChecks.{is_defined, check_definition, check_definitions, check_exports, check_module};
ghost use Rattle.core_scopes.specs.inside.Environment.{shown, setting_in, check_bodies, check_kept, first_duplicate, check_functions};
ghost use Rattle.core_scopes.specs.Drafts.{defined_of, draft_of};
ghost use Rattle.core_scopes.specs.Outcomes.{GivesUnlessMemory};

use crate::draft::{Defined, Draft, Front};
use crate::scopes::{Scope, Setting, check_expr, distinct, is_defined};
use core_tokens::ReadFault;
use core_tree::{Definition, FunctionName, Module, NamedFunction};
use indexmap::{IndexMap, IndexSet};
use std::alloc::Global;
use term_core::Atom;

/// The first duplicate definition: how many definitions come before it, and the place of its name.
#[derive(Clone, Copy)]
pub(crate) struct Duplicate {
    pub before: usize,
    pub at: usize,
}

/// The definitions by name, of each name the first.
#[derive(Drop)]
struct Gathered {
    definitions: IndexMap<FunctionName, Definition>,
    second: Option<Duplicate>,
}

// The first duplicate definition, where `second` is that of the definitions before.
fn first_duplicate(
    definitions: &IndexMap<FunctionName, Definition>,
    second: Option<Duplicate>,
    defined: &Defined,
) -> Option<Duplicate>
    ensures { result ≡ first_duplicate definitions.now.entries second (defined_of defined.now) }
{
    if second.is_some() {
        return second;
    }
    if is_defined(definitions, &defined.function) {
        return Some(Duplicate {
            before: definitions.len(),
            at: defined.definition.at,
        });
    }
    None
}

// Puts a definition last, unless its name has one.
fn keep(
    definitions: &mut IndexMap<FunctionName, Definition>,
    defined: Defined,
) -> Result<(), ReadFault>
    ensures new { OnOk result (is_defined (keys_in definitions.old.entries) defined.function ≡ false
        → definitions.new.entries ≡ definitions.old.entries ++ (defined.function, defined.definition) ∷ []) }
    ensures old { OnOk result (is_defined (keys_in definitions.old.entries) defined.function ≡ true → definitions.new.entries ≡ definitions.old.entries) }
    ensures err { IfErr result (λ e. e ≡ Memory) }
{
    let Defined {
        function,
        definition,
    } = defined;
    if !is_defined(definitions, &function) {
        definitions.insert(function, definition)?;
    }
    Ok(())
}

// The definitions by name. All of them are known before a body is looked at, since it may apply any.
#[tactic(auto, unfolding(crate::specs::inside::Environment::check_bodies))]
fn gather(alloc: Global, all: Vec<Defined>) -> Result<Gathered, ReadFault>
    ensures checked { IfOk result (λ g. (x : Place) → check_kept x g.second g.definitions.entries ≡ check_definitions x [] (map defined_of all.items)) }
    ensures names { IfOk result (λ g. (f : Function) → is_defined (keys_in g.definitions.entries) f ≡ is_defined (functions (map defined_of all.items)) f) }
    ensures kept { IfOk result (λ g. g.second ≡ None → map definition_of g.definitions.entries ≡ map defined_of all.items) }
    ensures err { IfErr result (λ e. e ≡ Memory) }
{
    let mut definitions = IndexMap::new(alloc);
    let mut second = None;
    'definitions: for defined in all {
        second = first_duplicate(&definitions, second, &defined);
        keep(&mut definitions, defined)?;
    }
    Ok(Gathered {
        definitions,
        second,
    })
}

// The names of the exported functions.
fn exported_names<'a>(
    alloc: Global,
    exports: &'a [NamedFunction],
) -> Result<IndexSet<&'a FunctionName>, ReadFault>
    ensures names { IfOk result (λ s. (f : Function) → is_defined (shown s.keys) f ≡ is_defined (exported_by exports.now) f) }
    ensures err { IfErr result (λ e. e ≡ Memory) }
{
    let mut names = IndexSet::new(alloc);
    'exports: for export in exports {
        names.insert(&export.function)?;
    }
    Ok(names)
}

// Each name has a definition. The fault is `NoFunction` at the first that has none.
fn check_exports(
    exports: &[NamedFunction],
    definitions: &IndexMap<FunctionName, Definition>,
) -> Result<(), ReadFault>
    ensures { result ≡ check_exports (keys_in definitions.now.entries) exports.now }
{
    for export in exports {
        if !is_defined(definitions, &export.function) {
            return Err(ReadFault::NoFunction(export.at));
        }
    }
    Ok(())
}

// The parameters differ from each other, and the body sees them.
#[tactic(auto, unfolding(crate::specs::ScopeChecks::check_definition))]
fn check_definition(
    setting: &Setting,
    function: &FunctionName,
    definition: &Definition,
) -> Result<(), ReadFault>
    ensures { GivesUnlessMemory (λ u. u) result (check_definition (setting_in setting.now) (definition_of (function.now, definition.now))) }
{
    let names = distinct(setting.alloc, &definition.parameters)?;
    check_expr(
        setting,
        &Scope::Within(&names, &Scope::Top),
        &definition.body,
    )
}

// So many of the definitions, one after the other.
fn check_bodies(setting: &Setting, count: usize) -> Result<(), ReadFault>
    ensures { GivesUnlessMemory (λ u. u) result (check_bodies (setting_in setting.now) (take count (map definition_of setting.now.definitions.now.entries))) }
{
    'bodies: for i in 0..count {
        let Some((function, definition)) = setting.definitions.get_index(i) else {
            return Ok(());
        };
        check_definition(setting, function, definition)?;
    }
    Ok(())
}

// The definitions up to the first duplicate. Faults are those of the bodies, and `DuplicateFunction` at the
// name of the duplicate.
fn check_kept(setting: &Setting, second: Option<Duplicate>) -> Result<(), ReadFault>
    ensures { GivesUnlessMemory (λ u. u) result (check_kept (setting_in setting.now) second setting.now.definitions.now.entries) }
{
    match second {
        None => check_bodies(setting, setting.definitions.len()),
        Some(second) => {
            check_bodies(setting, second.before)?;
            Err(ReadFault::DuplicateFunction(second.at))
        }
    }
}

// The exported names, and then the definitions.
fn check_functions(
    alloc: Global,
    exports: &[NamedFunction],
    gathered: &Gathered,
) -> Result<(), ReadFault>
    ensures { GivesUnlessMemory (λ u. u) result (check_functions exports.now gathered.now.second gathered.now.definitions.entries) }
{
    check_exports(exports, &gathered.definitions)?;
    let exported = exported_names(alloc, exports)?;
    let setting = Setting {
        alloc,
        definitions: &gathered.definitions,
        exported: &exported,
        in_guard: false,
    };
    check_kept(&setting, gathered.second)
}

// Whether `main/0` has a definition.
fn has_main(
    alloc: Global,
    definitions: &IndexMap<FunctionName, Definition>,
) -> Result<bool, ReadFault>
    ensures found { IfOk result (λ b. b ≡ is_defined (keys_in definitions.now.entries) main_function) }
    ensures err { IfErr result (λ e. e ≡ Memory) }
{
    let main = FunctionName {
        name: Atom::new(alloc, "main")?,
        arity: 0,
    };
    Ok(is_defined(definitions, &main))
}

// The module, if it is closed: the exported names first, then the definitions, then `main/0`.
fn checked_module(alloc: Global, draft: Draft) -> Result<Module, ReadFault>
    ensures { GivesUnlessMemory (λ m. m) result (check_module (draft_of draft)) }
{
    let Draft {
        front,
        definitions,
        end,
    } = draft;
    let Front {
        name,
        exports,
        attributes,
    } = front;
    let gathered = gather(alloc, definitions)?;
    check_functions(alloc, &exports, &gathered)?;
    if !has_main(alloc, &gathered.definitions)? {
        return Err(ReadFault::NoMain(end));
    }
    Ok(Module {
        name,
        exports,
        attributes,
        definitions: gathered.definitions,
    })
}

/// The module of a draft, if it is closed: each variable has a binding, each function that is exported, applied or
/// called a definition or an export, none is bound or defined twice in one place, no guard has an effect (Core Erlang
/// 1.0.3, "Lexical scoping" and "Static constraints"), and `main/0` has a definition. It takes the draft over; the
/// module's table of definitions and the lists of names take their memory from `alloc`. It goes into the parts of an
/// expression by recursion, and looks for a variable through the scopes around it; except for these the time is linear
/// in the size of the draft.
///
/// # Errors
///
/// `NoFunction` at an exported name without a definition. Then, of these the first in the text:
/// `DuplicateFunction` at the name of a second definition, `DuplicateVariable` at a variable that has the name of
/// one bound with it and before it, `Unbound` at a variable with no binding, `NoFunction` at an applied name
/// without a definition, `UnsupportedCall` at a call of a function of this module that is not exported,
/// `EffectInGuard` at what a guard may not do. Then `NoMain` at the last `end`. `Memory` where a growth was
/// refused, at any moment.
pub fn closed_module(alloc: Global, draft: Draft) -> Result<Module, ReadFault>
    // The outcome is the module or its first fault, unless memory runs out.
    ensures checked { GivesUnlessMemory (λ m. m) result (check_module (draft_of draft)) }
    // What is handed out is the module of the draft, and it is closed.
    ensures lawful { IfOk result (λ m. IsLawful m × (m ≡ (draft_of draft).0)) }
    // A closed module is handed out, unless memory runs out.
    ensures only { IsLawful (draft_of draft).0 → IfErr result (λ f. f ≡ Memory) }
    // Each fault except that for memory says what is true of the module.
    ensures fault { IfErr result (λ f. f ≢ Memory → IsFaultOfModule (draft_of draft).0 draft.end f) }
{
    checked_module(alloc, draft)
}
