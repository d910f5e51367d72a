// What the options of a new table ask for together: of several of one kind the last counts (ets manual, `new/2`).
ghost use Rattle.std.specs.FinMap as finite;
ghost use Rattle.std.specs.Prelude.{◌≡◌, IfOk, None, map};
ghost use Rattle.ets_calls.specs.Options.{option_in};
ghost use Rattle.ets_store.specs.Tables as held;
ghost use Rattle.world_model.specs.Tables.{last_asked, kind_in, protection_in, position_in, heir_in, is_named, table_of};
ghost use Rattle.world_model.specs.declared.table.Kind.TheVariants.{Set};
ghost use Rattle.world_model.specs.declared.table.Protection.TheVariants.{Protected};

use crate::options::TableOption;
use ets_store::{Heir, Rows, Table};
use std::alloc::{AllocError, Global};
use term_core::{Atom, Pid};
use world_model::table::{Kind, Protection};

// The kind of the table, which is a set where no option says it.
fn kind_of(options: &[TableOption]) -> Kind
    ensures { result ≡ last_asked kind_in Set (map option_in options.now) }
{
    let mut kind = Kind::Set;
    for option in options {
        if let TableOption::OfKind(asked) = option {
            kind = *asked;
        }
    }
    kind
}

// Who but the owner may use the table: others may read it where no option says it.
fn protection_of(options: &[TableOption]) -> Protection
    ensures { result ≡ last_asked protection_in Protected (map option_in options.now) }
{
    let mut protection = Protection::Protected;
    for option in options {
        if let TableOption::Protects(asked) = option {
            protection = *asked;
        }
    }
    protection
}

// The position of the keys, which is the first where no option says it.
fn position_of(options: &[TableOption]) -> usize
    ensures { result ≡ last_asked position_in 1 (map option_in options.now) }
{
    let mut position = 1;
    for option in options {
        if let TableOption::AtPosition(asked) = option {
            position = *asked;
        }
    }
    position
}

// Who inherits the table, which is nobody where no option says it.
fn heir_of(options: &[TableOption]) -> Result<Option<Heir>, AllocError>
    ensures { IfOk result (λ heir. held.heir_in heir ≡ last_asked heir_in None (map option_in options.now)) }
{
    let mut heir: &Option<Heir> = &None;
    for option in options {
        if let TableOption::WithHeir(asked) = option {
            heir = asked;
        }
    }
    heir.clone()
}

/// Whether a table with these options is found by its name (ets manual, `new/2`, option `named_table`). It takes
/// no memory.
pub fn is_named(options: &[TableOption]) -> bool
    ensures { result ≡ is_named (map option_in options.now) }
{
    for option in options {
        if let TableOption::Named = option {
            return true;
        }
    }
    false
}

/// The table that a process makes with this name and these options, without objects, or `AllocError` if there is
/// no memory for it (ets manual, `new/2`).
pub fn table_of(
    alloc: Global,
    owner: &Pid,
    name: &Atom,
    options: &[TableOption],
) -> Result<Table, AllocError>
    ensures settings { IfOk result (λ table. held.settings_in table ≡ table_of owner.now name.now (map option_in options.now)) }
    ensures rows { IfOk result (λ table. table.rows.rows ≡ finite.empty) }
{
    Ok(Table {
        name: name.copy()?,
        is_named: is_named(options),
        owner: owner.copy()?,
        heir: heir_of(options)?,
        protection: protection_of(options),
        rows: Rows::new(alloc, kind_of(options), position_of(options))?,
    })
}
