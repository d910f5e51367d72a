// The laws of calls of tables.
ghost use Rattle.world_model.specs.FindingHistory.{TablesAreFound, FoundAreThere, FoundIsTold};
ghost use Rattle.world_model.specs.OwnershipLaws.{LeavesTable, MakesTable, PassesTables, PassesRows};
ghost use Rattle.world_model.specs.RowsLeft.{WritesRows, LeavesRows, KeepsTheLast};
ghost use Rattle.world_model.specs.TableHistory.{TableIsTold, RowsAreTold};
ghost use Rattle.world_model.specs.TableLaws.{ServedWhereNone, RefusedByRule, ServedOnlyWhereNone, RefusedLeaves, RefusedFinds, AreRows, AreByKey, AreWalked};

/// A call of a table is served, with its answer, exactly where no rule fails, and else refused by the one rule, with
/// the owner at that time where the rule reports it.
pub fn calls_are_judged()
    ensures served { ServedWhereNone }
    ensures refused { RefusedByRule }
    ensures exactly { ServedOnlyWhereNone }
{}

/// A refused call leaves everything as it was but the course of its caller; every argument finds what it
/// found.
pub fn refused_calls_change_nothing()
    ensures leaves { RefusedLeaves }
    ensures finds { RefusedFinds }
{}

/// All rows of a table are those under its keys, and no others; so what each key holds settles what a walk
/// goes over, and what a store keeps in the order of keys and answers key by key is just that.
pub fn rows_are_by_key()
    ensures rows { AreRows }
    ensures settled { AreByKey }
    ensures walked { AreWalked }
{}

/// A call that no argument breaks writes just the rows of its line.
pub fn calls_write_their_rows()
    ensures { WritesRows }
{}

/// What a served call of a table leaves under each key; of a set and an ordered_set, the last object that was
/// put in.
pub fn calls_leave_rows()
    ensures rows { LeavesRows }
    ensures sets { KeepsTheLast }
{}

/// What a served call leaves of the owner, the heir and the settings of its table, and what a new one is.
pub fn calls_leave_tables()
    ensures table { LeavesTable }
    ensures made { MakesTable }
{}

/// Each table of a process that ends goes to its heir, with its rows, where that lives and is another; else
/// it is destroyed with all its rows.
pub fn ends_pass_tables()
    ensures tables { PassesTables }
    ensures rows { PassesRows }
{}

/// What each table is, and its rows, after every event, by what they were before it.
pub fn tables_are_told()
    ensures table { TableIsTold }
    ensures rows { RowsAreTold }
{}

/// What an argument finds: each table that is there is found by its name or its reference, what is found is
/// there, and after an event an argument finds the table that was made for it, or else the one that it found
/// before, unless that is gone.
pub fn finding_is_told()
    ensures all { TablesAreFound }
    ensures only { FoundAreThere }
    ensures told { FoundIsTold }
{}
