// What holds of every history that really happens.
ghost use Rattle.world_model.specs.Bonds.{HolderIsToldInRuns};
ghost use Rattle.world_model.specs.OwnerHistory.{OwnerIsTold};
ghost use Rattle.world_model.specs.RunLaws.{NamesAreNew, NamesMeanTheirs, FindsOne, OwnersLive, HoldersHaveNames, OwnersHaveTables, TargetsHaveWatches, LinksAreMutual};

/// Names do not repeat: what a process creates next, and later, has the name of nothing that there was.
pub fn names_do_not_repeat()
    ensures { NamesAreNew }
{}

/// A name that means a table is that table's own, and no two arguments find one table.
pub fn arguments_find_one_table()
    ensures names { NamesMeanTheirs }
    ensures one { FindsOne }
{}

/// Each table that is found has one owner, and that lives.
pub fn tables_have_owners()
    ensures { OwnersLive }
{}

/// A process has exactly the name that it holds, exactly the tables that it owns, and exactly the watches that
/// are of it; and of two that are linked each is linked to the other.
pub fn bonds_have_two_sides()
    ensures names { HoldersHaveNames }
    ensures tables { OwnersHaveTables }
    ensures watches { TargetsHaveWatches }
    ensures links { LinksAreMutual }
{}

/// The owner of a table is its maker, until it is given away, deleted, or its owner of that moment ends: then it
/// is the heir, where that lives and is another. A name has no holder any more when its holder ends.
pub fn owners_are_told()
    ensures owner { OwnerIsTold }
    ensures holder { HolderIsToldInRuns }
{}
