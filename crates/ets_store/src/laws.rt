// What rows are in the words of the explored world.
ghost use Rattle.ets_store.specs.CellLaws.{AreStored, AreRemoved, AreWritten, AreWiped, ArePresent};

/// What the calls of a table leave in its rows is what the changes of the world leave in the cell of these rows,
/// and a key is there in the rows where it is there in the cells.
pub fn rows_follow_cells()
    ensures stored { AreStored }
    ensures removed { AreRemoved }
    ensures written { AreWritten }
    ensures wiped { AreWiped }
    ensures present { ArePresent }
{}
