// What a table that was lent leaves, in the words of the explored world.
ghost use Rattle.ets_tables.specs.TableLaws.{AreWritten};

/// Where only the rows of a lent table were written, the tables are what contents say that differ from those before in
/// these rows alone.
pub fn written_rows_follow_cells()
    ensures { AreWritten }
{}
