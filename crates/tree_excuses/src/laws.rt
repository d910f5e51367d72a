// The laws of excuses.
ghost use Rattle.tree_excuses.specs.Laws.{AnyMatchesAll, EachMatchesItself, JudgedAreExact, JudgedAreWhole, NoExcusesChangeNothing, NothingIsLost, PlainMatchesItselfAlone, RestIsJudged};
ghost use Rattle.tree_excuses.specs.Rows.{AtomRows, ListRows, TupleRows};

/// Where the errors that are listed are exactly those that some schedule shows, of at most so many steps or of whatever
/// length, those that count are listed exactly where some schedule shows them, and so are those that are taken as
/// normal. So it is of all schedules, and of those alone that deliver signals at once.
pub fn judged_are_exact()
    ensures bounded { JudgedAreExact }
    ensures all { JudgedAreWhole }
{}

/// Each error that was found counts or is taken as normal.
pub fn nothing_is_lost()
    ensures { NothingIsLost }
{}

/// Without excuses all errors count, and none is taken as normal.
pub fn no_excuses_change_nothing()
    ensures { NoExcusesChangeNothing }
{}

/// Where servers have to be idle, and no step is enabled, an error counts exactly where the first process lives then, or
/// some process has messages in its mailbox.
pub fn idle_servers_are_judged()
    ensures { RestIsJudged }
{}

/// `'_'` matches each term; each term matches itself; and a term in which `'_'` does not stand matches itself alone.
pub fn patterns_are_matched()
    ensures any { AnyMatchesAll }
    ensures itself { EachMatchesItself }
    ensures plain { PlainMatchesItselfAlone }
{}

/// What some patterns match, and what they miss.
pub fn worked_patterns()
    ensures atoms { AtomRows }
    ensures tuples { TupleRows }
    ensures lists { ListRows }
{}
