// The laws of findings.
ghost use Rattle.tree_findings.specs.Laws.{NoneShowsNothing, OneMoreIsAdded, ListsAreMerged, OrderDoesNotMatter, GroupingDoesNotMatter};
ghost use Rattle.tree_findings.specs.MergeExamples.{ShorterIsKept, ShorterStays, BothAreKept, RefusalsAreMerged, ErrorsAreStrict, DeadlockIsAllowed, UnreadComesLast, UnreadIsLeftOut};

/// What schedules show depends neither on their order nor on how they are split: without schedules nothing is found,
/// one schedule more adds what it shows, the findings of two lists of schedules are merged, in whatever order the
/// schedules come and however the merges are grouped.
pub fn findings_are_added_up()
    ensures none { NoneShowsNothing }
    ensures one { OneMoreIsAdded }
    ensures lists { ListsAreMerged }
    ensures order { OrderDoesNotMatter }
    ensures grouping { GroupingDoesNotMatter }
{}

/// A few findings result in what was worked out by hand: the shorter schedule is kept, refusals by two rules are two,
/// and what is an error depends on the flags.
pub fn findings_are_put_together()
    ensures shorter { ShorterIsKept }
    ensures stays { ShorterStays }
    ensures both { BothAreKept }
    ensures refusals { RefusalsAreMerged }
    ensures strict { ErrorsAreStrict }
    ensures allowed { DeadlockIsAllowed }
    ensures unread { UnreadComesLast }
    ensures left_out { UnreadIsLeftOut }
{}
