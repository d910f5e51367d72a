// Small modules, and what happens by their schedules.
ghost use Rattle.world_model.specs.BondExamples.{RunawayIsTold, UnlinkedIsDropped, UnlinkedIsNotTold, FormerHolderFreesNoName, FormerOwnerDestroysNoTable, LateLinkIsTold, LateWatchIsTold, UnwatchedIsNotTold, UnwatchedIsDropped, FlushTakesTheMessage, MessageStays, SendsToItself, EndsByItsExit, TrapsItsExit, ReferenceIsMade, LaterHeirInherits};
ghost use Rattle.world_model.specs.GuardExamples.{AnswerIsLetIn, LateAnswerIsDropped, ExplicitAliasStays, UnaliasedIsDropped, SecondReplyIsDropped, BothAreLetIn, ReplyEndsTheWatch, NoAliasTakesNothing, OwnAliasTakesIt, OwnAliasMayEndBefore, OwnWatchHasNoAlias, TimerComes, CancelledIsDropped, CancelTellsTheTime, LateCancelIsFalse, ReadTellsTheTime};
ghost use Rattle.world_model.specs.NameExamples.{NameIsTold, NodeIsTold, FormerNameIsTold, AnotherNodeIsRefused, NobodyIsTold, UnwatchedNobodyIsDropped, OwnNameIsNotTold, NameOutlivesAlias, NobodyEndsAlias, NobodyLeavesAlias, NodeIsSent, AnotherNodeIsNotSent, NobodyIsSent, OwnNameIsAsked, NoNameIsAsked, UnknownItemIsRefused, CountWaits, MessageIsCounted, TakenIsNotCounted, OfTheDeadNothingIsTold, NamesAreListed, NameIsNotListed};
ghost use Rattle.world_model.specs.ShownExamples.{RefusalIsShown, RefusalIsListed, RefusalIsNoError, RefusalIsErrorIfStrict, EndIsError, NormalEndShowsNothing, UnreadIsShown, UnreadIsNoError, UnreadIsErrorIfIdle, UnreadIsNoRefusal, TakenIsNotUnread, IdleHasNone, FirstWaitsToo};
ghost use Rattle.world_model.specs.ReceiveExamples.{SecondIsHeard, WaitsForIts, TakesItsFirst, TakesTheOther, TakesTheOlder, ComesToTimeout, ComesToMessage};
ghost use Rattle.world_model.specs.TableExamples.{WritesItsTable, HasNoNinth, StrangerIsRefused, StrangerFindsNone, StrangerEnds, OldOwnerIsRefused, HeirIsTold, HeirWrites, HeirTimesOut, NoHeirNoTable, PresentOwnerCounts, PrivateIsUnread, StrangerBeforeObject, OwnerOfShort, OwnersCall, InfoOfNone, AllItemsOfNone, ItemIsUnknown, GiftToItself};
ghost use Rattle.world_model.specs.ProcessExamples.{UndefinedEnds, KillEnds, KillIsTold, EndIsTold, NameIsServed, LateLinkFails, LateLinkEnds, ItWaits, ItIsKilled, ThenItIsGone};

/// A process makes a table, writes it, reads it and ends.
#[tactic(auto, unfolding(crate::specs::World::contents))]
pub fn owners_write_their_tables()
    ensures happens { WritesItsTable }
    ensures no_other { HasNoNinth }
{}

/// Another process may not write a protected table, and finds none once its owner has ended.
#[tactic(auto, unfolding(crate::specs::World::contents))]
pub fn strangers_are_refused()
    ensures protected { StrangerIsRefused }
    ensures gone { StrangerFindsNone }
    ensures ends { StrangerEnds }
{}

/// A process that gave a table away may no longer write it.
#[tactic(auto, unfolding(crate::specs::World::contents))]
pub fn old_owners_are_refused()
    ensures { OldOwnerIsRefused }
{}

/// A table goes to its heir, which is informed, and its rows with it; without a living heir it is gone.
#[tactic(auto, unfolding(crate::specs::World::contents))]
pub fn heirs_get_tables()
    ensures told { HeirIsTold }
    ensures rows { HeirWrites }
    ensures timeout { HeirTimesOut }
    ensures gone { NoHeirNoTable }
{}

/// The owner of a table is the process that made it, not one that once made a table of this name.
#[tactic(auto, unfolding(crate::specs::World::contents))]
pub fn present_owners_count()
    ensures { PresentOwnerCounts }
{}

/// Who may call is looked at before the other arguments.
#[tactic(auto, unfolding(crate::specs::World::contents))]
pub fn rules_come_in_order()
    ensures read { PrivateIsUnread }
    ensures stranger { StrangerBeforeObject }
    ensures owner { OwnerOfShort }
    ensures owners { OwnersCall }
    ensures none { InfoOfNone }
    ensures all { AllItemsOfNone }
    ensures item { ItemIsUnknown }
    ensures gift { GiftToItself }
{}

/// Messages come in the order of their deliveries, not of their sends.
#[tactic(auto, unfolding(crate::specs::World::contents))]
pub fn messages_are_delivered()
    ensures heard { SecondIsHeard }
    ensures named { NameIsServed }
{}

/// What is no exported function of the module ends with the error undef.
#[tactic(auto, unfolding(crate::specs::World::contents))]
pub fn strange_functions_end()
    ensures { UndefinedEnds }
{}

/// An exit signal with reason kill ends any process; that a linked process ended so is reported like any reason.
#[tactic(auto, unfolding(crate::specs::World::contents))]
pub fn kills_end()
    ensures kills { KillEnds }
    ensures told { KillIsTold }
{}

/// The end of a watched process is reported.
#[tactic(auto, unfolding(crate::specs::World::contents))]
pub fn ends_are_told()
    ensures { EndIsTold }
{}

/// A link to a process that is gone fails.
#[tactic(auto, unfolding(crate::specs::World::contents))]
pub fn late_links_fail()
    ensures fails { LateLinkFails }
    ensures ends { LateLinkEnds }
{}

/// Whether a process lives is asked after one's own signals to it.
#[tactic(auto, unfolding(crate::specs::World::contents))]
pub fn signals_come_first()
    ensures waits { ItWaits }
    ensures killed { ItIsKilled }
    ensures gone { ThenItIsGone }
{}

/// A receive takes the oldest message that it selects; without one it waits, or reaches its timeout.
#[tactic(auto, unfolding(crate::specs::World::contents))]
pub fn receives_select()
    ensures waits { WaitsForIts }
    ensures first { TakesItsFirst }
    ensures other { TakesTheOther }
    ensures older { TakesTheOlder }
    ensures timeout { ComesToTimeout }
    ensures message { ComesToMessage }
{}

/// A refused call is shown and listed, and is an error where access is strict; an end with another reason
/// than normal is an error; an end with that reason shows nothing.
#[tactic(auto, unfolding(crate::specs::World::contents))]
pub fn identities_are_shown()
    ensures refusal { RefusalIsShown }
    ensures listed { RefusalIsListed }
    ensures no_error { RefusalIsNoError }
    ensures strict { RefusalIsErrorIfStrict }
    ensures end { EndIsError }
    ensures normal { NormalEndShowsNothing }
{}

/// Messages that a process does not take are shown where no step is enabled and the first process has ended. They are
/// an error where servers have to be idle, and never a refused call. An idle process has none, and where the first
/// process waits too only the deadlock is shown.
#[tactic(auto, unfolding(crate::specs::World::contents))]
pub fn unread_messages_are_shown()
    ensures unread { UnreadIsShown }
    ensures no_error { UnreadIsNoError }
    ensures error { UnreadIsErrorIfIdle }
    ensures no_refusal { UnreadIsNoRefusal }
    ensures taken { TakenIsNotUnread }
    ensures idle { IdleHasNone }
    ensures first { FirstWaitsToo }
{}

/// The signal of a link or a watch that is gone is dropped, and a watch that ended before has none; with `flush` its
/// message goes too.
#[tactic(auto, unfolding(crate::specs::World::contents))]
pub fn bonds_end()
    ensures unlinked { UnlinkedIsDropped }
    ensures untold { UnlinkedIsNotTold }
    ensures unwatched { UnwatchedIsNotTold }
    ensures dropped { UnwatchedIsDropped }
    ensures flushed { FlushTakesTheMessage }
    ensures stays { MessageStays }
{}

/// The partners of a process that ran away are informed.
#[tactic(auto, unfolding(crate::specs::World::contents))]
pub fn runaways_are_told()
    ensures { RunawayIsTold }
{}

/// A process that had a name or a table before takes it from nobody at its end.
#[tactic(auto, unfolding(crate::specs::World::contents))]
pub fn former_owners_take_nothing()
    ensures name { FormerHolderFreesNoName }
    ensures table { FormerOwnerDestroysNoTable }
{}

/// A link to a process that is gone is reported as such, where exits are trapped, and so is a watch.
#[tactic(auto, unfolding(crate::specs::World::contents))]
pub fn late_bonds_are_told()
    ensures link { LateLinkIsTold }
    ensures watch { LateWatchIsTold }
{}

/// A process sends to itself, ends itself, traps its own exit and makes a reference.
#[tactic(auto, unfolding(crate::specs::World::contents))]
pub fn calls_to_oneself_take_effect()
    ensures sends { SendsToItself }
    ensures exits { EndsByItsExit }
    ensures traps { TrapsItsExit }
    ensures reference { ReferenceIsMade }
{}

/// An heir that is set later inherits.
#[tactic(auto, unfolding(crate::specs::World::contents))]
pub fn later_heirs_inherit()
    ensures { LaterHeirInherits }
{}

/// A message by an alias is let in while the alias stands: one that was made with a watch ends with it, unless it ends by
/// `unalias` alone, and one that a reply ends takes its watch along. What is no alias lets nothing in. An alias of one's own
/// may end before its message comes, and with a watch of oneself none begins.
#[tactic(auto, unfolding(crate::specs::World::contents))]
pub fn aliases_let_in()
    ensures answer { AnswerIsLetIn }
    ensures late { LateAnswerIsDropped }
    ensures explicit { ExplicitAliasStays }
    ensures unaliased { UnaliasedIsDropped }
    ensures second { SecondReplyIsDropped }
    ensures both { BothAreLetIn }
    ensures watch { ReplyEndsTheWatch }
    ensures none { NoAliasTakesNothing }
    ensures own { OwnAliasTakesIt }
    ensures before { OwnAliasMayEndBefore }
    ensures none_of_own { OwnWatchHasNoAlias }
{}

/// The message of a timer comes where the timer was not cancelled before, and a timer says its time until then.
#[tactic(auto, unfolding(crate::specs::World::contents))]
pub fn timers_end()
    ensures comes { TimerComes }
    ensures cancelled { CancelledIsDropped }
    ensures time { CancelTellsTheTime }
    ensures late { LateCancelIsFalse }
    ensures read { ReadTellsTheTime }
{}

/// A watch by name is one of the process that has the name then, and its message has the name with the node. Where nobody has
/// it the message comes at once, and of one's own name never. An alias that begins with it ends as others do.
#[tactic(auto, unfolding(crate::specs::World::contents))]
pub fn names_are_watched()
    ensures name { NameIsTold }
    ensures node { NodeIsTold }
    ensures former { FormerNameIsTold }
    ensures another { AnotherNodeIsRefused }
    ensures nobody { NobodyIsTold }
    ensures unwatched { UnwatchedNobodyIsDropped }
    ensures own { OwnNameIsNotTold }
    ensures outlives { NameOutlivesAlias }
    ensures ends { NobodyEndsAlias }
    ensures leaves { NobodyLeavesAlias }
{}

/// A message to a name at the own node is one to its holder, if it has one; one to another node is lost.
#[tactic(auto, unfolding(crate::specs::World::contents))]
pub fn nodes_are_sent_to()
    ensures own { NodeIsSent }
    ensures another { AnotherNodeIsNotSent }
    ensures nobody { NobodyIsSent }
{}

/// A process is told its name and how many messages it has, or another process has once its own messages have come there.
#[tactic(auto, unfolding(crate::specs::World::contents))]
pub fn processes_are_told_of()
    ensures name { OwnNameIsAsked }
    ensures none { NoNameIsAsked }
    ensures item { UnknownItemIsRefused }
    ensures waits { CountWaits }
    ensures counted { MessageIsCounted }
    ensures taken { TakenIsNotCounted }
    ensures gone { OfTheDeadNothingIsTold }
{}

/// The names that processes have are listed in their order.
pub fn names_are_listed()
    ensures all { NamesAreListed }
    ensures gone { NameIsNotListed }
{}
