// Pairs of steps of small modules: those that depend on each other, and those that do not.
ghost use Rattle.world_model.specs.OrderExamples.{FirstDependsOnInsert, SizeDependsOnInsert, LookupComesAfterList, InsertNewComesAfterInsert, LookupComesAfterClear, TwoKeysAreFree, OtherKeyIsFree, InfoComesAfterDelete, EndReadsItsHeir, EndReadsItsDeadHeir, GiftReadsItsTarget, AliveComesAfterEnd, SendDependsOnEnd, ExitComesAfterFlag, LinkReadsFlag, DroppedReadsNoFlag, DeliveriesDepend, FirstLiesFirst, SecondLiesFirst, SendsAreFree, ReceiveIsFree, ReceiveComesAfterDelivery, ReceiveTakesWhatComes, ReceiveOfNeitherDepends, FlushIsFree, FlushTakesItsMessage, FlushDependsOnDelivery, RegisterComesAfterUnregister};

/// A walk over the keys of a table, and the number of its objects, depend on every insert.
#[tactic(auto, unfolding(crate::specs::World::contents))]
pub fn walks_read_each_row()
    ensures first { FirstDependsOnInsert }
    ensures size { SizeDependsOnInsert }
{}

/// A call of a list of objects depends on each of their keys.
#[tactic(auto, unfolding(crate::specs::World::contents))]
pub fn lists_name_each_key()
    ensures written { LookupComesAfterList }
    ensures looked_at { InsertNewComesAfterInsert }
{}

/// A lookup of one key depends on a call that clears the table.
#[tactic(auto, unfolding(crate::specs::World::contents))]
pub fn each_row_is_one_of_all()
    ensures { LookupComesAfterClear }
{}

/// What goes by two keys of one table is independent.
#[tactic(auto, unfolding(crate::specs::World::contents))]
pub fn two_keys_are_independent()
    ensures written { TwoKeysAreFree }
    ensures looked_up { OtherKeyIsFree }
{}

/// A call by reference depends on whether the table is there.
#[tactic(auto, unfolding(crate::specs::World::contents))]
pub fn references_read_their_tables()
    ensures { InfoComesAfterDelete }
{}

/// The end of a process reads whether its heirs live, and a gift whether its target does.
#[tactic(auto, unfolding(crate::specs::World::contents))]
pub fn tables_pass_to_the_living()
    ensures heir { EndReadsItsHeir }
    ensures dead_heir { EndReadsItsDeadHeir }
    ensures target { GiftReadsItsTarget }
{}

/// Whether a process lives, and what is sent to it, depends on its end.
#[tactic(auto, unfolding(crate::specs::World::contents))]
pub fn ends_come_between()
    ensures asked { AliveComesAfterEnd }
    ensures sent { SendDependsOnEnd }
{}

/// What becomes of an exit signal depends on whether its receiver traps exits.
#[tactic(auto, unfolding(crate::specs::World::contents))]
pub fn exits_read_the_flag()
    ensures { ExitComesAfterFlag }
{}

/// So does what becomes of the signal of a link, except where the link is gone.
#[tactic(auto, unfolding(crate::specs::World::contents))]
pub fn standing_links_read_the_flag()
    ensures stands { LinkReadsFlag }
    ensures gone { DroppedReadsNoFlag }
{}

/// Two deliveries into one mailbox depend on each other; the sends of two processes do not.
#[tactic(auto, unfolding(crate::specs::World::contents))]
pub fn mailboxes_keep_an_order()
    ensures depend { DeliveriesDepend }
    ensures first { FirstLiesFirst }
    ensures second { SecondLiesFirst }
    ensures sends { SendsAreFree }
{}

/// A receive and a flush that find their message do not depend on a delivery after it; those that find none do.
#[tactic(auto, unfolding(crate::specs::World::contents))]
pub fn messages_come_behind()
    ensures received { ReceiveIsFree }
    ensures timed_out { ReceiveComesAfterDelivery }
    ensures took { ReceiveTakesWhatComes }
    ensures left_out { ReceiveOfNeitherDepends }
    ensures flushed { FlushIsFree }
    ensures left { FlushTakesItsMessage }
    ensures not_flushed { FlushDependsOnDelivery }
{}

/// A register that is refused depends on an unregister of its name.
#[tactic(auto, unfolding(crate::specs::World::contents))]
pub fn registers_read_their_name()
    ensures { RegisterComesAfterUnregister }
{}
