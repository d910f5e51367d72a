// The laws of processes: what is so after an event, by what was so before it.
ghost use Rattle.world_model.specs.Bonds.{LinkedIsTold, WatchedIsTold, GuardedIsTold, HolderIsTold, HoldersAreAll};
ghost use Rattle.world_model.specs.Mail.{MailboxIsTold, WaitingIsTold};
ghost use Rattle.world_model.specs.Posted.{PutsAreTold};
ghost use Rattle.world_model.specs.ProcessHistory.{AliveIsTold, TurnsAreTold, AnswersAreTold, TrapsAreTold};

/// A process lives from where it begins, the first from the beginning, until an event ends it.
pub fn lives_are_told()
    ensures { AliveIsTold }
{}

/// Its turns and its answers are those of its own turns, from where it began.
pub fn answers_are_told()
    ensures turns { TurnsAreTold }
    ensures answers { AnswersAreTold }
{}

/// It traps exits as its latest served process_flag says.
pub fn flags_are_told()
    ensures { TrapsAreTold }
{}

/// Which processes are linked, which process a watch is for, what guards a reference and who holds a name: by the latest
/// event about it.
pub fn bonds_are_told()
    ensures linked { LinkedIsTold }
    ensures watched { WatchedIsTold }
    ensures guarded { GuardedIsTold }
    ensures holder { HolderIsTold }
    ensures holders { HoldersAreAll }
{}

/// The messages of a process are those that came in, less those that it took or flushed; the signals on
/// their way are those that were put, less those that were delivered; and which signals an event puts.
pub fn mail_is_told()
    ensures mailbox { MailboxIsTold }
    ensures waiting { WaitingIsTold }
    ensures puts { PutsAreTold }
{}
