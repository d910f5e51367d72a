// The laws of worlds: what follows from the definitions of their steps.
ghost use Rattle.std.specs.List.Sorted.{IsStrictlySortedBy};
ghost use Rattle.std.specs.Prelude.{◌≡◌, ◌↔◌, List, Some, None, [], true, false};
ghost use Rattle.term_core.specs.Order.{order_of_lists};
ghost use Rattle.world_core.specs.Waiting.{Waits};
ghost use Rattle.world_model.specs.Events.{Event, History};
ghost use Rattle.world_model.specs.Names.{Pid, IsAmong};
ghost use Rattle.world_model.specs.Requests.{Program};
ghost use Rattle.world_model.specs.Run.{enabled_steps, living, next_event};
ghost use Rattle.world_model.specs.Shown.{Deadlock, Shows, Unread, with_messages};
ghost use Rattle.world_model.specs.World.{alive};
ghost use Rattle.term_core.specs.declared.step.Step.TheVariants.{Turn};

/// A process that lives always has a turn, unless it waits; and then it has none.
pub fn living_processes_have_turns()
    ensures turn { (a : Program) (h : History) (p : Pid) → alive h p ≡ true → ¬ (Waits a h p) → (e : Event) × (next_event a h (Turn p) ≡ Some e) }
    ensures waits { (a : Program) (h : History) (p : Pid) → Waits a h p → next_event a h (Turn p) ≡ None }
{}

/// The processes that live are listed in their order, each once.
pub fn living_are_listed()
    ensures lives { (h : History) (p : Pid) → IsAmong p (living h) ↔ (alive h p ≡ true) }
    ensures in_order { (h : History) → IsStrictlySortedBy order_of_lists (living h) }
{}

/// A deadlock is shown where no step is enabled and a process lives, and nowhere else; and it names all that live.
pub fn deadlocks_are_of_the_living()
    ensures { (a : Program) (h : History) (ps : List Pid) → Shows a h (Deadlock ps) ↔ ((enabled_steps a h ≡ []) × ((living h ≡ ps) × (ps ≡ [] → ⊥))) }
{}

/// What is unread is shown where no step is enabled and the first process has ended, and nowhere else; and it names all
/// that live and have messages in their mailboxes, where there are any.
pub fn unread_messages_are_of_the_living()
    ensures { (a : Program) (h : History) (ps : List Pid) → Shows a h (Unread ps) ↔ ((enabled_steps a h ≡ []) × ((alive h [] ≡ false) × ((with_messages h (living h) ≡ ps) × (ps ≡ [] → ⊥)))) }
{}
