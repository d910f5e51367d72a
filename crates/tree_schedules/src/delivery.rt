// When signals are delivered.
ghost use Rattle.std.specs.Prelude.{◌≡◌, option_map};
ghost use Rattle.proc_signals.specs.Signal.{signal_of};
ghost use Rattle.tree_schedules.specs.Deliveries.{arrives_at_once};

use proc_signals::Signal;

/// When a signal is delivered that is on its way.
#[derive(Clone, Copy, Debug, PartialEq, Eq)]
pub enum Delivery {
    /// At any time after it was sent, in its order among those of the same pair of processes.
    AnyTime,
    /// At once: while a signal is on its way that is not of a timer, no process takes a turn, and the first enabled delivery of
    /// such a signal comes next. Else any enabled step may come next, the delivery of a timer's message too.
    AtOnce,
}

/// Whether a signal arrives at once where signals do, if there is one: each does but that of a timer. It takes no memory.
pub fn arrives_at_once(front: Option<&Signal>) -> bool
    ensures { result ≡ arrives_at_once (option_map (λ signal. signal_of signal.now) front.entry) }
{
    let Some(signal) = front else {
        return false;
    };
    match signal {
        Signal::Message(_)
        | Signal::Exit(_)
        | Signal::LinkExit(_)
        | Signal::Down(_, _)
        | Signal::Guarded(_, _) => true,
        Signal::Elapsed(_, _) => false,
    }
}
