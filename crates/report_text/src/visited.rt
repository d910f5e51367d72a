// What an exploration went through, and how far one of states came. No write takes memory.
ghost use Rattle.std.specs.Prelude.{◌≡◌, false};
ghost use Rattle.term_core.specs.Stream.{Writes};
ghost use Rattle.report_text.specs.ReportText.{delivery_in, schedules_by, text_of_incomplete_states, text_of_states, text_of_states_cause};

use term_core::{Sink, WriteFault, write_all, write_number};
use tree_findings::Cause;
use tree_schedules::Delivery;

/// What an exploration went through, which its report tells.
#[derive(Clone, Copy, Debug, PartialEq, Eq)]
pub enum Visited {
    /// The nodes of the tree.
    Nodes,
    /// States, with signals delivered then; where it stopped before its end, all schedules of at most so many steps that
    /// deliver signals so were followed.
    States { delivery: Delivery, whole_to: u64 },
}

impl Visited {
    /// When signals are delivered in the schedules that the report is about: in those of the tree at any time. It takes
    /// no memory.
    pub fn delivery(self) -> Delivery
        ensures { result ≡ delivery_in self }
    {
        match self {
            Visited::Nodes => Delivery::AnyTime,
            Visited::States { delivery, .. } => delivery,
        }
    }
}

/// Writes the words for the schedules that deliver signals then.
pub(crate) fn write_schedules<W: Sink>(sink: &mut W, delivery: Delivery) -> Result<(), WriteFault>
    requires { W.has_failed sink.old ≡ false }
    ensures { Writes (W.contents sink.old) (W.contents sink.new) (W.has_failed sink.new) result (schedules_by delivery) }
{
    match delivery {
        Delivery::AnyTime => write_all(sink, b"schedules"),
        Delivery::AtOnce => write_all(sink, b"prompt schedules"),
    }
}

/// Writes that all states were visited, and how many they are.
pub(crate) fn write_states<W: Sink>(sink: &mut W, states: u64) -> Result<(), WriteFault>
    requires { W.has_failed sink.old ≡ false }
    ensures { Writes (W.contents sink.old) (W.contents sink.new) (W.has_failed sink.new) result (text_of_states states) }
{
    write_all(sink, b"states ")?;
    write_number(states, sink)?;
    write_all(sink, b", complete")
}

/// Writes that a search of states stopped before its end, why, and of how many steps at most all schedules that deliver
/// signals so were followed by then.
pub(crate) fn write_incomplete_states<W: Sink>(
    sink: &mut W,
    delivery: Delivery,
    whole_to: u64,
    cause: Cause,
) -> Result<(), WriteFault>
    requires { W.has_failed sink.old ≡ false }
    ensures { Writes (W.contents sink.old) (W.contents sink.new) (W.has_failed sink.new) result (text_of_incomplete_states delivery whole_to cause) }
{
    write_all(sink, b"incomplete: ")?;
    write_states_cause(sink, cause)?;
    write_all(sink, b"; all ")?;
    write_schedules(sink, delivery)?;
    write_all(sink, b" to depth ")?;
    write_number(whole_to, sink)
}

// Writes why a search of states stopped before its end.
fn write_states_cause<W: Sink>(sink: &mut W, cause: Cause) -> Result<(), WriteFault>
    requires { W.has_failed sink.old ≡ false }
    ensures { Writes (W.contents sink.old) (W.contents sink.new) (W.has_failed sink.new) result (text_of_states_cause cause) }
{
    match cause {
        Cause::NodeLimit => write_all(sink, b"state limit"),
        Cause::Memory => write_all(sink, b"memory"),
    }
}
