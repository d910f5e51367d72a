// Reports that are put together.
use crate::texts::{IDLE, LENIENT, excusing};
use report_reader::merge_reports;
use report_text::{Visited, write_report};
use std::alloc::Global;
use std::test::Fail;
use test_support::{MemorySink, same};
use tree_excuses::Excuses;
use world_identities::Flags;

// Checks that reports, one after another, result in one that is written so.
fn comes_to(
    alloc: Global,
    above: Option<u64>,
    flags: Flags,
    excuses: &Excuses,
    reports: &[&str],
    whole: &str,
) -> Result<(), Fail> {
    let mut text = Vec::new(alloc);
    for report in reports {
        text.extend_from_slice(report.as_bytes())?;
    }
    let outcome = merge_reports(alloc, above, 9, flags, excuses, text.as_slice())?;
    let mut sink = MemorySink::with_room(alloc, 1000)?;
    write_report(&mut sink, Visited::Nodes, 9, excuses, &outcome)?;
    same(sink.bytes.as_slice(), whole.as_bytes())
}

// Two reports with findings of their own, and with the same ones with other schedules.
const FIRST: &str = "\
depth 9, nodes 12, complete
error 1: P ends {'boom',1}
  P P P P.2 P
error 2: deadlock of P P.2
  P P P.2 P
refusal 1: P.2 request 1 ets:insert('t',{'a',1}) -> badarg (2 NoTable)
  P P P P P.2
errors 2, refusals 1
result: errors
";

const SECOND: &str = "\
depth 9, nodes 30, complete
error 1: P ends {'boom',1}
  P P P P
error 2: P.2 ends {'badarg',[]}
  P P P P P.2 P.2
error 3: deadlock of P.2
  P P P P.2 P
refusal 1: P.2 request 1 ets:insert('t',{'a',1}) -> badarg (2 NoTable)
  P P P P P.2 P.2
refusal 2: P.2 request 1 ets:insert('t',{'a',1}) -> badarg (5 ProtectedWrite, owner P)
  P P P.2
errors 3, refusals 2
result: errors
";

const FIRST_AND_SECOND: &str = "\
depth 9, nodes 42, complete
error 1: P ends {'boom',1}
  P P P P
error 2: P.2 ends {'badarg',[]}
  P P P P P.2 P.2
error 3: deadlock of P P.2
  P P P.2 P
error 4: deadlock of P.2
  P P P P.2 P
refusal 1: P.2 request 1 ets:insert('t',{'a',1}) -> badarg (2 NoTable)
  P P P P P.2
refusal 2: P.2 request 1 ets:insert('t',{'a',1}) -> badarg (5 ProtectedWrite, owner P)
  P P P.2
errors 4, refusals 2
result: errors
";

#[test]
fn findings_of_both_are_there(rt: HostRuntime) -> Result<(), Fail> {
    let none = Excuses::none(rt.alloc());
    comes_to(
        rt.alloc(),
        None,
        LENIENT,
        &none,
        &[FIRST, SECOND],
        FIRST_AND_SECOND,
    )?;
    comes_to(
        rt.alloc(),
        None,
        LENIENT,
        &none,
        &[SECOND, FIRST],
        FIRST_AND_SECOND,
    )
}

const ABOVE: &str = "\
depth 5, nodes 1, complete
normal 1: P ends {'boom',1}
  P P P P.2 P
errors 0, refusals 0, taken as normal 1
result: clean
";

const BELOW: &str = "\
depth 9, nodes 2, complete
error 1: deadlock of P P.2
  P P P.2 P
normal 1: P ends {'boom',1}
  P P P P
normal 2: deadlock of P.2
  P P P P.2 P
errors 1, refusals 0, taken as normal 2
result: errors
";

const ABOVE_AND_BELOW: &str = "\
depth 9, nodes 3, complete
error 1: deadlock of P P.2
  P P P.2 P
normal 1: P ends {'boom',1}
  P P P P
normal 2: deadlock of P.2
  P P P P.2 P
errors 1, refusals 0, taken as normal 2
result: errors
";

#[test]
fn normal_ones_stay_normal(rt: HostRuntime) -> Result<(), Fail> {
    let some = excusing(rt.alloc())?;
    comes_to(
        rt.alloc(),
        Some(5),
        LENIENT,
        &some,
        &[ABOVE, BELOW],
        ABOVE_AND_BELOW,
    )
}

const FIRST_UNREAD: &str = "\
depth 9, nodes 12, complete
error 1: unread messages of P.2
  P P P P.2 P.2 P
normal 1: deadlock of P.2
  P P P P.2 P
errors 1, refusals 0, taken as normal 1
result: errors
";

const SECOND_UNREAD: &str = "\
depth 9, nodes 30, complete
error 1: deadlock of P P.2
  P P P.2 P
error 2: unread messages of P.2
  P P P P.2 P
errors 2, refusals 0, taken as normal 0
result: errors
";

const BOTH_UNREAD: &str = "\
depth 9, nodes 42, complete
error 1: deadlock of P P.2
  P P P.2 P
error 2: unread messages of P.2
  P P P P.2 P
normal 1: deadlock of P.2
  P P P P.2 P
errors 2, refusals 0, taken as normal 1
result: errors
";

#[test]
fn unread_messages_are_put_together(rt: HostRuntime) -> Result<(), Fail> {
    let some = excusing(rt.alloc())?;
    comes_to(
        rt.alloc(),
        None,
        IDLE,
        &some,
        &[FIRST_UNREAD, SECOND_UNREAD],
        BOTH_UNREAD,
    )?;
    comes_to(
        rt.alloc(),
        None,
        IDLE,
        &some,
        &[SECOND_UNREAD, FIRST_UNREAD],
        BOTH_UNREAD,
    )
}

const WHOLE: &str = "\
depth 9, nodes 1, complete
errors 0, refusals 0
result: clean
";

const LIMITED: &str = "\
depth 9, incomplete: node limit
errors 0, refusals 0
result: incomplete
";

const SHORT: &str = "\
depth 9, incomplete: memory
errors 0, refusals 0
result: incomplete
";

const THREE: &str = "\
depth 9, nodes 3, complete
errors 0, refusals 0
result: clean
";

#[test]
fn one_that_is_incomplete_leaves_all_so(rt: HostRuntime) -> Result<(), Fail> {
    let none = Excuses::none(rt.alloc());
    comes_to(
        rt.alloc(),
        None,
        LENIENT,
        &none,
        &[WHOLE, LIMITED, SHORT],
        LIMITED,
    )?;
    comes_to(
        rt.alloc(),
        None,
        LENIENT,
        &none,
        &[SHORT, WHOLE, LIMITED],
        SHORT,
    )?;
    comes_to(rt.alloc(), Some(9), LENIENT, &none, &[WHOLE], WHOLE)?;
    comes_to(
        rt.alloc(),
        None,
        LENIENT,
        &none,
        &[WHOLE, WHOLE, WHOLE],
        THREE,
    )
}
