// Reports that are read back from their texts are written so again.
use crate::texts::{ALLOWED, IDLE, LENIENT, STRICT, excusing};
use report_reader::{ReportFault, merge_reports};
use report_text::{Visited, write_report};
use std::alloc::Global;
use std::test::Fail;
use test_support::{MemorySink, same};
use tree_excuses::Excuses;
use world_identities::Flags;

// The line after a text, counted from 1.
fn line_behind(text: &[u8]) -> u64 {
    let mut line: u64 = 1;
    for byte in text {
        if *byte == b'\n' {
            line = line.saturating_add(1);
        }
    }
    line
}

// Checks that the first line of what follows a report is bad.
fn is_bad_behind(
    alloc: Global,
    flags: Flags,
    excuses: &Excuses,
    report: &str,
    behind: &str,
) -> Result<(), Fail> {
    let text = format!(in alloc; "{report}{behind}")?;
    let wanted = ReportFault::BadLine(line_behind(report.as_bytes()));
    match merge_reports(alloc, None, 9, flags, excuses, text.as_bytes()) {
        Ok(_) => Err(Fail::new(format_args!("it is read, and not told {wanted}"))),
        Err(fault) if fault == wanted => Ok(()),
        Err(fault) => Err(Fail::new(format_args!("it is told {fault}, and not {wanted}"))),
    }
}

// Checks that a report is read up to its end: alone it is written so again, and of what follows it, which is no report,
// the first line is bad.
fn reads(alloc: Global, flags: Flags, excuses: &Excuses, report: &str) -> Result<(), Fail> {
    let outcome = merge_reports(alloc, None, 9, flags, excuses, report.as_bytes())?;
    let mut sink = MemorySink::with_room(alloc, 1000)?;
    write_report(&mut sink, Visited::Nodes, 9, excuses, &outcome)?;
    same(sink.bytes.as_slice(), report.as_bytes())?;
    is_bad_behind(alloc, flags, excuses, report, "depth 9, ")?;
    is_bad_behind(alloc, flags, excuses, report, "error 7: ")
}

#[test]
fn empty_reports_are_read(rt: HostRuntime) -> Result<(), Fail> {
    let alloc = rt.alloc();
    let none = Excuses::none(alloc);
    let some = excusing(alloc)?;
    reads(
        alloc,
        LENIENT,
        &none,
        "depth 9, nodes 0, complete\nerrors 0, refusals 0\nresult: clean\n",
    )?;
    reads(
        alloc,
        STRICT,
        &none,
        "depth 9, nodes 18446744073709551615, complete\nerrors 0, refusals 0\nresult: clean\n",
    )?;
    reads(
        alloc,
        LENIENT,
        &none,
        "depth 9, incomplete: node limit\nerrors 0, refusals 0\nresult: incomplete\n",
    )?;
    reads(
        alloc,
        LENIENT,
        &none,
        "depth 9, incomplete: memory\nerrors 0, refusals 0\nresult: incomplete\n",
    )?;
    reads(
        alloc,
        LENIENT,
        &some,
        "depth 9, nodes 1, complete\nerrors 0, refusals 0, taken as normal 0\nresult: clean\n",
    )
}

const FINDINGS: &str = "\
depth 9, nodes 12, complete
error 1: P ends {'boom',1}
  P P P P
error 2: P.2 ends {'badarg',[]}
  P P P P P.2 P.2
error 3: deadlock of P P.2
  P P P.2 P
error 4: deadlock of P.2
  P P P P.2 P
error 5: P.2.1 runs away
  P P.2 P.2>P P.2.1
refusal 1: P.2 request 1 ets:insert('t',{'a',1}) -> badarg (2 NoTable)
  P P P P P.2
refusal 2: P.2 request 1 ets:insert('t',{'a',1}) -> badarg (5 ProtectedWrite, owner P)
  P P P.2
errors 5, refusals 2
result: errors
";

#[test]
fn findings_are_read(rt: HostRuntime) -> Result<(), Fail> {
    let alloc = rt.alloc();
    reads(alloc, LENIENT, &Excuses::none(alloc), FINDINGS)
}

const SOME_NORMAL: &str = "\
depth 9, nodes 12, complete
error 1: P.2 ends {'badarg',[]}
  P P P P P.2 P.2
error 2: deadlock of P P.2
  P P P.2 P
refusal 1: P.2 request 1 ets:insert('t',{'a',1}) -> badarg (2 NoTable)
  P P P P P.2
normal 1: P ends {'boom',1}
  P P P P
normal 2: deadlock of P.2
  P P P P.2 P
errors 2, refusals 1, taken as normal 2
result: errors
";

const ALL_NORMAL: &str = "\
depth 9, nodes 12, complete
normal 1: P ends {'boom',1}
  P P P P
errors 0, refusals 0, taken as normal 1
result: clean
";

#[test]
fn normal_ones_are_read(rt: HostRuntime) -> Result<(), Fail> {
    let alloc = rt.alloc();
    let excuses = excusing(alloc)?;
    reads(alloc, LENIENT, &excuses, SOME_NORMAL)?;
    reads(alloc, LENIENT, &excuses, ALL_NORMAL)
}

const STRICT_ACCESS: &str = "\
depth 9, incomplete: node limit
error 1: P.2.1 runs away
  P P.2 P.2>P P.2.1
error 2: P.2 request 1 ets:insert('t',{'a',1}) -> badarg (5 ProtectedWrite, owner P)
  P P P.2
refusal 1: P.2 request 1 ets:insert('t',{'a',1}) -> badarg (2 NoTable)
  P P P P P.2
refusal 2: P.2 request 1 ets:insert('t',{'a',1}) -> badarg (5 ProtectedWrite, owner P)
  P P P.2
errors 2, refusals 2
result: incomplete
";

#[test]
fn refusals_are_errors_where_access_is_strict(rt: HostRuntime) -> Result<(), Fail> {
    let alloc = rt.alloc();
    reads(alloc, STRICT, &Excuses::none(alloc), STRICT_ACCESS)
}

const UNREAD_MESSAGES: &str = "\
depth 9, nodes 12, complete
error 1: deadlock of P P.2
  P P P.2 P
error 2: P.2.1 runs away
  P P.2 P.2>P P.2.1
error 3: unread messages of P.2
  P P P P.2 P
refusal 1: P.2 request 1 ets:insert('t',{'a',1}) -> badarg (2 NoTable)
  P P P P P.2
normal 1: deadlock of P.2
  P P P P.2 P
errors 3, refusals 1, taken as normal 1
result: errors
";

#[test]
fn unread_messages_are_errors_where_servers_have_to_be_idle(rt: HostRuntime) -> Result<(), Fail> {
    let alloc = rt.alloc();
    reads(alloc, IDLE, &excusing(alloc)?, UNREAD_MESSAGES)
}

const NO_STEPS: &str =
    "depth 9, nodes 1, complete\nerror 1: P ends 'a\\nb'\n  \nerrors 1, refusals 0\nresult: errors\n";

#[test]
fn schedules_may_be_empty(rt: HostRuntime) -> Result<(), Fail> {
    let alloc = rt.alloc();
    reads(alloc, ALLOWED, &Excuses::none(alloc), NO_STEPS)
}
