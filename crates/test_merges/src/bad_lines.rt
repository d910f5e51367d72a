// Texts that are no reports: the bad line, and what else is reported about them.
use crate::texts::{LENIENT, excusing, flags_named};
use report_reader::{MergeFault, ReportFault, merge_reports};
use std::alloc::Global;
use std::test::Fail;
use test_support::{nested, same};
use tree_excuses::Excuses;
use world_identities::Flags;

// Checks that a text is refused at this line, which is bad for a reason.
fn is_bad_at(
    alloc: Global,
    flags: Flags,
    excuses: &Excuses,
    text: &str,
    line: u64,
    why: &str,
) -> Result<(), Fail> {
    match merge_reports(alloc, None, 9, flags, excuses, text.as_bytes()) {
        Ok(_) => Err(Fail::new(format_args!("it is read, and line {line} is bad: {why}"))),
        Err(ReportFault::BadLine(at)) if at == line => Ok(()),
        Err(fault) => {
            Err(Fail::new(format_args!("it is told {fault}, and line {line} is bad: {why}")))
        }
    }
}

// Checks that a text is refused as its first line says, which has the name of flags, the line that is bad, and the
// reason.
fn is_bad(alloc: Global, excuses: &Excuses, block: &str) -> Result<(), Fail> {
    let Some((head, text)) = block.split_once('\n') else {
        return Err(Fail::from("a text has a line above it"));
    };
    let Some((bounds, why)) = head.split_once(": ") else {
        return Err(Fail::from("a text is bad for a reason"));
    };
    let Some((name, line)) = bounds.split_once(' ') else {
        return Err(Fail::from("a text has flags and a bad line"));
    };
    let Some(flags) = flags_named(name) else {
        return Err(Fail::from("no flags have the name"));
    };
    is_bad_at(alloc, flags, excuses, text, line.parse()?, why)
}

// Checks that texts are bad, with dashes on a line between two of them.
fn are_bad(alloc: Global, excuses: &Excuses, blocks: &str) -> Result<(), Fail> {
    for block in blocks.split("---\n") {
        is_bad(alloc, excuses, block)?;
    }
    Ok(())
}

// Checks that the reports of a text are refused so, all of depth 9, or the first of another.
fn are_refused(
    alloc: Global,
    above: Option<u64>,
    text: &str,
    wanted: ReportFault,
) -> Result<(), Fail> {
    let none = Excuses::none(alloc);
    match merge_reports(alloc, above, 9, LENIENT, &none, text.as_bytes()) {
        Ok(_) => Err(Fail::new(format_args!("they are read, and not told {wanted}"))),
        Err(fault) if fault == wanted => Ok(()),
        Err(fault) => Err(Fail::new(format_args!("they are told {fault}, and not {wanted}"))),
    }
}

// Texts whose first line is bad, each below the name of its flags, the line at which it is bad, and the reason.
const FIRST_LINES: &str = "\
lenient 1: another depth
depth 8, nodes 1, complete
errors 0, refusals 0
result: clean
---
lenient 1: a zero before a number
depth 09, nodes 1, complete
errors 0, refusals 0
result: clean
---
lenient 1: a zero before a number
depth 9, nodes 01, complete
errors 0, refusals 0
result: clean
---
lenient 1: no number of nodes
depth 9, nodes , complete
errors 0, refusals 0
result: clean
---
lenient 1: too many nodes
depth 9, nodes 18446744073709551616, complete
errors 0, refusals 0
result: clean
---
lenient 1: not said to be complete
depth 9, nodes 1
errors 0, refusals 0
result: clean
---
lenient 1: a number of cuts that is 0
depth 9, nodes 1, complete, cut 0
errors 0, refusals 0
result: clean
---
lenient 1: incomplete for another reason
depth 9, incomplete: disk
errors 0, refusals 0
result: clean
";

// Checks that a text is bad at its first line.
fn is_bad_first(alloc: Global, text: &str, why: &str) -> Result<(), Fail> {
    is_bad_at(alloc, LENIENT, &Excuses::none(alloc), text, 1, why)
}

const NO_FIRST_LINE: &str = "errors 0, refusals 0\nresult: clean\n";

const EMPTY_LINE: &str = "\ndepth 9, nodes 1, complete\nerrors 0, refusals 0\nresult: clean\n";

const BLANK_BEHIND: &str = "depth 9, nodes 1, complete \nerrors 0, refusals 0\nresult: clean\n";

#[test]
fn first_lines(rt: HostRuntime) -> Result<(), Fail> {
    let alloc = rt.alloc();
    are_bad(alloc, &Excuses::none(alloc), FIRST_LINES)?;
    is_bad_first(alloc, NO_FIRST_LINE, "there is none")?;
    is_bad_first(alloc, EMPTY_LINE, "an empty line comes before it")?;
    is_bad_first(alloc, BLANK_BEHIND, "a blank is at its end")?;
    is_bad_first(alloc, "depth 9, nodes 1, complete", "it has no end")
}

// The same with findings that are bad.
const FINDINGS: &str = "\
lenient 2: a number that is not the next
depth 9, nodes 12, complete
error 2: P ends {'boom',1}
  P P P P
errors 1, refusals 0
result: errors
---
lenient 4: a number that is not the next
depth 9, nodes 12, complete
error 1: P ends {'boom',1}
  P P P P
error 1: P.2 ends {'badarg',[]}
  P P P P P.2 P.2
errors 2, refusals 0
result: errors
---
lenient 2: text that is no identity
depth 9, nodes 12, complete
error 1: P ends boom
  P
errors 1, refusals 0
result: errors
---
lenient 3: text that is no schedule
depth 9, nodes 12, complete
error 1: P runs away
 P
errors 1, refusals 0
result: errors
---
lenient 3: text that is no schedule
depth 9, nodes 12, complete
error 1: P runs away
  P  P
errors 1, refusals 0
result: errors
---
lenient 4: out of order
depth 9, nodes 12, complete
error 1: P.2 ends {'badarg',[]}
  P P P P P.2 P.2
error 2: P ends {'boom',1}
  P P P P
errors 2, refusals 0
result: errors
---
lenient 4: twice
depth 9, nodes 12, complete
error 1: P ends {'boom',1}
  P P P P
error 2: P ends {'boom',1}
  P P P P
errors 2, refusals 0
result: errors
---
allowed 2: no error under the flags
depth 9, nodes 12, complete
error 1: deadlock of P P.2
  P P P.2 P
errors 1, refusals 0
result: errors
---
lenient 2: no error under the flags
depth 9, nodes 12, complete
error 1: unread messages of P.2
  P P P P.2 P
errors 1, refusals 0
result: errors
---
lenient 2: no error under the flags
depth 9, nodes 12, complete
error 1: P.2 request 1 ets:insert('t',{'a',1}) -> badarg (5 ProtectedWrite, owner P)
  P P P.2
refusal 1: P.2 request 1 ets:insert('t',{'a',1}) -> badarg (5 ProtectedWrite, owner P)
  P P P.2
errors 1, refusals 1
result: errors
---
strict 2: no error under the flags
depth 9, nodes 12, complete
error 1: P.2 request 1 ets:insert('t',{'a',1}) -> badarg (2 NoTable)
  P P P P P.2
refusal 1: P.2 request 1 ets:insert('t',{'a',1}) -> badarg (2 NoTable)
  P P P P P.2
errors 1, refusals 1
result: errors
---
lenient 2: no refusal
depth 9, nodes 12, complete
refusal 1: P ends {'boom',1}
  P P P P
errors 0, refusals 1
result: clean
---
idle 2: no refusal
depth 9, nodes 12, complete
refusal 1: unread messages of P.2
  P P P P.2 P
errors 0, refusals 1
result: clean
---
idle 4: what is unread comes last
depth 9, nodes 12, complete
error 1: unread messages of P.2
  P P P P.2 P
error 2: deadlock of P P.2
  P P P.2 P
errors 2, refusals 0
result: errors
---
lenient 4: kinds in another order
depth 9, nodes 12, complete
refusal 1: P.2 request 1 ets:insert('t',{'a',1}) -> badarg (2 NoTable)
  P P P P P.2
error 1: P ends {'boom',1}
  P P P P
errors 1, refusals 1
result: errors
---
allowed 2: both lines of a finding are bad
depth 9, nodes 12, complete
error 1: deadlock of P
 P
errors 1, refusals 0
result: errors
---
lenient 2: both lines of a finding are bad
depth 9, nodes 12, complete
refusal 1: P runs away
P
errors 0, refusals 1
result: clean
---
lenient 4: both lines of a finding are bad
depth 9, nodes 12, complete
error 1: P.2 ends {'badarg',[]}
  P P P P P.2 P.2
error 2: P ends {'boom',1}

errors 2, refusals 0
result: errors
";

#[test]
fn findings(rt: HostRuntime) -> Result<(), Fail> {
    are_bad(rt.alloc(), &Excuses::none(rt.alloc()), FINDINGS)
}

// The same where some errors are excused.
const EXCUSED_FINDINGS: &str = "\
lenient 2: excused, and listed as an error
depth 9, nodes 12, complete
error 1: P ends {'boom',1}
  P P P P
errors 1, refusals 0, taken as normal 0
result: errors
---
lenient 2: not excused, and listed as normal
depth 9, nodes 12, complete
normal 1: P.2 ends {'badarg',[]}
  P P P P P.2 P.2
errors 0, refusals 0, taken as normal 1
result: clean
---
allowed 2: no error, and listed as normal
depth 9, nodes 12, complete
normal 1: deadlock of P.2
  P P P P.2 P
errors 0, refusals 0, taken as normal 1
result: clean
---
idle 2: not excused, and listed as normal
depth 9, nodes 12, complete
normal 1: unread messages of P.2
  P P P P.2 P
errors 0, refusals 0, taken as normal 1
result: clean
";

#[test]
fn excused_findings(rt: HostRuntime) -> Result<(), Fail> {
    are_bad(rt.alloc(), &excusing(rt.alloc())?, EXCUSED_FINDINGS)
}

// The same where one of the two last lines is bad.
const LAST_LINES: &str = "\
lenient 4: another number of errors than are listed
depth 9, nodes 12, complete
error 1: P ends {'boom',1}
  P P P P
errors 2, refusals 0
result: errors
---
lenient 2: another number of refusals than are listed
depth 9, nodes 12, complete
errors 0, refusals 1
result: clean
---
lenient 2: normal ones are counted, and nothing is excused
depth 9, nodes 12, complete
errors 0, refusals 0, taken as normal 0
result: clean
---
lenient 3: errors, and none is listed
depth 9, nodes 12, complete
errors 0, refusals 0
result: errors
---
lenient 3: incomplete, and the first line is complete
depth 9, nodes 12, complete
errors 0, refusals 0
result: incomplete
---
lenient 3: clean, and the first line is incomplete
depth 9, incomplete: memory
errors 0, refusals 0
result: clean
---
lenient 5: clean, and an error is listed
depth 9, nodes 12, complete
error 1: P ends {'boom',1}
  P P P P
errors 1, refusals 0
result: clean
";

// A report whose last line has no end.
const UNENDED: &str = "depth 9, nodes 12, complete\nerrors 0, refusals 0\nresult: clean";

// A report that counts no normal ones.
const UNCOUNTED: &str = "depth 9, nodes 12, complete\nerrors 0, refusals 0\nresult: clean\n";

#[test]
fn last_lines(rt: HostRuntime) -> Result<(), Fail> {
    let alloc = rt.alloc();
    let none = Excuses::none(alloc);
    are_bad(alloc, &none, LAST_LINES)?;
    is_bad_at(alloc, LENIENT, &none, UNENDED, 3, "it has no end")?;
    let some = excusing(alloc)?;
    is_bad_at(
        alloc,
        LENIENT,
        &some,
        UNCOUNTED,
        2,
        "normal ones are not counted",
    )
}

#[test]
fn terms_may_be_too_deep(rt: HostRuntime) -> Result<(), Fail> {
    let alloc = rt.alloc();
    let front = "depth 9, nodes 12, complete\nerror 1: P ends ";
    let mut text = nested(alloc, front, "{", 10_001, "[]", "}")?;
    text.push_str("\n  P\nerrors 1, refusals 0\nresult: errors\n")?;
    are_refused(alloc, None, text.as_str(), ReportFault::TooDeep(2))
}

const TWO_DEPTHS: &str = "\
depth 9, nodes 12, complete
errors 0, refusals 0
result: clean
depth 8, nodes 12, complete
errors 0, refusals 0
result: clean
";

const BLANK_LAST: &str = "\
depth 9, nodes 12, complete
errors 0, refusals 0
result: clean
depth 9, nodes 12, complete
errors 0, refusals 0
result: clean

";

const MOST_NODES: &str = "\
depth 9, nodes 12, complete
errors 0, refusals 0
result: clean
depth 9, nodes 18446744073709551604, complete
errors 0, refusals 0
result: clean
";

#[test]
fn reports_one_after_another(rt: HostRuntime) -> Result<(), Fail> {
    let alloc = rt.alloc();
    are_refused(alloc, None, TWO_DEPTHS, ReportFault::BadLine(4))?;
    are_refused(alloc, Some(8), TWO_DEPTHS, ReportFault::BadLine(1))?;
    are_refused(alloc, None, BLANK_LAST, ReportFault::BadLine(7))?;
    are_refused(alloc, None, "", ReportFault::BadLine(1))?;
    are_refused(alloc, None, MOST_NODES, ReportFault::TooManyNodes)
}

// The faults, and their texts.
const FAULTS: &[(ReportFault, &str)] = &[
    (ReportFault::BadLine(3), "1 BadLine at line 3"),
    (ReportFault::TooDeep(2), "2 TooDeep at line 2"),
    (ReportFault::Memory, "3 Memory"),
    (ReportFault::TooManyNodes, "4 TooManyNodes"),
];

#[test]
fn faults_are_told(rt: HostRuntime) -> Result<(), Fail> {
    for &(fault, wanted) in FAULTS {
        let text = format!(in rt.alloc(); "{fault}")?;
        same(text.as_bytes(), wanted.as_bytes())?;
    }
    Ok(())
}

// The faults of two outcomes, and their texts.
const MERGE_FAULTS: &[(MergeFault, &str)] = &[
    (MergeFault::TooManyNodes, "1 TooManyNodes"),
    (MergeFault::Memory, "2 Memory"),
];

#[test]
fn merge_faults_are_told(rt: HostRuntime) -> Result<(), Fail> {
    for &(fault, wanted) in MERGE_FAULTS {
        let text = format!(in rt.alloc(); "{fault}")?;
        same(text.as_bytes(), wanted.as_bytes())?;
    }
    Ok(())
}
