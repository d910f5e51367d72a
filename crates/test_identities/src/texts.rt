// Ends, deadlocks, runaways and unread messages read back, and texts that say nothing.
use crate::made::{are_refused, fault_of, is_refused, pid, reads_back, rows_of, says};
use report_identities::IdentityFault;
use std::alloc::Global;
use std::test::Fail;
use term_core::Term;
use test_support::{holds, nested, same};
use world_identities::Identity;

// Texts that are read, one a line, as reports print them.
const READ: &str = r"
P ends 'boom'
P ends {'badarg',[]}
P.2.1 ends 'with blanks ) -> badarg (2 NoTable)'
P ends 'ends'
P.18446744073709551615 ends P.2
P ends [1,2|#P.3]
P ends '\n\''
P ends ''
deadlock of P
deadlock of P P.1 P.2.1
deadlock of P.0 P P
P runs away
P.1.2 runs away
unread messages of P
unread messages of P.1 P.2.1 P.3
unread messages of P.18446744073709551615 P.0 P.0
P request 1 ets:insert('t',{1,'a'}) -> badarg (2 NoTable)
P.2 request 0 ets:new('t',[]) -> badarg (9 NameTaken)
P request 18446744073709551615 ets:first(#P.1) -> badarg (3 PrivateRead, owner P.1)
P request 7 ets:lookup('(',')') -> badarg (3 PrivateRead, owner P)
P request 7 ets:lookup(') -> badarg (2 NoTable)',') -> badarg (') -> badarg (1 BadTable)
P request 7 ets:insert(',',{',','\',{'}) -> badarg (5 ProtectedWrite, owner P.2.1)
P request 7 ets:update_counter({},[],{[],[]}) -> badarg (14 NotInteger, owner P)
P request 2 erlang:make_ref() -> badarg (1 BadTable)
";

#[test]
fn reads_identities(rt: HostRuntime) -> Result<(), Fail> {
    for text in rows_of(READ)?.lines() {
        reads_back(rt.alloc(), text.as_bytes())?;
    }
    Ok(())
}

// Texts that say nothing, each between quotation marks: first some without one of the four forms.
const NAMES: &str = r##"
""
" "
"P"
"P "
"p ends 1"
"P. ends 1"
"P.01 ends 1"
"P.18446744073709551616 runs away"
" P ends 1"
"#P.1 ends 1"
"1 ends 1"
"##;

// No ends.
const ENDS: &str = r#"
"P ends"
"P ends "
"P  ends 1"
"P ends  1"
"P ends 1 "
"P ends x"
"P ends 'boom"
"P end 1"
"#;

// No deadlocks.
const DEADLOCKS: &str = r#"
"deadlock of"
"deadlock of "
"deadlock of  P"
"deadlock of P "
"deadlock of P  P.1"
"deadlock of P,P.1"
"deadlock of 1"
"deadlock ofP"
"deadlock P"
"Deadlock of P"
"#;

// No runaways.
const RUNAWAYS: &str = r#"
"P runs"
"P runs away "
"P  runs away"
"P runs  away"
"runs away"
"#;

// No unread messages.
const UNREAD: &str = r#"
"unread"
"unread messages"
"unread messages of"
"unread messages of "
"unread messages of  P"
"unread messages of P "
"unread messages of P  P.1"
"unread messages of P,P.1"
"unread messages of 1"
"unread messages ofP"
"unread message of P"
"Unread messages of P"
"#;

// No calls.
const CALLS: &str = r#"
"P request"
"P request 1"
"P request 1 "
"P request ets:first(1) -> badarg (1 BadTable)"
"P request 01 ets:first(1) -> badarg (1 BadTable)"
"P request +1 ets:first(1) -> badarg (1 BadTable)"
"P request 18446744073709551616 ets:first(1) -> badarg (1 BadTable)"
"P request 1  ets:first(1) -> badarg (1 BadTable)"
"P request 1 ets.first(1) -> badarg (1 BadTable)"
"P request 1 first(1) -> badarg (1 BadTable)"
"P request 1 'ets':'first'(1) -> badarg (1 BadTable)"
"P request 1 ets:firs(1) -> badarg (1 BadTable)"
"P request 1 mets:first(1) -> badarg (1 BadTable)"
"P request 1 ets:first() -> badarg (1 BadTable)"
"P request 1 ets:first(1,2) -> badarg (1 BadTable)"
"P request 1 ets:first(1,) -> badarg (1 BadTable)"
"P request 1 ets:first(1}) -> badarg (1 BadTable)"
"P request 1 ets:first(1)-> badarg (1 BadTable)"
"P request 1 ets:first(1) -> badarg"
"#;

#[test]
fn refuses_other_texts(rt: HostRuntime) -> Result<(), Fail> {
    are_refused(rt.alloc(), NAMES)?;
    are_refused(rt.alloc(), ENDS)?;
    are_refused(rt.alloc(), DEADLOCKS)?;
    are_refused(rt.alloc(), RUNAWAYS)?;
    are_refused(rt.alloc(), UNREAD)?;
    are_refused(rt.alloc(), CALLS)
}

#[test]
fn refuses_line_breaks_and_other_bytes(rt: HostRuntime) -> Result<(), Fail> {
    is_refused(rt.alloc(), b"P\nends 1")?;
    is_refused(rt.alloc(), b"P ends 1\n")?;
    is_refused(rt.alloc(), b"deadlock of P\nP.1")?;
    is_refused(rt.alloc(), b"unread messages of P\nP.1")?;
    is_refused(
        rt.alloc(),
        b"P request 1 e\xffs:first(1) -> badarg (1 BadTable)",
    )?;
    is_refused(
        rt.alloc(),
        b"P request 1 ets:f\xffrst(1) -> badarg (1 BadTable)",
    )
}

#[test]
fn says_an_end(rt: HostRuntime) -> Result<(), Fail> {
    let end = Identity::End {
        pid: pid(rt.alloc(), &[2, 1])?,
        reason: Term::atom(rt.alloc(), "runs away")?,
    };
    says(rt.alloc(), b"P.2.1 ends 'runs away'", &end)
}

#[test]
fn says_a_deadlock(rt: HostRuntime) -> Result<(), Fail> {
    let processes = vec![in rt.alloc(); pid(rt.alloc(), &[])?, pid(rt.alloc(), &[3])?]?;
    says(
        rt.alloc(),
        b"deadlock of P P.3",
        &Identity::Deadlock(processes),
    )
}

#[test]
fn says_a_runaway(rt: HostRuntime) -> Result<(), Fail> {
    let runaway = Identity::Runaway(pid(rt.alloc(), &[1])?);
    says(rt.alloc(), b"P.1 runs away", &runaway)
}

#[test]
fn says_unread_messages(rt: HostRuntime) -> Result<(), Fail> {
    let processes = vec![in rt.alloc(); pid(rt.alloc(), &[2])?, pid(rt.alloc(), &[3, 1])?]?;
    says(
        rt.alloc(),
        b"unread messages of P.2 P.3.1",
        &Identity::Unread(processes),
    )
}

#[test]
fn reads_unread_messages_of_many(rt: HostRuntime) -> Result<(), Fail> {
    let text = nested(rt.alloc(), "unread messages of", " P.7", 9_999, "", "")?;
    reads_back(rt.alloc(), text.as_bytes())
}

#[test]
fn reads_long_deadlocks(rt: HostRuntime) -> Result<(), Fail> {
    let text = nested(rt.alloc(), "deadlock of", " P.7", 9_999, "", "")?;
    reads_back(rt.alloc(), text.as_bytes())
}

#[test]
fn reads_deep_terms(rt: HostRuntime) -> Result<(), Fail> {
    let reason = nested(rt.alloc(), "P ends ", "{", 10_000, "[]", "}")?;
    reads_back(rt.alloc(), reason.as_bytes())
}

// Checks that a text is refused because its terms are too deep.
fn is_too_deep(alloc: Global, text: &str) -> Result<(), Fail> {
    holds(
        fault_of(alloc, text.as_bytes()) == Some(IdentityFault::TooDeep),
        "its terms are not too deep",
    )
}

#[test]
fn refuses_what_is_too_deep(rt: HostRuntime) -> Result<(), Fail> {
    let reason = nested(rt.alloc(), "P ends ", "{", 10_001, "[]", "}")?;
    is_too_deep(rt.alloc(), reason.as_str())?;
    let mut call = nested(rt.alloc(), "P request 1 ets:first(", "[", 10_000, "1", "]")?;
    call.push_str(") -> badarg (1 BadTable)")?;
    is_too_deep(rt.alloc(), call.as_str())
}

// Checks that a fault has this text.
fn is_told(alloc: Global, fault: IdentityFault, wanted: &str) -> Result<(), Fail> {
    let text = format!(in alloc; "{fault}")?;
    same(text.as_bytes(), wanted.as_bytes())
}

#[test]
fn writes_faults(rt: HostRuntime) -> Result<(), Fail> {
    is_told(rt.alloc(), IdentityFault::BadIdentity, "1 BadIdentity")?;
    is_told(rt.alloc(), IdentityFault::TooDeep, "2 TooDeep")?;
    is_told(rt.alloc(), IdentityFault::Memory, "3 Memory")
}
