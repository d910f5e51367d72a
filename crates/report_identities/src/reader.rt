// What a schedule shows, read from its text.
ghost use Rattle.std.specs.Prelude.{◌≡◌, ℕ, List, ◌++◌, codes, IfOk, MatchResult, Err};
ghost use Rattle.term_core.specs.Text.{text_of_pid};
ghost use Rattle.world_model.specs.Shown as shown;
ghost use Rattle.world_identities.specs.Identities.{identity_in};
ghost use Rattle.report_text.specs.IdentityText.{text_of_identity};
ghost use Rattle.term_reader.specs.Lawful.{AreNumbers};
ghost use Rattle.report_identities.specs.Lawful.{IsLawfulIdentity, MayRefuse, height_in};
ghost use Rattle.report_identities.specs.inside.Cuts.{Begins};
ghost use Rattle.report_identities.specs.inside.Reading.{ReadsIdentity};

use crate::arguments::read_arguments;
use crate::calls::read_kind;
use crate::cuts::{behind_words, split_before};
use crate::fault::IdentityFault;
use crate::pieces::cut_call;
use crate::processes::{read_pid, read_processes};
use crate::reasons::read_reason;
use crate::terms::read_one_term;
use std::alloc::Global;
use term_core::Pid;
use term_reader::read_number;
use world_identities::Identity;

/// Reads what a schedule shows from its text, as `write_identity` writes it: `PID ends REASON`, `deadlock of PID PID
/// ..`, `PID runs away`, `PID request K mod:fun(args) -> badarg (N Rule)`, with `, owner PID` after the rule where an
/// owner is reported, or `unread messages of PID PID ..`. Terms are written as `read_term` reads them.
///
/// # Errors
///
/// `BadIdentity` where the text is that of nothing that a schedule can show: also where the call has not as
/// many arguments as its kind takes, or where a deadlock or unread messages are of no process. `TooDeep` where
/// more than 10,000 brackets and braces would be open at once in the reason of an end, or in the arguments of
/// a call taken as a tuple. `Memory` where there was no memory for it. What was read is dropped.
pub fn read_identity(alloc: Global, text: &[u8]) -> Result<Identity, IdentityFault>
    // What is read has this text.
    ensures ok { IfOk result (λ read. IsLawfulIdentity (identity_in read) × (text.now ≡ text_of_identity (identity_in read))) }

    // The text of what a schedule shows is read as that, unless its terms are too high or memory runs out.
    ensures only { (i : shown.Identity) → IsLawfulIdentity i → text.now ≡ text_of_identity i
        → MatchResult result (λ read. identity_in read ≡ i) (λ fault. MayRefuse (height_in i) fault) }

    // No such text is called bad.
    ensures bad { result ≡ Err IdentityFault.BadIdentity → (i : shown.Identity) → IsLawfulIdentity i → text.now ≡ text_of_identity i → ⊥ }
{
    read_shown(alloc, text)
}

// Reads what a schedule shows.
fn read_shown(alloc: Global, text: &[u8]) -> Result<Identity, IdentityFault>
    ensures { ReadsIdentity text.now result }
{
    match behind_words(text, b"deadlock of") {
        Some(processes) => read_deadlock(alloc, processes),
        None => read_others(alloc, text),
    }
}

// Reads what is no deadlock.
fn read_others(alloc: Global, text: &[u8]) -> Result<Identity, IdentityFault>
    requires { (rest : List ℕ) → text.now ≡ codes "deadlock of" ++ rest → ⊥ }
    ensures { ReadsIdentity text.now result }
{
    match behind_words(text, b"unread messages of") {
        Some(processes) => read_unread(alloc, processes),
        None => read_of_one(alloc, text),
    }
}

// Reads a deadlock from its processes.
fn read_deadlock(alloc: Global, text: &[u8]) -> Result<Identity, IdentityFault>
    ensures { ReadsIdentity (codes "deadlock of" ++ text.now) result }
{
    let processes = read_processes(alloc, text)?;
    if processes.is_empty() {
        return Err(IdentityFault::BadIdentity);
    }
    Ok(Identity::Deadlock(processes))
}

// Reads unread messages from their processes.
fn read_unread(alloc: Global, text: &[u8]) -> Result<Identity, IdentityFault>
    ensures { ReadsIdentity (codes "unread messages of" ++ text.now) result }
{
    let pids = read_processes(alloc, text)?;
    if pids.is_empty() {
        return Err(IdentityFault::BadIdentity);
    }
    Ok(Identity::Unread(pids))
}

// Reads what is shown of one process.
fn read_of_one(alloc: Global, text: &[u8]) -> Result<Identity, IdentityFault>
    requires deadlock { (rest : List ℕ) → text.now ≡ codes "deadlock of" ++ rest → ⊥ }
    requires unread { (rest : List ℕ) → text.now ≡ codes "unread messages of" ++ rest → ⊥ }
    ensures { ReadsIdentity text.now result }
{
    let (word, rest) = split_before(text, b' ');
    let pid = read_pid(alloc, word)?;
    read_behind_process(alloc, pid, rest)
}

// Reads what follows the process.
fn read_behind_process(alloc: Global, pid: Pid, rest: &[u8]) -> Result<Identity, IdentityFault>
    requires numbers { AreNumbers pid }
    requires blank { Begins 32 rest.now }
    ensures { ReadsIdentity (text_of_pid pid ++ rest.now) result }
{
    if let Some(reason) = behind_words(rest, b" ends ") {
        return read_end(alloc, pid, reason);
    }
    if let Some(call) = behind_words(rest, b" request ") {
        return read_refused_call(alloc, pid, call);
    }
    if rest == b" runs away".as_slice() {
        Ok(Identity::Runaway(pid))
    } else {
        Err(IdentityFault::BadIdentity)
    }
}

// Reads the reason of an end.
fn read_end(alloc: Global, pid: Pid, text: &[u8]) -> Result<Identity, IdentityFault>
    requires { AreNumbers pid }
    ensures { ReadsIdentity (text_of_pid pid ++ (codes " ends " ++ text.now)) result }
{
    let reason = read_one_term(alloc, text)?;
    Ok(Identity::End { pid, reason })
}

// Reads a refused call.
fn read_refused_call(alloc: Global, pid: Pid, text: &[u8]) -> Result<Identity, IdentityFault>
    requires { AreNumbers pid }
    ensures { ReadsIdentity (text_of_pid pid ++ (codes " request " ++ text.now)) result }
{
    let Some(pieces) = cut_call(text) else {
        return Err(IdentityFault::BadIdentity);
    };
    let Some(request) = read_number(pieces.request) else {
        return Err(IdentityFault::BadIdentity);
    };
    let arguments = read_arguments(alloc, pieces.arguments)?;
    let Some(kind) = read_kind(pieces.name, arguments.len()) else {
        return Err(IdentityFault::BadIdentity);
    };
    let (rule, owner) = read_reason(alloc, pieces.reason)?;
    Ok(Identity::Refusal {
        pid,
        request,
        kind,
        arguments,
        rule,
        owner,
    })
}
