// Processes, one alone and several after blanks.
ghost use Rattle.std.specs.Prelude.{MatchResult};
ghost use Rattle.report_identities.specs.inside.Reading.{AreProcesses, MayRefuseProcesses, ReadsPid};

use crate::cuts::split_before;
use crate::fault::IdentityFault;
use crate::terms::read_one_term;
use std::alloc::Global;
use term_core::{Pid, Term};

/// Reads a process, as `P.2.1`.
pub(crate) fn read_pid(alloc: Global, text: &[u8]) -> Result<Pid, IdentityFault>
    ensures { ReadsPid text.now result }
{
    let term = read_one_term(alloc, text)?;
    match term {
        Term::Pid(pid) => Ok(pid),
        _ => Err(IdentityFault::BadIdentity),
    }
}

/// Reads processes, each after a blank.
pub(crate) fn read_processes(alloc: Global, text: &[u8]) -> Result<Vec<Pid>, IdentityFault>
    ensures { MatchResult result (λ read. AreProcesses text.now read.items) (λ fault. MayRefuseProcesses text.now fault) }
{
    let mut processes = Vec::new(alloc);
    let mut rest = text;
    'processes: while let Some((blank, behind)) = rest.split_first() {
        if *blank != b' ' {
            return Err(IdentityFault::BadIdentity);
        }
        let (word, next) = split_before(behind, b' ');
        let pid = read_pid(alloc, word)?;
        processes.push(pid)?;
        rest = next;
    }
    Ok(processes)
}
