// Vectors with room.
ghost use Rattle.std.specs.Prelude.{◌≡◌, ◌+◌, ◌<◌, ◌≤◌, ◌++◌, [], ◌∷◌, OnOk, OnErr, reverse, vec_len, vec_capacity};
ghost use Rattle.tree_findings.specs.Merging.{merged_findings};

use crate::entry::PoolEvent;
use search_jobs::Job;
use std::alloc::AllocError;
use tree_findings::Findings;

/// One item more, where there is room for it.
pub(crate) fn put<T: Drop>(items: &mut Vec<T>, item: T)
    requires { vec_len items.old < vec_capacity items.old }
    ensures items { items.new.items ≡ items.old.items ++ item ∷ [] }
    ensures len { vec_len items.new ≡ vec_len items.old + 1 }
    ensures capacity { vec_capacity items.old ≤ vec_capacity items.new }
{
    if items.push(item).is_err() {
        unreachable!();
    }
}

// Puts jobs on a stack that has room for them, the first of them on top.
fn push_all<'m>(todo: &mut Vec<Job<'m>>, jobs: Vec<Job<'m>>)
    requires { vec_len todo.old + vec_len jobs ≤ vec_capacity todo.old }
    ensures { todo.new.items ≡ todo.old.items ++ reverse jobs.entry.items }
{
    let mut jobs = jobs;
    while let Some(job) = jobs.pop() {
        put(todo, job);
    }
}

/// Adds what was found, puts the jobs that are left on the stack, the first of them on top, and makes room for an
/// entry. All memory is taken first: `AllocError` if there is not enough, and then nothing is added.
pub(crate) fn take_in<'m>(
    findings: &mut Findings,
    todo: &mut Vec<Job<'m>>,
    events: &mut Vec<PoolEvent>,
    more: Findings,
    rest: Vec<Job<'m>>,
) -> Result<(), AllocError>
    ensures found { OnOk result (findings.new ≡ merged_findings findings.old more) }
    ensures opened { OnOk result (todo.new.items ≡ todo.old.items ++ reverse rest.entry.items) }
    ensures events { events.new.items ≡ events.old.items }
    ensures room { OnOk result (vec_len events.new < vec_capacity events.new) }
    ensures same_found { OnErr result (findings.new ≡ findings.old) }
    ensures same_open { OnErr result (todo.new.items ≡ todo.old.items) }
{
    todo.reserve(rest.len())?;
    events.reserve(1)?;
    findings.merge(more)?;
    push_all(todo, rest);
    Ok(())
}
