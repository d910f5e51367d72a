// The order of what schedules show.
ghost use Rattle.std.specs.Prelude.{◌≡◌, ◌↔◌, refl, IsTrue, option_to_list};
ghost use Rattle.std.specs.Ordering.{eq_by_cmp, as_partial_cmp, on, nat_cmp, ordering_then};
ghost use Rattle.std.specs.Cmp.{partial_order_from_total, partial_equiv_from_equiv, eq_by_cmp_equiv, on_per, on_equiv, on_po, on_total};
ghost use Rattle.term_core.specs.Order.{order_of_lists, order_of_terms, order_of_items};
ghost use Rattle.term_core.specs.Term.{meaning_of};
ghost use Rattle.core_calls.specs.CallCodes.{number_of_call};
ghost use Rattle.core_calls.specs.Calls.{signature};
ghost use Rattle.world_model.specs.Shown as shown;
ghost use Rattle.world_identities.specs.Order.{number_of_rule, order_of_processes, order_of_identities};
ghost use Rattle.world_identities.specs.inside.OrderLaws.{identities_total};
ghost use Rattle.world_identities.specs.Identities.{identity_in};

use crate::identity::Identity;
use core_tree::CallKind;
use std::cmp::Ordering;
use term_core::{Pid, Term, Terms};
use world_model::rule::Rule;

/// The number of a rule, 1 to 19, as it is printed.
pub fn number_of_rule(rule: Rule) -> u64
    ensures { result ≡ number_of_rule rule }
{
    rule as u64
}

// The number of a call.
fn number_of_call(kind: CallKind) -> u64
    ensures { result ≡ number_of_call kind }
{
    kind as u64
}

// Which of two owners comes first: none before any.
fn order_of_owners(a: &Option<Pid>, b: &Option<Pid>) -> Ordering
    ensures { result ≡ order_of_processes (option_to_list a.now) (option_to_list b.now) }
{
    match (a, b) {
        (Some(p), Some(q)) => p.cmp(q),
        (Some(_), None) => Ordering::Greater,
        (None, Some(_)) => Ordering::Less,
        (None, None) => Ordering::Equal,
    }
}

// Which of two ends comes first: by process, then by reason.
fn order_of_ends(p: &Pid, x: &Term, q: &Pid, y: &Term) -> Ordering
    ensures { result ≡ ordering_then (order_of_lists p.now q.now) (order_of_terms (meaning_of x.now) (meaning_of y.now)) }
{
    p.cmp(q).then_with(|| x.cmp(y))
}

// Which of two requests comes first: by process, then by number.
fn order_of_requests(p: &Pid, m: u64, q: &Pid, n: u64) -> Ordering
    ensures { result ≡ ordering_then (order_of_lists p.now q.now) (nat_cmp m n) }
{
    p.cmp(q).then(m.cmp(&n))
}

// Which of two calls comes first: by name, then by arguments.
fn order_of_calls(a: CallKind, xs: &Terms, b: CallKind, ys: &Terms) -> Ordering
    ensures { result ≡ ordering_then (order_of_lists (signature a).function_name (signature b).function_name) (order_of_items xs.now ys.now) }
{
    let names = a.function_name().cmp(b.function_name());
    names.then_with(|| xs.cmp(ys))
}

// Which of two reasons for a refusal comes first: by the rule's number, then by the owner.
fn order_of_reasons(a: Rule, o: &Option<Pid>, b: Rule, u: &Option<Pid>) -> Ordering
    ensures { result ≡ ordering_then (nat_cmp (number_of_rule a) (number_of_rule b)) (order_of_processes (option_to_list o.now) (option_to_list u.now)) }
{
    let rules = number_of_rule(a).cmp(&number_of_rule(b));
    rules.then_with(|| order_of_owners(o, u))
}

// Which of two identities comes first, one of which is an end.
fn end_before(p: &Pid, x: &Term, other: &Identity) -> Ordering
    ensures { result ≡ order_of_identities (shown.End p.now (meaning_of x.now)) (identity_in other.now) }
{
    match other {
        Identity::End { pid, reason } => order_of_ends(p, x, pid, reason),
        Identity::Deadlock(_)
        | Identity::Runaway(_)
        | Identity::Refusal { .. }
        | Identity::Unread(_) => Ordering::Less,
    }
}

// Which of two identities comes first, one of which is a deadlock of these processes.
fn deadlock_before(pids: &[Pid], other: &Identity) -> Ordering
    ensures { result ≡ order_of_identities (shown.Deadlock pids.now) (identity_in other.now) }
{
    match other {
        Identity::End { .. } => Ordering::Greater,
        Identity::Deadlock(others) => pids.cmp(others.as_slice()),
        Identity::Runaway(_) | Identity::Refusal { .. } | Identity::Unread(_) => Ordering::Less,
    }
}

// Which of two identities comes first, one of which is a process that makes too many applications.
fn runaway_before(p: &Pid, other: &Identity) -> Ordering
    ensures { result ≡ order_of_identities (shown.Runaway p.now) (identity_in other.now) }
{
    match other {
        Identity::End { .. } | Identity::Deadlock(_) => Ordering::Greater,
        Identity::Runaway(q) => p.cmp(q),
        Identity::Refusal { .. } | Identity::Unread(_) => Ordering::Less,
    }
}

// Which of two identities comes first, one of which is a refusal.
fn refusal_before(
    p: &Pid,
    request: u64,
    kind: CallKind,
    arguments: &Terms,
    rule: Rule,
    owner: &Option<Pid>,
    other: &Identity,
) -> Ordering
    ensures { result ≡ order_of_identities (shown.RefusedCall p.now request kind arguments.now rule owner.now) (identity_in other.now) }
{
    match other {
        Identity::Refusal {
            pid: q,
            request: n,
            kind: d,
            arguments: ys,
            rule: s,
            owner: u,
        } => {
            let requests = order_of_requests(p, request, q, *n);
            let calls = requests.then_with(|| order_of_calls(kind, arguments, *d, ys));
            let reasons = calls.then(order_of_reasons(rule, owner, *s, u));
            reasons.then(number_of_call(kind).cmp(&number_of_call(*d)))
        }
        Identity::End { .. } | Identity::Deadlock(_) | Identity::Runaway(_) => Ordering::Greater,
        Identity::Unread(_) => Ordering::Less,
    }
}

// Which of two identities comes first, one of which is that these processes have messages which they do not take.
fn unread_before(pids: &[Pid], other: &Identity) -> Ordering
    ensures { result ≡ order_of_identities (shown.Unread pids.now) (identity_in other.now) }
{
    match other {
        Identity::Unread(others) => pids.cmp(others.as_slice()),
        Identity::End { .. }
        | Identity::Deadlock(_)
        | Identity::Runaway(_)
        | Identity::Refusal { .. } => Ordering::Greater,
    }
}

// Which of two identities comes first.
fn order_of(a: &Identity, b: &Identity) -> Ordering
    ensures { result ≡ order_of_identities (identity_in a.now) (identity_in b.now) }
{
    match a {
        Identity::End { pid, reason } => end_before(pid, reason, b),
        Identity::Deadlock(pids) => deadlock_before(pids.as_slice(), b),
        Identity::Runaway(pid) => runaway_before(pid, b),
        Identity::Refusal {
            pid,
            request,
            kind,
            arguments,
            rule,
            owner,
        } => refusal_before(pid, *request, *kind, arguments, *rule, owner, b),
        Identity::Unread(pids) => unread_before(pids.as_slice(), b),
    }
}

impl PartialEq for Identity {
    ghost eq = { on identity_in (eq_by_cmp order_of_identities) };

    ghost laws = { on_per identity_in (partial_equiv_from_equiv (eq_by_cmp_equiv identities_total)) };

    /// Whether the two are the same. It takes no memory.
    fn eq(&self, other: &Identity) -> bool
        ensures value { result ≡ eq_by_cmp order_of_identities (identity_in self.now) (identity_in other.now) }
        ensures same { IsTrue result ↔ (identity_in self.now ≡ identity_in other.now) }
    {
        order_of(self, other).is_eq()
    }
}

impl Eq for Identity {
    ghost laws = { on_equiv identity_in (eq_by_cmp_equiv identities_total) };
}

impl PartialOrd for Identity {
    ghost partial_cmp = { on identity_in (as_partial_cmp order_of_identities) };

    ghost laws = { on_po identity_in (partial_order_from_total identities_total) };

    fn partial_cmp(&self, other: &Identity) -> Option<Ordering> {
        Some(order_of(self, other))
    }
}

impl Ord for Identity {
    ghost cmp = { on identity_in order_of_identities };

    ghost total = { on_total identity_in identities_total };

    ghost matches_partial_cmp = { λ a b. refl };

    ghost matches_eq = { λ a b. refl };

    /// Ends, deadlocks, processes that make too many applications, refusals, and what is unread; within a kind by the
    /// process or the processes, the number of the request, the reason or the call by its name and its arguments, the
    /// number of the rule, and the owner, none before any. It takes no memory.
    fn cmp(&self, other: &Identity) -> Ordering {
        order_of(self, other)
    }
}
