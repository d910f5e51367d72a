// Tickets in the order of their numbers.
ghost use Rattle.std.specs.Prelude.{◌≡◌, ◌<◌, MatchOption, length, slice_index_or};
ghost use Rattle.std.specs.List.{Contains};
ghost use Rattle.std.specs.Ordering.{nat_cmp};
ghost use Rattle.search_pool.specs.inside.Frontiers.{AreRising};

use crate::sameness::is_ticket;
use search_jobs::Ticket;
use std::cmp::Ordering;

// Whether a ticket has a lesser number, this one, or a greater one.
fn order_of(ticket: &Ticket, number: u64) -> Ordering
    ensures { result ≡ nat_cmp ticket.now.number number }
{
    ticket.number.cmp(&number)
}

/// Where a ticket is among those that are out, if it is.
pub(crate) fn place_of(out: &[Ticket], ticket: &Ticket) -> Option<usize>
    requires { AreRising out.now }
    ensures { MatchOption result (Contains out.now ticket.now → ⊥) (λ at. (at < length out.now) × (slice_index_or out.now at ticket.now ≡ ticket.now)) }
{
    let number = ticket.number;
    match out.binary_search_by(|other| order_of(other, number)) {
        Ok(at) => {
            if is_ticket(&out[at], ticket) {
                Some(at)
            } else {
                None
            }
        }
        Err(_) => None,
    }
}
