// A piece of work that was done.
ghost use Rattle.std.specs.Prelude.{◌≡◌, IfOk};
ghost use Rattle.search_jobs.specs.Explorations.{exploration_in};
ghost use Rattle.search_jobs.specs.Pieces.{IsPiece};

use crate::exploration::Exploration;
use crate::job::Job;
use crate::names::Ticket;
use std::alloc::{AllocError, Global};
use std::marker::Model;
use tree_findings::{Extent, Findings};

/// What was found in a job, how many nodes were visited and at how many of them the tree is cut, and the jobs of the
/// others, in the order in which the search visits them. It holds the ticket of the job, and what is explored.
pub struct Piece<'m> {
    ticket: Ticket,
    exploration: Exploration<'m>,
    findings: Findings,
    extent: Extent,
    rest: Vec<Job<'m>>,
}

// Dropped by a call, so that no crate above proves again how.
impl Drop for Piece<'_> {
    fn drop(self) {
        let Piece {
            ticket: _,
            exploration: _,
            findings: _,
            extent: _,
            rest: _,
        } = self;
    }
}

impl<'m> Model for Piece<'m> {
    ghost use Rattle.search_jobs.specs.Explorations.{exploration_in};
    ghost use Rattle.search_jobs.specs.Pieces.{PieceSeen, IsPiece};
    ghost use Rattle.search_jobs.specs.inside.Codes.{coded_piece};

    ghost Value = { PieceSeen };

    ghost coded = { coded_piece };

    ghost view = { λ p. record { ticket = p.ticket; exploration = exploration_in p.exploration; findings = p.findings; extent = p.extent; rest = p.rest.items } };

    ghost invariant = { λ p. IsPiece (exploration_in p.exploration) p.ticket.name p.findings p.extent p.rest.items };
}

// A copy of jobs, or `AllocError` if there is no memory for it.
fn copy_jobs<'m>(alloc: Global, jobs: &[Job<'m>]) -> Result<Vec<Job<'m>>, AllocError>
    ensures { IfOk result (λ copied. copied.items ≡ jobs.now) }
{
    let mut copied = Vec::with_capacity(alloc, jobs.len())?;
    for job in jobs {
        copied.push(job.copy(alloc)?)?;
    }
    Ok(copied)
}

impl<'m> Piece<'m> {
    /// The piece of these parts: what the nodes of the ticket's job that were visited show, how many they are and at
    /// how many of them the tree is cut, and the jobs of the others.
    pub fn of(
        ticket: Ticket,
        exploration: Exploration<'m>,
        findings: Findings,
        extent: Extent,
        rest: Vec<Job<'m>>,
    ) -> Piece<'m>
        requires { IsPiece (exploration_in exploration) ticket.name findings extent rest.items }
        ensures { result ≡ record { ticket = ticket; exploration = exploration_in exploration.entry; findings = findings; extent = extent; rest = rest.entry.items } }
    {
        Piece {
            ticket,
            exploration,
            findings,
            extent,
            rest,
        }
    }

    /// The job, as it was handed out.
    pub fn ticket(&self) -> &Ticket
        ensures { result.now ≡ self.now.ticket }
    {
        &self.ticket
    }

    /// What is explored.
    pub fn exploration(&self) -> Exploration<'m>
        ensures { exploration_in result ≡ self.now.exploration }
    {
        self.exploration
    }

    /// How many nodes were visited, and at how many of them the tree is cut.
    pub fn extent(&self) -> Extent
        ensures { result ≡ self.now.extent }
    {
        self.extent
    }

    /// What the nodes that were visited show, and the jobs of the others; the rest of it is let go.
    pub fn into_parts(self) -> (Findings, Vec<Job<'m>>)
        ensures found { result.0 ≡ self.entry.findings }
        ensures rest { result.1.items ≡ self.entry.rest }
        ensures piece { IsPiece self.entry.exploration self.entry.ticket.name self.entry.findings self.entry.extent self.entry.rest }
    {
        let Piece {
            ticket: _,
            exploration: _,
            findings,
            extent: _,
            rest,
        } = self;
        (findings, rest)
    }

    /// The same piece, or `AllocError` if there is no memory for it.
    pub fn copy(&self, alloc: Global) -> Result<Piece<'m>, AllocError>
        ensures { IfOk result (λ copied. copied ≡ self.now) }
    {
        Ok(Piece {
            ticket: self.ticket.copy(alloc)?,
            exploration: self.exploration,
            findings: self.findings.copy(alloc)?,
            extent: self.extent,
            rest: copy_jobs(alloc, self.rest.as_slice())?,
        })
    }
}
