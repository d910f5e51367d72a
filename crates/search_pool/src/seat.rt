// Seats at a pool.
ghost use Rattle.std.specs.Prelude.{◌≡◌, ℕ};
ghost use Rattle.world_model.specs.Requests.{Program, RunsAway};

use std::marker::{Brand, Model};
use std::sync::ledger::{Ledger, Share};

/// Which pool it is: its ledger, with one part for each seat, and the program that it explores.
pub trait PoolName: Ledger {
    /// How many seats there are.
    ghost seats: { ℕ };

    /// What the processes of the explored module ask.
    ghost program: { Program };
}

impl PoolName for Brand {
    ghost seats = { 0 };

    ghost program = { λ _ _ _. RunsAway };
}

/// A seat at a pool. Contracts see how often it took a job or gave a piece that was accepted.
#[derive(Drop)]
pub struct Seat<N: PoolName> {
    pub(crate) entries: u64,
    pub(crate) share: Share<N>,
}

impl<N: PoolName> Model for Seat<N> {
    ghost Value = { ℕ };

    ghost view = { λ s. s.entries };

    ghost invariant = { λ s. (s.share.parts ≡ 1) × (s.share.amount ≡ s.entries) };
}
