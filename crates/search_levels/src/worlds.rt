// What is known of the worlds of a search.
use crate::arrival::Arrival;
use crate::rows::Rows;
use std::alloc::{AllocError, Global};
use tree_schedules::Delivery;

/// What is known of all worlds of a search, each of which is a row of numbers. It only grows while the search goes on. The
/// world of a row agrees with what happened there, and maybe with more that happened elsewhere.
pub trait Worlds: Sized {
    ghost use Rattle.std.specs.Prelude.{◌≡◌, ℕ, List, true, IfOk, OnOk};
    ghost use Rattle.std.specs.List.{AllByRecursion};
    ghost use Rattle.search_levels.specs.Arrivals.{AreArrivals, has_step, of_module};
    ghost use Rattle.search_levels.specs.Known.{FromNowOn, Grows};
    ghost use Rattle.world_model.specs.Events.{History};
    ghost use Rattle.core_tree.specs.Syntax.{ModuleTree};
    ghost use Rattle.world_model.specs.Asking.{program_of};

    // By what is known, the world of a row agrees with a history of a module.
    ghost agrees: { Self → List ℕ → ModuleTree → History → Type 0 };

    // By what is known, a row can be read.
    ghost is_of: { Self → List ℕ → Type 0 };

    // The first knows all that the second knows.
    ghost follows: { Self → Self → Type 0 };

    /// Whether some step is enabled in the world of a row. `AllocError` if there is no memory to decide it.
    fn goes_on(&mut self, alloc: Global, row: &[u32]) -> Result<bool, AllocError>
        requires { is_of self.old row.now }
        ensures goes_on { IfOk result (λ goes_on. FromNowOn follows self.new (λ k m. (h : History) → agrees k row.now m h → goes_on ≡ has_step (program_of m) h)) }
        ensures grows { Grows is_of follows self.old self.new };

    /// Puts the steps that may be taken in the world of a row where signals are delivered so, in their order, with what is after
    /// them, in the place of what was there. The digest is that of the row; those of the rows after it rest on it.
    /// `AllocError` if there is no memory for it.
    fn arrivals(
        &mut self,
        alloc: Global,
        delivery: Delivery,
        row: &[u32],
        digest: u64,
        into: &mut Rows<Arrival>,
    ) -> Result<(), AllocError>
        requires { is_of self.old row.now }
        ensures arrivals { OnOk result (FromNowOn follows self.new (λ k m. (h : History) → agrees k row.now m h → AreArrivals delivery (of_module (agrees k) m) (program_of m) h into.new)) }
        ensures of_known { OnOk result (AllByRecursion (λ r. is_of self.new r.row) into.new) }
        ensures grows { Grows is_of follows self.old self.new };

    /// As `arrivals`, but nothing is learned: `false` where something is not known that would be needed; then what is put is of
    /// no use.
    fn known_arrivals(
        &self,
        alloc: Global,
        delivery: Delivery,
        row: &[u32],
        digest: u64,
        into: &mut Rows<Arrival>,
    ) -> Result<bool, AllocError>
        requires { is_of self.now row.now }
        ensures arrivals { IfOk result (λ is_known. is_known ≡ true → FromNowOn follows self.now (λ k m. (h : History) → agrees k row.now m h → AreArrivals delivery (of_module (agrees k) m) (program_of m) h into.new)) }
        ensures of_known { IfOk result (λ is_known. is_known ≡ true → AllByRecursion (λ r. is_of self.now r.row) into.new) };
}
