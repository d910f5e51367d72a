// What schedules show: errors and refusals.
ghost use Rattle.std.specs.Prelude.{◌≡◌, map, ◌∷◌, [], IfOk, OnOk, OnErr};
ghost use Rattle.world_identities.specs.Identities.{identity_in};
ghost use Rattle.world_identities.specs.Identities.{flags_in};
ghost use Rattle.tree_findings.specs.Merging.{with_shown, merged_findings, nothing};
ghost use Rattle.tree_findings.specs.Laws.{AddsSchedule, AddsSchedules};

use crate::list::{FindingList, put_all};
use std::alloc::{AllocError, Global};
use std::marker::Model;
use term_core::Step;
use world_identities::{Flags, Identity};

/// What schedules show, each identity once, with the least schedule that shows it. Contracts see it as the lists of
/// what is found.
pub struct Findings {
    pub(crate) errors: FindingList,
    pub(crate) refusals: FindingList,
}

// Dropped by a call, so that no crate above proves again how.
impl Drop for Findings {
    fn drop(self) {
        let Findings {
            errors: _,
            refusals: _,
        } = self;
    }
}

impl Model for Findings {
    ghost use Rattle.tree_coverage.specs.Findings as coverage;
    ghost use Rattle.tree_findings.specs.inside.FindingCodes.{coded_findings};

    ghost Value = { coverage.Findings };

    ghost coded = { coded_findings };

    ghost view = { λ f. record { errors = f.errors; refusals = f.refusals } };
}

impl Findings {
    /// Nothing is found yet. It takes no memory.
    pub fn new(alloc: Global) -> Findings
        ensures { result ≡ nothing }
    {
        Findings {
            errors: FindingList::new(alloc),
            refusals: FindingList::new(alloc),
        }
    }

    /// These errors and these refusals. It takes no memory.
    pub fn of(errors: FindingList, refusals: FindingList) -> Findings
        ensures { result ≡ record { errors = errors; refusals = refusals } }
    {
        Findings { errors, refusals }
    }

    /// The errors.
    pub fn errors(&self) -> &FindingList
        ensures { result.now ≡ self.now.errors }
    {
        &self.errors
    }

    /// The refusals.
    pub fn refusals(&self) -> &FindingList
        ensures { result.now ≡ self.now.refusals }
    {
        &self.refusals
    }

    // Adds one identity that a schedule shows, as an error, a refusal, both or neither, as far as it changes the other
    // findings that all this is merged into later.
    fn put_for(
        &mut self,
        others: &Findings,
        alloc: Global,
        flags: Flags,
        identity: &Identity,
        schedule: &[Step],
    ) -> Result<(), AllocError>
        ensures { OnOk result (merged_findings others.now self.new ≡ with_shown (flags_in flags) schedule.now (identity_in identity.now ∷ []) (merged_findings others.now self.old)) }
    {
        if identity.is_error(flags) {
            let others = &others.errors;
            self.errors.put_for(others, alloc, identity, schedule)?;
        }
        if identity.is_refusal() {
            let others = &others.refusals;
            self.refusals.put_for(others, alloc, identity, schedule)?;
        }
        Ok(())
    }

    /// All that a schedule shows: its errors under the flags and its refusals. Each identity keeps its least
    /// schedule. The schedule is copied only for an identity that is new, or has a greater one.
    ///
    /// # Errors
    ///
    /// `AllocError` if there is no memory; then the findings stay as they were.
    pub fn note(
        &mut self,
        alloc: Global,
        flags: Flags,
        identities: &[Identity],
        schedule: &[Step],
    ) -> Result<(), AllocError>
        ensures ok { OnOk result (self.new ≡ with_shown (flags_in flags) schedule.now (map identity_in identities.now) self.old) }
        ensures among { OnOk result (AddsSchedule (flags_in flags) schedule.now (map identity_in identities.now) self.old self.new) }
        ensures err { OnErr result (self.new ≡ self.old) }
    {
        let mut new = Findings::new(alloc);
        for identity in identities {
            new.put_for(self, alloc, flags, identity, schedule)?;
        }
        self.merge(new)?;
        Ok(())
    }

    /// All findings of others too: each identity keeps its least schedule.
    ///
    /// # Errors
    ///
    /// `AllocError` if there is no memory; then the findings stay as they were, and the others are dropped.
    pub fn merge(&mut self, other: Findings) -> Result<(), AllocError>
        ensures ok { OnOk result (self.new ≡ merged_findings self.old other) }
        ensures among { OnOk result (AddsSchedules self.old other self.new) }
        ensures err { OnErr result (self.new ≡ self.old) }
    {
        let errors = &mut self.errors;
        let refusals = &mut self.refusals;
        let Findings {
            errors: more_errors,
            refusals: more_refusals,
        } = other;
        errors.items.reserve(more_errors.items.len())?;
        refusals.items.reserve(more_refusals.items.len())?;
        put_all(&mut errors.items, more_errors.items);
        put_all(&mut refusals.items, more_refusals.items);
        Ok(())
    }

    /// The same findings, or `AllocError` if there is no memory for them.
    pub fn copy(&self, alloc: Global) -> Result<Findings, AllocError>
        ensures { IfOk result (λ copied. copied ≡ self.now) }
    {
        Ok(Findings {
            errors: self.errors.copy(alloc)?,
            refusals: self.refusals.copy(alloc)?,
        })
    }
}
