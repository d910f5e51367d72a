// Findings in order, each identity once.
ghost use Rattle.std.specs.Prelude.{◌≡◌, ◌↔◌, ◌+◌, ◌<◌, ◌≤◌, length, [], map, vec_len, vec_capacity, IfOk, IfErr, IsOk, IsTrue, OnOk, OnErr};
ghost use Rattle.std.specs.List.{HoldsAt};
ghost use Rattle.world_identities.specs.Order.{order_of_identities};
ghost use Rattle.world_identities.specs.Identities.{identity_in};
ghost use Rattle.tree_coverage.specs.Findings.{with_finding, lesser, AreSorted};
ghost use Rattle.tree_findings.specs.Merging.{merged};
ghost use Rattle.tree_findings.specs.Found.{finding_in};
ghost use Rattle.tree_findings.specs.inside.Places.{IsPlaceFor};

use crate::finding::Finding;
use std::alloc::{AllocError, Global};
use std::cmp::Ordering;
use std::marker::Model;
use term_core::Step;
use term_core::order::steps::compare_schedules;
use world_identities::Identity;

/// Findings in the order of their identities, each identity once. Contracts see them as the list of what they are.
#[derive(Drop)]
pub struct FindingList {
    pub(crate) items: Vec<Finding>,
}

impl Model for FindingList {
    ghost use Rattle.std.specs.Prelude.{List, map};
    ghost use Rattle.std.specs.Coded.{coded_list};
    ghost use Rattle.tree_coverage.specs.Findings.{Finding, AreSorted};
    ghost use Rattle.tree_findings.specs.inside.FindingCodes.{coded_finding};

    ghost Value = { List Finding };

    ghost coded = { coded_list coded_finding };

    ghost use Rattle.tree_findings.specs.Found.{finding_in};

    ghost view = { λ l. map finding_in l.items.items };

    ghost invariant = { λ l. AreSorted (map finding_in l.items.items) };
}

// Where the identity is among findings in order, or else where it would be put in.
fn place_of(items: &[Finding], identity: &Identity) -> Result<usize, usize>
    ensures within { IfOk result (λ at. at < length items.now) }
    ensures there { IfOk result (HoldsAt (λ f. order_of_identities (finding_in f).identity (identity_in identity.now) ≡ Ordering.Equal) items.now) }
    ensures room { IfErr result (λ at. at ≤ length items.now) }
    ensures between { IfErr result (λ at. AreSorted (map finding_in items.now) → IsPlaceFor (identity_in identity.now) items.now at) }
{
    items.binary_search_by(|finding| finding.identity.cmp(identity))
}

// Keeps the lesser of two schedules, the new one first.
fn keep_lesser(finding: &mut Finding, schedule: Vec<Step>)
    ensures { finding_in finding.new ≡ record { identity = identity_in finding.old.identity; schedule = lesser schedule.items finding.old.schedule.items } }
{
    if !compare_schedules(schedule.as_slice(), finding.schedule.as_slice()).is_gt() {
        finding.schedule = schedule;
    }
}

// One more finding, where there is room for it.
fn put(items: &mut Vec<Finding>, finding: Finding)
    requires room { vec_len items.old < vec_capacity items.old }
    requires sorted { AreSorted (map finding_in items.old.items) }
    ensures items { map finding_in items.new.items ≡ with_finding (finding_in finding) (map finding_in items.old.items) }
    ensures room { vec_capacity items.old ≤ vec_capacity items.new }
    ensures len { vec_len items.new ≤ vec_len items.old + 1 }
{
    match place_of(items.as_slice(), &finding.identity) {
        Ok(at) => keep_lesser(&mut items[at], finding.schedule),
        Err(at) => {
            if items.insert(at, finding).is_err() {
                unreachable!();
            }
        }
    }
}

/// All findings of a list in order, where there is room for them.
pub(crate) fn put_all(items: &mut Vec<Finding>, more: Vec<Finding>)
    requires room { vec_len items.old + vec_len more ≤ vec_capacity items.old }
    requires sorted { AreSorted (map finding_in items.old.items) }
    ensures items { map finding_in items.new.items ≡ merged (map finding_in items.old.items) (map finding_in more.items) }
    ensures sorted { AreSorted (map finding_in items.new.items) }
{
    let mut more = more;
    while let Some(finding) = more.pop() {
        put(items, finding);
    }
}

// A copy of findings, or `AllocError` if there is no memory for them.
fn copy_all(alloc: Global, items: &[Finding]) -> Result<Vec<Finding>, AllocError>
    ensures { IfOk result (λ copied. map finding_in copied.items ≡ map finding_in items.now) }
{
    let mut copied = Vec::with_capacity(alloc, items.len())?;
    for finding in items {
        copied.push(finding.copy(alloc)?)?;
    }
    Ok(copied)
}

impl FindingList {
    /// No findings. It takes no memory.
    pub fn new(alloc: Global) -> FindingList
        ensures { result ≡ [] }
    {
        FindingList {
            items: Vec::new(alloc),
        }
    }

    /// How many there are.
    pub fn len(&self) -> usize
        ensures { result ≡ length self.now }
    {
        self.items.len()
    }

    /// All of them, in the order of their identities.
    pub fn as_slice(&self) -> &[Finding]
        ensures all { map finding_in result.now ≡ self.now }
        ensures sorted { AreSorted self.now }
    {
        self.items.as_slice()
    }

    // Whether the identity is here with a schedule that is not greater: exactly then the list stays as it is with this
    // schedule too. It takes no memory.
    fn has_lesser(&self, identity: &Identity, schedule: &[Step]) -> bool
        ensures { IsTrue result ↔ (with_finding (record { identity = identity_in identity.now; schedule = schedule.now }) self.now ≡ self.now) }
    {
        let items = self.items.as_slice();
        match place_of(items, identity) {
            Ok(at) => !compare_schedules(items[at].schedule.as_slice(), schedule).is_gt(),
            Err(_) => false,
        }
    }

    /// One more schedule for an identity, which stays where it is less than the one before.
    ///
    /// # Errors
    ///
    /// `AllocError` if there is no memory; then the findings stay as they were, and the finding is dropped.
    pub fn put(&mut self, finding: Finding) -> Result<(), AllocError>
        ensures ok { OnOk result (self.new ≡ with_finding (finding_in finding) self.old) }
        ensures err { OnErr result (self.new ≡ self.old) }
    {
        self.items.reserve(1)?;
        put(&mut self.items, finding);
        Ok(())
    }

    /// A copy of a finding that is to be put into others later, where it changes them. Where they have a schedule that
    /// is not greater for the identity, nothing is copied.
    ///
    /// # Errors
    ///
    /// `AllocError` if there is no memory, and only where something is copied.
    pub(crate) fn put_for(
        &mut self,
        others: &FindingList,
        alloc: Global,
        identity: &Identity,
        schedule: &[Step],
    ) -> Result<(), AllocError>
        ensures ok { OnOk result (merged others.now self.new ≡ with_finding (record { identity = identity_in identity.now; schedule = schedule.now }) (merged others.now self.old)) }
        ensures succeeds { with_finding (record { identity = identity_in identity.now; schedule = schedule.now }) others.now ≡ others.now → IsOk result }
        ensures same { with_finding (record { identity = identity_in identity.now; schedule = schedule.now }) others.now ≡ others.now → self.new ≡ self.old }
    {
        if others.has_lesser(identity, schedule) {
            return Ok(());
        }
        self.put(Finding::of(alloc, identity, schedule)?)
    }

    /// All findings of another list too: each identity keeps its least schedule.
    ///
    /// # Errors
    ///
    /// `AllocError` if there is no memory; then the findings stay as they were, and the other list is dropped.
    pub fn merge(&mut self, other: FindingList) -> Result<(), AllocError>
        ensures ok { OnOk result (self.new ≡ merged self.old other) }
        ensures err { OnErr result (self.new ≡ self.old) }
    {
        self.items.reserve(other.items.len())?;
        put_all(&mut self.items, other.items);
        Ok(())
    }

    /// The same findings, or `AllocError` if there is no memory for them.
    pub fn copy(&self, alloc: Global) -> Result<FindingList, AllocError>
        ensures { IfOk result (λ copied. copied ≡ self.now) }
    {
        let items = copy_all(alloc, self.items.as_slice())?;
        Ok(FindingList { items })
    }
}
