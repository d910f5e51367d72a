// The places of a world: each holds a part of it that is kept once.
ghost use Rattle.std.specs.Prelude.{◌≡◌, true, IfOk, OnOk};
ghost use Rattle.core_tree.specs.Syntax.{ModuleTree};
ghost use Rattle.world_model.specs.Cells.{Contents};
ghost use Rattle.world_records.specs.declared.place.Place.TheVariants.{Inbox, Watches};
ghost use Rattle.world_records.specs.Places.{AgreesTooAt, AreOfOne, TakesPlace, same_place};

use crate::records::Records;
use std::alloc::AllocError;
use std::hash::{FoldHasher, Hasher};
use term_core::Pid;

/// A place of the explored world. Each cell lies in one.
#[derive(Drop)]
pub enum Place {
    /// The course of a process.
    Course(Pid),
    /// The mailbox of a process, and whether it lives and traps exits.
    Inbox(Pid),
    /// The channel from the first process to the second.
    Channel(Pid, Pid),
    /// All links.
    Links,
    /// All watches, and what lets messages in that are sent to references.
    Watches,
    /// The names of all processes.
    Names,
    /// All tables, with their rows and owners, and the names that mean them.
    Tables,
}

impl Place {
    /// Whether it is the same place. It takes no memory.
    pub fn is(&self, other: &Place) -> bool
        ensures { result ≡ same_place self.now other.now }
    {
        match (self, other) {
            (Place::Course(one), Place::Course(two)) => *one == *two,
            (Place::Inbox(one), Place::Inbox(two)) => *one == *two,
            (Place::Channel(from, to), Place::Channel(other_from, other_to)) => {
                *from == *other_from && *to == *other_to
            }
            (Place::Links, Place::Links) => true,
            (Place::Watches, Place::Watches) => true,
            (Place::Names, Place::Names) => true,
            (Place::Tables, Place::Tables) => true,
            _ => false,
        }
    }

    /// The same place, or `AllocError` where the copies can no longer be counted.
    pub fn copy(&self) -> Result<Place, AllocError>
        ensures { IfOk result (λ copied. copied ≡ self.now) }
    {
        match self {
            Place::Course(pid) => Ok(Place::Course(pid.copy()?)),
            Place::Inbox(pid) => Ok(Place::Inbox(pid.copy()?)),
            Place::Channel(from, to) => Ok(Place::Channel(from.copy()?, to.copy()?)),
            Place::Links => Ok(Place::Links),
            Place::Watches => Ok(Place::Watches),
            Place::Names => Ok(Place::Names),
            Place::Tables => Ok(Place::Tables),
        }
    }
}

impl<'m> Records<'m> {
    /// Takes over what other records of the same module have at one place; all other places stay. `AllocError` if there is
    /// no memory: then these may be changed in part.
    pub fn take_place(&mut self, place: &Place, other: &Records<'m>) -> Result<(), AllocError>
        ensures { OnOk result (AreOfOne self.old other.now → TakesPlace place.now other.now self.old self.new) }
    {
        match place {
            Place::Course(pid) => self.processes.take_course(pid, &other.processes),
            Place::Inbox(pid) => self.take_inbox(pid, other),
            Place::Channel(from, to) => self.channels.take_from(from, to, &other.channels),
            Place::Links => {
                self.links = other.links.copy()?;
                Ok(())
            }
            Place::Watches => self.take_watches(other),
            Place::Names => {
                self.names = other.names.copy()?;
                Ok(())
            }
            Place::Tables => {
                self.tables = other.tables.copy()?;
                Ok(())
            }
        }
    }

    // Takes over the mailbox of a process, and whether it lives and traps exits.
    fn take_inbox(&mut self, pid: &Pid, other: &Records<'m>) -> Result<(), AllocError>
        ensures { OnOk result (AreOfOne self.old other.now → TakesPlace (Inbox pid.now) other.now self.old self.new) }
    {
        self.processes.take_flags(pid, &other.processes)?;
        self.mailboxes.take_from(pid, &other.mailboxes)
    }

    // Takes over all watches, and what lets messages in that are sent to references.
    fn take_watches(&mut self, other: &Records<'m>) -> Result<(), AllocError>
        ensures { OnOk result (TakesPlace Watches other.now self.old self.new) }
    {
        self.watchers = other.watchers.copy()?;
        self.guards = other.guards.copy()?;
        Ok(())
    }

    /// Whether the two are the same at one place: where it is so, and both are of one module, these agree there with all that
    /// the others agree with. It takes no memory.
    pub fn is_same_at(&self, place: &Place, other: &Records<'_>) -> bool
        ensures { result ≡ true → AgreesTooAt place.now self.now other.now }
    {
        match place {
            Place::Course(pid) => self.processes.is_same_course(pid, &other.processes),
            Place::Inbox(pid) => self.is_same_inbox(pid, other),
            Place::Channel(from, to) => self.channels.is_same_between(from, to, &other.channels),
            Place::Links => self.links.is_same(&other.links),
            Place::Watches => self.is_same_watched(other),
            Place::Names => self.names.is_same(&other.names),
            Place::Tables => self.tables.is_same(&other.tables),
        }
    }

    // Whether a process has the same messages in both, and lives and traps exits in both or in none.
    fn is_same_inbox(&self, pid: &Pid, other: &Records<'_>) -> bool
        ensures { result ≡ true → AgreesTooAt (Inbox pid.now) self.now other.now }
    {
        if !self.processes.is_same_flags(pid, &other.processes) {
            return false;
        }
        self.mailboxes.is_same_at(pid, &other.mailboxes)
    }

    // Whether each reference watches the same process in both, and has the same guard.
    fn is_same_watched(&self, other: &Records<'_>) -> bool
        ensures { result ≡ true → AgreesTooAt Watches self.now other.now }
    {
        if !self.watchers.is_same(&other.watchers) {
            return false;
        }
        self.guards.is_same(&other.guards)
    }

    /// A number by which a search finds records that may be the same at one place: those that are have the same. It takes
    /// no memory.
    pub fn digest_at(&self, place: &Place) -> u64 {
        let mut hasher = FoldHasher::default();
        match place {
            Place::Course(pid) => self.processes.feed_course(pid, &mut hasher),
            Place::Inbox(pid) => {
                self.processes.feed_flags(pid, &mut hasher);
                self.mailboxes.feed_at(pid, &mut hasher);
            }
            Place::Channel(from, to) => self.channels.feed_between(from, to, &mut hasher),
            Place::Links => self.links.feed(&mut hasher),
            Place::Watches => {
                self.watchers.feed(&mut hasher);
                self.guards.feed(&mut hasher);
            }
            Place::Names => self.names.feed(&mut hasher),
            Place::Tables => self.tables.feed(&mut hasher),
        }
        hasher.finish()
    }
}
