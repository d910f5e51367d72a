// All parts of a world.
ghost use Rattle.std.specs.Prelude.{◌≡◌, IfOk};
ghost use Rattle.world_model.specs.World.{beginning};
ghost use Rattle.world_records.specs.Places.{AreAlikeAt};
ghost use Rattle.world_records.specs.Records.{Agrees, AreAlike, channels_of, guards_of, links_of, mailboxes_of, names_of, processes_of, tables_of, watchers_of};

use core_tree::Module;
use ets_rules::Tables;
use proc_links::{Guards, Links, Names, Watchers};
use proc_machines::Processes;
use proc_mailboxes::Mailboxes;
use proc_signals::Channels;
use std::alloc::{AllocError, Global};

/// The parts of a world: its processes, what each has in its mailbox, the signals on their way, links, watches, what
/// guards references, names, and the tables. Copies share all of it until one of them is changed.
pub struct Records<'m> {
    pub(crate) processes: Processes<'m>,
    pub(crate) mailboxes: Mailboxes,
    pub(crate) channels: Channels,
    pub(crate) links: Links,
    pub(crate) watchers: Watchers,
    pub(crate) guards: Guards,
    pub(crate) names: Names,
    pub(crate) tables: Tables,
}

// Dropped by a call, so that no crate above proves again how.
impl Drop for Records<'_> {
    fn drop(self) {
        let Records {
            processes: _,
            mailboxes: _,
            channels: _,
            links: _,
            watchers: _,
            guards: _,
            names: _,
            tables: _,
        } = self;
    }
}

impl<'m> Records<'m> {
    /// The parts in the beginning: the first process is at the first request of `main/0` of the module, and all else is
    /// empty. `AllocError` if there is no memory.
    pub fn open(alloc: Global, program: &'m Module) -> Result<Records<'m>, AllocError>
        ensures { IfOk result (λ opened. Agrees program.now opened beginning) }
    {
        Ok(Records {
            processes: Processes::open(alloc, program)?,
            mailboxes: Mailboxes::new(alloc)?,
            channels: Channels::new(alloc)?,
            links: Links::new(alloc)?,
            watchers: Watchers::new(alloc)?,
            guards: Guards::new(alloc)?,
            names: Names::new(alloc)?,
            tables: Tables::new(alloc)?,
        })
    }

    /// The same parts, which share memory with these, or `AllocError` where the copies can no longer be counted. It
    /// is one step for each part, whatever they hold.
    pub fn copy(&self) -> Result<Records<'m>, AllocError>
        ensures alike { IfOk result (λ copied. AreAlike self.now copied) }
        ensures places { IfOk result (λ copied. AreAlikeAt self.now copied) }
    {
        Ok(Records {
            processes: self.processes.copy()?,
            mailboxes: self.mailboxes.copy()?,
            channels: self.channels.copy()?,
            links: self.links.copy()?,
            watchers: self.watchers.copy()?,
            guards: self.guards.copy()?,
            names: self.names.copy()?,
            tables: self.tables.copy()?,
        })
    }

    /// The processes. It takes no memory.
    pub fn processes(&self) -> &Processes<'m>
        ensures { result.now ≡ processes_of self.now }
    {
        &self.processes
    }

    /// The mailboxes. It takes no memory.
    pub fn mailboxes(&self) -> &Mailboxes
        ensures { result.now ≡ mailboxes_of self.now }
    {
        &self.mailboxes
    }

    /// The signals on their way. It takes no memory.
    pub fn channels(&self) -> &Channels
        ensures { result.now ≡ channels_of self.now }
    {
        &self.channels
    }

    /// The links. It takes no memory.
    pub fn links(&self) -> &Links
        ensures { result.now ≡ links_of self.now }
    {
        &self.links
    }

    /// The watches. It takes no memory.
    pub fn watchers(&self) -> &Watchers
        ensures { result.now ≡ watchers_of self.now }
    {
        &self.watchers
    }

    /// What lets messages in that are sent to references. It takes no memory.
    pub fn guards(&self) -> &Guards
        ensures { result.now ≡ guards_of self.now }
    {
        &self.guards
    }

    /// The names of processes. It takes no memory.
    pub fn names(&self) -> &Names
        ensures { result.now ≡ names_of self.now }
    {
        &self.names
    }

    /// The tables. It takes no memory.
    pub fn tables(&self) -> &Tables
        ensures { result.now ≡ tables_of self.now }
    {
        &self.tables
    }
}
