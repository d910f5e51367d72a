// What is planned of a step so far: the cells that it reads, and what it changes.
ghost use Rattle.std.specs.Prelude.{◌≡◌, ◌∷◌, [], IfOk, OnOk};
ghost use Rattle.ets_rules.specs.Changes.{all_changes_of_tables, sent_by};
ghost use Rattle.world_model.specs.Names.{ref_of};
ghost use Rattle.world_planned.specs.inside.Planned.{Adds};
ghost use Rattle.term_core.specs.Term.{meaning_of};
ghost use Rattle.world_model.specs.Cells as cells;
ghost use Rattle.world_model.specs.Changes as touched;
ghost use Rattle.world_records.specs.Cells.{cell_in, cells_in, channel_cell, name_cell, process_cell, reference_cell};
ghost use Rattle.world_records.specs.Changes.{all_changes_in, changes_in};

use ets_rules::{TableChange, Transfer};
use proc_signals::Signal;
use std::alloc::{AllocError, Global};
use term_core::{Atom, Pid, RefId, Term};
use world_records::{Cell, Change, ChannelPart, NamePart, ProcessPart, ReferencePart};

// How many cells there is room for at first.
const ROOM: usize = 8;

/// The cells that a step reads, and what it changes other than that its turn counts or its signal leaves the channel,
/// both in the order of the definitions of the explored world.
#[derive(Drop)]
pub struct Planned {
    /// The cells that it reads.
    pub reads: Vec<Cell>,
    /// What it changes.
    pub changes: Vec<Change>,
}

impl Planned {
    /// Nothing is planned yet; there is room for the cells that most steps read. `AllocError` if there is no memory.
    pub fn new(alloc: Global) -> Result<Planned, AllocError>
        ensures reads { IfOk result (λ planned. cells_in planned.reads.items ≡ []) }
        ensures changes { IfOk result (λ planned. all_changes_in planned.changes.items ≡ []) }
    {
        Ok(Planned {
            reads: Vec::with_capacity(alloc, ROOM)?,
            changes: Vec::new(alloc),
        })
    }

    /// A cell is read. `AllocError` if there is no memory.
    #[tactic(auto, using(crate::proofs::Adding::one_cell, crate::proofs::Adding::end_nil))]
    pub fn read(&mut self, cell: Cell) -> Result<(), AllocError>
        ensures { OnOk result (Adds (cell_in cell ∷ []) [] self.old self.new) }
    {
        self.reads.push(cell)?;
        Ok(())
    }

    /// Something changes. `AllocError` if there is no memory.
    #[tactic(auto, using(crate::proofs::Adding::one_change, crate::proofs::Adding::end_nil))]
    pub fn change(&mut self, change: Change) -> Result<(), AllocError>
        ensures { OnOk result (Adds [] (changes_in change) self.old self.new) }
    {
        self.changes.push(change)?;
        Ok(())
    }

    /// The tables change in all these ways, one after the other. `AllocError` if there is no memory.
    pub fn change_tables(&mut self, changes: Vec<TableChange>) -> Result<(), AllocError>
        ensures { OnOk result (Adds [] (all_changes_of_tables changes.items) self.old self.new) }
    {
        for change in changes {
            self.change(Change::OfTables(change))?;
        }
        Ok(())
    }

    /// A process puts the message to a new owner of a table, if there is one. `AllocError` if there is no memory.
    pub fn tell_owner(&mut self, from: &Pid, transfer: Option<Transfer>) -> Result<(), AllocError>
        ensures { OnOk result (Adds [] (sent_by from.now transfer) self.old self.new) }
    {
        match transfer {
            Some(Transfer { to, message }) => {
                self.change(Change::SignalPut(from.copy()?, to, Signal::Message(message)))
            }
            None => Ok(()),
        }
    }

    /// A cell of a process is read. `AllocError` if there is no memory.
    pub fn read_process(&mut self, part: ProcessPart, pid: &Pid) -> Result<(), AllocError>
        ensures { OnOk result (Adds (process_cell part pid.now ∷ []) [] self.old self.new) }
    {
        self.read(Cell::OfProcess(part, pid.copy()?))
    }

    /// A cell of a channel is read. `AllocError` if there is no memory.
    pub fn read_channel(
        &mut self,
        part: ChannelPart,
        from: &Pid,
        to: &Pid,
    ) -> Result<(), AllocError>
        ensures { OnOk result (Adds (channel_cell part from.now to.now ∷ []) [] self.old self.new) }
    {
        self.read(Cell::OfChannel(part, from.copy()?, to.copy()?))
    }

    /// A cell of a name is read. `AllocError` if there is no memory.
    pub fn read_name(&mut self, part: NamePart, name: &Atom) -> Result<(), AllocError>
        ensures { OnOk result (Adds (name_cell part name.now ∷ []) [] self.old self.new) }
    {
        self.read(Cell::OfName(part, name.copy()?))
    }

    /// A cell of a reference is read. `AllocError` if there is no memory.
    pub fn read_reference(&mut self, part: ReferencePart, id: &RefId) -> Result<(), AllocError>
        ensures { OnOk result (Adds (reference_cell part (ref_of id.now) ∷ []) [] self.old self.new) }
    {
        self.read(Cell::OfReference(part, id.copy()?))
    }

    /// The row of a key of a table is read. `AllocError` if there is no memory.
    pub fn read_row(&mut self, id: &RefId, key: &Term) -> Result<(), AllocError>
        ensures { OnOk result (Adds (cells.Row (ref_of id.now) (meaning_of key.now) ∷ []) [] self.old self.new) }
    {
        self.read(Cell::Row(id.copy()?, key.copy()?))
    }

    /// All rows of a table are read. `AllocError` if there is no memory.
    pub fn read_rows(&mut self, id: &RefId) -> Result<(), AllocError>
        ensures { OnOk result (Adds (cells.Rows (ref_of id.now) ∷ []) [] self.old self.new) }
    {
        self.read(Cell::Rows(id.copy()?))
    }

    /// Who holds any name is read. `AllocError` if there is no memory.
    pub fn read_holders(&mut self) -> Result<(), AllocError>
        ensures { OnOk result (Adds (cells.Holders ∷ []) [] self.old self.new) }
    {
        self.read(Cell::Holders)
    }

    /// A cell of a process counts as written, and holds what it did. `AllocError` if there is no memory.
    pub fn touch_process(&mut self, part: ProcessPart, pid: &Pid) -> Result<(), AllocError>
        ensures { OnOk result (Adds [] (touched.CellTouched (process_cell part pid.now) ∷ []) self.old self.new) }
    {
        self.change(Change::CellTouched(Cell::OfProcess(part, pid.copy()?)))
    }

    /// A cell of a reference counts as written, and holds what it did. `AllocError` if there is no memory.
    pub fn touch_reference(&mut self, part: ReferencePart, id: &RefId) -> Result<(), AllocError>
        ensures { OnOk result (Adds [] (touched.CellTouched (reference_cell part (ref_of id.now)) ∷ []) self.old self.new) }
    {
        self.change(Change::CellTouched(Cell::OfReference(part, id.copy()?)))
    }
}
