// Links and watches (Erlang reference manual, "Processes": "Links" and "Monitors").
ghost use Rattle.std.specs.Prelude.{◌≡◌, OnOk};
ghost use Rattle.world_model.specs.Names.{ref_of};
ghost use Rattle.world_model.specs.ProcessLines.{pair_begins, watch_begins};
ghost use Rattle.world_model.specs.Signals.{pair_goes};
ghost use Rattle.world_records.specs.Records.{Follows};

use crate::records::Records;
use std::alloc::{AllocError, Global};
use term_core::{Pid, RefId};

impl<'m> Records<'m> {
    /// Two processes are linked. `AllocError` if there is no memory.
    pub(crate) fn pair(&mut self, alloc: Global, pid: &Pid, other: &Pid) -> Result<(), AllocError>
        ensures { OnOk result (Follows (λ v. pair_begins pid.now other.now) self.old self.new) }
    {
        self.links.pair(alloc, pid, other)?;
        Ok(())
    }

    /// Two processes are no longer linked. `AllocError` if there is no memory.
    pub(crate) fn unpair(&mut self, pid: &Pid, other: &Pid) -> Result<(), AllocError>
        ensures { OnOk result (Follows (λ v. pair_goes pid.now other.now) self.old self.new) }
    {
        self.links.unpair(pid, other)?;
        Ok(())
    }

    /// A reference watches a process. `AllocError` if there is no memory.
    pub(crate) fn watch(
        &mut self,
        alloc: Global,
        reference: &RefId,
        target: &Pid,
    ) -> Result<(), AllocError>
        ensures { OnOk result (Follows (λ v. watch_begins (ref_of reference.now) target.now) self.old self.new) }
    {
        self.watchers.watch(alloc, reference, target)?;
        Ok(())
    }
}
