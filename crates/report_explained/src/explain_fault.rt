// What can stop the writing of an explained report.
ghost use Rattle.std.specs.Prelude.{◌≡◌};
ghost use Rattle.report_explained.specs.declared.explain_fault.ExplainFault.TheVariants.{Write as WriteFailed};

use term_core::WriteFault;

/// Why an explained report was not written to its end. A beginning of it was.
#[derive(Clone, Copy, Debug, PartialEq, Eq)]
pub enum ExplainFault {
    /// There was no memory.
    Memory,
    /// The sink failed.
    Write,
}

impl From<WriteFault> for ExplainFault {
    ghost from_gives = { λ _ fault. fault ≡ WriteFailed };

    fn from(_fault: WriteFault) -> ExplainFault {
        ExplainFault::Write
    }
}
