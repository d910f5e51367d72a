// What can stop the printing of an exploration.
ghost use Rattle.std.specs.Prelude.{◌≡◌};

use report_explained::ExplainFault;
use term_core::WriteFault;
use tree_covers::WriteCoverFault;

/// Why what an exploration prints was not written to its end. A beginning of it was.
#[derive(Clone, Copy, Debug, PartialEq, Eq)]
pub enum PrintFault {
    /// There was no memory to explain the report to its end, in text or in terms.
    ReportCutOff,
    /// There was no memory for the whole cover, which follows the report.
    CoverCutOff,
    /// The sink failed.
    Write,
}

impl From<WriteFault> for PrintFault {
    ghost use Rattle.program_runs.specs.declared.print_fault.PrintFault.TheVariants as printing;

    ghost from_gives = { λ _ stop. stop ≡ printing.Write };

    fn from(_fault: WriteFault) -> PrintFault {
        PrintFault::Write
    }
}

impl From<ExplainFault> for PrintFault {
    ghost use Rattle.program_runs.specs.Printing.{stop_of_report};

    ghost from_gives = { λ fault stop. stop ≡ stop_of_report fault };

    fn from(fault: ExplainFault) -> PrintFault {
        match fault {
            ExplainFault::Memory => PrintFault::ReportCutOff,
            ExplainFault::Write => PrintFault::Write,
        }
    }
}

impl From<WriteCoverFault> for PrintFault {
    ghost use Rattle.program_runs.specs.Printing.{stop_of_cover};

    ghost from_gives = { λ fault stop. stop ≡ stop_of_cover fault };

    fn from(fault: WriteCoverFault) -> PrintFault {
        match fault {
            WriteCoverFault::Memory => PrintFault::CoverCutOff,
            WriteCoverFault::Write => PrintFault::Write,
        }
    }
}
