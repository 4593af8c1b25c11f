//! Why a report was not written.

ghost use Rattle.std.specs.Prelude.{◌≡◌};
ghost use Rattle.tracer.specs.FaultText.{report_fault_text};

use std::fmt;

/// Why a report was not written.
#[derive(Clone, Copy, Debug, PartialEq, Eq, Hash)]
pub enum ReportFault {
    /// The sink failed. A prefix of the report was appended.
    Write,
    /// Memory ran out. Nothing was appended.
    NoMemory,
}

impl ReportFault {
    /// The fault in words. It takes no memory.
    pub fn text(&self) -> &'static str
        ensures { result.now ≡ report_fault_text self.now }
    {
        match self {
            ReportFault::Write => "cannot write",
            ReportFault::NoMemory => "no memory",
        }
    }
}

impl fmt::Display for ReportFault {
    ghost use Rattle.std.specs.Prelude.{Some};
    ghost use Rattle.tracer.specs.FaultText.{report_fault_text};

    ghost output = { λ fault. Some (report_fault_text fault) };

    fn fmt<W: fmt::Write>(&self, f: &mut fmt::Formatter<W>) -> fmt::Result {
        f.write_str(self.text())
    }
}
