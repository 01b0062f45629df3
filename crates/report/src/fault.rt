//! Faults that end the program.

ghost use Rattle.std.specs.Prelude.{◌≡◌};
ghost use Rattle.report.specs.FaultText.{status_of};

use outside::Slot;
use uc_model::{FieldRefusal, NoMemory, Refusal};

/// Why a certificate that holds for an instance has no uplifts at the table that is asked, in the order in which these are looked for.
#[derive(Clone, Copy, Debug)]
pub enum UpliftRefusal {
    /// C11: it has no schedule.
    NoSchedule,
    /// C12: the schedule's watts aren't whole.
    Fractions,
    /// C13: it has no table of the number.
    NoTable,
    /// C14: the table is a ray, and has no scale at which its numbers are prices.
    Ray,
}

/// Why the program ends without an answer.
#[derive(Debug, Drop)]
pub enum Fault {
    /// The words of the command line are none that the program knows.
    Words,
    /// A file could not be opened or read.
    Read(Slot),
    /// The certificate, or with `output` the standard output, could not be written.
    Write { output: bool },
    /// Memory was refused.
    Memory,
    /// A file has more bytes than are read.
    Long(Slot),
    /// The instance's byte `at`, from 0, is at fault: 1 no UTF-8, 2 no JSON, 3 nested too deep, 4 a key
    /// twice, 5 an unpaired surrogate.
    Json { at: usize, kind: u8 },
    /// A field of the instance is refused.
    Instance(FieldRefusal),
    /// The certificate's line, from 1, is at fault: 1 its form, 2 it is cut short, 3 bytes follow the end.
    Line { line: u64, kind: u8 },
    /// The certificate does not hold for the instance.
    Code(Refusal),
    /// The certificate holds for the instance, and has no uplifts at the table that is asked.
    NoUplift(UpliftRefusal),
}

impl Fault {
    /// The exit status: 4 for a faulty instance, 5 faulty words, 6 a read, 7 a write, 8 memory, 9 a
    /// certificate that is refused, or that has no uplifts.
    pub fn code(&self) -> u8
        ensures { result ≡ status_of self.now }
    {
        match self {
            Fault::Words => 5,
            Fault::Read(_) => 6,
            Fault::Write { .. } => 7,
            Fault::Memory => 8,
            Fault::Long(Slot::Instance) | Fault::Json { .. } | Fault::Instance(_) => 4,
            Fault::Long(_) | Fault::Line { .. } | Fault::Code(_) | Fault::NoUplift(_) => 9,
        }
    }
}

impl From<NoMemory> for Fault {
    ghost use Rattle.std.specs.Prelude.{◌≡◌};
    ghost use Rattle.report.specs.declared.fault.Fault.TheVariants.{Memory};

    ghost from_gives = { λ _ fault. fault ≡ Memory };

    fn from(_: NoMemory) -> Self {
        Fault::Memory
    }
}

impl From<UpliftRefusal> for Fault {
    ghost use Rattle.std.specs.Prelude.{◌≡◌};
    ghost use Rattle.report.specs.declared.fault.Fault.TheVariants.{NoUplift};

    ghost from_gives = { λ refusal fault. fault ≡ NoUplift refusal };

    fn from(refusal: UpliftRefusal) -> Self {
        Fault::NoUplift(refusal)
    }
}
