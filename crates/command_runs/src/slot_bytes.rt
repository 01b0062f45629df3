//! The bytes of a slot that is read.

ghost use Rattle.std.specs.Prelude.{◌≡◌, ◌≤◌, length, IfOk, IfErr};
ghost use Rattle.outside.specs.Prelude.{Tells, SameBut};
ghost use Rattle.command_runs.specs.Reading.{Unopened, IsOpenedByNoOther, IsOnlyRead};
ghost use Rattle.command_runs.specs.inside.Unread.{IsUnread};

use outside::{Files, Slot, SlurpFault, slurp};
use report::Fault;
use std::alloc::Global;

/// The bytes of the file of this name, of which there are at most so many.
pub(crate) fn slot_bytes<F: Files>(
    alloc: Global,
    files: &mut F,
    slot: Slot,
    name: &str,
    most: u64,
) -> Result<Vec<u8>, Fault>
    requires { (F.state files.old slot).stage ≡ Unopened }
    ensures whole { IfOk result (λ bytes. Tells (F.state files.old slot).left bytes.items) }
    ensures few { IfOk result (λ bytes. length bytes.items ≤ most) }
    ensures cause { IfErr result (IsUnread slot most (F.state files.old slot) (F.state files.new slot)) }
    ensures calm { IfOk result (λ _. (F.state files.new slot).faults ≡ (F.state files.old slot).faults) }
    ensures named { IsOpenedByNoOther name.now (F.state files.old slot) (F.state files.new slot) }
    ensures only_read { IsOnlyRead most (F.state files.old slot) (F.state files.new slot) }
    ensures others { SameBut slot (F.state files.old) (F.state files.new) }
{
    slurp(alloc, files, slot, name, most).map_err(|fault| match fault {
        SlurpFault::Failed => Fault::Read(slot),
        SlurpFault::TooLong => Fault::Long(slot),
        SlurpFault::NoMemory => Fault::Memory,
    })
}
