//! Writing the certificate.

ghost use Rattle.std.specs.Prelude.{◌≡◌, OnOk, OnErr};
ghost use Rattle.outside.specs.declared.slot.Slot.TheVariants.{CertOut};
ghost use Rattle.outside.specs.Prelude.{SameBut};
ghost use Rattle.branch_tree.specs.Prelude.{HasLayout};
ghost use Rattle.command_runs.specs.Reading.{Instance, Unopened, IsOpenedByNoOther};
ghost use Rattle.command_runs.specs.Writing.{IsSaved, FailsToSave, text_of_certificate};

use branch_tree::Found;
use outside::{Failed, Files, Slot, SlotWriter};
use uc_model::Instance;

/// Writes the certificate to its slot, and finishes it. The only error is `Failed`, of the file.
pub fn save<F: Files>(
    files: &mut F,
    name: &str,
    found: &Found,
    instance: &Instance,
) -> Result<(), Failed>
    requires unopened { (F.state files.old Slot.CertOut).stage ≡ Unopened }
    requires layout { HasLayout found.now }
    ensures saved { OnOk result (IsSaved (text_of_certificate instance.now found.now) (F.state files.old Slot.CertOut) (F.state files.new Slot.CertOut)) }
    ensures failed { OnErr result (FailsToSave (text_of_certificate instance.now found.now) (F.state files.old Slot.CertOut) (F.state files.new Slot.CertOut)) }
    ensures named { IsOpenedByNoOther name.now (F.state files.old Slot.CertOut) (F.state files.new Slot.CertOut) }
    ensures others { SameBut CertOut (F.state files.old) (F.state files.new) }
{
    files.open_slot(Slot::CertOut, name)?;
    let mut writer = SlotWriter::new(files, Slot::CertOut);
    cert_text::write(found, instance, &mut writer)?;
    files.finish(Slot::CertOut)
}
