//! A run of `upgrade`.

ghost use Rattle.std.specs.Prelude.{◌≡◌, None, IfOk, IfErr, OnOk, OnErr};
ghost use Rattle.dual_model.specs.Prelude.{Certificate};
ghost use Rattle.outside.specs.declared.slot.Slot.TheVariants.{CertOut};
ghost use Rattle.outside.specs.Prelude.{AllUnopened, SameBut, SinkState};
ghost use Rattle.outside.specs.declared.slot.Stage.TheVariants.{Unopened};
ghost use Rattle.cert_text.specs.CertificateText.{listing_of, written_text};
ghost use Rattle.cert_text.specs.Reading.{listing_read};
ghost use Rattle.report.specs.UpgradeReport.{upgrade_report};
ghost use Rattle.command_line.specs.Asked.{upgrade_asked};
ghost use Rattle.command_runs.specs.Prelude.{outside_of, IsOpenedByNoOther, IsSaved, FailsToSave, IsTold, FailsToTell};
ghost use Rattle.uc_check.specs.Upgrading.{IsRewritten, IsUpgrading, IsUpgradeFailure, KeepsToCertificates, IsUpgradeRun};

use cert_text::{Cert, write_cert};
use command_line::Upgrade;
use command_runs::{End, Failure, end_of, end_of_report, read_certificate};
use outside::{Failed, Files, Sink, Slot, SlotWriter};
use report::{Fault, write_upgraded};
use std::alloc::Global;

// Writes a certificate that was read to its slot, in the version in which it is written, and finishes it.
fn save_read<F: Files>(files: &mut F, name: &str, cert: &Cert) -> Result<(), Failed>
    requires { (F.state files.old Slot.CertOut).stage ≡ Unopened }
    ensures saved { (c : Certificate) → listing_of c ≡ listing_read cert.now
        → OnOk result (IsSaved (written_text c) (F.state files.old Slot.CertOut) (F.state files.new Slot.CertOut)) }
    ensures failed { (c : Certificate) → listing_of c ≡ listing_read cert.now
        → OnErr result (FailsToSave (written_text c) (F.state files.old Slot.CertOut) (F.state files.new Slot.CertOut)) }
    ensures named { IsOpenedByNoOther name.now (F.state files.old Slot.CertOut) (F.state files.new Slot.CertOut) }
    ensures others { SameBut CertOut (F.state files.old) (F.state files.new) }
{
    files.open_slot(Slot::CertOut, name)?;
    let mut writer = SlotWriter::new(files, Slot::CertOut);
    write_cert(cert, &mut writer)?;
    files.finish(Slot::CertOut)
}

// Reads the certificate and writes it anew.
fn rewrite<F: Files>(alloc: Global, asked: &Upgrade, files: &mut F) -> Result<(), Fault>
    requires { AllUnopened (F.state files.old) }
    ensures done { IfOk result (λ _. IsRewritten (F.state files.old) (F.state files.new)) }
    ensures failed { IfErr result (λ fault. (out err_old err_new : SinkState) → IsUpgradeFailure
        (outside_of (F.state files.old) out err_old) (outside_of (F.state files.new) out err_new) fault None) }
    ensures files { (out_old out_new err_old err_new : SinkState) → KeepsToCertificates (upgrade_asked asked.now)
        (outside_of (F.state files.old) out_old err_old) (outside_of (F.state files.new) out_new err_new) }
{
    let cert = read_certificate(alloc, files, asked.certificate)?;
    match save_read(files, asked.to, &cert) {
        Ok(()) => {
            drop(cert);
            Ok(())
        }
        Err(Failed) => {
            drop(cert);
            Err(Fault::Write { output: false })
        }
    }
}

// Writes that the certificate was written anew, and flushes it.
fn tell_upgraded<O: Sink>(out: &mut O) -> Result<(), Failed>
    ensures told { OnOk result (IsTold upgrade_report (O.state out.old) (O.state out.new)) }
    ensures failed { OnErr result (FailsToTell upgrade_report (O.state out.old) (O.state out.new)) }
{
    write_upgraded(out)?;
    out.flush()
}

// Reads the certificate, writes it anew and tells that; the error output is as it may be.
fn rewrite_and_tell<F: Files, O: Sink>(
    alloc: Global,
    asked: &Upgrade,
    files: &mut F,
    out: &mut O,
) -> Result<End, Failure>
    requires { AllUnopened (F.state files.old) }
    ensures done { (err_old err_new : SinkState) → IfOk result (IsUpgrading
        (outside_of (F.state files.old) (O.state out.old) err_old) (outside_of (F.state files.new) (O.state out.new) err_new)) }
    ensures failed { (err_old err_new : SinkState) → IfErr result (λ f. IsUpgradeFailure
        (outside_of (F.state files.old) (O.state out.old) err_old) (outside_of (F.state files.new) (O.state out.new) err_new) f.fault f.found) }
    ensures files { (err_old err_new : SinkState) → KeepsToCertificates (upgrade_asked asked.now)
        (outside_of (F.state files.old) (O.state out.old) err_old) (outside_of (F.state files.new) (O.state out.new) err_new) }
{
    rewrite(alloc, asked, files)?;
    end_of_report(tell_upgraded(out))
}

/// A run of `upgrade`: reads the certificate, in any version, writes it in the one in which it is written and tells that it did,
/// or tells a fault. It opens no instance.
pub fn upgrade_certificate<F: Files, O: Sink, E: Sink>(
    alloc: Global,
    asked: &Upgrade,
    files: &mut F,
    out: &mut O,
    err: &mut E,
) -> End
    requires { AllUnopened (F.state files.old) }
    ensures { IsUpgradeRun (upgrade_asked asked.now) (outside_of (F.state files.old) (O.state out.old) (E.state err.old))
        (outside_of (F.state files.new) (O.state out.new) (E.state err.new)) result }
{
    let outcome = rewrite_and_tell(alloc, asked, files, out);
    end_of(err, outcome)
}
