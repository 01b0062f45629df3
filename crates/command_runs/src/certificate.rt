//! Reading a certificate.

ghost use Rattle.std.specs.Prelude.{◌≡◌, IfOk, IfErr};
ghost use Rattle.outside.specs.declared.slot.Slot.TheVariants.{CertIn};
ghost use Rattle.outside.specs.Prelude.{SameBut};
ghost use Rattle.cert_text.specs.Reading.{IsTextOf};
ghost use Rattle.command_runs.specs.Reading.{Unopened, IsOpenedByNoOther, IsOnlyRead};
ghost use Rattle.command_runs.specs.Certificates.{most_certificate_bytes, kind_number, HasReadCause};
ghost use Rattle.command_runs.specs.Certificates.{HasCertificateText};
ghost use Rattle.command_runs.specs.inside.Certificates.{IsRefusedText};

use crate::slot_bytes::slot_bytes;
use cert_text::{Cert, CertFault, CertKind, read};
use outside::{Files, Slot};
use report::Fault;
use std::alloc::Global;

/// The most bytes of a certificate's file.
const CERTIFICATE_LIMIT: u64 = 1 << 46;

// The number of a kind in the line of the fault.
fn number_of(kind: CertKind) -> u8
    ensures { result ≡ kind_number kind }
{
    match kind {
        CertKind::Form => 1,
        CertKind::Cut => 2,
        CertKind::Tail => 3,
    }
}

// The certificate of the bytes.
fn certificate_of(alloc: Global, bytes: &[u8]) -> Result<Cert, Fault>
    ensures text { IfOk result (IsTextOf bytes.now) }
    ensures refused { IfErr result (IsRefusedText bytes.now) }
{
    match read(alloc, bytes) {
        Ok(cert) => Ok(cert),
        Err(CertFault::At { line, kind }) => Err(Fault::Line {
            line,
            kind: number_of(kind),
        }),
        Err(CertFault::NoMemory) => Err(Fault::Memory),
    }
}

/// The certificate in the file of this name. An error tells why there is none: the file, its length, the first line at fault, or memory.
pub fn read_certificate<F: Files>(alloc: Global, files: &mut F, name: &str) -> Result<Cert, Fault>
    requires { (F.state files.old Slot.CertIn).stage ≡ Unopened }
    ensures text { IfOk result (HasCertificateText (F.state files.old Slot.CertIn)) }
    ensures cause { IfErr result (HasReadCause (F.state files.old Slot.CertIn) (F.state files.new Slot.CertIn)) }
    ensures calm { IfOk result (λ _. (F.state files.new Slot.CertIn).faults ≡ (F.state files.old Slot.CertIn).faults) }
    ensures named { IsOpenedByNoOther name.now (F.state files.old Slot.CertIn) (F.state files.new Slot.CertIn) }
    ensures only_read { IsOnlyRead most_certificate_bytes (F.state files.old Slot.CertIn) (F.state files.new Slot.CertIn) }
    ensures others { SameBut CertIn (F.state files.old) (F.state files.new) }
{
    let bytes = slot_bytes(alloc, files, Slot::CertIn, name, CERTIFICATE_LIMIT)?;
    certificate_of(alloc, &bytes)
}
