//! Reading an instance and a certificate, and checking the one against the other.

ghost use Rattle.std.specs.Prelude.{IfOk, IfErr};
ghost use Rattle.uc_model.specs.Prelude.{IsLawfulInstance};
ghost use Rattle.dual_model.specs.Prelude.{IsClaimTrue};
ghost use Rattle.outside.specs.Prelude.{AllUnopened, SinkState};
ghost use Rattle.cert_check.specs.Answers.{IsAccepted, IsRead};
ghost use Rattle.command_line.specs.Asked.{check_asked, HasPrices};
ghost use Rattle.command_runs.specs.Prelude.{outside_of};
ghost use Rattle.uc_check.specs.Checking.{IsCheckStopped, KeepsToInput};
ghost use Rattle.uc_check.specs.inside.Refusals.{IsRefusedCert};
ghost use Rattle.uc_check.specs.Checks.{IsChecked};

use cert_check::{CheckFault, Claims};
use cert_text::Cert;
use command_line::Check;
use command_runs::{ReadOptions, read_certificate, read_instance};
use outside::Files;
use report::Fault;
use std::alloc::Global;
use uc_model::Instance;

/// An instance, a certificate that holds for it, and what that claims.
#[derive(Drop)]
pub struct Checked {
    pub instance: Instance,
    pub cert: Cert,
    pub claims: Claims,
}

// What the certificate claims, where it holds for the instance.
fn claims_of(alloc: Global, instance: &Instance, cert: &Cert) -> Result<Claims, Fault>
    requires lawful { IsLawfulInstance instance.now }
    requires text { IsRead cert.now }
    ensures accepted { IfOk result (IsAccepted instance.now cert.now) }
    ensures claim { IfOk result (λ claims. IsClaimTrue instance.now claims.bound) }
    ensures refused { IfErr result (IsRefusedCert instance.now cert.now) }
{
    match cert_check::check(alloc, instance, cert) {
        Ok(claims) => Ok(claims),
        Err(CheckFault::Refused(code)) => Err(Fault::Code(code)),
        Err(CheckFault::NoMemory) => Err(Fault::Memory),
    }
}

/// Reads the instance and the certificate, and checks it. A fault comes before any byte is written.
pub fn verify<F: Files>(alloc: Global, asked: &Check, files: &mut F) -> Result<Checked, Fault>
    requires unopened { AllUnopened (F.state files.old) }
    requires prices { HasPrices asked.now.shed asked.now.spill_reserve }
    ensures verified { IfOk result (IsChecked (check_asked asked.now) (F.state files.old) (F.state files.new)) }
    ensures stopped { IfErr result (λ fault. (out err_old err_new : SinkState) → IsCheckStopped (check_asked asked.now)
        (outside_of (F.state files.old) out err_old) (outside_of (F.state files.new) out err_new) fault) }
    ensures files { (out_old out_new err_old err_new : SinkState) → KeepsToInput (check_asked asked.now)
        (outside_of (F.state files.old) out_old err_old) (outside_of (F.state files.new) out_new err_new) }
{
    let options = ReadOptions {
        exact: false,
        shed: asked.shed,
        spill_reserve: asked.spill_reserve,
    };
    let (instance, _rounded) = read_instance(alloc, files, asked.instance, options)?;
    match read_certificate(alloc, files, asked.certificate) {
        Ok(cert) => match claims_of(alloc, &instance, &cert) {
            Ok(claims) => Ok(Checked {
                instance,
                cert,
                claims,
            }),
            Err(fault) => {
                drop((instance, cert));
                Err(fault)
            }
        },
        Err(fault) => {
            drop(instance);
            Err(fault)
        }
    }
}
