//! Reading certificates.

ghost use Rattle.std.specs.Prelude.{◌≡◌, ◌≢◌, ◌≤◌, [], length, IfOk, IfErr, MatchResult};
ghost use Rattle.dual_model.specs.Prelude.{Certificate};
ghost use Rattle.cert_text.specs.CertificateText.{Version, listing_of, certificate_text};
ghost use Rattle.cert_text.specs.TextConditions.{HasText};
ghost use Rattle.cert_text.specs.Reading.{listing_read, IsTextOf};
ghost use Rattle.cert_text.specs.Grammar.{IsFaultOf};
ghost use Rattle.cert_text.specs.declared.cert.CertFault.TheVariants as faults;
ghost use Rattle.cert_text.specs.declared.cert.CertKind.TheVariants as kinds;
ghost use Rattle.cert_text.specs.inside.LineCount.{line_number};

mod changes;
mod draft;
mod fault;
mod lines;
mod nodes;
mod numbers;
mod plan;
mod sizes;
mod stop;
mod table;
mod update;
mod whole;
mod words;

use crate::cert::{Cert, CertFault};
use fault::{fault_of, tail_fault};
use std::alloc::Global;
use whole::take_certificate;

/// Reads a certificate's text in any version of the format, which is all of the bytes.
///
/// `At` tells the first line, from 1, that may not stand where it does (`Form`), whose line feed isn't there
/// (`Cut`), or that follows the last one (`Tail`). `NoMemory` comes only where memory is refused.
pub fn read(alloc: Global, bytes: &[u8]) -> Result<Cert, CertFault>
    // What is read is what the bytes are the text of, in some version.
    ensures text { IfOk result (IsTextOf bytes.now) }
    // Each certificate's text is read, in whichever version.
    ensures read { (version : Version) (c : Certificate) → HasText version (listing_of c) → bytes.now ≡ certificate_text version c
        → MatchResult result (λ cert. listing_read cert ≡ listing_of c) (λ e. e ≡ CertFault.NoMemory) }
    // Which line is at fault.
    ensures fault { IfErr result (IsFaultOf bytes.now) }
{
    match take_certificate(alloc, bytes) {
        Ok((_, cert, rest)) => ended(bytes, cert, rest),
        Err(stop) => Err(fault_of(bytes, stop)),
    }
}

// The certificate, where no byte is left behind it.
fn ended(bytes: &[u8], cert: Cert, rest: &[u8]) -> Result<Cert, CertFault>
    requires { length rest.now ≤ length bytes.now }
    ensures ok { IfOk result (λ read. (rest.now ≡ []) × (read ≡ cert)) }
    ensures tail { IfErr result (λ fault. (rest.now ≢ []) × (fault ≡ faults.At (line_number bytes.now rest.now) kinds.Tail)) }
{
    if rest.is_empty() {
        Ok(cert)
    } else {
        Err(tail_fault(bytes, rest))
    }
}
