//! Which line is at fault.

ghost use Rattle.std.specs.Prelude.{◌≡◌, ◌≤◌, length};
ghost use Rattle.cert_text.specs.inside.LineCount.{StopsWithin, fault_of, line_number, stop_kind};

use super::stop::Stop;
use crate::cert::{CertFault, CertKind};

// The number of the line, from 1, that begins where the bytes are left.
fn line_number(bytes: &[u8], rest: &[u8]) -> u64
    requires { length rest.now ≤ length bytes.now }
    ensures { result ≡ line_number bytes.now rest.now }
{
    let front = &bytes[..bytes.len() - rest.len()];
    front.iter().filter(|byte| **byte == b'\n').count() as u64 + 1
}

/// The fault of bytes whose reading stops.
pub(crate) fn fault_of(bytes: &[u8], stop: Stop) -> CertFault
    requires { StopsWithin bytes.now stop }
    ensures { result ≡ fault_of bytes.now stop.entry }
{
    match stop {
        Stop::At(rest) => stop_fault(bytes, rest),
        Stop::NoMemory => CertFault::NoMemory,
    }
}

// The fault of a line that may not stand where the bytes are left.
fn stop_fault(bytes: &[u8], rest: &[u8]) -> CertFault
    requires { length rest.now ≤ length bytes.now }
    ensures { result ≡ CertFault.At (line_number bytes.now rest.now) (stop_kind rest.now) }
{
    let kind = if rest.contains(&b'\n') {
        CertKind::Form
    } else {
        CertKind::Cut
    };
    CertFault::At {
        line: line_number(bytes, rest),
        kind,
    }
}

/// The fault of bytes that are left behind a certificate.
pub(crate) fn tail_fault(bytes: &[u8], rest: &[u8]) -> CertFault
    requires { length rest.now ≤ length bytes.now }
    ensures { result ≡ CertFault.At (line_number bytes.now rest.now) CertKind.Tail }
{
    CertFault::At {
        line: line_number(bytes, rest),
        kind: CertKind::Tail,
    }
}
