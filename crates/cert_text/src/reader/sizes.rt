//! The heading's lines: the version of the format, and a certificate's size.

ghost use Rattle.std.specs.Prelude.{◌≡◌, false, true, IfSome, MatchOption};
ghost use Rattle.cert_text.specs.Grammar.{AreSizes};
ghost use Rattle.cert_text.specs.inside.Forms.{Gives, version_at, size_at, sizes_of, are_sizes};
ghost use Rattle.cert_text.specs.inside.Parts.{sizes};

use super::numbers::{take_count_to, take_text};
use crate::cert::Version;

/// The version of the format, and the numbers of periods, thermal units, renewable units and tables.
#[derive(Clone, Copy)]
pub(crate) struct Size {
    pub(crate) version: Version,
    pub(crate) periods: u32,
    pub(crate) thermal: u32,
    pub(crate) renewable: u32,
    pub(crate) tables: u32,
}

const MAX_PERIODS: u64 = 168;

const MAX_UNITS: u64 = 4096;

const MAX_TABLES: u64 = 4_294_967_295;

/// The line of the version.
#[tactic(auto, unfolding(crate::specs::inside::Forms::version_at))]
pub(crate) fn take_version(bytes: &[u8]) -> Option<(Version, &[u8])>
    ensures { Gives (λ r. (r.0, r.1.now)) result (version_at bytes.now) }
{
    if let Some(rest) = take_text(bytes, b"uc-certificate 1\n") {
        return Some((Version::First, rest));
    }
    if let Some(rest) = take_text(bytes, b"uc-certificate 2\n") {
        return Some((Version::Second, rest));
    }
    Some(Version::Third).zip(take_text(bytes, b"uc-certificate 3\n"))
}

// The size of these numbers, where each is one that a certificate may have.
fn size_of(
    version: Version,
    periods: u64,
    thermal: u64,
    renewable: u64,
    tables: u64,
) -> Option<Size>
    ensures value { MatchOption result (are_sizes (sizes_of version (periods, (thermal, (renewable, tables)))) ≡ false)
        (λ size. (are_sizes (sizes size) ≡ true) × (sizes size ≡ sizes_of version (periods, (thermal, (renewable, tables))))) }
    ensures lawful { IfSome result (λ size. AreSizes (sizes size)) }
{
    let lawful = 1 <= periods
        && periods <= MAX_PERIODS
        && thermal <= MAX_UNITS
        && renewable <= MAX_UNITS
        && tables <= MAX_TABLES;
    if !lawful {
        return None;
    }
    Some(Size {
        version,
        periods: periods as u32,
        thermal: thermal as u32,
        renewable: renewable as u32,
        tables: tables as u32,
    })
}

/// The line of the size, in a certificate of that version.
#[tactic(auto, unfolding(crate::specs::inside::Forms::size_at))]
pub(crate) fn take_size(version: Version, bytes: &[u8]) -> Option<(Size, &[u8])>
    ensures value { Gives (λ r. (sizes r.0, r.1.now)) result (size_at version bytes.now) }
    ensures lawful { IfSome result (λ r. AreSizes (sizes r.0)) }
{
    let rest = take_text(bytes, b"size ")?;
    let (periods, rest) = take_count_to(rest, b' ')?;
    let (thermal, rest) = take_count_to(rest, b' ')?;
    let (renewable, rest) = take_count_to(rest, b' ')?;
    let (tables, rest) = take_count_to(rest, b'\n')?;
    let size = size_of(version, periods, thermal, renewable, tables)?;
    Some((size, rest))
}
