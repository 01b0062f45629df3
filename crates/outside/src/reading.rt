ghost use Rattle.std.specs.Prelude.{◌≡◌, ◌+◌, ◌<◌, ◌≤◌, length, vec_len, Some, IfOk, IfSome};
ghost use Rattle.outside.specs.declared.reading.SlurpFault.TheVariants.{Failed as ReadFailed, NoMemory};
ghost use Rattle.outside.specs.ToldBytes.{Tells};
ghost use Rattle.outside.specs.Slots.{Unopened, SameBut};
ghost use Rattle.outside.specs.Reading.{ReadsAll, ReadsBeyond, ReadsSome, FailsToRead};

use crate::fault::Failed;
use crate::files::Files;
use crate::slot::Slot;
use std::alloc::{AllocError, Global};
use std::error::Error;
use std::fmt;

/// How many bytes a read asks for at most.
const CHUNK_LEN: usize = 4096;

/// Why a slot's bytes are not there.
#[derive(Clone, Copy, Debug, PartialEq, Eq)]
pub enum SlurpFault {
    /// Opening or reading failed.
    Failed,
    /// More bytes came than the limit allows.
    TooLong,
    /// Memory was refused.
    NoMemory,
}

impl fmt::Display for SlurpFault {
    ghost use Rattle.outside.specs.SlurpFault.{text_of};

    ghost output = { λ fault. Some (text_of fault) };

    fn fmt<W: fmt::Write>(&self, f: &mut fmt::Formatter<W>) -> fmt::Result {
        f.write_str(match self {
            SlurpFault::Failed => "reading failed",
            SlurpFault::TooLong => "more bytes came than allowed",
            SlurpFault::NoMemory => "memory was refused",
        })
    }
}

impl Error for SlurpFault {}

impl From<Failed> for SlurpFault {
    ghost from_gives = { λ _ fault. fault ≡ ReadFailed };

    fn from(_fault: Failed) -> SlurpFault {
        SlurpFault::Failed
    }
}

impl From<AllocError> for SlurpFault {
    ghost from_gives = { λ _ fault. fault ≡ NoMemory };

    fn from(_fault: AllocError) -> SlurpFault {
        SlurpFault::NoMemory
    }
}

/// Opens an unopened slot by a name and reads all that comes, if it is no more than `limit` bytes.
///
/// `Ok` has every byte that the slot had, where these are told: the last read gave 0. `TooLong`
/// comes exactly where more than `limit` bytes come. `Failed` comes only where the slot's count of
/// faults rose. With `Ok`, `TooLong` and `NoMemory` no count changed, and the slot is open by that
/// name. No more than `limit + 1` bytes are taken, and no other slot changes.
pub fn slurp<F: Files>(
    alloc: Global,
    files: &mut F,
    slot: Slot,
    name: &str,
    limit: u64,
) -> Result<Vec<u8>, SlurpFault>
    requires { (F.state files.old slot).stage ≡ Unopened }
    ensures ok { IfOk result (λ bytes. ReadsAll name.now limit bytes.items (F.state files.old slot) (F.state files.new slot)) }
    ensures too_long { result ≡ Err SlurpFault.TooLong → ReadsBeyond name.now limit (F.state files.old slot) (F.state files.new slot) }
    ensures no_memory { result ≡ Err SlurpFault.NoMemory → ReadsSome name.now limit (F.state files.old slot) (F.state files.new slot) }
    ensures failed { result ≡ Err SlurpFault.Failed → FailsToRead name.now limit (F.state files.old slot) (F.state files.new slot) }
    ensures others { SameBut slot (F.state files.old) (F.state files.new) }

    // The same, of the bytes that the slot had where it tells them.
    ensures whole { IfOk result (λ bytes. Tells (F.state files.old slot).left bytes.items) }
    ensures longer { result ≡ Err SlurpFault.TooLong → IfSome (F.state files.old slot).left (λ bytes. limit < length bytes) }
{
    files.open_slot(slot, name)?;
    let mut bytes = Vec::new(alloc);
    let mut chunk = [0; CHUNK_LEN];
    'chunks: while bytes.len() as u64 <= limit {
        let room = limit - bytes.len() as u64;
        let wanted = if room < CHUNK_LEN as u64 {
            room as usize + 1
        } else {
            CHUNK_LEN
        };
        let count = files.read(slot, &mut chunk[..wanted])?;
        if count == 0 {
            return Ok(bytes);
        }
        bytes.extend_from_slice(&chunk[..count])?;
    }
    Err(SlurpFault::TooLong)
}
