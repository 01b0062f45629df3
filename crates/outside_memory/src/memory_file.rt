ghost use Rattle.std.specs.Prelude.{◌≡◌, ◌≤◌, [], true, length, min, take, vec_len};
ghost use Rattle.outside.specs.declared.slot.Stage.TheVariants.{Unopened};

use outside::{Device, Failed, Stage};
use std::alloc::{AllocError, Global};

/// A file in memory. No call on it fails, so its count of faults is always 0.
///
/// It keeps what is written for as long as memory is given. A piece for which memory is refused
/// is taken all the same, but not kept, and from then on the file no longer tells what was written.
#[derive(Drop)]
pub struct MemoryFile {
    stage: Stage,
    expected: String,
    is_matched: bool,
    input: Vec<u8>,
    taken: usize,
    output: Vec<u8>,
    is_whole: bool,
    ghost within: { taken ≤ vec_len input },
    ghost fresh: { stage ≡ Unopened → (is_whole ≡ true) × (output.items ≡ []) },
}

impl MemoryFile {
    ghost use Rattle.std.specs.Prelude.{IfOk, option_copied};
    ghost use Rattle.outside_memory.specs.Memory.{file_state, fresh_file};

    /// An unopened file that expects this name, and has these bytes to read.
    pub fn new(alloc: Global, expected: &str, input: &[u8]) -> Result<Self, AllocError>
        ensures { IfOk result (λ file. file_state file ≡ fresh_file expected.now input.now) }
    {
        Ok(MemoryFile {
            stage: Stage::Unopened,
            expected: String::from_str(alloc, expected)?,
            is_matched: false,
            input: Vec::from_slice(alloc, input)?,
            taken: 0,
            output: Vec::new(alloc),
            is_whole: true,
        })
    }

    /// The stage that the file has reached.
    pub fn stage(&self) -> Stage
        ensures { result ≡ (file_state self.now).stage }
    {
        self.stage
    }

    /// The bytes written, or `None` where some of them were not kept.
    pub fn written(&self) -> Option<&[u8]>
        ensures { option_copied result ≡ (file_state self.now).written }
    {
        if self.is_whole {
            Some(self.output.as_slice())
        } else {
            None
        }
    }
}

impl Device for MemoryFile {
    ghost use Rattle.outside_memory.specs.Memory.{file_state, file_unwritten};

    ghost state = { file_state };

    ghost unopened_is_unwritten = { file_unwritten };

    fn open(&mut self, name: &str) -> Result<(), Failed> {
        self.is_matched = name == self.expected.as_str();
        self.stage = Stage::Open;
        Ok(())
    }

    fn read(&mut self, buf: &mut [u8]) -> Result<usize, Failed> {
        let count = copy_front(&self.input[self.taken..], buf);
        self.taken += count;
        Ok(count)
    }

    fn write(&mut self, piece: &[u8]) -> Result<usize, Failed> {
        if self.output.extend_from_slice(piece).is_err() {
            self.is_whole = false;
        }
        Ok(piece.len())
    }

    fn finish(&mut self) -> Result<(), Failed> {
        self.stage = Stage::Finished;
        Ok(())
    }
}

/// Copies as many bytes as there are and have room, and answers how many.
fn copy_front(from: &[u8], to: &mut [u8]) -> usize
    ensures count { result ≡ min (length from.now) (length to.old) }
    ensures front { take result to.new ≡ take result from.now }
{
    let count = from.len().min(to.len());
    to[..count].copy_from_slice(&from[..count]);
    count
}
