ghost use Rattle.std.specs.Prelude.{◌≤◌, vec_len};
ghost use Rattle.std.specs.Option.{ForSome};

use outside::{Failed, Sink};
use std::alloc::Global;

/// A sink in memory. No call on it fails, so its count of faults is always 0.
///
/// It keeps what is written for as long as memory is given. A piece for which memory is refused
/// is taken all the same, but not kept, and from then on the sink no longer tells what was written.
#[derive(Drop)]
pub struct MemorySink {
    output: Vec<u8>,
    is_whole: bool,
    flushed: Option<usize>,
    ghost within: { ForSome flushed (λ count. count ≤ vec_len output) },
}

impl MemorySink {
    ghost use Rattle.std.specs.Prelude.{◌≡◌, option_copied};
    ghost use Rattle.outside_memory.specs.Memory.{sink_state, fresh_sink};

    /// A sink to which nothing was written.
    pub fn new(alloc: Global) -> Self
        ensures { sink_state result ≡ fresh_sink }
    {
        MemorySink {
            output: Vec::new(alloc),
            is_whole: true,
            flushed: Some(0),
        }
    }

    /// The bytes written, or `None` where some of them were not kept.
    pub fn written(&self) -> Option<&[u8]>
        ensures { option_copied result ≡ (sink_state self.now).written }
    {
        if self.is_whole {
            Some(self.output.as_slice())
        } else {
            None
        }
    }

    /// The bytes flushed, or `None` where some of them were not kept.
    pub fn flushed(&self) -> Option<&[u8]>
        ensures { option_copied result ≡ (sink_state self.now).flushed }
    {
        match self.flushed {
            Some(count) => Some(&self.output[..count]),
            None => None,
        }
    }
}

impl Sink for MemorySink {
    ghost use Rattle.outside_memory.specs.Memory.{sink_state};

    ghost state = { sink_state };

    fn write(&mut self, piece: &[u8]) -> Result<usize, Failed> {
        if self.output.extend_from_slice(piece).is_err() {
            self.is_whole = false;
        }
        Ok(piece.len())
    }

    fn flush(&mut self) -> Result<(), Failed> {
        self.flushed = if self.is_whole {
            Some(self.output.len())
        } else {
            None
        };
        Ok(())
    }
}
