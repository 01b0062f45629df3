use crate::memory_file::MemoryFile;
use crate::pace::Pace;
use crate::schedule::{Call, FailingCall, Schedule};
use outside::{Device, Failed};
use std::alloc::{AllocError, Global};

/// A file in memory on which the calls of a schedule fail, and no others.
#[derive(Drop)]
pub struct FaultyFile {
    pub memory: MemoryFile,
    pub schedule: Schedule,
    pub pace: Pace,
}

impl FaultyFile {
    ghost use Rattle.std.specs.Prelude.{◌≡◌, IfOk};
    ghost use Rattle.outside_memory.specs.Memory.{fresh_file};
    ghost use Rattle.outside_memory.specs.Faulty.{faulty_file_state};
    ghost use Rattle.outside_memory.specs.Schedule.{IsFresh};

    /// An unopened file that expects this name and has these bytes to read, and on which these calls
    /// fail.
    pub fn new(
        alloc: Global,
        expected: &str,
        input: &[u8],
        failing: &[FailingCall],
        pace: Pace,
    ) -> Result<Self, AllocError>
        ensures state { IfOk result (λ file. faulty_file_state file ≡ fresh_file expected.now input.now) }
        ensures schedule { IfOk result (λ file. IsFresh failing.now file.schedule) }
        ensures pace { IfOk result (λ file. file.pace ≡ pace) }
    {
        Ok(FaultyFile {
            memory: MemoryFile::new(alloc, expected, input)?,
            schedule: Schedule::new(alloc, failing)?,
            pace,
        })
    }
}

impl Device for FaultyFile {
    ghost use Rattle.outside_memory.specs.Faulty.{faulty_file_state, faulty_file_unwritten};

    ghost state = { faulty_file_state };

    ghost unopened_is_unwritten = { faulty_file_unwritten };

    fn open(&mut self, name: &str) -> Result<(), Failed> {
        self.schedule.admit(Call::Open)?;
        self.memory.open(name)
    }

    fn read(&mut self, buf: &mut [u8]) -> Result<usize, Failed> {
        self.schedule.admit(Call::Read)?;
        let portion = self.pace.portion(buf.len());
        self.memory.read(&mut buf[..portion])
    }

    fn write(&mut self, piece: &[u8]) -> Result<usize, Failed> {
        self.schedule.admit(Call::Write)?;
        let portion = self.pace.portion(piece.len());
        self.memory.write(&piece[..portion])
    }

    fn finish(&mut self) -> Result<(), Failed> {
        self.schedule.admit(Call::Finish)?;
        self.memory.finish()
    }
}
