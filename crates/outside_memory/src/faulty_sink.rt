use crate::memory_sink::MemorySink;
use crate::pace::Pace;
use crate::schedule::{Call, FailingCall, Schedule};
use outside::{Failed, Sink};
use std::alloc::{AllocError, Global};

/// A sink in memory on which the calls of a schedule fail, and no others.
#[derive(Drop)]
pub struct FaultySink {
    pub memory: MemorySink,
    pub schedule: Schedule,
    pub pace: Pace,
}

impl FaultySink {
    ghost use Rattle.std.specs.Prelude.{◌≡◌, IfOk};
    ghost use Rattle.outside_memory.specs.Memory.{fresh_sink};
    ghost use Rattle.outside_memory.specs.Faulty.{faulty_sink_state};
    ghost use Rattle.outside_memory.specs.Schedule.{IsFresh};

    /// A sink to which nothing was written, and on which these calls fail.
    pub fn new(alloc: Global, failing: &[FailingCall], pace: Pace) -> Result<Self, AllocError>
        ensures state { IfOk result (λ sink. faulty_sink_state sink ≡ fresh_sink) }
        ensures schedule { IfOk result (λ sink. IsFresh failing.now sink.schedule) }
        ensures pace { IfOk result (λ sink. sink.pace ≡ pace) }
    {
        Ok(FaultySink {
            memory: MemorySink::new(alloc),
            schedule: Schedule::new(alloc, failing)?,
            pace,
        })
    }
}

impl Sink for FaultySink {
    ghost use Rattle.outside_memory.specs.Faulty.{faulty_sink_state};

    ghost state = { faulty_sink_state };

    fn write(&mut self, piece: &[u8]) -> Result<usize, Failed> {
        self.schedule.admit(Call::Write)?;
        let portion = self.pace.portion(piece.len());
        self.memory.write(&piece[..portion])
    }

    fn flush(&mut self) -> Result<(), Failed> {
        self.schedule.admit(Call::Flush)?;
        self.memory.flush()
    }
}
