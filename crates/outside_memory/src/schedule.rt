ghost use Rattle.std.specs.Prelude.{◌≡◌, ◌↔◌, ◌<◌, ◌≤◌, min, Contains, IfOk, IsErr, OnOk, OnErr};
ghost use Rattle.outside.specs.Prelude.{HasRisen, one_more};
ghost use Rattle.outside_memory.specs.Schedule.{count_of, with_count, counted, IsFresh};
ghost use Rattle.outside_memory.specs.contracts.schedule.CallCounts.{the_row as counts-row};
ghost use Rattle.std.specs.Borrow.{sem, Lends, u64};

use outside::{Failed, next_count};
use std::alloc::{AllocError, Global};

/// A kind of call to the outside.
#[derive(Clone, Copy, PartialEq, Eq)]
pub enum Call {
    Open,
    Read,
    Write,
    Finish,
    Flush,
}

/// A call that is to fail: the one of this kind before which this many of its kind were made.
#[derive(Clone, Copy, PartialEq, Eq)]
pub struct FailingCall {
    pub call: Call,
    pub number: u64,
}

/// How many calls of each kind were made. A count stays at its last value.
#[derive(Clone, Copy)]
pub struct CallCounts {
    pub opens: u64,
    pub reads: u64,
    pub writes: u64,
    pub finishes: u64,
    pub flushes: u64,
}

impl CallCounts {
    /// The count of a kind.
    fn of_kind_mut(&mut self, call: Call) -> &mut u64
        ensures* writes_back { sem 𝓛 (Lends counts-row u64 self.entry result (with_count self.old call)) }
        ensures value { result.now ≡ count_of self.old call }
    {
        match call {
            Call::Open => &mut self.opens,
            Call::Read => &mut self.reads,
            Call::Write => &mut self.writes,
            Call::Finish => &mut self.finishes,
            Call::Flush => &mut self.flushes,
        }
    }

    /// Counts a call, and answers how many of its kind were made before.
    fn count(&mut self, call: Call) -> u64
        ensures number { result ≡ count_of self.old call }
        ensures counted { self.new ≡ counted self.old call }
    {
        let count = self.of_kind_mut(call);
        let number = *count;
        *count = next_count(number);
        number
    }
}

/// Which calls fail, and how many have failed.
#[derive(Drop)]
pub struct Schedule {
    pub failing: Vec<FailingCall>,
    pub made: CallCounts,
    pub faults: u64,
}

impl Schedule {
    /// A schedule by which these calls fail.
    pub fn new(alloc: Global, failing: &[FailingCall]) -> Result<Self, AllocError>
        ensures { IfOk result (IsFresh failing.now) }
    {
        Ok(Schedule {
            failing: Vec::from_slice(alloc, failing)?,
            made: CallCounts {
                opens: 0,
                reads: 0,
                writes: 0,
                finishes: 0,
                flushes: 0,
            },
            faults: 0,
        })
    }

    /// Counts a call. It is `Failed` exactly where the call is one of those that fail.
    pub fn admit(&mut self, call: Call) -> Result<(), Failed>
        ensures failing { self.new.failing ≡ self.old.failing }
        ensures made { self.new.made ≡ counted self.old.made call }
        ensures fails { IsErr result ↔ Contains self.old.failing.items (record { call = call; number = count_of self.old.made call }) }
        ensures ok { OnOk result (self.new.faults ≡ self.old.faults) }
        ensures failed { OnErr result (HasRisen self.old.faults self.new.faults) }
        ensures one { OnErr result (self.new.faults ≡ one_more self.old.faults) }
    {
        let number = self.made.count(call);
        if self.failing.contains(&FailingCall { call, number }) {
            self.faults = next_count(self.faults);
            return Err(Failed);
        }
        Ok(())
    }
}
