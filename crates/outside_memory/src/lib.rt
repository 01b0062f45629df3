//! Files and sinks in memory: without faults, and with a list of the calls that fail.
#![tactic(auto)]

mod faulty_file;
mod faulty_sink;
mod memory_file;
mod memory_sink;
mod pace;
mod schedule;

pub use faulty_file::FaultyFile;
pub use faulty_sink::FaultySink;
pub use memory_file::MemoryFile;
pub use memory_sink::MemorySink;
pub use pace::Pace;
pub use schedule::{Call, CallCounts, FailingCall, Schedule};
