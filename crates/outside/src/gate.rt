use std::sync::Wait;

/// A place that a worker enters before each unit of its work, as a test may want to hold it there.
///
/// A gate answers nothing, and no clause rests on it. It alone decides when a worker goes on, so
/// `enter` may wait, and a gate that never lets a worker pass keeps the run from ending.
pub trait Gate {
    /// A worker, numbered from 0, is about to begin a unit, numbered from 1.
    fn enter<R: Wait>(&self, rt: &R, worker: u8, unit: u32);
}

/// A gate that lets every worker pass at once.
#[derive(Clone, Copy, Debug)]
pub struct OpenGate;

impl Gate for OpenGate {
    fn enter<R: Wait>(&self, _rt: &R, _worker: u8, _unit: u32) {}
}
