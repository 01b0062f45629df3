//! What is true of a worker's deque and of all passes between any two steps, and what a step tells its caller.

use crossbeam_deque::protocol::{Outcome, Protocol};
use crossbeam_deque::{Pass, Stealer, Worker};
use std::alloc::Global;
use std::collections::LinkedList;

/// A node that was taken, and its place among all that were put, from 0.
pub struct Take {
    pub place: u64,
    pub node: u32,
}

/// What a pass knows: whether it is the worker's, and then all that was put; and what was taken by it. No value of it is made.
pub struct Log {
    pub owns: bool,
    pub put: LinkedList<u32>,
    pub took: LinkedList<Take>,
}

/// The nodes leave in the order in which they came, each once.
pub struct InLine;

impl Protocol<u32, Log> for InLine {
    ghost use Rattle.std.specs.Prelude.{true, false, []};
    ghost use Rattle.steal_pool.specs.Line.{log, InLine as are_in_line};

    ghost holds = { are_in_line };

    ghost first = { log true [] [] };

    ghost guest = { log false [] [] };
}

/// A node joins at the back.
pub(crate) struct Put;

impl Outcome<u32, Log> for Put {
    ghost use Rattle.steal_pool.specs.Line.{puts};

    ghost then = { puts };
}

/// The node in front leaves.
pub(crate) struct Taken;

impl Outcome<u32, Log> for Taken {
    ghost use Rattle.steal_pool.specs.Line.{takes, WasEmpty};

    ghost then = { takes };

    ghost empty = { WasEmpty };
}

/// A worker's end of its deque.
pub(crate) type Own = Worker<u32, Global, Log, InLine>;

/// Another worker's end of it.
pub(crate) type Victim = Stealer<u32, Global, Log, InLine>;

/// What one thread knows of a deque. It takes no bytes.
pub(crate) type Knowledge = Pass<u32, Log>;
