//! The events of the machine.

use branch_tree::Outcome;
use dual_model::Table;

/// How a claim ends. Units and periods count from 0, costs are micro-dollars.
#[derive(Clone, Copy, Debug)]
pub enum Move {
    /// The node is open again.
    Again,
    /// The node is split on thermal unit `g` and period `t`, into two open children.
    Split { g: u32, t: u32 },
    /// The node's bound is within the gap of this cost, which the worker has seen.
    Prune { seen: i64 },
    /// The table is a ray that excludes the node.
    Ray,
    /// A unit has no pattern at the node, or no schedule of its own.
    Empty,
}

/// One atomic step of one worker. Workers and nodes count from 0, claims (`unit`) from 1; costs are micro-dollars.
#[derive(Drop)]
pub enum Event {
    /// The worker claims the open node.
    Claim {
        worker: u8,
        node: u32,
    },
    /// The worker commits its claim of this number: the evaluation at the table gave the outcome, V or, with `exact`, the exact value.
    Commit {
        worker: u8,
        unit: u32,
        table: Table,
        exact: bool,
        outcome: Outcome,
        action: Move,
    },
    /// The worker publishes the cost of a schedule.
    Publish {
        worker: u8,
        cost: i64,
    },
    /// The worker looks at the least cost that was published.
    Look {
        worker: u8,
    },
    /// The node's ticket moves from the worker's hand to the back of its queue.
    Push {
        worker: u8,
        node: u32,
    },
    /// The first ticket of the worker's queue moves to its hand.
    Pop {
        worker: u8,
    },
    /// The first ticket of the victim's queue moves to the worker's hand.
    Steal {
        worker: u8,
        victim: u8,
    },
}

/// Why a step wasn't taken: the machine has no case for this event, or memory was refused.
#[derive(Drop)]
pub enum StepFault {
    NotLegal(Event),
    NoMemory,
}
