//! What a certificate says, as it was read.

use table_list::TableList;
use uc_model::{List, Printed};

/// A node of a certificate's tree. Units, periods and tables count from 0 here, and from 1 in the text.
#[derive(Clone, Copy, Debug, PartialEq, Eq)]
pub enum CertNode {
    /// A split on thermal unit `g` in period `t`: the nodes of the child with the unit off follow, then those of the
    /// child with it on.
    Split { g: u32, t: u32 },
    /// A leaf with a bound by V at the table of this number.
    Bound(u32),
    /// A leaf that the ray of this number excludes by V.
    Ray(u32),
    /// A leaf at which the thermal unit of this number has no pattern.
    Empty(u32),
    /// A leaf with a bound by VE at the table of this number.
    Exact(u32),
    /// A leaf that the ray of this number excludes by VE.
    ExactRay(u32),
    /// A leaf at which the thermal unit of this number has no schedule of its own.
    ExactEmpty(u32),
}

/// A certificate: the numbers of periods, thermal and renewable units; the prices of unserved demand and of missing
/// reserve, in micro-dollars for a watt and an hour; the bound that is claimed, in micro-dollars,
/// or none where infeasibility is; a schedule with its cost in micro-dollars; the tables; and the tree, as its nodes
/// in preorder.
#[derive(Drop)]
pub struct Cert {
    pub periods: u32,
    pub thermal: u32,
    pub renewable: u32,
    pub a: u32,
    pub b: u32,
    pub bound: Option<i128>,
    pub schedule: Option<(Printed, i128)>,
    pub tables: TableList,
    pub tree: List<CertNode>,
}

/// A version of the format. In the first one each table is told whole, in the others each but the first one by its difference to the
/// one before it; and leaves by exact values, and denominators of powers, stand in the third alone.
#[derive(Clone, Copy, Debug, PartialEq, Eq)]
pub enum Version {
    First,
    Second,
    Third,
}

/// What is wrong with a line.
#[derive(Clone, Copy, Debug, PartialEq, Eq)]
pub enum CertKind {
    /// A line, ended by its line feed, may not stand there.
    Form,
    /// The bytes end before the line feed of the line.
    Cut,
    /// A byte follows the line `end`.
    Tail,
}

/// Why bytes were not read: the first line, from 1, that is at fault, or memory was refused.
#[derive(Clone, Copy, Debug, PartialEq, Eq)]
pub enum CertFault {
    At { line: u64, kind: CertKind },
    NoMemory,
}
