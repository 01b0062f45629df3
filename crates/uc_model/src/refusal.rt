//! Why a certificate does not hold for an instance.

/// A code of the certificate check. Tables and nodes count from 1, units and periods from 0; money is
/// micro-dollars.
#[derive(Clone, Copy, Debug)]
pub enum Refusal {
    /// A number of the table is past its limit or has the wrong sign.
    C1 {
        table: u32,
    },
    /// The schedule breaks rule M`rule`.
    C2 {
        rule: u8,
        unit: usize,
        period: usize,
    },
    /// The cost written isn't the one computed.
    C3 {
        written: i128,
        computed: i64,
    },
    /// A `bound` leaf whose table has K = 0 or a bound below the one claimed.
    C4 {
        node: u64,
    },
    /// A `ray` leaf whose table has K above 0 or excludes nothing.
    C5 {
        node: u64,
    },
    /// An `empty` leaf whose unit has an allowed pattern there.
    C6 {
        node: u64,
    },
    /// A split on a cell that its path has decided.
    C7 {
        node: u64,
    },
    /// The claim doesn't fit the schedule or the leaves.
    C8,
    /// The size isn't the instance's.
    C9,
    /// The prices of shortages aren't the instance's.
    C10,
}
