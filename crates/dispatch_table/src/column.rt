//! The columns and lines of a program's table.

/// A column: an unknown, a rule's slack or artificial column, the values of the sum and of the cost, and the right side.
#[derive(Clone, Copy)]
pub(crate) enum Column {
    Unknown(usize),
    Slack(usize),
    Artificial(usize),
    SumValue,
    CostValue,
    RightSide,
}

/// A line: a rule's, the sum's or the cost's.
#[derive(Clone, Copy)]
pub(crate) enum Line {
    Rule(usize),
    Sum,
    Cost,
}
