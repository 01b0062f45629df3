//! Where a schedule breaks a rule.

/// The first place at which a schedule breaks a rule: rule M`rule`, of `unit` (0 for M14 to M17), in `period` (0
/// for M7). Units and periods count from 0.
#[derive(Clone, Copy, Debug, PartialEq, Eq)]
pub struct Broken {
    pub rule: u8,
    pub unit: usize,
    pub period: usize,
}

/// A unit and a period, from 0.
#[derive(Clone, Copy)]
pub(crate) struct Place {
    pub unit: usize,
    pub period: usize,
}
