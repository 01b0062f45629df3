//! The amounts that the dispatch of a commitment chooses. Units, periods and segments count from 0.

/// An amount, in watts.
#[derive(Debug, Clone, Copy)]
pub enum Amount {
    /// How much of a segment of a thermal unit's curve is used in a period: unit, period, segment.
    Length(u32, u32, u32),
    /// A thermal unit's reserve in a period: unit, period.
    Held(u32, u32),
    /// What a renewable unit gives above its least output in a period: unit, period.
    Given(u32, u32),
    /// The demand that isn't served in a period.
    Shed(u32),
    /// The reserve that is missing in a period.
    Short(u32),
}
