//! The parts of sources on which a watt costs the same, and their order by merit.

ghost use Rattle.std.specs.Prelude.{◌≡◌};
ghost use Rattle.std.specs.Ordering.{is_lt};
ghost use Rattle.dispatch_repair.specs.Segments.{comes_before as is_before, width_of};

use cost_curves::Slope;
use std::cmp::Ordering;
use uc_model::scaled;

/// A part of a source's output that has one slope.
#[derive(Clone, Copy)]
pub struct Segment {
    /// The place of the source: renewable units come first, then thermal ones, each kind in the order of the file.
    pub source: usize,
    /// Where the part ends: an output in watts, of a thermal unit above its minimum.
    pub end: i64,
    pub slope: Slope,
}

/// The order of merit: the lower slope first, and of equal ones the source that comes before.
pub(crate) fn compare(left: &Segment, right: &Segment) -> Ordering
    ensures { is_lt result ≡ is_before left.now right.now }
{
    if comes_before(left, right) {
        Ordering::Less
    } else if comes_before(right, left) {
        Ordering::Greater
    } else {
        Ordering::Equal
    }
}

// Whether the first segment's slope is lower, or the same and its source comes before.
fn comes_before(first: &Segment, second: &Segment) -> bool
    ensures { result ≡ is_before first.now second.now }
{
    let own = scaled(first.slope.rise, width(second));
    let other = scaled(second.slope.rise, width(first));
    own < other || own == other && first.source < second.source
}

// The width that the slope is over, of a watt at least.
fn width(segment: &Segment) -> i64
    ensures { result ≡ width_of segment.now.slope }
{
    segment.slope.run.max(1)
}
