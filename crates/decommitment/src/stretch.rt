//! Stretches of thermal units: where all of one are alike, none of them is looked at by itself.

ghost use Rattle.std.specs.Prelude.{◌≡◌, ℕ, ◌+◌, ◌<◌, ◌≤◌, IsTrue, length};
ghost use Rattle.dispatch_repair.specs.Amounts.{amount_at};
ghost use Rattle.decommitment.specs.inside.Stretches.{HaveKept, IsMarked, IsSameAt};

/// So many units make a stretch, unless they are the last ones.
const LENGTH: usize = 32;

/// Thermal units from one, from 0, to before another.
#[derive(Clone, Copy)]
pub(crate) struct Stretch {
    pub from: usize,
    pub to: usize,
}

/// The stretch from a unit on, of so many units in all.
pub(crate) fn stretch_from(from: usize, units: usize) -> Stretch
    requires { from < units }
    ensures from { result.from ≡ from }
    ensures some { from < result.to }
    ensures within { result.to ≤ units }
{
    Stretch {
        from,
        to: units.min(from.saturating_add(LENGTH)),
    }
}

/// Whether unit g is one of a stretch.
pub(crate) fn has_unit(stretch: Stretch, g: usize) -> bool
    ensures { (k : ℕ) → stretch.from ≤ k → k < stretch.to → k ≡ g → IsTrue result }
{
    stretch.from <= g && g < stretch.to
}

/// Whether two rows of amounts, first of so many renewable units and then of the thermal ones, are the same over a stretch of these.
pub(crate) fn are_same(first: &[i64], second: &[i64], renewables: usize, stretch: Stretch) -> bool
    requires first { renewables + stretch.to ≤ length first.now }
    requires second { renewables + stretch.to ≤ length second.now }
    ensures { IsTrue result → ((g : ℕ) → stretch.from ≤ g → g < stretch.to → IsSameAt renewables first.now second.now g) }
{
    let mut are_same = true;
    for g in stretch.from..stretch.to {
        let is_same = is_same_at(first, second, renewables + g);
        are_same = both(are_same, is_same);
    }
    are_same
}

// Whether two rows have the same amount at place n.
fn is_same_at(first: &[i64], second: &[i64], n: usize) -> bool
    requires first { n < length first.now }
    requires second { n < length second.now }
    ensures { IsTrue result → amount_at first.now n ≡ amount_at second.now n }
{
    first[n] == second[n]
}

// Whether both are so. They are looked at in any case, so that several amounts are compared at once.
fn both(first: bool, second: bool) -> bool
    ensures first { IsTrue result → IsTrue first }
    ensures second { IsTrue result → IsTrue second }
{
    first && second
}

/// Whether unit g has a mark.
pub(crate) fn has_mark(marks: &[bool], g: usize) -> bool
    requires { g < length marks.now }
    ensures { IsTrue result → IsMarked marks.now g }
{
    marks[g]
}

/// Takes the marks from the thermal units whose amounts in two such rows aren't the same.
pub(crate) fn keep_same(first: &[i64], second: &[i64], renewables: usize, marks: &mut [bool])
    requires first { renewables + length marks.old ≤ length first.now }
    requires second { renewables + length marks.old ≤ length second.now }
    ensures { HaveKept renewables first.now second.now 0 (length marks.old) marks.old marks.new }
{
    let mut done = 0;
    while done < marks.len() {
        let stretch = stretch_from(done, marks.len());
        keep_within(first, second, renewables, marks, stretch);
        done = stretch.to;
    }
}

// The same of the units of a stretch.
fn keep_within(
    first: &[i64],
    second: &[i64],
    renewables: usize,
    marks: &mut [bool],
    stretch: Stretch,
)
    requires first { renewables + length marks.old ≤ length first.now }
    requires second { renewables + length marks.old ≤ length second.now }
    requires order { stretch.from ≤ stretch.to }
    requires within { stretch.to ≤ length marks.old }
    ensures { HaveKept renewables first.now second.now stretch.from stretch.to marks.old marks.new }
{
    if are_same(first, second, renewables, stretch) {
        return;
    }
    for g in stretch.from..stretch.to {
        let is_same = is_same_at(first, second, renewables + g);
        marks[g] = both(has_mark(marks, g), is_same);
    }
}
