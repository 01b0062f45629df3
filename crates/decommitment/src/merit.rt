//! The order of merit of an instance's segments, and of each source the places of its own there.

ghost use Rattle.std.specs.Prelude.{◌≡◌, ℕ, ◌<◌, ◌≤◌, ◌≤ℤ◌, IfOk, [], length, slice_index_or, if◌then◌else◌};
ghost use Rattle.std.specs.Int.{int_max, int_min};
ghost use Rattle.uc_model.specs.Prelude.{IsLawfulInstance};
ghost use Rattle.dispatch_repair.specs.Prelude.{rows_of, segment_at};
ghost use Rattle.decommitment.specs.inside.Levels.{AreOwnPlaces, ArePlacesOf, IsLeastAt, IsMeritOf, IsPlacePushed};

use dispatch_repair::fill::end;
use dispatch_repair::merit_order::merit_order;
use dispatch_repair::{Range, Segment};
use std::alloc::Global;
use uc_model::{Instance, NoMemory};

/// The segments of an instance's sources in order of merit, and of each source the places of its own there, from 0.
#[derive(Drop)]
pub(crate) struct Merit {
    pub order: Vec<Segment>,
    pub own: Vec<Vec<usize>>,
}

/// The order of merit of an instance. The only error is `NoMemory`.
pub(crate) fn merit_of(alloc: Global, instance: &Instance) -> Result<Merit, NoMemory>
    requires { IsLawfulInstance instance.now }
    ensures { IfOk result (IsMeritOf instance.now) }
{
    let order = merit_order(alloc, instance)?;
    let sources = instance.renewable.as_slice().len() + instance.thermal.as_slice().len();
    let own = own_places(alloc, &order, sources)?;
    Ok(Merit { order, own })
}

// Of each source the places of its own segments in the order.
fn own_places(alloc: Global, order: &[Segment], sources: usize) -> Result<Vec<Vec<usize>>, NoMemory>
    requires { (j : ℕ) → j < length order.now → (segment_at order.now j).source < sources }
    ensures { IfOk result (λ own. AreOwnPlaces order.now sources (length order.now) (rows_of own.items)) }
{
    let mut own = no_places(alloc, sources)?;
    for j in 0..order.len() {
        push_place(&mut own, order[j].source, j)?;
    }
    Ok(own)
}

// No places yet, for each source.
fn no_places(alloc: Global, sources: usize) -> Result<Vec<Vec<usize>>, NoMemory>
    ensures count { IfOk result (λ own. length own.items ≡ sources) }
    ensures none { IfOk result (λ own. (n : ℕ) → slice_index_or (rows_of own.items) n [] ≡ []) }
{
    let mut own = Vec::new(alloc);
    for _ in 0..sources {
        own.push(Vec::new(alloc))?;
    }
    Ok(own)
}

// A place more for source n.
fn push_place(own: &mut Vec<Vec<usize>>, n: usize, j: usize) -> Result<(), NoMemory>
    requires { n < length own.old.items }
    ensures { IfOk result (λ done. IsPlacePushed n j (rows_of own.old.items) (rows_of own.new.items)) }
{
    let places = &mut own[n];
    places.push(j)?;
    Ok(())
}

/// The part of source n's range, in watts, from the least that it may give at a level: its own segments before the level are full.
pub(crate) fn open_at(merit: &Merit, n: usize, level: usize, range: &Range) -> Range
    requires source { n < length merit.now.own.items }
    requires places { ArePlacesOf merit.now.order.items n (slice_index_or (rows_of merit.now.own.items) n []) }
    requires range { range.now.low ≤ℤ range.now.high }
    ensures least { IsLeastAt merit.now.order.items n level range.now result.low }
{
    let order = merit.order.as_slice();
    open_by(order, &merit.own[n], level, range)
}

// The same by the places of the source's own segments.
fn open_by(order: &[Segment], places: &[usize], level: usize, range: &Range) -> Range
    requires places { (k : ℕ) → k < length places.now → slice_index_or places.now k 0 < length order.now }
    requires range { range.now.low ≤ℤ range.now.high }
    ensures { (n : ℕ) → ArePlacesOf order.now n places.now → IsLeastAt order.now n level range.now result.low }
{
    let mut part = *range;
    for place in places {
        part = open_beside(&part, &order[*place], *place < level);
    }
    part
}

// The part of a range from a segment's end on, where the segment is before the level.
fn open_beside(range: &Range, segment: &Segment, is_before: bool) -> Range
    ensures low { result.low ≡ (if is_before then int_max range.now.low (int_min segment.now.end range.now.high) else range.now.low) }
    ensures high { result.high ≡ range.now.high }
{
    if is_before {
        Range {
            low: range.low.max(end(segment, range)),
            high: range.high,
        }
    } else {
        *range
    }
}
