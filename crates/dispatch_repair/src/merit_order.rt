//! The segments of all sources of an instance, in order of merit.

ghost use Rattle.std.specs.Prelude.{◌≡◌, ℕ, suc, ◌+◌, ◌<◌, length, IfOk};
ghost use Rattle.uc_model.specs.Prelude.{IsLawfulInstance, renewable_count, thermal_count, thermal_unit};
ghost use Rattle.cost_curves.specs.LowerHull.{AreLawfulCorners, IsLowerHull};
ghost use Rattle.dispatch_repair.specs.Segments.{Instance, AreInMeritOrder, AreSegmentsOf, corner_segment, free_segment, source_count};

use crate::segment::{Segment, compare};
use cost_curves::{Curve, Slope, rise, run};
use std::alloc::Global;
use uc_model::limits::MAX_POWER;
use uc_model::{Instance, NoMemory, Point};

/// The segments of all sources, in order of merit. The only error is `NoMemory`.
pub fn merit_order(alloc: Global, instance: &Instance) -> Result<Vec<Segment>, NoMemory>
    requires { IsLawfulInstance instance.now }
    ensures { IfOk result (λ order. AreInMeritOrder instance.now order.items) }
{
    let mut segments = segments(alloc, instance)?;
    segments.sort_unstable_by(|left, right| compare(left, right));
    Ok(segments)
}

// The segments of all sources, source by source.
fn segments(alloc: Global, instance: &Instance) -> Result<Vec<Segment>, NoMemory>
    requires { IsLawfulInstance instance.now }
    ensures { IfOk result (λ all. AreSegmentsOf instance.now (source_count instance.now) all.items) }
{
    let mut segments = free_segments(alloc, instance)?;
    let renewables = instance.renewable.as_slice().len();
    let units = instance.thermal.as_slice();
    for g in 0..units.len() {
        let curve = Curve::of(alloc, units[g].points.as_slice())?;
        push_curve(&mut segments, renewables + g, curve.corners())?;
    }
    Ok(segments)
}

// The segments of the renewable units.
fn free_segments(alloc: Global, instance: &Instance) -> Result<Vec<Segment>, NoMemory>
    ensures { IfOk result (λ all. AreSegmentsOf instance.now (renewable_count instance.now) all.items) }
{
    let mut segments = Vec::new(alloc);
    for w in 0..instance.renewable.as_slice().len() {
        segments.push(free(w))?;
    }
    Ok(segments)
}

// All that a renewable unit may give, which is free.
fn free(w: usize) -> Segment
    ensures { result ≡ free_segment w }
{
    Segment {
        source: w,
        end: MAX_POWER as i64,
        slope: Slope { rise: 0, run: 1 },
    }
}

// Adds the segments between the corners of a unit's curve.
fn push_curve(segments: &mut Vec<Segment>, source: usize, corners: &[Point]) -> Result<(), NoMemory>
    requires corners { AreLawfulCorners corners.now }
    ensures { (instance : Instance) (g : ℕ) → source ≡ renewable_count instance + g → g < thermal_count instance
        → IsLowerHull (thermal_unit instance g).points corners.now
        → AreSegmentsOf instance source segments.old.items → IfOk result (λ done. AreSegmentsOf instance (suc source) segments.new.items) }
{
    for i in 0..corners.len() - 1 {
        segments.push(between(source, corners, i))?;
    }
    Ok(())
}

// The segment from corner i to the next one.
fn between(source: usize, corners: &[Point], i: usize) -> Segment
    requires corners { AreLawfulCorners corners.now }
    requires within { suc i < length corners.now }
    ensures { result ≡ corner_segment source corners.now i }
{
    Segment {
        source,
        end: run(&corners[0], &corners[i + 1]),
        slope: Slope {
            rise: rise(&corners[i], &corners[i + 1]),
            run: run(&corners[i], &corners[i + 1]),
        },
    }
}
