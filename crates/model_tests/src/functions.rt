//! Convex functions on whole intervals: each call once, at a function that is computed by hand.

ghost use Rattle.std.specs.Prelude.{◌≡◌, ℤ, ◌+◌, ◌≤◌, ◌+ℤ◌, pos, negsuc, length, IfOk, unsigned_abs};
ghost use Rattle.step_functions.specs.Functions.{IsPlace, last_place, run_count, value_at};

use std::alloc::Global;
use std::process::Abort;
use std::test::Fail;
use step_functions::ConvexFunction;
use uc_model::NoMemory;

// It falls by 2 from the place -2 to 0 and rises by 1 up to 3: its values are 4, 2, 0, 1, 2, 3.
fn bent(alloc: Global) -> Result<ConvexFunction, NoMemory>
    ensures first { IfOk result (λ f. f.first ≡ negsuc 1) }
    ensures last { IfOk result (λ f. last_place f ≡ pos 3) }
    ensures small { IfOk result (λ f. (p : ℤ) → IsPlace f p → unsigned_abs (value_at f p) ≤ 10) }
    ensures room { IfOk result (λ f. (run_count f ≡ 2) × (f.room ≡ 8)) }
{
    let mut f = ConvexFunction::with_room(alloc, 8)?;
    f.set_point(-2, 4);
    f.extend(2, -2);
    f.extend(3, 1);
    Ok(f)
}

// The function has just these values, from `first` on.
fn assert_values(rt: &impl Abort, f: &ConvexFunction, first: i64, values: &[i128]) {
    assert_eq!(rt; f.first(), first);
    for (number, value) in values.iter().enumerate() {
        let place = first + number as i64;
        assert!(rt; place <= f.last());
        assert_eq!(rt; f.at(place), *value, "at {place}");
    }
    assert_eq!(rt; f.last() + 1 - first, values.len() as i64);
}

// It falls by 1 from the place 0 to 5: its values are 5, 4, 3, 2, 1, 0.
fn falling(alloc: Global) -> Result<ConvexFunction, NoMemory>
    ensures first { IfOk result (λ f. f.first ≡ pos 0) }
    ensures last { IfOk result (λ f. last_place f ≡ pos 5) }
    ensures small { IfOk result (λ f. (p : ℤ) → IsPlace f p → unsigned_abs (value_at f p) ≤ 10) }
    ensures room { IfOk result (λ f. run_count f ≡ 1) }
{
    let mut f = ConvexFunction::with_room(alloc, 1)?;
    f.set_point(0, 5);
    f.extend(5, -1);
    Ok(f)
}

#[test]
fn has_values(rt: HostRuntime) -> Result<(), Fail> {
    let f = bent(rt.alloc())?;
    assert_values(&rt, &f, -2, &[4, 2, 0, 1, 2, 3]);
    let least = f.least();
    assert_eq!(&rt; least.value, 0);
    assert_eq!(&rt; (least.first, least.last), (0, 0));
    // with a slope of 3 the values are -2, -1, 0, 4, 8, 12, and with one of -2 they are 8, 4, 0, -1, -2, -3
    assert_eq!(&rt; f.least_place(3), -2);
    assert_eq!(&rt; f.least_place(-2), 3);
    Ok(())
}

#[test]
fn adds_a_constant(rt: HostRuntime) -> Result<(), Fail> {
    let mut f = bent(rt.alloc())?;
    f.add_constant(7);
    assert_values(&rt, &f, -2, &[11, 9, 7, 8, 9, 10]);
    Ok(())
}

#[test]
fn adds_a_slope(rt: HostRuntime) -> Result<(), Fail> {
    let mut f = bent(rt.alloc())?;
    f.add_slope(-1);
    assert_values(&rt, &f, -2, &[6, 3, 0, 0, 0, 0]);
    let least = f.least();
    assert_eq!(&rt; (least.first, least.last), (0, 3));
    Ok(())
}

#[test]
fn adds_a_shortfall(rt: HostRuntime) -> Result<(), Fail> {
    let mut f = bent(rt.alloc())?;
    f.add_shortfall(1, 2);
    assert_values(&rt, &f, -2, &[10, 6, 2, 1, 2, 3]);
    Ok(())
}

#[test]
fn adds_another_function(rt: HostRuntime) -> Result<(), Fail> {
    let mut f = bent(rt.alloc())?;
    f.add(&falling(rt.alloc())?);
    assert_values(&rt, &f, 0, &[5, 5, 5, 5]);
    Ok(())
}

#[test]
fn ramps(rt: HostRuntime) -> Result<(), Fail> {
    let mut f = bent(rt.alloc())?;
    f.ramp(1, 2);
    assert_values(&rt, &f, -4, &[4, 2, 0, 0, 0, 0, 1, 2, 3]);
    Ok(())
}

#[test]
fn is_cut(rt: HostRuntime) -> Result<(), Fail> {
    let mut f = bent(rt.alloc())?;
    assert!(&rt; !f.cut(4, 9));
    assert!(&rt; f.cut(-1, 2));
    assert_values(&rt, &f, -1, &[2, 0, 1, 2]);
    Ok(())
}

#[test]
fn is_copied(rt: HostRuntime) -> Result<(), Fail> {
    let f = bent(rt.alloc())?;
    let mut copy = ConvexFunction::with_room(rt.alloc(), 2)?;
    copy.copy_from(&f);
    assert_values(&rt, &copy, -2, &[4, 2, 0, 1, 2, 3]);
    Ok(())
}
