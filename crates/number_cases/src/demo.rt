//! The instances of the demo generator.

use crate::Answer;
use crate::text::{put_each, put_line, told, whole};
use demo_gen::instance;
use std::alloc::{AllocError, Global};
use uc_model::{Instance, Renewable, Thermal};

/// The numbers of the instance of a seed.
pub(crate) fn tell_demo(alloc: Global, word: &str) -> Answer {
    match word.parse::<u32>() {
        Ok(seed) => {
            let system = instance(alloc, seed)?;
            let mut text = String::new(alloc);
            let put = put_system(&mut text, &system);
            drop(system);
            whole(put, text)
        }
        Err(_) => told(alloc, "no seed\n"),
    }
}

// The numbers of an instance, unit by unit in their order.
fn put_system(text: &mut String, system: &Instance) -> Result<(), AllocError> {
    put_line(text, "periods", &[i64::from(system.periods)])?;
    put_line(text, "demand", system.demand.as_slice())?;
    put_line(text, "reserves", system.reserves.as_slice())?;
    for unit in system.thermal.as_slice() {
        put_unit(text, unit)?;
    }
    for unit in system.renewable.as_slice() {
        put_renewable(text, unit)?;
    }
    Ok(())
}

// The lines of the limits of a renewable unit.
fn put_renewable(text: &mut String, unit: &Renewable) -> Result<(), AllocError> {
    put_line(text, unit.name.as_str(), unit.minimum.as_slice())?;
    put_line(text, unit.name.as_str(), unit.maximum.as_slice())
}

// A line of the numbers of a thermal unit.
fn put_unit(text: &mut String, unit: &Thermal) -> Result<(), AllocError> {
    text.push_str(unit.name.as_str())?;
    let numbers = [
        i64::from(unit.must_run),
        unit.pmin,
        unit.pmax,
        unit.ru,
        unit.rd,
        unit.su,
        unit.sd,
        i64::from(unit.ut),
        i64::from(unit.dt),
        unit.p0,
        i64::from(unit.on0),
        i64::from(unit.ut0),
        i64::from(unit.dt0),
    ];
    put_each(text, &numbers)?;
    for row in unit.startup.as_slice() {
        put_each(text, &[i64::from(row.lag), row.cost])?;
    }
    for point in unit.points.as_slice() {
        put_each(text, &[point.mw, point.cost])?;
    }
    text.push_str("\n")
}
