//! The uplifts of dispatches.

ghost use Rattle.std.specs.Prelude.{◌≡◌, IfOk, IfSome, All, length};
ghost use Rattle.uc_model.specs.Prelude.{IsLawfulInstance, HasShapeOf, printed_denominator, printed_schedule, Obeys, thermal_count};
ghost use Rattle.dual_model.specs.Prelude.{IsCell, AreRising, HasLawfulSigns, HasSizeOf, IsPrice, IsRowPriced, IsRowSigned, IsRowWithin, IsWithinLimits};
ghost use Rattle.schedule_check.specs.PlainNumbers.{HasPlainNumbers};

use crate::Answer;
use crate::dispatch::{dispatched, no_dispatch};
use crate::text::{first, put_large, whole};
use dual_model::{RampRow, Table};
use std::alloc::{AllocError, Global};
use uc_model::{Instance, NoMemory, Printed};
use uplift::{Uplifts, of};

/// Prices for all periods, of demand and of reserve, and a ramp row.
#[derive(Clone, Copy)]
struct Prices {
    demand: i32,
    reserve: u32,
    ramp: Option<RampRow>,
}

/// The uplifts of a commitment's dispatch, as `DEMAND RESERVE RAMP BITS..` says.
pub(crate) fn tell_uplift(alloc: Global, instance: &Instance, words: &str) -> Answer
    requires { IsLawfulInstance instance.now }
{
    let (demand, words) = first(words);
    let (reserve, words) = first(words);
    let (ramp, bits) = first(words);
    let prices = Prices {
        demand: demand.parse::<i32>().unwrap_or(0),
        reserve: reserve.parse::<u32>().unwrap_or(0),
        ramp: ramp_row(instance, ramp),
    };
    match dispatched(alloc, instance, bits) {
        Ok(printed) => {
            let text = uplift_text(alloc, instance, &printed, &prices);
            drop(printed);
            text
        }
        Err(why) => no_dispatch(alloc, why),
    }
}

// The uplifts of a dispatch at the prices, line by line.
fn uplift_text(alloc: Global, instance: &Instance, printed: &Printed, prices: &Prices) -> Answer
    requires lawful { IsLawfulInstance instance.now }
    requires shape { HasShapeOf instance.now printed.now }
    requires numbers { HasPlainNumbers printed.now }
    requires whole { printed.now.denominator ≡ 1 }
    requires obeys { let q = printed_denominator instance.now printed.now in Obeys instance.now q (printed_schedule instance.now printed.now q) }
    requires cell { IfSome prices.now.ramp (λ row. IsCell instance.now row.g row.t) }
    requires row { IfSome prices.now.ramp (λ row. IsRowSigned row × IsRowPriced row) }
{
    let table = table(alloc, instance, prices)?;
    let uplifts = of(alloc, instance, printed, &table);
    drop(table);
    let uplifts = uplifts?;
    let mut text = String::new(alloc);
    let put = put_uplifts(&mut text, &uplifts);
    drop(uplifts);
    whole(put, text)
}

// A line for each kind of uplift and slack.
fn put_uplifts(text: &mut String, uplifts: &Uplifts) -> Result<(), AllocError> {
    put_large(text, "thermal", uplifts.thermal.as_slice())?;
    put_large(text, "renewable", uplifts.renewable.as_slice())?;
    put_large(text, "shed", &[uplifts.shed])?;
    put_large(text, "reserve-slack", &[uplifts.reserve_slack])?;
    put_large(text, "ramp-slack", &[uplifts.ramp_slack])?;
    put_large(text, "total", &[uplifts.total])
}

// The table of the prices at the scale of a million.
fn table(alloc: Global, instance: &Instance, prices: &Prices) -> Result<Table, NoMemory>
    requires lawful { IsLawfulInstance instance.now }
    requires cell { IfSome prices.now.ramp (λ row. IsCell instance.now row.g row.t) }
    requires row { IfSome prices.now.ramp (λ row. IsRowSigned row × IsRowPriced row) }
    ensures size { IfOk result (HasSizeOf instance.now) }
    ensures signs { IfOk result HasLawfulSigns }
    ensures limits { IfOk result IsWithinLimits }
{
    match &prices.ramp {
        Some(row) if row.up != 0 || row.down != 0 => {
            table_with(alloc, instance, prices.demand, prices.reserve, &[*row])
        }
        _ => table_with(alloc, instance, prices.demand, prices.reserve, &[]),
    }
}

/// The table of prices for all periods, and of ramp rows.
pub(crate) fn table_with(
    alloc: Global,
    instance: &Instance,
    demand: i32,
    reserve: u32,
    rows: &[RampRow],
) -> Result<Table, NoMemory>
    requires lawful { IsLawfulInstance instance.now }
    requires within { All (IsRowWithin (thermal_count instance.now) instance.now.periods) rows.now }
    requires rising { AreRising rows.now }
    requires signed { All IsRowSigned rows.now }
    requires priced { All IsRowPriced rows.now }
    ensures size { IfOk result (HasSizeOf instance.now) }
    ensures signs { IfOk result HasLawfulSigns }
    ensures limits { IfOk result IsWithinLimits }
{
    let demand = vec![in alloc; i64::from(demand); instance.periods as usize]?;
    let table = table_at(alloc, instance, &demand, reserve, rows);
    drop(demand);
    table
}

// The table of prices of demand, of one of reserve for all periods, and of ramp rows.
fn table_at(
    alloc: Global,
    instance: &Instance,
    demand: &[i64],
    reserve: u32,
    rows: &[RampRow],
) -> Result<Table, NoMemory>
    requires lawful { IsLawfulInstance instance.now }
    requires demand { length demand.now ≡ instance.now.periods }
    requires priced { All IsPrice demand.now }
    requires within { All (IsRowWithin (thermal_count instance.now) instance.now.periods) rows.now }
    requires rising { AreRising rows.now }
    requires signed { All IsRowSigned rows.now }
    requires rows_priced { All IsRowPriced rows.now }
    ensures size { IfOk result (HasSizeOf instance.now) }
    ensures signs { IfOk result HasLawfulSigns }
    ensures limits { IfOk result IsWithinLimits }
{
    let reserve = vec![in alloc; i64::from(reserve); instance.periods as usize]?;
    let units = instance.thermal.as_slice().len() as u32;
    let table = Table::new(alloc, units, 1_000_000, demand, &reserve, rows);
    drop(reserve);
    table
}

// The ramp row that `UNIT:PERIOD:UP:DOWN` says of a cell of the instance.
fn ramp_row(instance: &Instance, word: &str) -> Option<RampRow>
    requires { IsLawfulInstance instance.now }
    ensures cell { IfSome result (λ row. IsCell instance.now row.g row.t) }
    ensures row { IfSome result (λ row. IsRowSigned row × IsRowPriced row) }
{
    let unit = part(word, 0);
    let hour = part(word, 1);
    if 0 < unit
        && unit as usize <= instance.thermal.as_slice().len()
        && 0 < hour
        && hour <= instance.periods
    {
        Some(RampRow {
            g: unit - 1,
            t: hour - 1,
            up: i64::from(part(word, 2)),
            down: i64::from(part(word, 3)),
        })
    } else {
        None
    }
}

// A number among those of a word with colons, from 0; 0 where there is none.
fn part(word: &str, n: usize) -> u32 {
    match word.split(':').nth(n) {
        Some(part) => part.parse::<u32>().unwrap_or(0),
        None => 0,
    }
}
