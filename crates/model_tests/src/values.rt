//! Patterns, tables, lists and names: what is put in comes out.

use dual_model::{RampRow, Table};
use std::alloc::AllocError;
use std::test::Fail;
use uc_model::{List, Name, NoMemory, Pattern};

// Periods of both words, and none beside them.
#[test]
fn switches_on_single_periods(rt: HostRuntime) {
    let mut pattern = Pattern::all_off();
    for period in [0, 127, 128, 167] {
        pattern.switch_on(period);
    }
    for period in 0..168 {
        assert_eq!(rt; pattern.is_on(period), [0, 127, 128, 167].contains(&period));
    }
    assert!(rt; pattern.low == (1 << 127) + 1 && pattern.high == (1 << 39) + 1);
}

// Whether a table has these numbers and one ramp row.
fn has_numbers(table: &Table, pi: &[i64], mu: &[i64], row: &RampRow) -> bool {
    let [kept] = table.ramps() else {
        return false;
    };
    table.units() == 2
        && table.k() == 1_000_000
        && table.pi() == pi
        && table.mu() == mu
        && kept.g == row.g
        && kept.t == row.t
        && kept.up == row.up
        && kept.down == row.down
}

#[test]
fn makes_and_copies_tables(rt: HostRuntime) -> Result<(), Fail> {
    let row = RampRow {
        g: 1,
        t: 0,
        up: 5,
        down: 0,
    };
    let made = Table::new(rt.alloc(), 2, 1_000_000, &[10_000_000, -4], &[0, 7], &[row])?;
    let copied = made.copy(rt.alloc())?;
    assert!(rt; has_numbers(&copied, &[10_000_000, -4], &[0, 7], &row));
    Ok(())
}

#[test]
fn holds_lists_and_names(rt: HostRuntime) -> Result<(), Fail> {
    let list = List::from_vec(Vec::from_array(rt.alloc(), [3_u32, 1])?);
    let lent = list.as_slice() == [3, 1].as_slice();
    assert!(rt; lent && list.into_vec().as_slice() == [3, 1].as_slice());
    let name = Name::from_string(String::from_str(rt.alloc(), "g1")?);
    let lent = name.as_str() == "g1";
    assert!(rt; lent && name.into_string().as_str() == "g1");
    Ok(())
}

fn refused() -> Result<(), NoMemory> {
    Err(AllocError)?
}

#[test]
fn turns_want_of_memory(rt: HostRuntime) {
    assert!(rt; refused().is_err());
}
