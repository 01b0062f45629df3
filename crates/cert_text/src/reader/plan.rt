//! Prices and schedules.

ghost use Rattle.std.specs.Prelude.{◌≡◌, Ok, IfOk, true, codes};
ghost use Rattle.std.specs.Option.{option_map};
ghost use Rattle.branch_tree.specs.Prelude.{written_of};
ghost use Rattle.cert_text.specs.inside.Forms.{signed_at};
ghost use Rattle.cert_text.specs.inside.Parts.{GivesPart, nothing, then, rows_of, missing_part, powers_part, shortages_part, printed_part, rows_behind, schedule_part, first_of, head_of, prices_of, behind_first, plan_part, sizes};

use super::lines::{First, Head, take_first, take_schedule};
use super::sizes::Size;
use super::stop::Stop;
use super::words::{CellWord, Watts, take_row, take_rows};
use std::alloc::Global;
use uc_model::{List, NoMemory, Printed};

// No power in each period.
fn nothing(alloc: Global, periods: u32) -> Result<List<i64>, NoMemory>
    ensures { IfOk result (λ powers. powers ≡ nothing periods) }
{
    Ok(List::from_vec(vec![in alloc; 0; periods as usize]?))
}

// A power in each period, in the line with this first word.
fn take_powers<'a>(
    alloc: Global,
    first: &[u8],
    size: &Size,
    bytes: &'a [u8],
) -> Result<(List<i64>, &'a [u8]), Stop<'a>>
    ensures { GivesPart (λ r. (r.0, r.1.now)) result (powers_part first.now (sizes size.now) bytes.now) }
{
    let mut powers = Vec::new(alloc);
    let rest = take_row(first, &Watts, size.periods, bytes, &mut powers)?;
    Ok((List::from_vec(powers), rest))
}

// A power in each period, which is told in the line with this first word where it has a price.
fn take_missing<'a>(
    alloc: Global,
    first: &[u8],
    size: &Size,
    priced: bool,
    bytes: &'a [u8],
) -> Result<(List<i64>, &'a [u8]), Stop<'a>>
    ensures { GivesPart (λ r. (r.0, r.1.now)) result (missing_part first.now (sizes size.now) priced bytes.now) }
{
    if priced {
        take_powers(alloc, first, size, bytes)
    } else {
        Ok((nothing(alloc, size.periods)?, bytes))
    }
}

// What is missing in each period.
#[tactic(auto, unfolding(crate::specs::inside::Parts::shortages_part))]
fn take_shortages<'a>(
    alloc: Global,
    size: &Size,
    priced: bool,
    bytes: &'a [u8],
) -> Result<((List<i64>, List<i64>), &'a [u8]), Stop<'a>>
    ensures { GivesPart (λ r. (r.0, r.1.now)) result (shortages_part (sizes size.now) priced bytes.now) }
{
    let (shed, rest) = take_missing(alloc, b"d", size, priced, bytes)?;
    let (short, rest) = take_missing(alloc, b"e", size, priced, rest)?;
    Ok(((shed, short), rest))
}

// The renewable units' rows, and what is missing.
fn take_free_rows<'a>(
    alloc: Global,
    size: &Size,
    priced: bool,
    bytes: &'a [u8],
) -> Result<(Vec<List<i64>>, (List<i64>, List<i64>), &'a [u8]), Stop<'a>>
    ensures { GivesPart (λ r. ((r.0.items, r.1), r.2.now)) result
        (then (rows_of (codes "w") size.now.renewable size.now.periods (signed_at 15)) (λ _. shortages_part (sizes size.now) priced) bytes.now) }
{
    let (renewable, rest) = take_rows(alloc, b"w", &Watts, size.renewable, size.periods, bytes)?;
    let (missing, rest) = take_shortages(alloc, size, priced, rest)?;
    Ok((renewable, missing, rest))
}

// The rows of all units, and what is missing, with powers over that denominator.
#[tactic(auto, unfolding(crate::specs::inside::Parts::printed_part))]
fn take_printed<'a>(
    alloc: Global,
    size: &Size,
    priced: bool,
    denominator: u8,
    bytes: &'a [u8],
) -> Result<(Printed, &'a [u8]), Stop<'a>>
    ensures { GivesPart (λ r. (r.0, r.1.now)) result (printed_part (sizes size.now) priced denominator bytes.now) }
{
    let (thermal, rest) = take_rows(alloc, b"t", &CellWord, size.thermal, size.periods, bytes)?;
    let (renewable, (shed, short), rest) = take_free_rows(alloc, size, priced, rest)?;
    let printed = Printed {
        thermal: List::from_vec(thermal),
        renewable: List::from_vec(renewable),
        shed,
        short,
        denominator,
    };
    Ok((printed, rest))
}

// The rows of a schedule whose line is this, or none.
fn take_rows_behind<'a>(
    alloc: Global,
    size: &Size,
    priced: bool,
    head: Option<Head>,
    bytes: &'a [u8],
) -> Result<(Option<(Printed, i128)>, &'a [u8]), Stop<'a>>
    ensures { GivesPart (λ r. (written_of r.0, r.1.now)) result (rows_behind (sizes size.now) priced (option_map head_of head) bytes.now) }
{
    match head {
        None => Ok((None, bytes)),
        Some(head) => {
            let (printed, rest) = take_printed(alloc, size, priced, head.denominator, bytes)?;
            Ok((Some((printed, head.cost)), rest))
        }
    }
}

// The schedule behind prices.
#[tactic(auto, unfolding(crate::specs::inside::Parts::schedule_part))]
fn take_priced<'a>(
    alloc: Global,
    size: &Size,
    bytes: &'a [u8],
) -> Result<(Option<(Printed, i128)>, &'a [u8]), Stop<'a>>
    ensures { GivesPart (λ r. (written_of r.0, r.1.now)) result (schedule_part (sizes size.now) bytes.now) }
{
    let (head, rest) = take_schedule(bytes, size.version).ok_or(Stop::At(bytes))?;
    take_rows_behind(alloc, size, true, head, rest)
}

// The schedule with its cost, or none, behind the line of the prices or as that line tells.
fn take_behind<'a>(
    alloc: Global,
    size: &Size,
    first: First,
    bytes: &'a [u8],
) -> Result<(Option<(Printed, i128)>, &'a [u8]), Stop<'a>>
    ensures { GivesPart (λ r. (written_of r.0, r.1.now)) result (behind_first (sizes size.now) (first_of first) bytes.now) }
{
    match first {
        First::Priced { .. } => take_priced(alloc, size, bytes),
        First::Unpriced(head) => take_rows_behind(alloc, size, false, head, bytes),
    }
}

// The prices that the line behind the claim tells; there are none where it is the schedule's.
fn prices_of(first: First) -> (u32, u32)
    ensures { result ≡ prices_of (first_of first) }
{
    match first {
        First::Priced { a, b } => (a, b),
        First::Unpriced(_) => (0, 0),
    }
}

/// The prices of unserved demand and of missing reserve, and the schedule with its cost, or none.
#[tactic(auto, unfolding(crate::specs::inside::Parts::plan_part))]
pub(crate) fn take_plan<'a>(
    alloc: Global,
    size: &Size,
    bytes: &'a [u8],
) -> Result<((u32, u32), Option<(Printed, i128)>, &'a [u8]), Stop<'a>>
    ensures { GivesPart (λ r. ((r.0, written_of r.1), r.2.now)) result (plan_part (sizes size.now) bytes.now) }
{
    let (first, rest) = take_first(bytes, size.version).ok_or(Stop::At(bytes))?;
    let (schedule, rest) = take_behind(alloc, size, first, rest)?;
    Ok((prices_of(first), schedule, rest))
}
