//! Windows one behind another, each with the dispatch of its part of a commitment.

ghost use Rattle.std.specs.Prelude.{◌≡◌, ℕ, ◌+◌, ◌≤◌, IfOk, length};
ghost use Rattle.uc_model.specs.Prelude.{IsLawfulInstance, thermal_count};
ghost use Rattle.roll.specs.Kept.{IsKept};
ghost use Rattle.roll.specs.Stitched.{IsContinuation};

use crate::Answer;
use crate::commitment::patterns;
use crate::dispatch::{no_commitment, put_schedule, stuck_text};
use crate::text::{first, put_line, whole};
use dispatch_repair::{DispatchFault, dispatch};
use roll::{Carried, begin, carry, stitch, whole_cost, window};
use std::alloc::{AllocError, Global};
use uc_model::limits::MAX_PERIODS;
use uc_model::{Instance, NoMemory, Pattern, Printed};

/// How long windows are, and how many of their first periods are kept.
#[derive(Clone, Copy)]
struct Pace {
    window: u32,
    step: u32,
}

/// What windows leave and give, as `WINDOW STEP BITS..` says: how long they are, how many of their periods are kept, and a
/// commitment of the whole.
pub(crate) fn tell_roll(alloc: Global, instance: &Instance, words: &str) -> Answer
    requires { IsLawfulInstance instance.now }
{
    let (window, words) = first(words);
    let (step, bits) = first(words);
    let pace = Pace {
        window: hours(window),
        step: hours(step),
    };
    let patterns = patterns(alloc, bits)?;
    if patterns.len() != instance.thermal.as_slice().len() {
        return no_commitment(alloc);
    }
    let mut text = String::new(alloc);
    match rolled(alloc, instance, &patterns, pace, &mut text) {
        Ok(kept) => {
            let cost = whole_cost(instance, &kept);
            let put = put_whole(&mut text, &kept, cost);
            drop(kept);
            whole(put, text)
        }
        Err(DispatchFault::Stuck(stuck)) => stuck_text(text, &stuck),
        Err(DispatchFault::NoMemory) => Err(NoMemory),
    }
}

// A number of hours, at least one.
fn hours(word: &str) -> u32
    ensures some { 1 ≤ result }
    ensures few { result ≤ MAX_PERIODS }
{
    match word.parse::<u32>() {
        Ok(hours) if 1 <= hours && hours <= MAX_PERIODS => hours,
        _ => 1,
    }
}

// The schedule of the whole, by windows of which the last one is kept whole; what each is left is told.
fn rolled(
    alloc: Global,
    instance: &Instance,
    patterns: &[Pattern],
    pace: Pace,
    text: &mut String,
) -> Result<Printed, DispatchFault>
    requires lawful { IsLawfulInstance instance.now }
    requires patterns { length patterns.now ≡ thermal_count instance.now }
    requires window { 1 ≤ pace.window }
    requires step { 1 ≤ pace.step }
    ensures { IfOk result (IsKept instance.now instance.now.periods) }
{
    let mut kept = begin(alloc, instance)?;
    let mut done = 0;
    while done < instance.periods {
        let left = instance.periods - done;
        let len = pace.window.min(left);
        let keep = if len == left { len } else { pace.step.min(len) };
        kept = next_kept(
            alloc,
            instance,
            kept,
            patterns,
            Piece { done, len, keep },
            text,
        )?;
        done += keep;
    }
    Ok(kept)
}

// A window behind the periods that are done: its length, and how many of its periods are kept.
#[derive(Clone, Copy)]
struct Piece {
    done: u32,
    len: u32,
    keep: u32,
}

// What is kept behind the next window.
fn next_kept(
    alloc: Global,
    instance: &Instance,
    kept: Printed,
    patterns: &[Pattern],
    piece: Piece,
    text: &mut String,
) -> Result<Printed, DispatchFault>
    requires lawful { IsLawfulInstance instance.now }
    requires kept { IsKept instance.now piece.done kept }
    requires patterns { length patterns.now ≡ thermal_count instance.now }
    requires some { 1 ≤ piece.keep }
    requires part { piece.keep ≤ piece.len }
    requires within { piece.done + piece.len ≤ instance.now.periods }
    ensures { IfOk result (IsKept instance.now (piece.done + piece.keep)) }
{
    let shown = next_shown(alloc, instance, &kept, patterns, piece, text)?;
    let stitched = stitch(alloc, instance, &kept, &shown, piece.keep);
    drop(shown);
    drop(kept);
    Ok(stitched?)
}

// The dispatch of the next window's part of the commitment; what the window is left is told.
fn next_shown(
    alloc: Global,
    instance: &Instance,
    kept: &Printed,
    patterns: &[Pattern],
    piece: Piece,
    text: &mut String,
) -> Result<Printed, DispatchFault>
    requires lawful { IsLawfulInstance instance.now }
    requires kept { IsKept instance.now piece.done kept.now }
    requires patterns { length patterns.now ≡ thermal_count instance.now }
    requires some { 1 ≤ piece.keep }
    requires part { piece.keep ≤ piece.len }
    requires within { piece.done + piece.len ≤ instance.now.periods }
    ensures { IfOk result (IsContinuation instance.now kept.now piece.done piece.keep) }
{
    let a = piece.done + 1;
    let carried = carry(alloc, instance, kept, a)?;
    let put = put_states(text, &carried);
    let next = window(alloc, instance, &carried, a, piece.len);
    drop(carried);
    put_or_fault(put)?;
    let next = next?;
    let own = patterns_from(alloc, patterns, piece.done)?;
    let shown = dispatch(alloc, &next, &own);
    drop(next);
    shown
}

fn put_or_fault(put: Result<(), AllocError>) -> Result<(), NoMemory> {
    match put {
        Ok(()) => Ok(()),
        Err(_) => Err(NoMemory),
    }
}

// The patterns from a period on, which becomes their first.
fn patterns_from(alloc: Global, patterns: &[Pattern], first: u32) -> Result<Vec<Pattern>, NoMemory>
    ensures { IfOk result (λ own. length own.items ≡ length patterns.now) }
{
    let mut own = Vec::new(alloc);
    for g in 0..patterns.len() {
        own.push(pattern_from(&patterns[g], first))?;
    }
    Ok(own)
}

fn pattern_from(pattern: &Pattern, first: u32) -> Pattern {
    let mut own = Pattern::all_off();
    for t in first..MAX_PERIODS {
        if pattern.is_on(t) {
            own.switch_on(t - first);
        }
    }
    own
}

// What each unit is left: its total output and for how long it has been on, or for how long it has been off.
fn put_states(text: &mut String, carried: &Carried) -> Result<(), AllocError> {
    text.push_str("left")?;
    for state in carried.units.as_slice() {
        text.push_str(if state.on { " on" } else { " off" })?;
        write!(
            text,
            ":{}:{}:{}",
            state.output, state.time_on, state.time_off
        )?;
    }
    text.push_str("\n")
}

// A schedule and its cost.
fn put_whole(text: &mut String, kept: &Printed, cost: i64) -> Result<(), AllocError> {
    put_schedule(text, kept)?;
    put_line(text, "cost", &[cost])
}
