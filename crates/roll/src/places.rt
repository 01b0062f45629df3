//! Which periods a window has.

ghost use Rattle.std.specs.Prelude.{◌<◌, ◌≤◌};
ghost use Rattle.roll.specs.Rolling.{IsNextPlace};

/// A window: its first period, from 1, how many it has, and how many of these are kept.
#[derive(Clone, Copy, Debug)]
pub struct Place {
    pub from: u32,
    pub len: u32,
    pub keep: u32,
}

/// The window behind the first `done` periods, where a window has at most `window` and the first `step` of them are kept. A window that
/// reaches the last period is kept whole.
pub fn next_place(periods: u32, done: u32, window: u32, step: u32) -> Place
    requires left { done < periods }
    requires window { 1 ≤ window }
    requires step { 1 ≤ step }
    ensures { IsNextPlace periods window step done result }
{
    let left = periods - done;
    let from = done + 1;
    if left <= window {
        Place {
            from,
            len: left,
            keep: left,
        }
    } else {
        Place {
            from,
            len: window,
            keep: step.min(window),
        }
    }
}
