//! The categories that the initial time off bars.

ghost use Rattle.std.specs.Prelude.{◌≡◌, ◌+◌, ◌^◌, ◌<◌};
ghost use Rattle.uc_model.specs.Prelude.{is_barred as barred_at};

use uc_model::limits::MAX_PERIODS;

/// Whether the initial time off, `time_down` hours, bars in period `t` (from 0) the category before the one of
/// this lag, which lies past the period.
pub fn is_barred(time_down: usize, lag: usize, t: usize) -> bool
    requires period { t < MAX_PERIODS }
    requires later { t + 1 < lag }
    requires fits { lag < 2 ^ 32 }
    ensures { result ≡ barred_at time_down lag t }
{
    (lag + 1).saturating_sub(time_down).max(1) <= t + 1 && t + 1 <= lag - 1
}
