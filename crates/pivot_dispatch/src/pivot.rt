//! What the exact dispatch of a commitment answers.

ghost use Rattle.std.specs.Prelude.{◌≡◌, pos};
ghost use Rattle.pivot_dispatch.specs.inside.Endings.{IsStopped};
ghost use Rattle.pivot_dispatch.specs.declared.pivot.DispatchAnswer.TheVariants.{Wide as WideOf};
ghost use Rattle.pivot_dispatch.specs.declared.pivot.WideCause.TheVariants.{Product};

use dual_model::Table;
use pivot_run::{Stop, Wide};
use uc_model::Printed;

/// The limit that a run meets.
#[derive(Debug, Clone, Copy, PartialEq, Eq)]
pub enum WideCause {
    /// A product of 2^126 or more in size.
    Product,
    /// A multiplier above 10^14 in size.
    Multiplier,
    /// A scale above 10^9.
    Scale,
    /// A schedule's least denominator above 99.
    Denominator,
    /// 1,000,000 pivots, with another to come.
    Pivots,
}

/// The exact dispatch of a commitment.
#[derive(Debug, Drop)]
pub enum DispatchAnswer {
    /// A cheapest schedule of the commitment, and a table of prices whose value, with the commitment decided, is K times its cost.
    Best {
        schedule: Printed,
        table: Table,
    },
    /// A ray that excludes the commitment: a table with K = 0 whose value is above 0.
    Ray(Table),
    /// The number `size` that meets a limit after so many pivots; of a product the other factor is `other`, which is 0 else.
    Wide {
        what: WideCause,
        size: i128,
        other: i128,
        pivots: u32,
    },
}

impl DispatchAnswer {
    // The answer where a product is too large.
    pub(crate) fn too_large(wide: &Wide, pivots: u32) -> DispatchAnswer
        ensures { result ≡ WideOf Product wide.now.size wide.now.other pivots }
    {
        DispatchAnswer::Wide {
            what: WideCause::Product,
            size: wide.size,
            other: wide.other,
            pivots,
        }
    }

    // The answer where another number is.
    pub(crate) fn met(what: WideCause, size: i128, pivots: u32) -> DispatchAnswer
        ensures { result ≡ WideOf what size (pos 0) pivots }
    {
        DispatchAnswer::Wide {
            what,
            size,
            other: 0,
            pivots,
        }
    }

    // The answer where the run stops.
    pub(crate) fn stopped(stop: &Stop) -> DispatchAnswer
        ensures { IsStopped stop.now result }
    {
        let what = match stop.what {
            pivot_run::StopCause::Product => WideCause::Product,
            pivot_run::StopCause::Pivots => WideCause::Pivots,
        };
        DispatchAnswer::Wide {
            what,
            size: stop.size,
            other: stop.other,
            pivots: stop.pivots,
        }
    }
}
