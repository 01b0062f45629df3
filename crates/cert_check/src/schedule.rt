//! The check of a certificate's schedule.

ghost use Rattle.std.specs.Prelude.{◌≡◌, IfOk, IfErr, IfSome};
ghost use Rattle.uc_model.specs.Prelude.{IsLawfulInstance, HasShapeOf};
ghost use Rattle.branch_tree.specs.Prelude.{written_of};
ghost use Rattle.schedule_check.specs.SizedNumbers.{HasSizedNumbers};
ghost use Rattle.cert_check.specs.inside.Schedules.{IsCostOf, IsScheduleFault};

use schedule_check::check;
use uc_model::{Instance, Printed, Refusal};

/// The cost of a schedule that obeys and costs what is written, in micro-dollars, where there is one; else C2 or C3.
pub(crate) fn schedule_cost(
    instance: &Instance,
    schedule: &Option<(Printed, i128)>,
) -> Result<Option<i64>, Refusal>
    requires lawful { IsLawfulInstance instance.now }
    requires shape { IfSome (written_of schedule.now) (λ written. HasShapeOf instance.now written.printed) }
    requires sized { IfSome (written_of schedule.now) (λ written. HasSizedNumbers written.printed) }
    ensures cost { IfOk result (IsCostOf instance.now (written_of schedule.now)) }
    ensures refused { IfErr result (IsScheduleFault instance.now (written_of schedule.now)) }
{
    match schedule {
        Some((printed, written)) => written_cost(instance, printed, written),
        None => Ok(None),
    }
}

fn written_cost(
    instance: &Instance,
    printed: &Printed,
    written: &i128,
) -> Result<Option<i64>, Refusal>
    requires lawful { IsLawfulInstance instance.now }
    requires shape { HasShapeOf instance.now printed.now }
    requires sized { HasSizedNumbers printed.now }
    ensures cost { IfOk result (IsCostOf instance.now (Some (record { printed = printed.now; cost = written.now }))) }
    ensures refused { IfErr result (IsScheduleFault instance.now (Some (record { printed = printed.now; cost = written.now }))) }
{
    match check(instance, printed) {
        Ok(computed) => {
            if *written == i128::from(computed) {
                Ok(Some(computed))
            } else {
                Err(Refusal::C3 {
                    written: *written,
                    computed,
                })
            }
        }
        Err(broken) => Err(Refusal::C2 {
            rule: broken.rule,
            unit: broken.unit,
            period: broken.period,
        }),
    }
}
