//! What a node decides of one unit.

ghost use Rattle.std.specs.Prelude.{ℕ, ◌<◌, MatchOption, IfSome};
ghost use Rattle.dual_model.specs.Prelude.{IsFixOf};
ghost use Rattle.dual_value.specs.inside.Fixes.{AreBelow, Contradicts, IsFixWith, IsPlain};

use dual_model::{Fix, Fixing, Node};
use uc_model::Pattern;
use uc_model::limits::MAX_PERIODS;

/// What the node decides of thermal unit `g`, from 0; `None` exactly where it decides both ways in one period, so that
/// no commitment agrees with it.
pub(crate) fn fix_of(node: &Node, g: u32) -> Option<Fix>
    requires { AreBelow MAX_PERIODS node.now }
    ensures { (periods : ℕ) → AreBelow periods node.now → MatchOption result (Contradicts node.now g) (IsFixOf periods node.now g) }
{
    // Invariant: a commitment agrees with the node on the unit exactly where it agrees with `fix` and with the fixings that
    // are left.
    let mut fix = Fix {
        known: Pattern::all_off(),
        on: Pattern::all_off(),
    };
    for fixing in node.fixings.as_slice() {
        if fixing.g == g {
            match decided(&fix, fixing) {
                None => return None,
                Some(more) => fix = more,
            }
        }
    }
    Some(fix)
}

// What is decided with a fixing more; `None` where its period was decided the other way.
fn decided(fix: &Fix, fixing: &Fixing) -> Option<Fix>
    requires period { fixing.now.t < MAX_PERIODS }
    requires plain { IsPlain fix.now }
    ensures fix { IsFixWith fix.now fixing.now result }
    ensures plain { IfSome result IsPlain }
{
    if fix.known.is_on(fixing.t) && fix.on.is_on(fixing.t) != fixing.on {
        return None;
    }
    let mut more = *fix;
    more.known.switch_on(fixing.t);
    if fixing.on {
        more.on.switch_on(fixing.t);
    }
    Some(more)
}
