//! What the path to a node decides of each unit.

ghost use Rattle.std.specs.Prelude.{◌≡◌, ℕ, ◌<◌, false, ◌||◌, ◌&&◌, ◌==◌, All, length};
ghost use Rattle.uc_model.specs.Prelude.{commitment_of, thermal_count};
ghost use Rattle.dual_model.specs.Prelude.{IsNodeOf};
ghost use Rattle.leaf_values.specs.Paths.{Instance, AreFixesOf, DecidesOnce, IsPlaced, IsUndecided, fix_at, node_of};

use dual_model::{Fix, Fixing};
use uc_model::Pattern;
use uc_model::limits::MAX_PERIODS;

/// Nothing is decided.
pub fn undecided() -> Fix
    ensures { IsUndecided result }
{
    Fix {
        known: Pattern::all_off(),
        on: Pattern::all_off(),
    }
}

/// Writes what a path decides of each thermal unit into `fixes`, which has a place for each. Takes a time that grows as
/// the number of units and the length of the path.
pub fn fill_fixes(fixes: &mut [Fix], path: &[Fixing])
    requires placed { All (IsPlaced (length fixes.old)) path.now }
    requires once { DecidesOnce path.now }
    ensures { (instance : Instance) → thermal_count instance ≡ length fixes.old → IsNodeOf instance (node_of path.now)
        → AreFixesOf instance (node_of path.now) fixes.new }
{
    clear(fixes);
    for fixing in path {
        decide(&mut fixes[fixing.g as usize], fixing);
    }
}

// Nothing is decided of any unit.
fn clear(fixes: &mut [Fix])
    ensures { (g : ℕ) → g < length fixes.new → IsUndecided (fix_at fixes.new g) }
{
    for fix in fixes.iter_mut() {
        *fix = undecided();
    }
}

// Adds a decision in a period in which none was made.
fn decide(fix: &mut Fix, fixing: &Fixing)
    requires period { fixing.now.t < MAX_PERIODS }
    requires known { commitment_of fix.old.known fixing.now.t ≡ false }
    requires on { commitment_of fix.old.on fixing.now.t ≡ false }
    ensures known { (t : ℕ) → commitment_of fix.new.known t ≡ (fixing.now.t == t || commitment_of fix.old.known t) }
    ensures on { (t : ℕ) → commitment_of fix.new.on t ≡ (fixing.now.on && fixing.now.t == t || commitment_of fix.old.on t) }
{
    fix.known.switch_on(fixing.t);
    if fixing.on {
        fix.on.switch_on(fixing.t);
    }
}
