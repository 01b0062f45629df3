//! The laws that make the value of a node a bound. Each is the contract of a function that does nothing: the
//! clause quantifies over every instance, node, table and schedule; and, where it says `exact`, over both kinds of
//! value, V and the exact value VE.

ghost use Rattle.std.specs.Prelude.{Bool};
ghost use Rattle.dual_model.specs.Laws.{WeakDuality, WeakDualityOfLeastStarts, RaysExclude, BlockedUnitsExclude, ValuesAreUnique, ValuesExist, ValuesExistAtSchedules, ChildBound, ShortageRaysExcludeNothing, LeavesPart, CoversBound, CoversExclude, CertificatesClaimTruly};
ghost use Rattle.dual_model.specs.LookUps.{LookUpsAgree};

/// Weak duality. For each lawful instance, each node and each table of the instance's size whose scale and
/// whose multipliers of inequalities are at least 0: the node has a value v of each kind there wherever a schedule
/// obeys and agrees with it, and over every denominator q, `q*v <= K*cost` for each such schedule, also where each start
/// costs the least that its unit's last stop allows in place of its category's cost. With K = 0 and v > 0 there is none,
/// nor is there one where some unit is blocked: has no pattern, or no schedule of its own.
pub fn weak_duality()
    ensures bound { (exact : Bool) → WeakDuality exact }
    ensures least_starts { (exact : Bool) → WeakDualityOfLeastStarts exact }
    ensures ray { (exact : Bool) → RaysExclude exact }
    ensures value { (exact : Bool) → ValuesExistAtSchedules exact }
    ensures blocked { (exact : Bool) → BlockedUnitsExclude exact }
{}

/// A node has at most one value of a kind at a table, and has one unless some unit is blocked there.
pub fn value_laws()
    ensures unique { (exact : Bool) → ValuesAreUnique exact }
    ensures exists { (exact : Bool) → ValuesExist exact }
{}

/// A child's value at its parent's table is at least the parent's, or some unit is blocked at the child.
pub fn child_bound()
    ensures { (exact : Bool) → ChildBound exact }
{}

/// Where unserved demand and missing reserve both have a price, the opening's rays that ask for demand, for reserve or for
/// both in a period, and name no ramp, have values of at most 0, of either kind and at every node: such a shortage alone
/// excludes nothing.
pub fn shortage_rays_exclude_nothing()
    ensures { (exact : Bool) → ShortageRaysExcludeNothing exact }
{}

/// Every schedule agrees with exactly one leaf of a tree. So, where the tables of its leaves are lawful, a
/// tree that holds for b bounds the cost of every schedule by b, and one whose leaves are all excluded leaves
/// no schedule.
pub fn cover_law()
    ensures part { LeavesPart }
    ensures bound { CoversBound }
    ensures exclude { CoversExclude }
{}

/// What a certificate that holds claims is true: no schedule costs less than its bound, or there is none.
pub fn certificate_law()
    ensures { CertificatesClaimTruly }
{}

/// A look-up among the rows of one unit finds what a look-up from the front of all rows does.
pub fn look_ups_agree()
    ensures { LookUpsAgree }
{}
