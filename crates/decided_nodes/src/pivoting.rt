//! How a search uses the exact dispatch.

ghost use Rattle.std.specs.Prelude.{◌≡◌, ◌≤◌, ◌↔◌, IsTrue};
ghost use Rattle.uc_model.specs.Prelude.{IsLawfulInstance};
ghost use Rattle.decided_nodes.specs.Pivoting.{node_limit, uses_exact_dispatch};
ghost use Rattle.decided_nodes.specs.declared.pivoting.Pivoting.TheVariants.{Exhaustive};

use uc_model::Instance;

/// Whether the first claim on a node at which each cell is decided takes the exact dispatch of its commitment.
#[derive(Clone, Copy, Debug, PartialEq, Eq)]
pub enum Pivoting {
    /// No claim does.
    Off,
    /// That claim does.
    On,
    /// That claim does, and each other one splits its node: the budget has a claim for each node of the tree.
    Exhaustive,
}

impl Pivoting {
    /// That of a search with this budget of claims, which uses the exact dispatch where that is asked.
    pub fn of(is_asked: bool, instance: &Instance, budget: u32) -> Pivoting
        requires { IsLawfulInstance instance.now }
        ensures asked { uses_exact_dispatch result ≡ is_asked }
        ensures exhaustive { (result ≡ Exhaustive) ↔ (IsTrue is_asked × (node_limit instance.now ≤ budget)) }
    {
        match (is_asked, has_claim_for_each(instance, budget)) {
            (false, _) => Pivoting::Off,
            (true, false) => Pivoting::On,
            (true, true) => Pivoting::Exhaustive,
        }
    }

    /// Whether the exact dispatch is used.
    pub fn is_on(self) -> bool
        ensures { result ≡ uses_exact_dispatch self }
    {
        match self {
            Pivoting::Off => false,
            Pivoting::On => true,
            Pivoting::Exhaustive => true,
        }
    }
}

// Whether the budget is at least 2 to the number of cells and 1, so that each node of a tree on them can have a claim.
fn has_claim_for_each(instance: &Instance, budget: u32) -> bool
    requires { IsLawfulInstance instance.now }
    ensures { IsTrue result ↔ (node_limit instance.now ≤ budget) }
{
    let units = instance.thermal.as_slice().len() as u32;
    match 2_u32.checked_pow(units * instance.periods + 1) {
        Some(limit) => limit <= budget,
        None => false,
    }
}
