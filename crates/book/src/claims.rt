//! The claims of a book: who held which node by each of them, and how it ended.

ghost use Rattle.std.specs.Prelude.{◌≡◌, ◌↔◌, IsTrue};
ghost use Rattle.book.specs.Claims.{Held};

use search_machine::Move;
use std::alloc::Global;
use std::marker::Model;
use uc_model::NoMemory;

/// How a claim stands.
#[derive(Clone, Copy, Debug)]
pub enum Status {
    /// The worker holds the node.
    Held,
    /// The claim was committed, and ended in this move.
    Committed(Move),
    /// The claim was given back, and its node is open again.
    GivenBack,
}

/// A claim: the worker and the node, each from 0, how many entries the log had at the claim, and how the claim stands.
#[derive(Clone, Copy, Debug)]
pub struct Claim {
    pub worker: u8,
    pub node: u32,
    pub behind: u32,
    pub status: Status,
}

/// What a claim is answered.
#[derive(Clone, Copy, Debug, PartialEq, Eq)]
pub enum Claimed {
    /// There were as many claims as the budget allows.
    Spent,
    /// The node is no open leaf, or some worker holds it.
    NotOpen,
    /// The worker holds the node by the claim of this number, `unit`, from 1. The log has `had` entries of the node.
    Mine { unit: u32, had: u32 },
}

/// All claims in the order of their units, and of each node whether a worker holds it.
///
/// Contracts see the claims, for how many there is room, and for how many nodes.
#[derive(Drop)]
pub(crate) struct Claims {
    claims: Vec<Claim>,
    held: Vec<bool>,
}

impl Model for Claims {
    ghost use Rattle.book.specs.inside.Kept.{ClaimsView};

    ghost Value = { ClaimsView };

    ghost use Rattle.std.specs.Prelude.{◌<◌, ◌^◌, vec_len, vec_capacity};
    ghost use Rattle.book.specs.inside.Kept.{AreNoted};

    ghost view = { λ a. record { claims = a.claims.items; room = vec_capacity a.claims; nodes = vec_len a.held } };

    ghost invariant = { λ a. AreNoted a.claims.items a.held.items × (vec_capacity a.claims < 2 ^ 32) };
}

impl Claims {
    ghost use Rattle.std.specs.Prelude.{◌≡◌, ◌↔◌, ℕ, ◌+◌, ◌<◌, ◌++◌, ◌∷◌, [], IsTrue, IfOk, IfSome, None, length};
    ghost use Rattle.search_machine.specs.Prelude.{IsHeldIn};
    ghost use Rattle.book.specs.Claims.{Held, IsHeldBy, holders, holder_by, ended};

    /// No claims, with room for so many, over so many nodes.
    pub(crate) fn with_room(alloc: Global, room: u32, nodes: u32) -> Result<Claims, NoMemory>
        ensures { IfOk result (λ claims. claims ≡ record { claims = []; room = room; nodes = nodes }) }
    {
        let claims = Vec::with_capacity(alloc, room as usize)?;
        let held = vec![in alloc; false; nodes as usize]?;
        Ok(Claims { claims, held })
    }

    /// How many there are.
    pub(crate) fn len(&self) -> u32
        ensures { result ≡ length self.now.claims }
    {
        self.claims.len() as u32
    }

    /// Whether a worker holds the node.
    pub(crate) fn is_held(&self, node: u32) -> bool
        requires { node < self.now.nodes }
        ensures { IsTrue result ↔ IsHeldIn (holders self.now.claims) node }
    {
        self.held[node as usize]
    }

    /// The node that the worker holds by the claim of this unit.
    pub(crate) fn node_of(&self, worker: u8, unit: u32) -> Option<u32>
        ensures held { IfSome result (λ node. IsHeldBy self.now.claims worker unit node) }
        ensures none { result ≡ None → (node : ℕ) → ¬ IsHeldBy self.now.claims worker unit node }
    {
        if unit == 0 {
            return None;
        }
        match self.claims.get(unit as usize - 1) {
            Some(claim) if is_held_by(claim, worker) => Some(claim.node),
            _ => None,
        }
    }

    /// The worker that holds the unit, and its node.
    pub(crate) fn holder(&self, unit: u32) -> Option<(u8, u32)>
        ensures held { IfSome result (λ pair. IsHeldBy self.now.claims pair.0 unit pair.1) }
        ensures none { result ≡ None → (worker node : ℕ) → ¬ IsHeldBy self.now.claims worker unit node }
    {
        if unit == 0 {
            return None;
        }
        match self.claims.get(unit as usize - 1) {
            Some(claim) if is_held(claim) => Some((claim.worker, claim.node)),
            _ => None,
        }
    }

    /// Adds a claim of a node that nobody holds, at which the log has so many entries.
    pub(crate) fn add(&mut self, worker: u8, node: u32, behind: u32)
        requires room { length self.old.claims < self.old.room }
        requires node { node < self.old.nodes }
        requires unheld { ¬ IsHeldIn (holders self.old.claims) node }
        ensures { self.new ≡ record self.old {
          claims = self.old.claims ++ (record { worker = worker; node = node; behind = behind; status = Held }) ∷ [];
        } }
    {
        self.claims.push_reserved(Claim {
            worker,
            node,
            behind,
            status: Status::Held,
        });
        self.held[node as usize] = true;
    }

    /// Ends the claim of the unit, by which the worker holds the node.
    pub(crate) fn end(&mut self, worker: u8, unit: u32, node: u32, status: Status)
        requires node { node < self.old.nodes }
        requires held { IsHeldBy self.old.claims worker unit node }
        requires ends { (worker node : ℕ) → holder_by status (record { worker = worker; node = node }) ≡ None }
        ensures { self.new ≡ record self.old { claims = ended self.old.claims unit status } }
    {
        self.claims[unit as usize - 1].status = status;
        self.held[node as usize] = false;
    }
}

// Whether the claim's worker holds its node.
fn is_held(claim: &Claim) -> bool
    ensures { IsTrue result ↔ (claim.now.status ≡ Held) }
{
    matches!(claim.status, Status::Held)
}

// Whether this worker holds the claim's node by it.
fn is_held_by(claim: &Claim, worker: u8) -> bool
    ensures { IsTrue result ↔ ((claim.now.status ≡ Held) × (claim.now.worker ≡ worker)) }
{
    is_held(claim) && claim.worker == worker
}
