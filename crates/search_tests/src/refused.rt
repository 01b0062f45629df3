//! Events that aren't legal, each after those that lead to it.

ghost use Rattle.std.specs.Prelude.{◌≡◌, length};

use crate::acts::{Act, is_taken, start};
use branch_tree::{Leaf, Outcome, Spot};
use search_core::{Move, State};
use std::alloc::Global;
use std::test::Fail;

const FIVE: Outcome = Outcome::Value(5);

const NONE: Outcome = Outcome::Empty(0);

const CELL: Move = Move::Split { g: 0, t: 0 };

// Each line's events are legal but for the last, on a tree of one period, with a budget of three claims.
const REFUSED: [&[Act]; 28] = [
    // the node is held, by this worker or by another; it isn't there; it is a split, or closed; the budget is spent
    &[Act::Claim(0, 0), Act::Claim(0, 0)],
    &[Act::Claim(0, 0), Act::Claim(1, 0)],
    &[Act::Claim(0, 1)],
    &[
        Act::Claim(0, 0),
        Act::Commit(0, 1, 1, FIVE, CELL),
        Act::Claim(0, 0),
    ],
    &[
        Act::Claim(0, 0),
        Act::Commit(0, 1, 1, NONE, Move::Empty),
        Act::Claim(0, 0),
    ],
    &[
        Act::Claim(0, 0),
        Act::Commit(0, 1, 1, FIVE, Move::Again),
        Act::Claim(0, 0),
        Act::Commit(0, 2, 2, FIVE, Move::Again),
        Act::Claim(0, 0),
        Act::Commit(0, 3, 3, FIVE, Move::Again),
        Act::Claim(0, 0),
    ],
    // the worker isn't there
    &[Act::Claim(3, 0)],
    &[Act::Publish(3, 7)],
    &[Act::Look(3)],
    &[Act::Push(3, 0)],
    &[Act::Pop(3)],
    &[Act::Push(0, 0), Act::Steal(3, 0)],
    &[Act::Steal(0, 3)],
    // the unit isn't there, is another worker's, or was committed
    &[Act::Claim(0, 0), Act::Commit(0, 0, 1, FIVE, Move::Again)],
    &[Act::Claim(0, 0), Act::Commit(0, 2, 1, FIVE, Move::Again)],
    &[Act::Claim(0, 0), Act::Commit(1, 1, 1, FIVE, Move::Again)],
    &[
        Act::Claim(0, 0),
        Act::Commit(0, 1, 1, FIVE, Move::Again),
        Act::Commit(0, 1, 2, FIVE, Move::Again),
    ],
    // the node has an entry at the table; a child isn't first evaluated at the table that it stores
    &[
        Act::Claim(0, 0),
        Act::Commit(0, 1, 1, FIVE, Move::Again),
        Act::Claim(1, 0),
        Act::Commit(1, 2, 1, FIVE, Move::Again),
    ],
    // no value, for Again, Split and Prune
    &[Act::Claim(0, 0), Act::Commit(0, 1, 1, NONE, Move::Again)],
    &[Act::Claim(0, 0), Act::Commit(0, 1, 1, NONE, CELL)],
    &[
        Act::Publish(0, 5),
        Act::Claim(0, 0),
        Act::Commit(0, 1, 1, NONE, Move::Prune { seen: 5 }),
    ],
    // a cell that isn't one of the tree, and one that is decided
    &[
        Act::Claim(0, 0),
        Act::Commit(0, 1, 1, FIVE, Move::Split { g: 1, t: 0 }),
    ],
    &[
        Act::Claim(0, 0),
        Act::Commit(0, 1, 1, FIVE, CELL),
        Act::Claim(0, 1),
        Act::Commit(0, 2, 1, FIVE, CELL),
    ],
    // a cost that another worker saw, and one that the bound is too far below
    &[
        Act::Publish(1, 5),
        Act::Claim(0, 0),
        Act::Commit(0, 1, 1, FIVE, Move::Prune { seen: 5 }),
    ],
    &[
        Act::Publish(0, 6),
        Act::Claim(0, 0),
        Act::Commit(0, 1, 1, FIVE, Move::Prune { seen: 6 }),
    ],
    // a ray of scale above 0, and one of value 0
    &[Act::Claim(0, 0), Act::Commit(0, 1, 1, FIVE, Move::Ray)],
    &[
        Act::Claim(0, 0),
        Act::Commit(0, 1, 0, Outcome::Value(0), Move::Ray),
    ],
    // a value, for Empty
    &[Act::Claim(0, 0), Act::Commit(0, 1, 1, FIVE, Move::Empty)],
];

// How many of the events are legal, each after those before it that are.
fn taken(alloc: Global, acts: &[Act]) -> Result<usize, Fail> {
    let mut state = start(alloc, 1, 3, 3)?;
    let mut taken = 0usize;
    for act in acts {
        if is_taken(alloc, &mut state, *act)? {
            taken = taken.saturating_add(1);
        }
    }
    Ok(taken)
}

#[test]
fn events_are_refused(rt: HostRuntime) -> Result<(), Fail> {
    let alloc = rt.alloc();
    for acts in REFUSED.iter() {
        assert_eq!(rt; taken(alloc, acts)?.saturating_add(1), acts.len());
    }
    Ok(())
}

// Whether each event is legal, after those before it that are, where it is to be.
fn are_as_told(alloc: Global, state: &mut State, acts: &[(Act, bool)]) -> Result<bool, Fail>
    ensures { length state.new.desks ≡ length state.old.desks }
{
    for (act, is_legal) in acts {
        if is_taken(alloc, state, *act)? != *is_legal {
            return Ok(false);
        }
    }
    Ok(true)
}

// The hundredth entry of the root, and the first ones of a child.
const HUNDREDTH: [(Act, bool); 6] = [
    (Act::Claim(0, 0), true),
    (Act::Commit(0, 100, 100, FIVE, Move::Again), false),
    (Act::Commit(0, 100, 100, FIVE, CELL), true),
    (Act::Claim(0, 2), true),
    (Act::Commit(0, 101, 2, FIVE, Move::Again), false),
    (Act::Commit(0, 101, 1, FIVE, Move::Again), true),
];

// Whether a hundred entries of the root, and those of a child, are as told.
fn again(alloc: Global, state: &mut State) -> Result<bool, Fail> {
    for unit in 1..100u32 {
        let commit = Act::Commit(0, unit, unit, FIVE, Move::Again);
        if !are_as_told(alloc, state, &[(Act::Claim(0, 0), true), (commit, true)])? {
            return Ok(false);
        }
    }
    are_as_told(alloc, state, &HUNDREDTH)
}

// The same on a new tree.
fn again_on_a_new_tree(alloc: Global) -> Result<bool, Fail> {
    let mut state = start(alloc, 2, 1, 200)?;
    again(alloc, &mut state)
}

// A node may have a hundred entries, and no claim ends there in Again, while a cell is undecided; and a child's first
// table is the one that it stores.
#[test]
fn the_hundredth_entry_is_no_again(rt: HostRuntime) -> Result<(), Fail> {
    assert!(rt; again_on_a_new_tree(rt.alloc())?);
    Ok(())
}

// The root is evaluated at one table by values of either kind, and an exact ray excludes it.
const KINDS: [(Act, bool); 7] = [
    (Act::Claim(0, 0), true),
    (Act::Commit(0, 1, 1, FIVE, Move::Again), true),
    (Act::Claim(0, 0), true),
    (Act::Commit(0, 2, 1, FIVE, Move::Again), false),
    (Act::Exact(0, 2, 1, Outcome::Value(7), Move::Again), true),
    (Act::Claim(0, 0), true),
    (Act::Exact(0, 3, 1, FIVE, Move::Again), false),
];

// Whether the leaf at the root is this one.
fn is_root(state: &State, leaf: Leaf) -> bool {
    state.count() > 0 && state.tree().node(0) == Spot::Leaf(leaf)
}

// Whether the root keeps the kind of what it stores.
fn keeps_its_kind(alloc: Global, state: &mut State) -> Result<bool, Fail> {
    let bound = Leaf::Live {
        table: 2,
        value: 7,
        exact: true,
    };
    let ray = Act::Exact(0, 3, 0, FIVE, Move::Ray);
    Ok(
        are_as_told(alloc, state, &KINDS)?
            && is_root(state, bound)
            && is_taken(alloc, state, ray)?
            && is_root(state, Leaf::ExactRay { table: 3 }),
    )
}

// An equal table of the other kind is fresh, and a node keeps the kind of what it stores.
#[test]
fn kinds_are_told_apart(rt: HostRuntime) -> Result<(), Fail> {
    let mut state = start(rt.alloc(), 1, 1, 3)?;
    let is_kept = keeps_its_kind(rt.alloc(), &mut state);
    drop(state);
    assert!(rt; is_kept?);
    Ok(())
}

// Whether the root is claimed once, and after that all is as before.
fn is_claimed_once(alloc: Global, state: &mut State) -> Result<bool, Fail>
    requires { length state.old.desks ≡ 1 }
{
    let claims = [(Act::Claim(0, 0), true), (Act::Claim(0, 0), false)];
    let commit = [(Act::Commit(0, 1, 1, FIVE, Move::Again), true)];
    Ok(
        are_as_told(alloc, state, &claims)?
            && state.log().as_slice().is_empty()
            && state.hand(0).as_slice() == [0].as_slice()
            && are_as_told(alloc, state, &commit)?
            && state.log().as_slice().len() == 1,
    )
}

// One worker and a budget of one claim.
#[test]
fn the_root_is_claimed_once(rt: HostRuntime) -> Result<(), Fail> {
    let mut state = start(rt.alloc(), 1, 1, 1)?;
    assert!(rt; is_claimed_once(rt.alloc(), &mut state)?);
    Ok(())
}
