//! How near a node is to having no schedule, and the cell whose decision brings both of its children nearest to having none.
//!
//! Nothing costs anything here. The price of demand in one period is held, above or below 0, and an ascent moves all others. What it reaches
//! is the held price times the watts that lack: below 0 so many can still be given more there than demand is, or less, and above 0 the prices
//! are a ray. So the held price at which the node has the least to spare tells which watts matter, and a decision is worth what it takes of them.

ghost use Rattle.std.specs.Prelude.{◌≡◌, pos, IfOk, IfSome, None, OnOk};
ghost use Rattle.uc_model.specs.Prelude.{IsLawfulInstance};
ghost use Rattle.dual_model.specs.Prelude.{IsLawfulTable};

use crate::ascent::{
    Ascent, AscentEffort, AscentStart, Hill, Sizes, Top, Values, hill_of, no_prices, ray, top_from,
};
use crate::pool::CutPool;
use bundle::at;
use dual_model::Node;
use quick_value::{Decisions, QuickEvaluator};
use std::alloc::Global;
use uc_model::{Instance, LEAST_DIVIDED_SHARE, NoMemory, WHOLE_SHARE};

/// With more cells no such cell is sought, since that takes thousands of evaluations.
const MOST_CELLS: usize = 150;

/// The size of the price that is held.
const HELD: i64 = 1 << 20;

/// The part of what demand is worth at most at that price by which the first step of an ascent is to raise the value.
const RISE: i128 = 30;

/// The evaluations of the ascents with each price held, how many of them go on, the best first, and with how many evaluations more.
const FIRST_EVALUATIONS: u32 = 40;

const GOING_ON: usize = 3;

const EVALUATIONS: u32 = 60;

/// How many cells are tried, and the evaluations of the ascents at their children.
const TRIED: usize = 10;

const CHILD_EVALUATIONS: u32 = 80;

/// A child that has hardly less to spare than its parent counts as having lost this part of it.
const LEAST_LOSS: i128 = 1000;

// Where an ascent ended that held the price at this place of the list.
#[derive(Drop)]
struct Near {
    held: usize,
    top: Top,
}

impl Near {
    // What is left to spare, at the held price.
    fn spare(&self) -> i128 {
        self.top.value.saturating_neg()
    }
}

// A cell, and the watts of its unit's greatest output that are divided there, in parts of `WHOLE_SHARE`.
#[derive(Clone, Copy)]
struct Divided {
    g: u32,
    t: u32,
    watts: i128,
}

// A node of an instance, with what an ascent climbs there or at a child.
#[derive(Drop)]
struct Seeker<'a> {
    instance: &'a Instance,
    node: &'a Node,
    hill: Hill,
}

/// The ascent with a cell to split its node on; or with a ray, where it comes out that there is one. In a large system it has neither. The
/// only error is `NoMemory`.
pub fn with_cell(
    alloc: Global,
    values: Values,
    node: &Node,
    ascent: Ascent,
) -> Result<Ascent, NoMemory>
    requires lawful { IsLawfulInstance values.instance.now }
    ensures table { IfOk result (λ sought. sought.table ≡ ascent.table) }
    ensures ray { IfOk result (λ sought. IfSome sought.ray (IsLawfulTable values.entry.instance.now)) }
    ensures ray_scale { IfOk result (λ sought. IfSome sought.ray (λ ray. ray.k ≡ pos 0)) }
{
    let mut sought = ascent;
    seek_cell(alloc, values, node, &mut sought).and(Ok(sought))
}

// Looks for a cell, or for a ray, and keeps it.
fn seek_cell(
    alloc: Global,
    values: Values,
    node: &Node,
    sought: &mut Ascent,
) -> Result<(), NoMemory>
    requires lawful { IsLawfulInstance values.instance.now }
    ensures table { sought.new.table ≡ sought.old.table }
    ensures ray { OnOk result (IfSome sought.new.ray (IsLawfulTable values.entry.instance.now)) }
    ensures ray_scale { OnOk result (IfSome sought.new.ray (λ ray. ray.k ≡ pos 0)) }
{
    sought.ray = None;
    sought.cell = None;
    if has_many_cells(values.instance) {
        return Ok(());
    }
    let mut seeker = Seeker::at(alloc, values, node)?;
    seek_nearest(alloc, &mut seeker, values.instance, sought)
}

// Looks for them where the node has the least to spare.
fn seek_nearest(
    alloc: Global,
    seeker: &mut Seeker,
    instance: &Instance,
    sought: &mut Ascent,
) -> Result<(), NoMemory>
    requires lawful { IsLawfulInstance instance.now }
    requires none { sought.old.ray ≡ None }
    ensures table { sought.new.table ≡ sought.old.table }
    ensures ray { OnOk result (IfSome sought.new.ray (IsLawfulTable instance.now)) }
    ensures ray_scale { OnOk result (IfSome sought.new.ray (λ ray. ray.k ≡ pos 0)) }
{
    match seeker.nearest(alloc)? {
        Some(near) => seek_from(alloc, seeker, instance, &near, sought),
        None => Ok(()),
    }
}

// Looks for a ray at these prices, and else for a cell.
fn seek_from(
    alloc: Global,
    seeker: &mut Seeker,
    instance: &Instance,
    near: &Near,
    sought: &mut Ascent,
) -> Result<(), NoMemory>
    requires lawful { IsLawfulInstance instance.now }
    ensures table { sought.new.table ≡ sought.old.table }
    ensures ray { OnOk result (IfSome sought.new.ray (IsLawfulTable instance.now)) }
    ensures ray_scale { OnOk result (IfSome sought.new.ray (λ ray. ray.k ≡ pos 0)) }
{
    sought.ray = ray(alloc, &seeker.hill, instance, &near.top)?;
    if sought.ray.is_none() {
        sought.cell = seeker.cell(alloc, near)?;
    }
    Ok(())
}

// Whether there are so many cells that no cell is sought.
fn has_many_cells(instance: &Instance) -> bool {
    let units = instance.thermal.as_slice().len();
    units.saturating_mul(instance.periods as usize) > MOST_CELLS
}

// What the greatest demand is worth at the held price.
fn worth(instance: &Instance) -> i128 {
    let mut most: i64 = 1;
    for demand in instance.demand.as_slice() {
        most = most.max(demand.saturating_abs());
    }
    i128::from(most).saturating_mul(i128::from(HELD))
}

// The start of an ascent from these prices, of which it holds the one at a place.
fn start(prices: Vec<i64>, held: usize, evaluations: u32) -> AscentStart {
    AscentStart {
        prices,
        part: RISE,
        effort: AscentEffort {
            evaluations,
            enough: i128::MAX,
        },
        keeps_more: true,
        held: Some(held),
    }
}

impl<'a> Seeker<'a> {
    fn at(alloc: Global, values: Values<'a>, node: &'a Node) -> Result<Seeker<'a>, NoMemory>
        requires { IsLawfulInstance values.instance.now }
    {
        let evaluator = QuickEvaluator::without_costs(alloc, values.instance)?;
        let sizes = Sizes {
            least: worth(values.instance),
            most: 0,
        };
        let hill = hill_of(alloc, values, node, evaluator, sizes)?;
        Ok(Seeker {
            instance: values.instance,
            node,
            hill,
        })
    }

    // What the node decides of each cell.
    fn decisions(&self, alloc: Global) -> Result<Decisions, NoMemory> {
        Decisions::of(alloc, self.instance, self.node)
    }

    // Where the ascent from the start ends.
    fn top(&mut self, alloc: Global, start: AscentStart) -> Result<Top, NoMemory> {
        let mut pool = CutPool::closed(alloc);
        top_from(alloc, &mut self.hill, self.instance, &mut pool, start)
    }

    // The held price at which the node has the least to spare, and where its ascent ends.
    fn nearest(&mut self, alloc: Global) -> Result<Option<Near>, NoMemory> {
        let mut firsts = self.firsts(alloc)?;
        firsts.sort_by_key(|near| near.spare())?;
        let mut nearest: Option<Near> = None;
        for first in firsts.iter().take(GOING_ON) {
            let prices = first.top.prices.clone()?;
            let start = start(prices, first.held, EVALUATIONS);
            let top = self.top(alloc, start)?;
            let near = Near {
                held: first.held,
                top,
            };
            nearest = Some(nearer(nearest, near));
        }
        Ok(nearest)
    }

    // Where the first evaluations of the ascents lead, with each price held.
    fn firsts(&mut self, alloc: Global) -> Result<Vec<Near>, NoMemory> {
        let mut firsts = Vec::new(alloc);
        for held in 0..self.instance.periods as usize {
            for price in [HELD, -HELD] {
                let mut prices = no_prices(alloc, self.instance, &self.hill.ramped)?;
                if let Some(own) = prices.get_mut(held) {
                    *own = price;
                }
                let start = start(prices, held, FIRST_EVALUATIONS);
                let top = self.top(alloc, start)?;
                firsts.push(Near { held, top })?;
            }
        }
        Ok(firsts)
    }

    // Of the cells that are divided most, the one whose decision takes most of what is left to spare: the product of what it takes at both
    // children counts.
    fn cell(&mut self, alloc: Global, near: &Near) -> Result<Option<(u32, u32)>, NoMemory> {
        let mut best = None;
        let mut most: i128 = 0;
        let cells = self.divided(alloc, &near.top.shares)?;
        for cell in cells.iter().take(TRIED) {
            let on = self.loss(alloc, near, cell, true)?;
            let off = self.loss(alloc, near, cell, false)?;
            let product = on.saturating_mul(off);
            if product > most {
                most = product;
                best = Some((cell.g, cell.t));
            }
        }
        Ok(best)
    }

    // What a child has less to spare: all of it, where a unit has no pattern there.
    fn loss(
        &mut self,
        alloc: Global,
        near: &Near,
        cell: &Divided,
        on: bool,
    ) -> Result<i128, NoMemory> {
        let mut decisions = self.decisions(alloc)?;
        decisions.decide(cell.g as usize, cell.t as usize, on);
        self.hill.decisions = decisions;
        let prices = near.top.prices.clone()?;
        let start = start(prices, near.held, CHILD_EVALUATIONS);
        let top = self.top(alloc, start)?;
        let spare = near.spare().max(1);
        let lost = if top.shares.is_empty() {
            spare
        } else {
            top.value.saturating_add(spare).min(spare)
        };
        Ok(lost.max(spare / LEAST_LOSS).max(1))
    }

    // The undecided cells that the shares divide, those with the most divided watts first.
    fn divided(&self, alloc: Global, shares: &[i64]) -> Result<Vec<Divided>, NoMemory> {
        let decisions = self.decisions(alloc)?;
        let mut cells = Vec::new(alloc);
        let mut g: u32 = 0;
        let mut place: usize = 0;
        for unit in self.instance.thermal.as_slice() {
            for t in 0..self.instance.periods {
                let share = at(shares, place);
                let part = share.min(WHOLE_SHARE.saturating_sub(share));
                if part > LEAST_DIVIDED_SHARE && decisions.is_open(g as usize, t as usize) {
                    let watts = i128::from(part).saturating_mul(i128::from(unit.pmax));
                    cells.push(Divided { g, t, watts })?;
                }
                place = place.saturating_add(1);
            }
            g = g.saturating_add(1);
        }
        cells.sort_by_key(|cell| cell.watts.saturating_neg())?;
        Ok(cells)
    }
}

// The one of less to spare.
fn nearer(former: Option<Near>, near: Near) -> Near {
    match former {
        Some(former) if former.spare() <= near.spare() => former,
        _ => near,
    }
}
