//! The ascent: prices at which the Lagrangian bound of a node is high.

ghost use Rattle.std.specs.Prelude.{◌≡◌, pos, IfOk, IfSome, OnOk};
ghost use Rattle.uc_model.specs.Prelude.{IsLawfulInstance};
ghost use Rattle.dual_model.specs.Prelude.{IsNodeOf, IsLawfulTable, IsLawfulScale};

use crate::merit::merit_prices;
use crate::pool::CutPool;
use crate::price_list::{push_ramp_prices, table_of};
use bundle::{Bundle, Cut, PriceStep, WHOLE, times, word};
use dual_model::{Node, Table};
use opening_tables::SCALE;
use quick_value::{Caps, Decisions, Evaluation, QuickEvaluator};
use std::alloc::Global;
use std::mem;
use uc_model::{Instance, NoMemory, Thermal};

/// After how many evaluations without a gain the stride is shortened.
const PATIENCE: u32 = 9;

/// After how many evaluations in a row without a gain an ascent ends, and after how many where few cuts are kept, since each evaluation
/// takes long there.
const FUTILE: u32 = 60;

const FUTILE_OF_FEW_CUTS: u32 = 30;

/// How often a step that promises hardly anything is tried again with another stride.
const STALLS: u32 = 10;

/// A step has to promise this part of the value.
const PROMISE: i128 = 1_000_000;

/// The part of the value by which the first step is to raise it, from prices in order of merit, and where nothing costs anything.
const RISE_BY_MERIT: i128 = 100;

/// The same from the prices of a table.
const RISE_BY_TABLE: i128 = 400;

/// A value counts as no less in size than this part of what the dearest unit costs at full load in all periods.
const LEAST_SIZE: i128 = 4;

/// The effort of an ascent where nothing costs anything.
const RAY_EFFORT: AscentEffort = AscentEffort {
    evaluations: 150,
    enough: i128::MAX,
};

/// The values that an ascent climbs: those of an instance's nodes, of either kind. The exact ones keep the ramps of each unit in place of
/// pricing them.
#[derive(Clone, Copy)]
pub struct Values<'a> {
    pub instance: &'a Instance,
    pub exact: bool,
}

/// After how many evaluations an ascent ends, and at what it takes the bound for, in micro-dollars.
#[derive(Clone, Copy)]
pub struct AscentEffort {
    pub evaluations: u32,
    pub enough: i128,
}

/// An ascent to make: its node, its effort, and the scale of the table that it comes to.
#[derive(Clone, Copy)]
pub struct Plan<'a> {
    pub node: &'a Node,
    pub effort: AscentEffort,
    pub scale: i64,
}

/// What an ascent found: the best table, how often each unit was on in each period among the cuts that give the best move, unit by unit,
/// in parts of 2^16, and what it takes the bound for, in micro-dollars, of which nothing is proved. Where this is above all that a schedule
/// could cost, the ascent ended there, and its prices stand in `ray` at the scale 0: the value there should show that there is none. `cell`
/// is a unit and a period, from 0, to split the node on, where that was sought.
#[derive(Drop)]
pub struct Ascent {
    pub table: Table,
    pub shares: Vec<i64>,
    pub bound: i128,
    pub ray: Option<Table>,
    pub cell: Option<(u32, u32)>,
}

// The best prices so far, those that were tried last, the value of the best, the cuts there, and how many evaluations have gained nothing
// since; the cuts' mean shares, where strides have been tried since the last evaluation, which leave the weights unsettled; the effort of the
// ascent; and how often another stride was tried.
#[derive(Drop)]
struct Center {
    prices: Vec<i64>,
    tried: Vec<i64>,
    value: i128,
    bundle: Bundle,
    nulls: u32,
    shares: Vec<i64>,
    effort: AscentEffort,
    stalls: u32,
}

/// Where an ascent starts: prices at the scale `SCALE`, the part of the value by which its first step is to raise it, its effort,
/// whether it keeps more cuts, and the place of a price that is held where it is.
#[derive(Drop)]
pub(crate) struct AscentStart {
    pub prices: Vec<i64>,
    pub part: i128,
    pub effort: AscentEffort,
    pub keeps_more: bool,
    pub held: Option<usize>,
}

/// Where an ascent ended: prices at the scale `SCALE`, their value, and how often units are on.
#[derive(Drop)]
pub(crate) struct Top {
    pub prices: Vec<i64>,
    pub value: i128,
    pub shares: Vec<i64>,
}

/// How large values are, at the scale `SCALE`: as how much one counts at least, and what no schedule need cost, above which an ascent ends.
#[derive(Clone, Copy)]
pub(crate) struct Sizes {
    pub least: i128,
    pub most: i128,
}

impl Sizes {
    // The least is a part of what the unit that costs most at full load costs so in all periods; the most is twice what the dearest hour
    // and the dearest start of each unit cost in all periods, and all that may be missing.
    fn of(instance: &Instance) -> Sizes {
        let mut full: i64 = 1;
        let mut hourly: i128 = 1;
        for unit in instance.thermal.as_slice() {
            if let Some(point) = unit.points.as_slice().last() {
                full = full.max(point.cost.saturating_abs());
            }
            hourly = hourly.saturating_add(i128::from(dearest_hour(unit)));
        }
        let whole = i128::from(SCALE).saturating_mul(i128::from(instance.periods));
        Sizes {
            least: whole.saturating_mul(i128::from(full)) / LEAST_SIZE,
            most: whole
                .saturating_mul(hourly)
                .saturating_add(dearest_shortage(instance))
                .saturating_mul(2),
        }
    }

    // The same where nothing costs anything.
    fn without_costs(instance: &Instance) -> Sizes {
        Sizes {
            most: 0,
            ..Sizes::of(instance)
        }
    }

    // Above which value an ascent with this effort ends.
    fn enough(self, effort: AscentEffort) -> i128 {
        effort
            .enough
            .saturating_mul(i128::from(SCALE))
            .min(self.most)
    }

    // The size of a value, which counts as at least so much: where it is nothing, strides that go by it would be too.
    fn of_value(self, value: i128) -> i128 {
        value.saturating_abs().max(self.least)
    }
}

/// What an ascent climbs: the values of a node, which come of the evaluator and of what the node decides; the units, from 0, whose ramps have
/// prices; and how large the values are.
#[derive(Drop)]
pub(crate) struct Hill {
    pub evaluator: QuickEvaluator,
    pub decisions: Decisions,
    pub ramped: Vec<u32>,
    pub sizes: Sizes,
}

impl Hill {
    // The values of a node.
    fn of(alloc: Global, values: Values, node: &Node) -> Result<Hill, NoMemory>
        requires { IsLawfulInstance values.instance.now }
    {
        let evaluator = QuickEvaluator::new(alloc, values.instance)?;
        hill_of(alloc, values, node, evaluator, Sizes::of(values.instance))
    }

    // The same where nothing costs anything.
    fn without_costs(alloc: Global, values: Values, node: &Node) -> Result<Hill, NoMemory>
        requires { IsLawfulInstance values.instance.now }
    {
        let evaluator = QuickEvaluator::without_costs(alloc, values.instance)?;
        let sizes = Sizes::without_costs(values.instance);
        hill_of(alloc, values, node, evaluator, sizes)
    }

    // The value at these prices, in the memory of another one, and none where a unit has no pattern at the node.
    fn evaluate(
        &mut self,
        instance: &Instance,
        prices: &[i64],
        memory: Evaluation,
    ) -> Result<Option<Evaluation>, NoMemory> {
        self.evaluator
            .evaluate(instance, &self.decisions, prices, memory)
    }
}

/// The values of a node by an evaluator, and of this size.
pub(crate) fn hill_of(
    alloc: Global,
    values: Values,
    node: &Node,
    mut evaluator: QuickEvaluator,
    sizes: Sizes,
) -> Result<Hill, NoMemory> {
    if values.exact {
        evaluator.keep_ramps(alloc, values.instance)?;
    }
    let ramped = evaluator.ramped(alloc)?;
    let decisions = Decisions::of(alloc, values.instance, node)?;
    Ok(Hill {
        evaluator,
        decisions,
        ramped,
        sizes,
    })
}

// The most that a unit's production and start can cost in a period.
fn dearest_hour(unit: &Thermal) -> i64 {
    let mut production: i64 = 0;
    for point in unit.points.as_slice() {
        production = production.max(point.cost.saturating_abs());
    }
    let mut start: i64 = 0;
    for row in unit.startup.as_slice() {
        start = start.max(row.cost.saturating_abs());
    }
    production.saturating_add(start)
}

// What it costs, at the scale `SCALE`, that all is missing which may be.
fn dearest_shortage(instance: &Instance) -> i128 {
    let demand = missing_cost(instance.demand.as_slice(), instance.a);
    let reserve = missing_cost(instance.reserves.as_slice(), instance.b);
    demand
        .saturating_add(reserve)
        .saturating_mul(i128::from(SCALE))
}

// What all needs cost at a price.
fn missing_cost(needs: &[i64], price: u32) -> i128 {
    let mut sum: i128 = 0;
    for need in needs {
        sum = sum.saturating_add(i128::from((*need).max(0)));
    }
    sum.saturating_mul(i128::from(price))
}

/// Ascends at a node from a table, with an effort, to one at a scale; from the prices in order of merit where the table has none of
/// demand. It begins with those cuts of the pool that the node leaves, and keeps its own there. Where a unit has no pattern at
/// the node, no share is told. The only error is `NoMemory`.
pub fn ascend(
    alloc: Global,
    values: Values,
    pool: &mut CutPool,
    table: &Table,
    plan: Plan,
) -> Result<Ascent, NoMemory>
    requires lawful { IsLawfulInstance values.instance.now }
    requires node { IsNodeOf values.instance.now plan.node.now }
    requires scale { IsLawfulScale plan.scale }
    ensures lawful { IfOk result (λ ascent. IsLawfulTable values.entry.instance.now ascent.table) }
    ensures scale { IfOk result (λ ascent. ascent.table.k ≡ plan.entry.scale) }
    ensures ray { IfOk result (λ ascent. IfSome ascent.ray (IsLawfulTable values.entry.instance.now)) }
    ensures ray_scale { IfOk result (λ ascent. IfSome ascent.ray (λ ray. ray.k ≡ pos 0)) }
{
    let mut hill = Hill::of(alloc, values, plan.node)?;
    let start = AscentStart {
        prices: first_prices(alloc, values.instance, table, &hill)?,
        part: first_part(table),
        effort: plan.effort,
        keeps_more: false,
        held: None,
    };
    pool.turn_to(values.instance, plan.node)?;
    let top = top_from(alloc, &mut hill, values.instance, pool, start)?;
    ended(alloc, &hill, values.instance, top, plan.scale)
}

/// The ascent with a ray, which is looked for at its node by another ascent in which nothing costs anything, from no prices until the value
/// is above 0: then it should show that there is no schedule. Where there is none the shares are those of the other ascent, whose cuts
/// say so. The only error is `NoMemory`.
pub fn with_ray(
    alloc: Global,
    values: Values,
    node: &Node,
    ascent: Ascent,
) -> Result<Ascent, NoMemory>
    requires lawful { IsLawfulInstance values.instance.now }
    ensures table { IfOk result (λ sought. sought.table ≡ ascent.table) }
    ensures ray { IfOk result (λ sought. IfSome sought.ray (IsLawfulTable values.entry.instance.now)) }
    ensures ray_scale { IfOk result (λ sought. IfSome sought.ray (λ ray. ray.k ≡ pos 0)) }
{
    let mut sought = ascent;
    seek_ray(alloc, values, node, &mut sought).and(Ok(sought))
}

// Looks for a ray by an ascent in which nothing costs anything, and keeps it, or else the shares of that ascent.
fn seek_ray(alloc: Global, values: Values, node: &Node, sought: &mut Ascent) -> Result<(), NoMemory>
    requires lawful { IsLawfulInstance values.instance.now }
    ensures table { sought.new.table ≡ sought.old.table }
    ensures ray { OnOk result (IfSome sought.new.ray (IsLawfulTable values.entry.instance.now)) }
    ensures ray_scale { OnOk result (IfSome sought.new.ray (λ ray. ray.k ≡ pos 0)) }
{
    let mut hill = Hill::without_costs(alloc, values, node)?;
    let kept = keep_ray(alloc, &mut hill, values.instance, sought);
    drop(hill);
    kept
}

// The same by the values where nothing costs anything.
fn keep_ray(
    alloc: Global,
    hill: &mut Hill,
    instance: &Instance,
    sought: &mut Ascent,
) -> Result<(), NoMemory>
    requires lawful { IsLawfulInstance instance.now }
    ensures table { sought.new.table ≡ sought.old.table }
    ensures ray { OnOk result (IfSome sought.new.ray (IsLawfulTable instance.now)) }
    ensures ray_scale { OnOk result (IfSome sought.new.ray (λ ray. ray.k ≡ pos 0)) }
{
    let start = AscentStart {
        prices: no_prices(alloc, instance, &hill.ramped)?,
        part: RISE_BY_MERIT,
        effort: RAY_EFFORT,
        keeps_more: true,
        held: None,
    };
    let mut pool = CutPool::closed(alloc);
    let top = top_from(alloc, hill, instance, &mut pool, start)?;
    let ray = ray(alloc, hill, instance, &top);
    let Top { prices, shares, .. } = top;
    drop(prices);
    sought.ray = ray?;
    if sought.ray.is_none() && !shares.is_empty() {
        sought.shares = shares;
    }
    Ok(())
}

/// Where the ascent from a start ends.
pub(crate) fn top_from(
    alloc: Global,
    hill: &mut Hill,
    instance: &Instance,
    pool: &mut CutPool,
    start: AscentStart,
) -> Result<Top, NoMemory> {
    let Some(first) = hill.evaluate(instance, &start.prices, Evaluation::empty(alloc))? else {
        return Ok(Top {
            prices: start.prices,
            value: 0,
            shares: Vec::new(alloc),
        });
    };
    let rise = hill.sizes.of_value(first.value) / start.part.max(1);
    let bundle = bundle_for(alloc, instance, hill, &start)?;
    pool.keep(alloc, &first, &start.prices)?;
    let mut center = begin(alloc, bundle, start, first, rise)?;
    pool.lend(alloc, &mut center.bundle, &center.prices, center.value)?;
    climb(alloc, hill, instance, pool, &mut center)?;
    settle(alloc, &mut center)?;
    Ok(Top {
        prices: center.prices,
        value: center.value,
        shares: center.shares,
    })
}

// The ascent that ended there, with its table at the scale `k`.
fn ended(
    alloc: Global,
    hill: &Hill,
    instance: &Instance,
    mut top: Top,
    k: i64,
) -> Result<Ascent, NoMemory>
    requires lawful { IsLawfulInstance instance.now }
    requires scale { IsLawfulScale k }
    ensures lawful { IfOk result (λ ascent. IsLawfulTable instance.now ascent.table) }
    ensures scale { IfOk result (λ ascent. ascent.table.k ≡ k) }
    ensures ray { IfOk result (λ ascent. IfSome ascent.ray (IsLawfulTable instance.now)) }
    ensures ray_scale { IfOk result (λ ascent. IfSome ascent.ray (λ ray. ray.k ≡ pos 0)) }
{
    let ray = ray(alloc, hill, instance, &top)?;
    rescale(&mut top.prices, SCALE, k);
    Ok(Ascent {
        table: table_of(alloc, instance, &top.prices, &hill.ramped, k)?,
        shares: top.shares,
        bound: top.value / i128::from(SCALE),
        ray,
        cell: None,
    })
}

/// The ray of the top's prices, where its value is above all that a schedule could cost.
pub(crate) fn ray(
    alloc: Global,
    hill: &Hill,
    instance: &Instance,
    top: &Top,
) -> Result<Option<Table>, NoMemory>
    requires lawful { IsLawfulInstance instance.now }
    ensures lawful { IfOk result (λ ray. IfSome ray (IsLawfulTable instance.now)) }
    ensures scale { IfOk result (λ ray. IfSome ray (λ table. table.k ≡ pos 0)) }
{
    if top.value > hill.sizes.most {
        let prices = &top.prices;
        Ok(Some(table_of(alloc, instance, prices, &hill.ramped, 0)?))
    } else {
        Ok(None)
    }
}

// After how many evaluations in a row without a gain an ascent ends.
fn futile_after(bundle: &Bundle) -> u32 {
    if bundle.has_few_cuts() {
        FUTILE_OF_FEW_CUTS
    } else {
        FUTILE
    }
}

// Steps from the centre, until no step promises a gain, or many in a row have gained nothing, or the value is enough or above all that a
// schedule could cost.
fn climb(
    alloc: Global,
    hill: &mut Hill,
    instance: &Instance,
    pool: &mut CutPool,
    center: &mut Center,
) -> Result<(), NoMemory> {
    let sizes = hill.sizes;
    let futile = futile_after(&center.bundle);
    let enough = sizes.enough(center.effort);
    for _ in 0..center.effort.evaluations {
        let size = sizes.of_value(center.value);
        let step = center.bundle.step(alloc, &center.prices, size)?;
        if center.nulls >= futile || center.value > enough {
            break;
        }
        if step.predicted < size / PROMISE {
            if !try_another_stride(alloc, center, step.predicted)? {
                break;
            }
        } else {
            move_to(&mut center.tried, &center.prices, &step.moved)?;
            let memory = memory_of(alloc, &mut center.bundle);
            match hill.evaluate(instance, &center.tried, memory)? {
                Some(found) if found.value > sizes.most => {
                    mem::swap(&mut center.prices, &mut center.tried);
                    center.value = found.value;
                    break;
                }
                Some(found) => take(alloc, pool, center, found, &step)?,
                None => break,
            }
        }
    }
    Ok(())
}

// Tries another stride where a step promises so little, and tells whether that is worth it once more.
fn try_another_stride(
    alloc: Global,
    center: &mut Center,
    predicted: i128,
) -> Result<bool, NoMemory> {
    center.stalls = center.stalls.saturating_add(1);
    if center.stalls > STALLS {
        return Ok(false);
    }
    settle(alloc, center)?;
    center.bundle.try_another_stride(predicted);
    Ok(true)
}

// Whether the table has no price of demand.
fn is_unpriced(table: &Table) -> bool {
    table.pi().iter().all(|price| *price == 0)
}

// The table's prices at the scale `SCALE`, within the caps, or those in order of merit where it has none of demand.
fn first_prices(
    alloc: Global,
    instance: &Instance,
    table: &Table,
    hill: &Hill,
) -> Result<Vec<i64>, NoMemory> {
    let caps = hill.evaluator.caps;
    let mut prices = if is_unpriced(table) {
        merit_prices(alloc, instance, table.mu(), caps)?
    } else {
        system_prices(alloc, table)?
    };
    push_ramp_prices(&mut prices, table, &hill.ramped)?;
    if !is_unpriced(table) {
        rescale(&mut prices, table.k(), SCALE);
    }
    lower(&mut prices, table.pi().len(), caps);
    Ok(prices)
}

// The table's prices of demand and then of reserve.
fn system_prices(alloc: Global, table: &Table) -> Result<Vec<i64>, NoMemory> {
    let mut prices = table.pi().to_vec(alloc)?;
    prices.extend_from_slice(table.mu())?;
    Ok(prices)
}

// Lowers the prices of demand, of which there are so many, and those of reserve to their caps.
fn lower(prices: &mut [i64], periods: usize, caps: Caps) {
    for (i, price) in prices.iter_mut().enumerate() {
        if i < periods {
            *price = (*price).min(caps.demand);
        } else if i < periods.saturating_mul(2) {
            *price = (*price).min(caps.reserve);
        }
    }
}

// Puts prices of one scale at another one.
fn rescale(prices: &mut [i64], from: i64, to: i64) {
    let from = from.max(1);
    for price in prices.iter_mut() {
        *price = word(times(*price, to) / i128::from(from));
    }
}

// The part of the value by which the first step from a table is to raise it, of which prices in order of merit leave more to gain.
fn first_part(table: &Table) -> i128 {
    if is_unpriced(table) {
        RISE_BY_MERIT
    } else {
        RISE_BY_TABLE
    }
}

/// Prices of 0.
pub(crate) fn no_prices(
    alloc: Global,
    instance: &Instance,
    ramped: &[u32],
) -> Result<Vec<i64>, NoMemory> {
    let rows = ramped.len().saturating_add(1);
    let count = (instance.periods as usize)
        .saturating_mul(2)
        .saturating_mul(rows);
    Ok(vec![in alloc; 0_i64; count]?)
}

// The bundle of an ascent with this start.
fn bundle_for(
    alloc: Global,
    instance: &Instance,
    hill: &Hill,
    start: &AscentStart,
) -> Result<Bundle, NoMemory> {
    let mut bundle = Bundle::of(alloc, instance, &hill.ramped)?;
    let caps = hill.evaluator.caps;
    bundle.cap(caps.demand, caps.reserve);
    if start.keeps_more {
        bundle.keep_more();
    }
    if let Some(place) = start.held {
        bundle.hold(place);
    }
    Ok(bundle)
}

// The centre at the start's prices, from where the first step is to raise the value by so much.
fn begin(
    alloc: Global,
    mut bundle: Bundle,
    start: AscentStart,
    first: Evaluation,
    rise: i128,
) -> Result<Center, NoMemory> {
    let AscentStart { prices, effort, .. } = start;
    let value = first.value;
    let cut = cut(&bundle, first, WHOLE);
    bundle.begin(alloc, cut, rise)?;
    Ok(Center {
        prices,
        tried: Vec::new(alloc),
        value,
        bundle,
        nulls: 0,
        shares: Vec::new(alloc),
        effort,
        stalls: 0,
    })
}

// The cut of an evaluation, which it takes over, without error and with this weight.
fn cut(bundle: &Bundle, found: Evaluation, weight: i64) -> Cut {
    let mut slopes = found.lacks;
    bundle.make_slopes(&mut slopes);
    Cut {
        slopes,
        error: 0,
        weight,
        shares: found.shares,
    }
}

// Takes what was found at the prices that were tried: the centre moves there where the value has risen enough.
fn take(
    alloc: Global,
    pool: &mut CutPool,
    center: &mut Center,
    found: Evaluation,
    step: &PriceStep,
) -> Result<(), NoMemory> {
    let value = found.value;
    let gain = value.saturating_sub(center.value);
    pool.keep(alloc, &found, &center.tried)?;
    let mut own = cut(&center.bundle, found, 0);
    let back = center.bundle.change(&own.slopes, &step.moved);
    own.error = gain.saturating_sub(back);
    center.bundle.push(alloc, own)?;
    center.shares.clear();
    if gain > step.predicted / 10 {
        pool.keep_stride(&center.bundle);
        center.bundle.recenter(&step.moved, gain);
        mem::swap(&mut center.prices, &mut center.tried);
        center.value = value;
        center.nulls = 0;
        lengthen(&mut center.bundle, gain, step.predicted);
    } else {
        center.nulls = center.nulls.saturating_add(1);
        shorten(center, gain, step.predicted);
    }
    Ok(())
}

// A step that gained what it promised may be longer.
fn lengthen(bundle: &mut Bundle, gain: i128, predicted: i128) {
    if gain > predicted / 2 {
        bundle.scale_stride(2, 1);
    }
    if gain > (predicted / 10).saturating_mul(9) {
        bundle.scale_stride(3, 2);
    }
}

// One that lost much, or the last of many that gained nothing, should have been shorter.
fn shorten(center: &mut Center, gain: i128, predicted: i128) {
    if gain < predicted.saturating_mul(-4) {
        center.bundle.scale_stride(7, 10);
    }
    if center.nulls % PATIENCE == 0 {
        center.bundle.scale_stride(8, 10);
    }
}

// Makes it the prices after the moves of those at some places.
fn move_to(tried: &mut Vec<i64>, prices: &[i64], moved: &[(usize, i64)]) -> Result<(), NoMemory> {
    tried.clear();
    tried.extend_from_slice(prices)?;
    for (i, by) in moved {
        if let Some(price) = tried.get_mut(*i) {
            *price = price.saturating_add(*by);
        }
    }
    Ok(())
}

// Memory for an evaluation: that of a cut that was given up, if there is one.
fn memory_of(alloc: Global, bundle: &mut Bundle) -> Evaluation {
    let Cut { slopes, shares, .. } = bundle.memory(alloc);
    Evaluation {
        value: 0,
        lacks: slopes,
        shares,
    }
}

// Takes the mean shares of the cuts by their weights, if there are none since the last evaluation.
fn settle(alloc: Global, center: &mut Center) -> Result<(), NoMemory> {
    if center.shares.is_empty() {
        center.shares = center.bundle.mean_shares(alloc)?;
    }
    Ok(())
}
