//! The other lines of one value.

ghost use Rattle.std.specs.Prelude.{◌≡◌, ◌<◌, IfSome, codes};
ghost use Rattle.std.specs.Option.{option_map};
ghost use Rattle.cert_text.specs.CertificateText.{LeafNode};
ghost use Rattle.cert_text.specs.inside.Forms.{Gives, mapped, after, ended, whole_at, money_at, claim_at, penalty_at, denominator_at, head_at, schedule_at, plan_at, on_cell_at, cell_at, row_numbers_at, ramp_at, rises, named_at, split_at, exact_at, node_at, tells_exact};
ghost use Rattle.cert_text.specs.inside.Parts.{sizes, first_of, head_of};
ghost use Rattle.cert_text.specs.Reading.{node_of};

use super::numbers::{
    below, take_byte, take_count, take_count_to, take_money, take_ordinal_to, take_signed_to,
    take_text,
};
use super::sizes::Size;
use crate::cert::{CertNode, Version};
use dual_model::RampRow;
use table_list::is_before;
use uc_model::Cell;

// Money up to the end of the line.
fn take_last_money(bytes: &[u8]) -> Option<(i128, &[u8])>
    ensures { Gives (λ r. (r.0, r.1.now)) result (ended money_at (codes "\n") bytes.now) }
{
    let (money, rest) = take_money(bytes)?;
    Some(money).zip(take_byte(rest, b'\n'))
}

/// The bound that is claimed, or none.
#[tactic(auto, unfolding(crate::specs::inside::Forms::claim_at))]
pub(crate) fn take_claim(bytes: &[u8]) -> Option<(Option<i128>, &[u8])>
    ensures { Gives (λ r. (r.0, r.1.now)) result (claim_at bytes.now) }
{
    if let Some(rest) = take_text(bytes, b"claim bound ") {
        let (bound, rest) = take_last_money(rest)?;
        return Some((Some(bound), rest));
    }
    Some(None).zip(take_text(bytes, b"claim infeasible\n"))
}

/// What the line of a schedule tells: its cost in micro-dollars, and the denominator of its powers.
#[derive(Clone, Copy)]
pub(crate) struct Head {
    pub(crate) cost: i128,
    pub(crate) denominator: u8,
}

/// The greatest denominator of powers.
const MAX_DENOMINATOR: u64 = 99;

// The denominator of a schedule's powers, up to the end of its line.
#[tactic(auto, unfolding(crate::specs::inside::Forms::denominator_at))]
fn take_denominator(bytes: &[u8], version: Version) -> Option<(u8, &[u8])>
    ensures { Gives (λ r. (r.0, r.1.now)) result (denominator_at version bytes.now) }
{
    if let Some(rest) = take_text(bytes, b"\n") {
        return Some((1, rest));
    }
    let rest = take_text(bytes, b" over ")?;
    let (denominator, rest) = take_count_to(rest, b'\n')?;
    if !tells_exact(version) || denominator < 2 || denominator > MAX_DENOMINATOR {
        return None;
    }
    Some((denominator as u8, rest))
}

// The cost and the denominator of a schedule.
#[tactic(auto, unfolding(crate::specs::inside::Forms::head_at))]
fn take_head(bytes: &[u8], version: Version) -> Option<(Head, &[u8])>
    ensures { Gives (λ r. (head_of r.0, r.1.now)) result (head_at version bytes.now) }
{
    let (cost, rest) = take_money(bytes)?;
    let (denominator, rest) = take_denominator(rest, version)?;
    Some((Head { cost, denominator }, rest))
}

/// The line of the schedule that follows, or that there is none.
#[tactic(auto, unfolding(crate::specs::inside::Forms::schedule_at))]
pub(crate) fn take_schedule(bytes: &[u8], version: Version) -> Option<(Option<Head>, &[u8])>
    ensures { Gives (λ r. (option_map head_of r.0, r.1.now)) result (schedule_at version bytes.now) }
{
    if let Some(rest) = take_text(bytes, b"schedule none\n") {
        return Some((None, rest));
    }
    let rest = take_text(bytes, b"schedule ")?;
    let (head, rest) = take_head(rest, version)?;
    Some((Some(head), rest))
}

/// The line behind the claim.
#[derive(Clone, Copy)]
pub(crate) enum First {
    /// The prices of unserved demand and of missing reserve.
    Priced { a: u32, b: u32 },
    /// Nothing has a price: the line of the schedule that follows, or none.
    Unpriced(Option<Head>),
}

/// The greatest price of a shortage.
const MAX_PENALTY: u64 = 1_000_000;

// The prices of unserved demand and of missing reserve, up to the end of the line.
#[tactic(auto, unfolding(crate::specs::inside::Forms::penalty_at))]
fn take_penalty(bytes: &[u8]) -> Option<((u32, u32), &[u8])>
    ensures { Gives (λ r. (r.0, r.1.now)) result (penalty_at bytes.now) }
{
    let (a, rest) = take_count_to(bytes, b' ')?;
    let (b, rest) = take_count_to(rest, b'\n')?;
    if a > MAX_PENALTY || b > MAX_PENALTY || (a == 0 && b == 0) {
        return None;
    }
    Some(((a as u32, b as u32), rest))
}

/// The prices of shortages, or else the schedule's line.
#[tactic(auto, unfolding(crate::specs::inside::Forms::plan_at))]
pub(crate) fn take_first(bytes: &[u8], version: Version) -> Option<(First, &[u8])>
    ensures { Gives (λ r. (first_of r.0, r.1.now)) result (plan_at version bytes.now) }
{
    if let Some(rest) = take_text(bytes, b"penalty ") {
        let ((a, b), rest) = take_penalty(rest)?;
        return Some((First::Priced { a, b }, rest));
    }
    let (head, rest) = take_schedule(bytes, version)?;
    Some((First::Unpriced(head), rest))
}

#[tactic(auto, unfolding(crate::specs::inside::Forms::on_cell_at))]
fn take_on_cell(bytes: &[u8]) -> Option<(Cell, &[u8])>
    ensures { Gives (λ r. (r.0, r.1.now)) result (on_cell_at bytes.now) }
{
    let (p, rest) = take_signed_to(bytes, 15, b':')?;
    let (r, rest) = take_signed_to(rest, 15, b':')?;
    let (category, rest) = take_count(rest, 18)?;
    if category > 255 {
        return None;
    }
    let cell = Cell {
        on: true,
        p,
        r,
        category: category as u8,
    };
    Some((cell, rest))
}

/// A cell of the schedule.
#[tactic(auto, unfolding(crate::specs::inside::Forms::cell_at))]
pub(crate) fn take_cell(bytes: &[u8]) -> Option<(Cell, &[u8])>
    ensures { Gives (λ r. (r.0, r.1.now)) result (cell_at bytes.now) }
{
    if let Some((cell, rest)) = take_on_cell(bytes) {
        return Some((cell, rest));
    }
    let cell = Cell {
        on: false,
        p: 0,
        r: 0,
        category: 0,
    };
    Some(cell).zip(take_byte(bytes, b'-'))
}

/// The number in a line of a word and a number.
pub(crate) fn take_count_line<'a>(bytes: &'a [u8], word: &[u8]) -> Option<(u64, &'a [u8])>
    ensures value { Gives (λ r. (r.0, r.1.now)) result (after word.now (ended (whole_at 18) (codes "\n")) bytes.now) }
    ensures bound { IfSome result (λ r. r.0 < 1000000000000000000) }
{
    let rest = take_text(bytes, word)?;
    take_count_to(rest, b'\n')
}

fn rises(before: &Option<RampRow>, row: &RampRow) -> bool
    ensures { result ≡ rises before.now row.now }
{
    match before {
        None => true,
        Some(before) => is_before(before, row),
    }
}

/// The unit and the period of a row, counted from 0, and its multipliers, up to the end of the line.
pub(crate) fn take_row_numbers(bytes: &[u8]) -> Option<((u64, u64), (i64, i64), &[u8])>
    ensures { Gives (λ r. ((r.0.0, (r.0.1, r.1)), r.2.now)) result (row_numbers_at bytes.now) }
{
    let (g, rest) = take_ordinal_to(bytes, b' ')?;
    let (t, rest) = take_ordinal_to(rest, b' ')?;
    let (up, rest) = take_signed_to(rest, 18, b' ')?;
    let (down, rest) = take_signed_to(rest, 18, b'\n')?;
    Some(((g, t), (up, down), rest))
}

/// A row of ramp multipliers behind another one, or as the first.
#[tactic(auto, unfolding(crate::specs::inside::Forms::ramp_at))]
pub(crate) fn take_ramp<'a>(
    bytes: &'a [u8],
    size: &Size,
    before: &Option<RampRow>,
) -> Option<(RampRow, &'a [u8])>
    ensures { Gives (λ r. (r.0, r.1.now)) result (ramp_at (sizes size.now) before.now bytes.now) }
{
    let rest = take_text(bytes, b"ramp ")?;
    let ((g, t), (up, down), rest) = take_row_numbers(rest)?;
    let g = below(g, size.thermal)?;
    let t = below(t, size.periods)?;
    let row = RampRow { g, t, up, down };
    if (row.up == 0 && row.down == 0) || !rises(before, &row) {
        return None;
    }
    Some((row, rest))
}

// The number of a leaf, below a count, up to the end of the line.
#[tactic(auto, unfolding(crate::specs::inside::Forms::named_at))]
fn take_named(bytes: &[u8], count: u32) -> Option<(u32, &[u8])>
    ensures { Gives (λ r. (r.0, r.1.now)) result (named_at count bytes.now) }
{
    let (number, rest) = take_ordinal_to(bytes, b'\n')?;
    Some((below(number, count)?, rest))
}

// The unit and the period of a split, up to the end of the line.
#[tactic(auto, unfolding(crate::specs::inside::Forms::split_at))]
fn take_split<'a>(bytes: &'a [u8], size: &Size) -> Option<((u32, u32), &'a [u8])>
    ensures { Gives (λ r. (r.0, r.1.now)) result (split_at (sizes size.now) bytes.now) }
{
    let (g, rest) = take_ordinal_to(bytes, b' ')?;
    let (t, rest) = take_ordinal_to(rest, b'\n')?;
    Some(((below(g, size.thermal)?, below(t, size.periods)?), rest))
}

// Whether leaves by exact values, and denominators, stand in that version.
fn tells_exact(version: Version) -> bool
    ensures { result ≡ tells_exact version }
{
    version == Version::Third
}

// A leaf by exact values, behind its first word.
#[tactic(auto, unfolding(crate::specs::inside::Forms::exact_at))]
fn take_exact<'a>(bytes: &'a [u8], size: &Size) -> Option<(CertNode, &'a [u8])>
    ensures { Gives (λ r. (node_of r.0, r.1.now)) result (mapped (λ leaf. LeafNode leaf) (exact_at (sizes size.now)) bytes.now) }
{
    if !tells_exact(size.version) {
        return None;
    }
    if let Some(rest) = take_text(bytes, b" ") {
        let (table, rest) = take_named(rest, size.tables)?;
        return Some((CertNode::Exact(table), rest));
    }
    if let Some(rest) = take_text(bytes, b"-ray ") {
        let (table, rest) = take_named(rest, size.tables)?;
        return Some((CertNode::ExactRay(table), rest));
    }
    let rest = take_text(bytes, b"-empty ")?;
    let (g, rest) = take_named(rest, size.thermal)?;
    Some((CertNode::ExactEmpty(g), rest))
}

/// A node of the tree.
#[tactic(auto, unfolding(crate::specs::inside::Forms::node_at))]
pub(crate) fn take_node<'a>(bytes: &'a [u8], size: &Size) -> Option<(CertNode, &'a [u8])>
    ensures { Gives (λ r. (node_of r.0, r.1.now)) result (node_at (sizes size.now) bytes.now) }
{
    if let Some(rest) = take_text(bytes, b"exact") {
        return take_exact(rest, size);
    }
    if let Some(rest) = take_text(bytes, b"bound ") {
        let (table, rest) = take_named(rest, size.tables)?;
        return Some((CertNode::Bound(table), rest));
    }
    if let Some(rest) = take_text(bytes, b"ray ") {
        let (table, rest) = take_named(rest, size.tables)?;
        return Some((CertNode::Ray(table), rest));
    }
    if let Some(rest) = take_text(bytes, b"empty ") {
        let (g, rest) = take_named(rest, size.thermal)?;
        return Some((CertNode::Empty(g), rest));
    }
    let rest = take_text(bytes, b"split ")?;
    let ((g, t), rest) = take_split(rest, size)?;
    Some((CertNode::Split { g, t }, rest))
}
