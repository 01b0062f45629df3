//! What a leaf of a certificate's tree claims, and whether it is so.

ghost use Rattle.std.specs.Prelude.{◌≡◌, ◌↔◌, ◌<◌, List, pos, ◌<ℤ◌, All, IfOk, IsTrue, MatchOption, length};
ghost use Rattle.uc_model.specs.Prelude.{IsLawfulInstance, thermal_count};
ghost use Rattle.dual_model.specs.Prelude.{Bound, Ray, IsLawfulTable, IsBlocked};
ghost use Rattle.cert_text.specs.CertificateText.{LeafNode};
ghost use Rattle.leaf_values.specs.Entries.{AreEntriesOf};
ghost use Rattle.leaf_values.specs.Paths.{AreFixesOf, node_of as place_of};
ghost use Rattle.leaf_values.specs.Reached.{least_value};
ghost use Rattle.cert_check.specs.Visits.{Node, Table, IsSound, IsSoundNode};
ghost use Rattle.cert_check.specs.inside.Leaves.{HasRoom, Holds, IsEnough, IsHoldingAt, IsLeafNode, IsLeastFor, IsLoaded, IsLoadedAt, FitsScale, IsReady, IsSameBut, Reaches};
ghost use Rattle.cert_check.specs.inside.Nodes.{AreCheckable};
ghost use Rattle.cert_check.specs.inside.Walks.{IsPath, visit_of};

use cert_text::{Cert, CertNode};
use dual_model::{Fix, Fixing, Table};
use leaf_values::{
    ExactRoom, Least, TableEntries, exact_reaches, fill_fixes, is_empty, is_unscheduled, load,
    undecided, value,
};
use state_walk::Walk;
use std::alloc::Global;
use table_list::TableList;
use uc_model::{Instance, NoMemory};

/// The table of a number, from 0, and its entries.
#[derive(Drop)]
pub(crate) struct Loaded {
    number: u32,
    table: Table,
    entries: TableEntries,
}

/// What a leaf says of a table: it bounds the cost by so much, or it is a ray that excludes all.
#[derive(Clone, Copy)]
pub(crate) enum Claim {
    Bound(i128),
    Ray,
}

/// That, by VE where it is exact, else by V.
#[derive(Clone, Copy)]
pub(crate) struct Question {
    exact: bool,
    claim: Claim,
}

/// What the leaves checked so far leave for the next ones: room for walks, exact ones too, and for what a path decides, and the
/// table that was loaded last.
#[derive(Drop)]
pub(crate) struct Leaves {
    walk: Walk,
    exact: ExactRoom,
    fixes: Vec<Fix>,
    loaded: Option<Loaded>,
}

impl Leaves {
    pub fn new(alloc: Global, instance: &Instance) -> Result<Leaves, NoMemory>
        requires { IsLawfulInstance instance.now }
        ensures { IfOk result (λ leaves. (tables : List Table) → IsReady instance.now tables leaves) }
    {
        Ok(Leaves {
            walk: Walk::new(alloc, instance.periods as usize)?,
            exact: ExactRoom::new(alloc, instance)?,
            fixes: vec![in alloc; undecided(); instance.thermal.as_slice().len()]?,
            loaded: None,
        })
    }

    /// Whether the leaf at the path is what it claims.
    pub fn is_sound(
        &mut self,
        alloc: Global,
        instance: &Instance,
        cert: &Cert,
        path: &[Fixing],
        leaf: &CertNode,
    ) -> Result<bool, NoMemory>
        requires lawful { IsLawfulInstance instance.now }
        requires checkable { AreCheckable instance.now cert.now }
        requires ready { IsReady instance.now cert.now.tables self.old }
        requires path { IsPath instance.now path.now }
        requires leaf { IsLeafNode (thermal_count instance.now) (length cert.now.tables) leaf.now }
        ensures ready { IfOk result (λ sound. IsReady instance.now cert.now.tables self.new) }
        ensures sound { IfOk result (λ sound. IsTrue sound ↔ IsSound instance.now cert.now.tables cert.now.bound (visit_of path.now leaf.now)) }
    {
        decide(&mut self.fixes, instance, path);
        match leaf {
            CertNode::Split { .. } => Ok(false),
            CertNode::Bound(number) => self.is_bounded(alloc, instance, cert, *number, false),
            CertNode::Exact(number) => self.is_bounded(alloc, instance, cert, *number, true),
            CertNode::Ray(number) => self.is_excluded(alloc, instance, cert, *number, false),
            CertNode::ExactRay(number) => self.is_excluded(alloc, instance, cert, *number, true),
            CertNode::Empty(g) => self.is_blocked(alloc, instance, *g, false),
            CertNode::ExactEmpty(g) => self.is_blocked(alloc, instance, *g, true),
        }
    }

    // Whether the table of that number bounds the cost at the node by what is claimed: by VE where it is exact, else by V.
    fn is_bounded(
        &mut self,
        alloc: Global,
        instance: &Instance,
        cert: &Cert,
        number: u32,
        exact: bool,
    ) -> Result<bool, NoMemory>
        requires lawful { IsLawfulInstance instance.now }
        requires checkable { AreCheckable instance.now cert.now }
        requires ready { IsReady instance.now cert.now.tables self.old }
        requires number { number < length cert.now.tables }
        ensures ready { IfOk result (λ sound. IsReady instance.now cert.now.tables self.new) }
        ensures sound { IfOk result (λ sound. (place : Node) → AreFixesOf instance.now place self.old.fixes.items
            → IsTrue sound ↔ IsSoundNode instance.now cert.now.tables cert.now.bound place (LeafNode (Bound exact number))) }
    {
        match cert.bound {
            Some(bound) => {
                let claim = Claim::Bound(bound);
                let question = Question { exact, claim };
                self.holds_at(alloc, instance, &cert.tables, number, &question)
            }
            None => Ok(false),
        }
    }

    // Whether the table of that number is a ray that leaves no schedule at the node: by VE where it is exact, else by V.
    fn is_excluded(
        &mut self,
        alloc: Global,
        instance: &Instance,
        cert: &Cert,
        number: u32,
        exact: bool,
    ) -> Result<bool, NoMemory>
        requires lawful { IsLawfulInstance instance.now }
        requires checkable { AreCheckable instance.now cert.now }
        requires ready { IsReady instance.now cert.now.tables self.old }
        requires number { number < length cert.now.tables }
        ensures ready { IfOk result (λ sound. IsReady instance.now cert.now.tables self.new) }
        ensures sound { IfOk result (λ sound. (place : Node) → AreFixesOf instance.now place self.old.fixes.items
            → IsTrue sound ↔ IsSoundNode instance.now cert.now.tables cert.now.bound place (LeafNode (Ray exact number))) }
    {
        let claim = Claim::Ray;
        let question = Question { exact, claim };
        self.holds_at(alloc, instance, &cert.tables, number, &question)
    }

    // Whether thermal unit `g` is blocked at the node: it has no schedule of its own there where that is asked, else no pattern.
    fn is_blocked(
        &mut self,
        alloc: Global,
        instance: &Instance,
        g: u32,
        exact: bool,
    ) -> Result<bool, NoMemory>
        requires lawful { IsLawfulInstance instance.now }
        requires room { HasRoom instance.now self.old }
        requires unit { g < thermal_count instance.now }
        ensures kept { IsSameBut self.old self.new }
        ensures room { HasRoom instance.now self.new }
        ensures blocked { IfOk result (λ blocked. (place : Node) → AreFixesOf instance.now place self.old.fixes.items
            → IsTrue blocked ↔ IsBlocked exact instance.now place g) }
    {
        let fix = &self.fixes[g as usize];
        if exact {
            is_unscheduled(alloc, &mut self.exact, instance, g, fix)
        } else {
            is_empty(alloc, &mut self.walk, instance, g, fix)
        }
    }

    // Whether what is asked holds of the node and the table of that number, which is loaded if another one was.
    fn holds_at(
        &mut self,
        alloc: Global,
        instance: &Instance,
        tables: &TableList,
        number: u32,
        question: &Question,
    ) -> Result<bool, NoMemory>
        requires lawful { IsLawfulInstance instance.now }
        requires tables { All (IsLawfulTable instance.now) tables.now }
        requires ready { IsReady instance.now tables.now self.old }
        requires number { number < length tables.now }
        ensures ready { IfOk result (λ holds. IsReady instance.now tables.now self.new) }
        ensures holds { IfOk result (λ holds. (place : Node) → AreFixesOf instance.now place self.old.fixes.items
            → IsHoldingAt question.now instance.now tables.now place number holds) }
    {
        let kept = self.loaded.take();
        let mut loaded = loaded_of(alloc, kept, &mut self.walk, instance, tables, number)?;
        let holds = self.holds(&mut loaded.entries, instance, &loaded.table, question);
        self.loaded = Some(loaded);
        Ok(holds)
    }

    // Whether what is asked holds of the node and the table of the entries.
    fn holds(
        &mut self,
        entries: &mut TableEntries,
        instance: &Instance,
        table: &Table,
        question: &Question,
    ) -> bool
        requires lawful { IsLawfulInstance instance.now }
        requires table { IsLawfulTable instance.now table.now }
        requires entries { AreEntriesOf instance.now table.now entries.old }
        requires room { HasRoom instance.now self.old }
        ensures entries { AreEntriesOf instance.now table.now entries.new }
        ensures kept { IsSameBut self.old self.new }
        ensures room { HasRoom instance.now self.new }
        ensures holds { (place : Node) → AreFixesOf instance.now place self.old.fixes.items → IsTrue result ↔ Holds question.now instance.now place table.now }
    {
        match least_for(table, &question.claim) {
            Some(least) => self.reaches(entries, instance, table, question.exact, &least),
            None => false,
        }
    }

    // Whether the value of the node at the table of the entries is the least one or more, or there is none for a blocked unit.
    fn reaches(
        &mut self,
        entries: &mut TableEntries,
        instance: &Instance,
        table: &Table,
        exact: bool,
        least: &Least,
    ) -> bool
        requires lawful { IsLawfulInstance instance.now }
        requires table { IsLawfulTable instance.now table.now }
        requires entries { AreEntriesOf instance.now table.now entries.old }
        requires room { HasRoom instance.now self.old }
        requires scale { pos 0 <ℤ least.now.scale }
        ensures entries { AreEntriesOf instance.now table.now entries.new }
        ensures kept { IsSameBut self.old self.new }
        ensures room { HasRoom instance.now self.new }
        ensures reaches { (place : Node) → AreFixesOf instance.now place self.old.fixes.items
            → IsTrue result ↔ Reaches exact instance.now place table.now (least_value least.now) }
    {
        if exact {
            exact_reaches(
                entries,
                &mut self.exact,
                instance,
                table,
                &self.fixes,
                least,
            )
        } else {
            let value = value(entries, &mut self.walk, instance, &self.fixes);
            is_enough(&value, least)
        }
    }
}

// Writes what the path decides of each unit.
fn decide(fixes: &mut Vec<Fix>, instance: &Instance, path: &[Fixing])
    requires lawful { IsLawfulInstance instance.now }
    requires count { length fixes.old.items ≡ thermal_count instance.now }
    requires path { IsPath instance.now path.now }
    ensures { AreFixesOf instance.now (place_of path.now) fixes.new.items }
{
    fill_fixes(fixes.as_mut_slice(), path);
}

// The table of that number and its entries: those that were kept, if they are its, or else new ones.
fn loaded_of(
    alloc: Global,
    kept: Option<Loaded>,
    walk: &mut Walk,
    instance: &Instance,
    tables: &TableList,
    number: u32,
) -> Result<Loaded, NoMemory>
    requires lawful { IsLawfulInstance instance.now }
    requires tables { All (IsLawfulTable instance.now) tables.now }
    requires kept { IsLoaded instance.now tables.now kept }
    requires number { number < length tables.now }
    requires room { walk.old ≡ instance.now.periods }
    ensures room { walk.new ≡ walk.old }
    ensures loaded { IfOk result (IsLoadedAt instance.now tables.now number) }
{
    if let Some(loaded) = kept {
        if loaded.number == number {
            return Ok(loaded);
        }
    }
    let table = tables.table(alloc, number as usize)?;
    let entries = load(alloc, walk, instance, &table)?;
    Ok(Loaded {
        number,
        table,
        entries,
    })
}

// The least value for the claim to hold of the table, as a bound at a scale above 0, and as a ray at the scale 0; there it is
// to be above 0.
fn least_for(table: &Table, claim: &Claim) -> Option<Least>
    ensures { MatchOption result (¬ FitsScale table.now.k claim.now) (IsLeastFor table.now.k claim.now) }
{
    match claim {
        Claim::Bound(bound) if table.k() > 0 => Some(Least {
            times: *bound,
            scale: table.k(),
        }),
        Claim::Ray if table.k() == 0 => Some(Least { times: 1, scale: 1 }),
        _ => None,
    }
}

// Whether the value is the least one or more, or there is none.
fn is_enough(value: &Option<i128>, least: &Least) -> bool
    requires { pos 0 <ℤ least.now.scale }
    ensures { IsTrue result ↔ IsEnough (least_value least.now) value.now }
{
    match value {
        Some(value) => least.is_reached(*value),
        None => true,
    }
}
