//! A whole certificate, in the version of the format in which it is written.

ghost use Rattle.std.specs.Prelude.{◌≡◌, OnOk, OnErr, if◌then◌else◌};
ghost use Rattle.outside.specs.Prelude.{WriterWrites, WritesFront};
ghost use Rattle.dual_model.specs.Prelude.{Certificate};
ghost use Rattle.branch_tree.specs.Prelude.{HasLayout, certificate_of};
ghost use Rattle.cert_text.specs.CertificateText.{Second, Third, version_line, size_line, claim_line, listing_of, written_text};
ghost use Rattle.cert_text.specs.Reading.{listing_read};
ghost use Rattle.cert_text.specs.inside.WrittenParts.{heading_part, found_text, read_text};

use crate::cert::Cert;
use crate::schedule::{
    has_price, is_divided, is_read_divided, put_penalty, put_read_schedule, put_schedule,
};
use crate::tables::{put_numbered, put_tables};
use crate::tree::{has_exact_leaf, has_exact_read, put_nodes, put_read_nodes};
use branch_tree::Found;
use outside::{Failed, Latch, Lent, Out, Writer, put_count, put_money_line, put_whole_line};
use uc_model::Instance;

// The numbers of periods, thermal units, renewable units and tables.
fn put_size<O: Out>(out: &mut O, periods: u32, thermal: usize, renewable: usize, tables: usize)
    ensures { O.emits (size_line periods thermal renewable tables) out.old out.new }
{
    put_count(out, b"size ", u64::from(periods));
    put_count(out, b" ", thermal as u64);
    put_count(out, b" ", renewable as u64);
    put_count(out, b" ", tables as u64);
    out.put(b"\n");
}

// The bound that is claimed, or that no schedule exists.
fn put_claim<O: Out>(out: &mut O, bound: &Option<i128>)
    ensures { O.emits (claim_line bound.now) out.old out.new }
{
    match bound {
        Some(bound) => put_money_line(out, b"claim bound", bound),
        None => out.put(b"claim infeasible\n"),
    }
}

// The line of the version: the third where that is wanted, else the second.
fn put_version<O: Out>(out: &mut O, is_third: bool)
    ensures { O.emits (version_line (if is_third then Third else Second)) out.old out.new }
{
    put_whole_line(out, b"uc-certificate", if is_third { 3 } else { 2 });
}

fn put_heading<O: Out>(out: &mut O, found: &Found, instance: &Instance)
    requires { HasLayout found.now }
    ensures { O.emits (heading_part (listing_of (certificate_of instance.now found.now))) out.old out.new }
{
    let thermal = instance.thermal.as_slice().len();
    let renewable = instance.renewable.as_slice().len();
    let tables = found.layout.tables.as_slice().len();
    let has_exact = has_exact_leaf(&found.tree, &found.layout);
    put_version(out, has_exact || is_divided(&found.schedule));
    put_size(out, instance.periods, thermal, renewable, tables);
    put_claim(out, &found.tree.bound());
}

#[tactic(auto, using(crate::proofs::Parts::exact_mapped))]
fn put_read_heading<O: Out>(out: &mut O, cert: &Cert)
    ensures { O.emits (heading_part (listing_read cert.now)) out.old out.new }
{
    let thermal = cert.thermal as usize;
    let renewable = cert.renewable as usize;
    let tables = cert.tables.len();
    let has_exact = has_exact_read(cert.tree.as_slice());
    put_version(out, has_exact || is_read_divided(&cert.schedule));
    put_size(out, cert.periods, thermal, renewable, tables);
    put_claim(out, &cert.bound);
}

#[tactic(auto, unfolding(crate::specs::inside::WrittenParts::found_text, crate::specs::inside::WrittenParts::certificate_parts, outside::specs::Lines::line))]
fn put_found<O: Out>(out: &mut O, found: &Found, instance: &Instance)
    requires { HasLayout found.now }
    ensures { O.emits (found_text instance.now found.now) out.old out.new }
{
    put_heading(out, found, instance);
    put_penalty(out, instance.a, instance.b);
    put_schedule(out, has_price(instance.a, instance.b), &found.schedule);
    put_numbered(out, found.tables.as_slice(), found.layout.tables.as_slice());
    put_nodes(out, &found.tree, &found.layout);
    out.put(b"end\n");
}

#[tactic(auto, unfolding(crate::specs::inside::WrittenParts::read_text, crate::specs::inside::WrittenParts::certificate_parts, outside::specs::Lines::line))]
fn put_read<O: Out>(out: &mut O, cert: &Cert)
    ensures { O.emits (read_text cert.now) out.old out.new }
{
    put_read_heading(out, cert);
    put_penalty(out, cert.a, cert.b);
    put_read_schedule(out, has_price(cert.a, cert.b), &cert.schedule);
    put_tables(out, &cert.tables);
    put_read_nodes(out, cert.tree.as_slice());
    out.put(b"end\n");
}

/// Writes the certificate of what was found for the instance: in the third version where a leaf of its tree claims by exact values, or its
/// schedule has powers that aren't whole, else in the second. It takes no memory.
///
/// `Failed` comes only where the writer's count of faults rose, and a front of the text is written then.
#[tactic(auto, using(crate::proofs::Parts::found_is_text))]
pub fn write<W: Writer>(found: &Found, instance: &Instance, out: &mut W) -> Result<(), Failed>
    requires { HasLayout found.now }
    ensures ok { OnOk result (WriterWrites (written_text (certificate_of instance.now found.now)) (W.state out.old) (W.state out.new)) }
    ensures failed { OnErr result (WritesFront (written_text (certificate_of instance.now found.now)) (W.state out.old) (W.state out.new)) }
    ensures rest { W.same_else out.old out.new }
{
    let mut latch = Latch::new(Lent::new(out));
    put_found(&mut latch, found, instance);
    latch.outcome()
}

/// Writes a certificate that was read, in the version in which `write` writes such a one, whichever it was read in. It takes no memory.
///
/// `Failed` comes only where the writer's count of faults rose, and a front of the text is written then.
#[tactic(auto, using(crate::proofs::Parts::read_is_text))]
pub fn write_cert<W: Writer>(cert: &Cert, out: &mut W) -> Result<(), Failed>
    ensures ok { (c : Certificate) → listing_of c ≡ listing_read cert.now
        → OnOk result (WriterWrites (written_text c) (W.state out.old) (W.state out.new)) }
    ensures failed { (c : Certificate) → listing_of c ≡ listing_read cert.now
        → OnErr result (WritesFront (written_text c) (W.state out.old) (W.state out.new)) }
    ensures rest { W.same_else out.old out.new }
{
    let mut latch = Latch::new(Lent::new(out));
    put_read(&mut latch, cert);
    latch.outcome()
}
