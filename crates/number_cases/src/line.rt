//! The lines of the cases.

ghost use Rattle.uc_model.specs.Prelude.{IsLawfulInstance};

use crate::Answer;
use crate::demo::tell_demo;
use crate::dispatch::{tell_dispatch, tell_most_on, tell_priced};
use crate::exact::tell_exact;
use crate::interval::tell_interval;
use crate::node::{tell_child, tell_node};
use crate::rolling::tell_roll;
use crate::system::{changed, unit_changed};
use crate::table::{tell_rays, tell_step, tell_zero};
use crate::text::{first, told};
use crate::unit::{period, tell_unit};
use instance::{ReadFault, read_instance};
use std::alloc::Global;
use std::rt::Files;
use std::{fs, io};
use uc_model::{Instance, NoMemory};

/// Does what a line says: it begins a system, changes its text, or asks of it.
pub(crate) fn follow<R: Print + Files + AllocGlobal>(
    rt: &R,
    system: &mut String,
    line: &str,
) -> io::Result<()> {
    let alloc = rt.alloc();
    let (word, rest) = first(line);
    match word {
        "" | "#" | "case" => Ok(()),
        "system" => put(rt, Some(fs::read_to_string(rt, rest)?), system),
        "line" => put(rt, line_of(rt, rest)?, system),
        "change" => put(rt, changed(alloc, system.as_str(), rest)?, system),
        "unit" => put(rt, unit_changed(alloc, system.as_str(), rest)?, system),
        _ => match answer(alloc, system.as_str(), word, rest) {
            Ok(text) => rt.print(text.as_str()),
            Err(NoMemory) => rt.println("no memory"),
        },
    }
}

// Puts a text, if there is one, in the place of a system's.
fn put(rt: &impl Print, text: Option<String>, system: &mut String) -> io::Result<()> {
    match text {
        Some(text) => {
            *system = text;
            Ok(())
        }
        None => rt.println("no such text"),
    }
}

// The text of a line of a file, as `FILE NUMBER` says; nothing where there is no such line.
fn line_of<R: Files + AllocGlobal>(rt: &R, words: &str) -> io::Result<Option<String>> {
    let (file, number) = first(words);
    let lines = fs::read_to_string(rt, file)?;
    match period(number).and_then(|n| lines.lines().nth(n)) {
        Some(line) => Ok(Some(String::from_str(rt.alloc(), line)?)),
        None => Ok(None),
    }
}

// What is answered to a question.
fn answer(alloc: Global, system: &str, word: &str, rest: &str) -> Answer {
    if word == "demo" {
        return tell_demo(alloc, rest);
    }
    match read_instance(alloc, system.as_bytes(), false) {
        Ok((instance, _)) if matches!(word, "priced" | "uplift" | "report" | "pivot") => {
            tell_priced(alloc, instance, word, rest)
        }
        Ok((instance, _)) => answer_of(alloc, &instance, word, rest),
        Err(ReadFault::NoMemory) => Err(NoMemory),
        Err(_) => told(alloc, "no instance\n"),
    }
}

// What is answered of an instance.
fn answer_of(alloc: Global, instance: &Instance, word: &str, rest: &str) -> Answer
    requires { IsLawfulInstance instance.now }
{
    match word {
        "dispatch" | "marginal" => tell_dispatch(alloc, instance, word, rest),
        "most-on" => tell_most_on(alloc, instance),
        "zero" => tell_zero(alloc, instance),
        "rays" => tell_rays(alloc, instance),
        "step" => tell_step(alloc, instance, rest),
        "node" => tell_node(alloc, instance, rest, false),
        "exact-node" => tell_node(alloc, instance, rest, true),
        "child" => tell_child(alloc, instance, rest),
        "interval" => tell_interval(alloc, instance, rest),
        "exact" => tell_exact(alloc, instance, rest, false),
        "checked-exact" => tell_exact(alloc, instance, rest, true),
        "roll" => tell_roll(alloc, instance, rest),
        _ => tell_unit(alloc, instance, word, rest),
    }
}
