//! What the words of the command line ask for.

ghost use Rattle.std.specs.Prelude.{◌≡◌, ◌≤◌, codes, map, string_bytes, true, IfOk, IfErr, IfSome, Some, option_map, option_and_then};
ghost use Rattle.clap.specs.Words.{first_of, found_of, rows_of, kind_of, subcommand_rows_of};
ghost use Rattle.command_line.specs.Arguments.{is_taken};
ghost use Rattle.command_line.specs.Command.{named, command_of as command_of_words, value_of, is_on, number_of, solve_of as solve_of_rows, check_of as check_of_rows, demo_of as demo_of_rows, upgrade_of as upgrade_of_rows, uplift_of as uplift_of_rows, roll_of as roll_of_rows};
ghost use Rattle.command_line.specs.Asked.{command_asked, solve_asked, check_asked, demo_asked, upgrade_asked, uplift_asked, roll_asked, refusal_of, HasHours, HasNumbers, HasPrices, HasWorkers, IsRefusal};

use crate::arguments::program;
use clap::error::ErrorKind;
use clap::{ArgMatches, Error};
use report::Fault;
use std::alloc::Global;

/// The greatest number of an option: claims of a budget, parts per million of a cost, and micro-dollars for a watt and an hour.
const MOST: u32 = 1_000_000;

/// The most workers.
const MOST_WORKERS: u32 = 64;

/// The most periods.
const MOST_HOURS: u32 = 168;

/// The greatest number of a table, from 1.
const MOST_TABLE: u32 = 1_000_002;

/// The greatest seed.
const MOST_SEED: u32 = 4_294_967_295;

/// What `solve` is asked: the file of the instance, that of the certificate, the budget in claims, the number of workers, the gap at
/// which a search is closed, in parts per million of a cost, whether a rounded number is refused, whether bounds keep ramps in each unit,
/// whether a commitment whose cells are all decided is dispatched exactly, and the prices of unserved demand and of missing reserve, in
/// micro-dollars for a watt and an hour, 0 where there is none.
#[derive(Clone, Copy, Debug)]
pub struct Solve<'a> {
    pub instance: &'a str,
    pub certificate: &'a str,
    pub units: u32,
    pub workers: u8,
    pub gap: u32,
    pub exact: bool,
    pub exact_units: bool,
    pub pivot: bool,
    pub shed: u32,
    pub spill_reserve: u32,
}

/// What `check` is asked: the file of the instance, that of the certificate, and the prices, as `solve` is.
#[derive(Clone, Copy, Debug)]
pub struct Check<'a> {
    pub instance: &'a str,
    pub certificate: &'a str,
    pub shed: u32,
    pub spill_reserve: u32,
}

/// What `demo` is asked: the seed.
#[derive(Clone, Copy, Debug)]
pub struct Demo {
    pub seed: u32,
}

/// What `upgrade` is asked: the file of the certificate that is read, and that of the one that is written.
#[derive(Clone, Copy, Debug)]
pub struct Upgrade<'a> {
    pub certificate: &'a str,
    pub to: &'a str,
}

/// What `uplift` is asked: the certificate that is checked, as `check` is asked, and which of its tables has the prices, from 1.
#[derive(Clone, Copy, Debug)]
pub struct Uplift<'a> {
    pub check: Check<'a>,
    pub table: u32,
}

/// What `roll` is asked: the file of the instance, how many periods a window has, how many of them are kept, and the rest as `solve` is.
#[derive(Clone, Copy, Debug)]
pub struct Roll<'a> {
    pub instance: &'a str,
    pub window: u32,
    pub step: u32,
    pub units: u32,
    pub workers: u8,
    pub gap: u32,
    pub exact: bool,
    pub shed: u32,
    pub spill_reserve: u32,
}

/// A command with its arguments.
#[derive(Clone, Copy, Debug)]
pub enum Command<'a> {
    Solve(Solve<'a>),
    Check(Check<'a>),
    Demo(Demo),
    Upgrade(Upgrade<'a>),
    Uplift(Uplift<'a>),
    Roll(Roll<'a>),
}

// The value of an argument, where it has one.
fn text<'a>(given: &ArgMatches<'a>, id: &str) -> Option<&'a str>
    ensures { option_map (λ s. s.now) result ≡ first_of id.now (rows_of (found_of given.now)) }
{
    given.get_str(id)
}

// The value of an argument that has to be given.
fn value<'a>(given: &ArgMatches<'a>, id: &str) -> &'a str
    ensures { result.now ≡ value_of id.now (rows_of (found_of given.now)) }
{
    match text(given, id) {
        Some(text) => text,
        None => "",
    }
}

// Whether a switch is given.
fn is_given(given: &ArgMatches<'_>, id: &str) -> bool
    ensures { result ≡ is_on id.now (rows_of (found_of given.now)) }
{
    match text(given, id) {
        Some(text) => text == "true",
        None => false,
    }
}

// The number of an argument, and the least where it has none. The parser lets none through that is less than `least` or greater than `most`.
fn number(given: &ArgMatches<'_>, id: &str, least: u32, most: u32) -> u32
    requires { least ≤ most }
    ensures value { result ≡ number_of least most id.now (rows_of (found_of given.now)) }
    ensures least { least ≤ result }
    ensures most { result ≤ most }
{
    match given.get_one::<u32>(id) {
        Some(number) if least <= number && number <= most => number,
        _ => least,
    }
}

// The number of workers.
fn workers(given: &ArgMatches<'_>) -> u8
    ensures value { result ≡ number_of 1 MOST_WORKERS (codes "workers") (rows_of (found_of given.now)) }
    ensures range { HasWorkers result }
{
    number(given, "workers", 1, MOST_WORKERS) as u8
}

fn solve_of<'a>(given: &ArgMatches<'a>) -> Solve<'a>
    ensures asked { solve_asked result ≡ solve_of_rows (rows_of (found_of given.now)) }
    ensures numbers { (result.units ≤ MOST) × (result.gap ≤ MOST) }
    ensures workers { HasWorkers result.workers }
    ensures prices { HasPrices result.shed result.spill_reserve }
{
    Solve {
        instance: value(given, "instance"),
        certificate: value(given, "cert"),
        units: number(given, "units", 1, MOST),
        workers: workers(given),
        gap: number(given, "gap", 0, MOST),
        exact: is_given(given, "exact"),
        exact_units: is_given(given, "exact-units"),
        pivot: is_given(given, "pivot"),
        shed: number(given, "shed", 0, MOST),
        spill_reserve: number(given, "spill-reserve", 0, MOST),
    }
}

fn check_of<'a>(given: &ArgMatches<'a>) -> Check<'a>
    ensures asked { check_asked result ≡ check_of_rows (rows_of (found_of given.now)) }
    ensures prices { HasPrices result.shed result.spill_reserve }
{
    Check {
        instance: value(given, "instance"),
        certificate: value(given, "certificate"),
        shed: number(given, "shed", 0, MOST),
        spill_reserve: number(given, "spill-reserve", 0, MOST),
    }
}

fn demo_of(given: &ArgMatches<'_>) -> Demo
    ensures { demo_asked result ≡ demo_of_rows (rows_of (found_of given.now)) }
{
    Demo {
        seed: number(given, "seed", 0, MOST_SEED),
    }
}

fn upgrade_of<'a>(given: &ArgMatches<'a>) -> Upgrade<'a>
    ensures { upgrade_asked result ≡ upgrade_of_rows (rows_of (found_of given.now)) }
{
    Upgrade {
        certificate: value(given, "certificate"),
        to: value(given, "cert"),
    }
}

fn uplift_of<'a>(given: &ArgMatches<'a>) -> Uplift<'a>
    ensures asked { uplift_asked result ≡ uplift_of_rows (rows_of (found_of given.now)) }
    ensures prices { HasPrices result.check.shed result.check.spill_reserve }
{
    Uplift {
        check: check_of(given),
        table: number(given, "table", 1, MOST_TABLE),
    }
}

fn roll_of<'a>(given: &ArgMatches<'a>) -> Roll<'a>
    ensures asked { roll_asked result ≡ roll_of_rows (rows_of (found_of given.now)) }
    ensures hours { HasHours result.window × HasHours result.step }
    ensures numbers { (result.units ≤ MOST) × (result.gap ≤ MOST) }
    ensures workers { HasWorkers result.workers }
    ensures prices { HasPrices result.shed result.spill_reserve }
{
    Roll {
        instance: value(given, "instance"),
        window: number(given, "window", 1, MOST_HOURS),
        step: number(given, "step", 1, MOST_HOURS),
        units: number(given, "units", 1, MOST),
        workers: workers(given),
        gap: number(given, "gap", 0, MOST),
        exact: is_given(given, "exact"),
        shed: number(given, "shed", 0, MOST),
        spill_reserve: number(given, "spill-reserve", 0, MOST),
    }
}

// The command that was found, with its arguments.
fn command_in<'a>(matches: &ArgMatches<'a>) -> Option<Command<'a>>
    ensures command { option_map command_asked result ≡ option_and_then named (subcommand_rows_of matches.now) }
    ensures numbers { IfSome result HasNumbers }
{
    let (name, given) = matches.subcommand()?;
    if name == "solve" {
        Some(Command::Solve(solve_of(given)))
    } else if name == "check" {
        Some(Command::Check(check_of(given)))
    } else if name == "demo" {
        Some(Command::Demo(demo_of(given)))
    } else if name == "upgrade" {
        Some(Command::Upgrade(upgrade_of(given)))
    } else if name == "uplift" {
        Some(Command::Uplift(uplift_of(given)))
    } else if name == "roll" {
        Some(Command::Roll(roll_of(given)))
    } else {
        None
    }
}

// Words that aren't taken are told by one line for each command, whatever is wrong with them.
fn refusal(error: &Error) -> Fault
    ensures { result ≡ refusal_of (kind_of error.now) }
{
    match error.kind() {
        ErrorKind::OutOfMemory => Fault::Memory,
        _ => Fault::Words,
    }
}

/// What the words ask for, of which the first is the program's name. `Words` comes exactly where the words aren't
/// taken, and `Memory` only where memory is refused.
pub fn command_of<'a>(alloc: Global, words: &'a [String]) -> Result<Command<'a>, Fault>
    ensures taken { IfOk result (λ _. is_taken (map string_bytes words.now) ≡ true) }
    ensures command { IfOk result (λ command. command_of_words (map string_bytes words.now) ≡ Some (command_asked command)) }
    ensures numbers { IfOk result HasNumbers }
    ensures refused { IfErr result (IsRefusal (map string_bytes words.now)) }
{
    let Ok(program) = program(alloc) else {
        return Err(Fault::Memory);
    };
    match program.try_get_matches_from(words) {
        Ok(matches) => match command_in(&matches) {
            Some(command) => Ok(command),
            None => Err(Fault::Words),
        },
        Err(error) => Err(refusal(&error)),
    }
}
