//! The commands of the program with their arguments, for the command-line parser.

ghost use Rattle.std.specs.Prelude.{◌≡◌, IfOk, true, false, [], codes, pos};
ghost use Rattle.clap.specs.Words.{App, Rule, Shape, app_of, rule_of, shape_of, with_rule, with_subcommand};
ghost use Rattle.clap.specs.declared.builder.value_parser.ValueParser.TheVariants.{Signed};
ghost use Rattle.clap.specs.declared.builder.command.Command.TheViews.{out-Command as fields_of};
ghost use Rattle.command_line.specs.Arguments.{place as place_rule, needed_option as needed_rule, number_option as number_rule, units_option as units_rule, workers_option as workers_rule, gap_option as gap_rule, price_option as price_rule, hours_option as hours_rule, table_option as table_rule, switch as switch_rule, seed_place as seed_rule, solve_shape, check_shape, demo_shape, upgrade_shape, uplift_shape, roll_shape, program as program_app};

use clap::builder::ValueParser;
use clap::{Arg, ArgAction, Command, value_parser};
use std::alloc::{AllocError, Global};

// A value that is told by its place, and has to be given.
fn place<'a>(alloc: Global, id: &'a str) -> Arg<'a>
    ensures rule { rule_of result ≡ place_rule id.entry.now }
    ensures local { result.global ≡ false }
{
    Arg::new(alloc, id).required(true)
}

// `--NAME VALUE`, which has to be given.
fn needed_option<'a>(alloc: Global, name: &'a str) -> Arg<'a>
    ensures rule { rule_of result ≡ needed_rule name.entry.now }
    ensures local { result.global ≡ false }
{
    Arg::new(alloc, name).long(name).required(true)
}

// The whole numbers from the least to the most.
fn whole_numbers<'a>(least: u32, most: u32) -> ValueParser<'a>
    ensures { result ≡ Signed (pos least) (pos most) }
{
    value_parser!(u32).range(i64::from(least)..=i64::from(most))
}

// `--NAME N`, a whole number from the least to the most.
fn number_option<'a>(alloc: Global, name: &'a str, least: u32, most: u32) -> Arg<'a>
    ensures rule { rule_of result ≡ number_rule name.entry.now least most }
    ensures local { result.global ≡ false }
{
    Arg::new(alloc, name)
        .long(name)
        .value_parser(whole_numbers(least, most))
}

// `--units N`, a whole number from 1 to a million, which is 1000 where the option isn't given.
fn units_option<'a>(alloc: Global) -> Arg<'a>
    ensures rule { rule_of result ≡ units_rule }
    ensures local { result.global ≡ false }
{
    number_option(alloc, "units", 1, 1_000_000).default_value("1000")
}

// `--workers N`, a whole number from 1 to 64, which is 1 where the option isn't given.
fn workers_option<'a>(alloc: Global) -> Arg<'a>
    ensures rule { rule_of result ≡ workers_rule }
    ensures local { result.global ≡ false }
{
    number_option(alloc, "workers", 1, 64).default_value("1")
}

// `--gap PPM`, a whole number from 0 to a million, which is 1000 where the option isn't given.
fn gap_option<'a>(alloc: Global) -> Arg<'a>
    ensures rule { rule_of result ≡ gap_rule }
    ensures local { result.global ≡ false }
{
    number_option(alloc, "gap", 0, 1_000_000).default_value("1000")
}

// `--NAME PRICE`, a whole number from 1 to a million, which may be left out.
fn price_option<'a>(alloc: Global, name: &'a str) -> Arg<'a>
    ensures rule { rule_of result ≡ price_rule name.entry.now }
    ensures local { result.global ≡ false }
{
    number_option(alloc, name, 1, 1_000_000)
}

// `--NAME HOURS`, a number of periods from 1 to 168, which has to be given.
fn hours_option<'a>(alloc: Global, name: &'a str) -> Arg<'a>
    ensures rule { rule_of result ≡ hours_rule name.entry.now }
    ensures local { result.global ≡ false }
{
    number_option(alloc, name, 1, 168).required(true)
}

// `--table K`, the number of a table from 1, which is the first where the option isn't given.
fn table_option<'a>(alloc: Global) -> Arg<'a>
    ensures rule { rule_of result ≡ table_rule }
    ensures local { result.global ≡ false }
{
    number_option(alloc, "table", 1, 1_000_002).default_value("1")
}

// `--NAME`.
fn switch<'a>(alloc: Global, name: &'a str) -> Arg<'a>
    ensures rule { rule_of result ≡ switch_rule name.entry.now }
    ensures local { result.global ≡ false }
{
    Arg::new(alloc, name).long(name).action(ArgAction::SetTrue)
}

// A whole number from 0 that 32 bits hold, told by its place, which has to be given.
fn seed_place<'a>(alloc: Global) -> Arg<'a>
    ensures rule { rule_of result ≡ seed_rule }
    ensures local { result.global ≡ false }
{
    Arg::new(alloc, "seed")
        .required(true)
        .value_parser(value_parser!(u32))
}

// A command, or that memory is refused.
type Built<'a> = Result<Command<'a>, AllocError>;

// The command with one more argument.
fn with_arg<'a>(command: Built<'a>, arg: Arg<'a>) -> Built<'a>
    requires { arg.global ≡ false }
    ensures app { (app : App) (rule : Rule) → rule_of arg.entry ≡ rule → IfOk command.entry (λ command. app_of command ≡ app)
        → IfOk result (λ command. app_of command ≡ with_rule app rule) }
    ensures local { IfOk command.entry (λ command. (fields_of command).has_globals ≡ false)
        → IfOk result (λ command. (fields_of command).has_globals ≡ false) }
{
    command?.arg(arg)
}

// The program with one more command.
fn with_command<'a>(program: Built<'a>, command: Built<'a>) -> Built<'a>
    requires { IfOk command (λ command. (fields_of command).has_globals ≡ false) }
    ensures { (app : App) (shape : Shape) → IfOk command.entry (λ command. shape_of command ≡ shape) → IfOk program.entry (λ program. app_of program ≡ app)
        → IfOk result (λ program. app_of program ≡ with_subcommand app shape) }
{
    program?.subcommand(command?)
}

// The command with the options of a search.
fn with_search_options<'a>(alloc: Global, command: Built<'a>) -> Built<'a>
    ensures app { (app : App) → IfOk command.entry (λ command. app_of command ≡ app)
        → IfOk result (λ command. app_of command ≡ with_rule (with_rule (with_rule (with_rule app units_rule) workers_rule) gap_rule) (switch_rule (codes "exact"))) }
    ensures local { IfOk command.entry (λ command. (fields_of command).has_globals ≡ false)
        → IfOk result (λ command. (fields_of command).has_globals ≡ false) }
{
    let command = with_arg(command, units_option(alloc));
    let command = with_arg(command, workers_option(alloc));
    let command = with_arg(command, gap_option(alloc));
    with_arg(command, switch(alloc, "exact"))
}

// The command with the prices of shortages.
fn with_prices<'a>(alloc: Global, command: Built<'a>) -> Built<'a>
    ensures app { (app : App) → IfOk command.entry (λ command. app_of command ≡ app)
        → IfOk result (λ command. app_of command ≡ with_rule (with_rule app (price_rule (codes "shed"))) (price_rule (codes "spill-reserve"))) }
    ensures local { IfOk command.entry (λ command. (fields_of command).has_globals ≡ false)
        → IfOk result (λ command. (fields_of command).has_globals ≡ false) }
{
    let command = with_arg(command, price_option(alloc, "shed"));
    with_arg(command, price_option(alloc, "spill-reserve"))
}

fn solve_command<'a>(alloc: Global) -> Built<'a>
    ensures shape { IfOk result (λ command. shape_of command ≡ solve_shape) }
    ensures local { IfOk result (λ command. (fields_of command).has_globals ≡ false) }
{
    let command = with_arg(Ok(Command::new(alloc, "solve")), place(alloc, "instance"));
    let command = with_arg(command, needed_option(alloc, "cert"));
    let command = with_search_options(alloc, command);
    let command = with_arg(command, switch(alloc, "exact-units"));
    let command = with_arg(command, switch(alloc, "pivot"));
    with_prices(alloc, command)
}

fn check_command<'a>(alloc: Global) -> Built<'a>
    ensures shape { IfOk result (λ command. shape_of command ≡ check_shape) }
    ensures local { IfOk result (λ command. (fields_of command).has_globals ≡ false) }
{
    let command = with_arg(Ok(Command::new(alloc, "check")), place(alloc, "instance"));
    let command = with_arg(command, place(alloc, "certificate"));
    with_prices(alloc, command)
}

fn demo_command<'a>(alloc: Global) -> Built<'a>
    ensures shape { IfOk result (λ command. shape_of command ≡ demo_shape) }
    ensures local { IfOk result (λ command. (fields_of command).has_globals ≡ false) }
{
    Command::new(alloc, "demo").arg(seed_place(alloc))
}

fn upgrade_command<'a>(alloc: Global) -> Built<'a>
    ensures shape { IfOk result (λ command. shape_of command ≡ upgrade_shape) }
    ensures local { IfOk result (λ command. (fields_of command).has_globals ≡ false) }
{
    let command = with_arg(
        Ok(Command::new(alloc, "upgrade")),
        place(alloc, "certificate"),
    );
    with_arg(command, needed_option(alloc, "cert"))
}

fn uplift_command<'a>(alloc: Global) -> Built<'a>
    ensures shape { IfOk result (λ command. shape_of command ≡ uplift_shape) }
    ensures local { IfOk result (λ command. (fields_of command).has_globals ≡ false) }
{
    let command = with_arg(Ok(Command::new(alloc, "uplift")), place(alloc, "instance"));
    let command = with_arg(command, place(alloc, "certificate"));
    let command = with_arg(command, table_option(alloc));
    with_prices(alloc, command)
}

fn roll_command<'a>(alloc: Global) -> Built<'a>
    ensures shape { IfOk result (λ command. shape_of command ≡ roll_shape) }
    ensures local { IfOk result (λ command. (fields_of command).has_globals ≡ false) }
{
    let command = with_arg(Ok(Command::new(alloc, "roll")), place(alloc, "instance"));
    let command = with_arg(command, hours_option(alloc, "window"));
    let command = with_arg(command, hours_option(alloc, "step"));
    let command = with_search_options(alloc, command);
    with_prices(alloc, command)
}

// A command has to be given, and help is none.
fn bare_program<'a>(alloc: Global) -> Command<'a>
    ensures app { app_of result ≡ record { top = record program_app.top { is_leaf = true }; subs = [] } }
{
    Command::new(alloc, "uc")
        .subcommand_required(true)
        .disable_help_flag(true)
        .disable_help_subcommand(true)
}

/// The program with its commands, `solve`, `check`, `demo`, `upgrade`, `uplift` and `roll`.
pub(crate) fn program<'a>(alloc: Global) -> Built<'a>
    ensures { IfOk result (λ command. app_of command ≡ program_app) }
{
    let program = with_command(Ok(bare_program(alloc)), solve_command(alloc));
    let program = with_command(program, check_command(alloc));
    let program = with_command(program, demo_command(alloc));
    let program = with_command(program, upgrade_command(alloc));
    let program = with_command(program, uplift_command(alloc));
    with_command(program, roll_command(alloc))
}
