//! The command line.
ghost use Rattle.std.specs.Prelude.{◌≡◌, false, IfOk, [], ◌∷◌, map, option_map, string_bytes};
ghost use Rattle.clap.specs.Words.{app_of, shape_of, rows_of, rule_of, found_of, with_subcommand};
ghost use Rattle.clap.specs.Words.{subcommand_of, subcommand_rows_of, fault_of, FailsBy};
ghost use Rattle.clap.specs.declared.builder.command.Command.TheViews.{out-Command as fields_of};
ghost use Rattle.sirob.specs.CommandLine.{sirob_app, top_app, command_with, flag_rule, byte_rule};
ghost use Rattle.sirob.specs.CommandLine.{is_true, has_flag, byte_of, IsNamedBy, NamesMode};

use clap::{Arg, ArgAction, ArgMatches, Command, Error, value_parser};
use std::alloc::{AllocError, Global};

// what each command says of itself
const SIROB: &str =
    "Checks, certifies, repairs, runs and audits transaction programs under snapshot isolation, and does jobs of them, from standard input to standard output";

const CHECK: &str = "Reads a set of programs; writes its canonical text, or its first fault";

const CERTIFY: &str =
    "Reads a set of programs; writes a certificate that it is robust, or its refusal";

const VERIFY: &str =
    "Reads a set of programs, a line %% and a certificate; writes that the set is robust, or the certificate's first fault";

const REPAIR: &str =
    "Reads a set of programs; writes the canonical text of a robust set whose programs mean the same";

const RUN: &str =
    "Reads a set of programs, a line %% and a script; writes a line for each event, the rows, and an order or a cycle";

const AUDIT: &str =
    "Reads a set of programs, a line %% and records of commits; writes the rows, and an order or a cycle";

const WORK: &str =
    "Reads a robust set of programs, a line %% and jobs; does the jobs at once, and writes how many ended in which way, and the rows";

// and of their arguments
const PROMOTE: &str = "Adds no table, and keeps the cells that were read";

const ROBUST: &str = "Runs the script only where the set is robust, and else writes its refusal";

const WORKERS: &str = "How many workers do jobs at once, from 1 to 8";

/// What the program is asked to do.
#[derive(Clone, Copy, Debug, PartialEq, Eq)]
pub enum Mode {
    Check,
    Certify,
    Verify,
    Repair { promote: bool },
    Run { robust: bool },
    Audit,
    Work { workers: u8 },
}

// A subcommand with no argument.
fn plain<'a>(alloc: Global, name: &'a str, about: &'a str) -> Command<'a>
    ensures shape { shape_of result ≡ command_with name.entry.now [] }
    ensures local { (fields_of result).has_globals ≡ false }
{
    Command::new(alloc, name).about(about)
}

// An argument that is on where its word stands.
fn flag<'a>(alloc: Global, name: &'a str, help: &'a str) -> Arg<'a>
    ensures rule { rule_of result ≡ flag_rule name.entry.now }
    ensures local { result.global ≡ false }
{
    Arg::new(alloc, name)
        .long(name)
        .action(ArgAction::SetTrue)
        .help(help)
}

// An argument that is a number of one byte behind its word, or this one where that is missing.
fn byte_option<'a>(alloc: Global, name: &'a str, default: &'a str, help: &'a str) -> Arg<'a>
    ensures rule { rule_of result ≡ byte_rule name.entry.now default.entry.now }
    ensures local { result.global ≡ false }
{
    Arg::new(alloc, name)
        .long(name)
        .action(ArgAction::Set)
        .value_name("N")
        .value_parser(value_parser!(u8))
        .default_value(default)
        .help(help)
}

// A subcommand with one argument.
fn taking<'a>(
    alloc: Global,
    name: &'a str,
    about: &'a str,
    argument: Arg<'a>,
) -> Result<Command<'a>, AllocError>
    requires { argument.global ≡ false }
    ensures shape { IfOk result (λ c. shape_of c
        ≡ command_with name.entry.now (rule_of argument.entry ∷ [])) }
    ensures local { IfOk result (λ c. (fields_of c).has_globals ≡ false) }
{
    plain(alloc, name, about).arg(argument)
}

// The program's own command, with no subcommand yet.
fn top<'a>(alloc: Global) -> Result<Command<'a>, AllocError>
    ensures { IfOk result (λ c. app_of c ≡ top_app) }
{
    Command::new(alloc, "sirob")
        .about(SIROB)
        .subcommand_required(true)
        .bin_name("sirob")
}

fn add<'a>(above: Command<'a>, sub: Command<'a>) -> Result<Command<'a>, AllocError>
    requires { (fields_of sub).has_globals ≡ false }
    ensures { IfOk result (λ c. app_of c ≡ with_subcommand (app_of above.entry)
        (shape_of sub.entry)) }
{
    above.subcommand(sub)
}

fn command<'a>(alloc: Global) -> Result<Command<'a>, AllocError>
    ensures { IfOk result (λ c. app_of c ≡ sirob_app) }
{
    let none = top(alloc)?;
    let check = plain(alloc, "check", CHECK);
    let with_check = add(none, check)?;
    let certify = plain(alloc, "certify", CERTIFY);
    let with_certify = add(with_check, certify)?;
    let verify = plain(alloc, "verify", VERIFY);
    let with_verify = add(with_certify, verify)?;
    let promote = flag(alloc, "promote", PROMOTE);
    let repair = taking(alloc, "repair", REPAIR, promote)?;
    let with_repair = add(with_verify, repair)?;
    let robust = flag(alloc, "robust", ROBUST);
    let run = taking(alloc, "run", RUN, robust)?;
    let with_run = add(with_repair, run)?;
    let audit = plain(alloc, "audit", AUDIT);
    let with_audit = add(with_run, audit)?;
    let workers = byte_option(alloc, "workers", "2", WORKERS);
    let work = taking(alloc, "work", WORK, workers)?;
    add(with_audit, work)
}

/// What the words ask for. The first is the program's name.
pub fn read_words<'a>(alloc: Global, words: &'a [String]) -> Result<Mode, Error>
    ensures meaning { IfOk result
        (λ m. IsNamedBy m (subcommand_of sirob_app (map string_bytes words.entry.now))) }
    ensures fault { FailsBy (fault_of sirob_app (map string_bytes words.entry.now)) result }
{
    let command = command(alloc)?;
    let matches = command.try_get_matches_from(words)?;
    Ok(mode_in(&matches))
}

fn is_true(text: Option<&str>) -> bool
    ensures { result ≡ is_true (option_map (λ s. s.now) text.entry) }
{
    match text {
        Some(text) => text == "true",
        None => false,
    }
}

// Whether a flag is on.
fn has_flag(matches: &ArgMatches<'_>, name: &str) -> bool
    ensures { result ≡ has_flag name.now (rows_of (found_of matches.now)) }
{
    is_true(matches.get_str(name))
}

// The number of an option, which is its default where the words have none.
fn byte_of(matches: &ArgMatches<'_>, name: &str) -> u8
    ensures { result ≡ byte_of name.now (rows_of (found_of matches.now)) }
{
    matches.get_one::<u8>(name).unwrap_or(0)
}

fn mode_in(matches: &ArgMatches<'_>) -> Mode
    requires { NamesMode (subcommand_rows_of matches.now) }
    ensures { IsNamedBy result (subcommand_rows_of matches.now) }
{
    match matches.subcommand() {
        Some(("check", _)) => Mode::Check,
        Some(("certify", _)) => Mode::Certify,
        Some(("verify", _)) => Mode::Verify,
        Some(("repair", repair)) => Mode::Repair {
            promote: has_flag(repair, "promote"),
        },
        Some(("run", run)) => Mode::Run {
            robust: has_flag(run, "robust"),
        },
        Some(("audit", _)) => Mode::Audit,
        Some(("work", work)) => Mode::Work {
            workers: byte_of(work, "workers"),
        },
        _ => unreachable!(),
    }
}
