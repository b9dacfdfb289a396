//! The commands of the words.
ghost use Rattle.std.specs.Prelude.{Bool, ◌≡◌, IfOk, IfSome, Some, drop, map, option_and_then, string_bytes};
ghost use Rattle.clap.specs.{Matches.one_text, Values.bool_text, Words.{app_of, first_value, found_of, rows_of}};
ghost use Rattle.mk_script.specs.Operands.{number_of_word};
ghost use Rattle.mk_outputs.specs.Commands.{IsWithin, command_of, gen_from, markers_of, run_with};
ghost use Rattle.mk_outputs.specs.Commands as spec;
ghost use Rattle.mk_outputs.specs.{Given.{Given, given_by}, Told.{form_of, made_of, HasGiven, app_named}};
ghost use lib.Chars.{codes};

use crate::arguments::{alone, found_in, generate, run};
use crate::commands::{Command, Marking, Options, Request, TextCommand};
use clap::{ArgMatches, Command as Syntax};
use mk_never::NoMemory;
use mk_script::parse_number;
use std::alloc::Global;

/// How many markers are asked for: 0 to 8, and 0 where nothing is said.
fn markers_in(matches: &ArgMatches<'_>) -> Option<u64>
    ensures { result ≡ markers_of (first_value (found_of matches.now) (codes "markers")) }
{
    let Some(digits) = matches.get_str("markers") else {
        return Some(0);
    };
    let markers = parse_number(digits.as_bytes())?;
    (markers <= 8).then_some(markers)
}

/// How cycles are asked to mark. A sweep goes with no markers.
fn marking_by(sweep: bool, markers: u64) -> Option<Marking>
    ensures { result ≡ spec.marking_by sweep markers }
{
    match (sweep, markers) {
        (false, _) => Some(Marking::with_markers(markers)),
        (true, 0) => Some(Marking::Sweep),
        (true, _) => None,
    }
}

fn run_in(matches: &ArgMatches<'_>) -> Option<Command>
    ensures { (sweep why report : Bool) → one_text (found_of matches.now) (codes "sweep") ≡ Some (bool_text sweep)
        → one_text (found_of matches.now) (codes "why") ≡ Some (bool_text why)
        → one_text (found_of matches.now) (codes "report") ≡ Some (bool_text report)
        → result ≡ option_and_then (run_with sweep why report)
        (markers_of (first_value (found_of matches.now) (codes "markers"))) }
{
    let markers = markers_in(matches)?;
    let sweep = matches.get_flag("sweep");
    let marking = marking_by(sweep, markers)?;
    let why = matches.get_flag("why");
    let report = matches.get_flag("report");
    let options = Options {
        marking,
        why,
        report,
    };
    Some(Command::OnText(TextCommand::Run(options)))
}

/// The number that is given under a name.
fn number_in(matches: &ArgMatches<'_>, name: &str) -> Option<u64>
    ensures { result ≡ option_and_then number_of_word (first_value (found_of matches.now) name.now) }
{
    let digits = matches.get_str(name)?;
    parse_number(digits.as_bytes())
}

fn gen_in(matches: &ArgMatches<'_>) -> Option<Command>
    ensures { result ≡ gen_from (markers_of (first_value (found_of matches.now) (codes "markers")))
        (option_and_then number_of_word (first_value (found_of matches.now) (codes "start")))
        (option_and_then number_of_word (first_value (found_of matches.now) (codes "count"))) }
{
    let markers = markers_in(matches)?;
    let start = number_in(matches, "start")?;
    let count = number_in(matches, "count")?;
    if count < 48 || count > 3_000_000 {
        return None;
    }
    Some(Command::Gen(Request {
        start,
        count,
        markers,
    }))
}

/// A command, by its name.
#[derive(Clone, Copy)]
enum Named {
    Run,
    Gen,
    /// One that takes no option and no further word.
    Alone(TextCommand),
}

impl Named {
    /// What it takes.
    fn takes(self, alloc: Global, name: &str) -> Result<Syntax<'_>, NoMemory>
        ensures { IfOk result (λ command. app_of command ≡ app_named (form_of self) name.entry.now) }
    {
        match self {
            Named::Run => run(alloc, name),
            Named::Gen => generate(alloc, name),
            Named::Alone(_) => Ok(alone(alloc, name)),
        }
    }

    /// What it makes of the words that were found.
    fn read(self, matches: &ArgMatches<'_>) -> Option<Command>
        ensures { (given : Given) → HasGiven (form_of self) (rows_of (found_of matches.now)) given
            → result ≡ made_of self given }
    {
        match self {
            Named::Run => run_in(matches),
            Named::Gen => gen_in(matches),
            Named::Alone(command) => Some(Command::OnText(command)),
        }
    }
}

/// The named command, by its options and further words.
fn command_by<'a>(
    alloc: Global,
    named: Named,
    name: &'a str,
    words: &'a [String],
) -> Result<Option<Command>, NoMemory>
    ensures { IfOk result (λ answer. answer ≡ option_and_then (made_of named)
        (given_by (form_of named) (drop 1 (map (λ word. string_bytes word) words.entry.now)))) }
{
    let found = found_in(named.takes(alloc, name)?, words)?;
    match &found {
        Some(matches) => Ok(named.read(matches)),
        None => Ok(None),
    }
}

/// The command of the words after the program's name; none where they are of no form.
pub fn command_in(alloc: Global, words: &[String]) -> Result<Option<Command>, NoMemory>
    ensures command { IfOk result (λ command. command ≡ command_of (map (λ word. string_bytes word) words.now)) }
    ensures within { IfOk result (λ command. IfSome command IsWithin) }
{
    let [name, ..] = words else {
        return Ok(None);
    };
    let name = name.as_str();
    if name == "run" {
        command_by(alloc, Named::Run, name, words)
    } else if name == "check" {
        command_by(alloc, Named::Alone(TextCommand::Check), name, words)
    } else if name == "print" {
        command_by(alloc, Named::Alone(TextCommand::Print), name, words)
    } else if name == "replay" {
        command_by(alloc, Named::Alone(TextCommand::Replay), name, words)
    } else if name == "gen" {
        command_by(alloc, Named::Gen, name, words)
    } else if name == "trace" {
        command_by(alloc, Named::Alone(TextCommand::Trace), name, words)
    } else {
        Ok(None)
    }
}
