//! What clap is told of each command, and what it finds.
ghost use Rattle.std.specs.Prelude.{◌≡◌, ◌≢◌, ◌∷◌, [], IfOk, MatchOption, false, map, string_bytes, true};
ghost use Rattle.clap.specs.Words.{app_of, fault_of, found_of, is_simple_and_free, matches_of, rows_of, rule_of};
ghost use Rattle.mk_outputs.specs.{Given.{bare, gens, runs}, Told.{app_named, app_with, flag_rule, markers_rule}};
ghost use Rattle.mk_outputs.specs.Told.{positional_rule};

use clap::error::ErrorKind;
use clap::{Arg, ArgAction, ArgMatches, Command};
use mk_never::NoMemory;
use std::alloc::Global;

/// `--markers K`.
fn markers(alloc: Global) -> Arg<'static>
    ensures rule { rule_of result ≡ markers_rule }
    ensures local { result.global ≡ false }
{
    Arg::new(alloc, "markers")
        .long("markers")
        .action(ArgAction::Set)
}

fn flag<'a>(alloc: Global, name: &'a str) -> Arg<'a>
    ensures rule { rule_of result ≡ flag_rule name.entry.now }
    ensures local { result.global ≡ false }
{
    Arg::new(alloc, name).long(name).action(ArgAction::SetTrue)
}

fn positional<'a>(alloc: Global, name: &'a str) -> Arg<'a>
    ensures rule { rule_of result ≡ positional_rule name.entry.now }
    ensures local { result.global ≡ false }
{
    Arg::new(alloc, name).action(ArgAction::Set)
}

/// A command that takes no option and no further word, without help and version.
pub fn alone(alloc: Global, name: &str) -> Command<'_>
    ensures { app_of result ≡ app_named bare name.entry.now }
{
    Command::new(alloc, name)
        .disable_help_flag(true)
        .disable_version_flag(true)
}

/// A command that takes `--markers K`, and two arguments more.
fn with_markers<'a>(
    alloc: Global,
    name: &'a str,
    first: Arg<'a>,
    second: Arg<'a>,
) -> Result<Command<'a>, NoMemory>
    requires first { first.global ≡ false }
    requires second { second.global ≡ false }
    ensures { IfOk result (λ command. app_of command
        ≡ app_with (markers_rule ∷ rule_of first.entry ∷ rule_of second.entry ∷ []) name.entry.now) }
{
    let command = alone(alloc, name)
        .arg(markers(alloc))?
        .arg(first)?
        .arg(second)?;
    Ok(command)
}

/// `run [--markers K] [--sweep] [--why] [--report]`.
pub fn run(alloc: Global, name: &str) -> Result<Command<'_>, NoMemory>
    ensures { IfOk result (λ command. app_of command ≡ app_named runs name.entry.now) }
{
    let command = with_markers(alloc, name, flag(alloc, "sweep"), flag(alloc, "why"))?;
    Ok(command.arg(flag(alloc, "report"))?)
}

/// `gen START COUNT [--markers K]`.
pub fn generate(alloc: Global, name: &str) -> Result<Command<'_>, NoMemory>
    ensures { IfOk result (λ command. app_of command ≡ app_named gens name.entry.now) }
{
    with_markers(
        alloc,
        name,
        positional(alloc, "start"),
        positional(alloc, "count"),
    )
}

/// What a command finds in the words; none where it refuses them.
pub fn found_in<'a>(
    command: Command<'a>,
    words: &'a [String],
) -> Result<Option<ArgMatches<'a>>, NoMemory>
    requires { is_simple_and_free (app_of command) ≡ true }
    ensures { IfOk result (λ found. MatchOption found
        (fault_of (app_of command.entry) (map (λ word. string_bytes word) words.entry.now) ≢ [])
        (λ m. (fault_of (app_of command.entry) (map (λ word. string_bytes word) words.entry.now) ≡ [])
        × (rows_of (found_of m)
        ≡ matches_of (app_of command.entry) (map (λ word. string_bytes word) words.entry.now)))) }
{
    match command.try_get_matches_from(words) {
        Ok(matches) => Ok(Some(matches)),
        Err(error) => match error.kind() {
            ErrorKind::OutOfMemory => Err(NoMemory),
            _ => Ok(None),
        },
    }
}
