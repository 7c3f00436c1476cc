ghost use Rattle.std.specs.Prelude.{◌≡◌, IfOk, map, option_map, string_bytes};
ghost use Rattle.clap.specs.Matches.{found_of};
ghost use Rattle.clap.specs.Simple.{app_of, with_rule};
ghost use Rattle.clap.specs.Walk.{rows_of};
ghost use Rattle.call_words.specs.Command.{option, place, values_in, values_of, verify_command};
ghost use Rattle.call_words.specs.Seen.{values_seen};

use clap::error::ErrorKind;
use clap::{Arg, ArgMatches, Command};
use std::alloc::{AllocError, Global};
use vf_io::NoMemory;

/// The values of the five arguments, each where the words give it one.
#[derive(Clone, Copy)]
pub(crate) struct Values<'a> {
    pub(crate) file: Option<&'a str>,
    pub(crate) setup: Option<&'a str>,
    pub(crate) script: Option<&'a str>,
    pub(crate) workers: Option<&'a str>,
    pub(crate) stock: Option<&'a str>,
}

/// A command with one more argument, which is at its place and has to be there.
fn with_place<'a>(
    alloc: Global,
    command: Command<'a>,
    name: &'a str,
) -> Result<Command<'a>, AllocError>
    ensures { IfOk result (λ made. app_of made ≡ with_rule (app_of command.entry) (place name.now)) }
{
    command.arg(Arg::new(alloc, name).required(true))
}

/// A command with one more option of one value, which may be left out.
fn with_option<'a>(
    alloc: Global,
    command: Command<'a>,
    name: &'a str,
) -> Result<Command<'a>, AllocError>
    ensures { IfOk result (λ made. app_of made ≡ with_rule (app_of command.entry) (option name.now)) }
{
    command.arg(Arg::new(alloc, name).long(name))
}

/// The command that the words are read by.
fn verify_command<'a>(alloc: Global) -> Result<Command<'a>, AllocError>
    ensures { IfOk result (λ command. app_of command ≡ verify_command) }
{
    let bare = Command::new(alloc, "verify").no_binary_name(true);
    let placed = with_place(alloc, with_place(alloc, bare, "CL")?, "SETUP")?;
    let scripted = with_option(alloc, placed, "script")?;
    with_option(alloc, with_option(alloc, scripted, "workers")?, "stock")
}

/// The values of the five that were found.
fn found_values<'a>(matches: &ArgMatches<'a>) -> Values<'a>
    ensures { values_seen result ≡ values_in (rows_of (found_of matches.now)) }
{
    Values {
        file: matches.get_str("CL"),
        setup: matches.get_str("SETUP"),
        script: matches.get_str("script"),
        workers: matches.get_str("workers"),
        stock: matches.get_str("stock"),
    }
}

/// The values that the words give, where the parser takes them.
pub(crate) fn read_values<'a>(
    alloc: Global,
    words: &'a [String],
) -> Result<Option<Values<'a>>, NoMemory>
    ensures { IfOk result (λ values. option_map values_seen values ≡ values_of (map string_bytes words.now)) }
{
    let Ok(command) = verify_command(alloc) else {
        return Err(NoMemory);
    };
    match command.try_get_matches_from(words) {
        Ok(matches) => Ok(Some(found_values(&matches))),
        Err(error) if error.kind() == ErrorKind::OutOfMemory => Err(NoMemory),
        Err(_) => Ok(None),
    }
}
