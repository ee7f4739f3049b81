//! The command of the words.

ghost use Rattle.std.specs.Prelude.{◌≡◌, false, IfOk, MatchOption, map, string_bytes};
ghost use Rattle.clap.specs.Words.{app_of, found_of, matches_of as the_matches, rows_of, rule_of};
ghost use Rattle.vsa_words.specs.Command.{AreTaken, command as the_command, rule_by, with_places as places};

use crate::options::{OptionName, Value};
use clap::error::ErrorKind;
use clap::{Arg, ArgAction, ArgMatches, Command};
use std::alloc::{AllocError, Global};

/// A mode and a chip.
fn with_places<'a>(alloc: Global) -> Result<Command<'a>, AllocError>
    ensures { IfOk result (λ command. app_of command ≡ places) }
{
    Command::new(alloc, "vsa")
        .no_binary_name(true)
        .arg(Arg::new(alloc, "mode").value_name("MODE").required(true))?
        .arg(Arg::new(alloc, "chip").value_name("CHIP").required(true))
}

/// An option of this name, with what stands behind it.
fn arg_of<'a>(alloc: Global, name: &'a str, value: Value) -> Arg<'a>
    ensures rule { rule_of result ≡ rule_by value name.now }
    ensures local { result.global ≡ false }
{
    let arg = Arg::new(alloc, name).long(name);
    match value {
        Value::Range => arg.value_name("LO-HI"),
        Value::Number { .. } => arg.value_name("N"),
        Value::Nothing => arg.action(ArgAction::SetTrue),
    }
}

/// The command: a mode, a chip and the options.
pub fn vsa_command<'a>(alloc: Global) -> Result<Command<'a>, AllocError>
    ensures { IfOk result (λ command. app_of command ≡ the_command) }
{
    let mut command = with_places(alloc)?;
    for option in OptionName::ALL {
        command = command.arg(arg_of(alloc, option.word(), option.value()))?;
    }
    Ok(command)
}

/// What the words give, where the command takes them.
pub fn matches_of<'a>(
    alloc: Global,
    words: &'a [String],
) -> Result<Option<ArgMatches<'a>>, AllocError>
    ensures { IfOk result (λ found. MatchOption found (¬ AreTaken (map string_bytes words.now))
        (λ matches. AreTaken (map string_bytes words.now) × (rows_of (found_of matches) ≡ the_matches the_command (map string_bytes words.now)))) }
{
    let command = vsa_command(alloc)?;
    match command.try_get_matches_from(words) {
        Ok(matches) => Ok(Some(matches)),
        Err(error) => {
            if error.kind() == ErrorKind::OutOfMemory {
                Err(AllocError)
            } else {
                Ok(None)
            }
        }
    }
}
