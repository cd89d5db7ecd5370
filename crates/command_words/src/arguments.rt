//! The command line as one simple command with the arguments MODE, GROWERS and REST.

ghost use Rattle.std.specs.Prelude.{◌≡◌, IfOk, map, string_bytes, false};
ghost use Rattle.clap.specs.Words.{app_of, found_of, rows_of};
ghost use Rattle.command_words.specs.Line.{line_app, line_rows};
ghost use Rattle.command_words.specs.Judge.{is_dashed};
ghost use Rattle.std.specs.List.{list_any};

use clap::{Arg, ArgAction, ArgMatches, Command, Error};
use std::alloc::{AllocError, Global};

/// The command: no flag, no help, and every word an argument.
fn command<'a>(alloc: Global) -> Result<Command<'a>, AllocError>
    ensures { IfOk result (λ c. app_of c ≡ line_app) }
{
    let rest = Arg::new(alloc, "REST").action(ArgAction::Append);
    Command::new(alloc, "crystal_shell")
        .no_binary_name(true)
        .disable_help_flag(true)
        .arg(Arg::new(alloc, "MODE"))?
        .arg(Arg::new(alloc, "GROWERS"))?
        .arg(rest)
}

/// What words of which none begins with `-` give to the arguments.
pub(crate) fn matches_in<'a>(alloc: Global, words: &'a [String]) -> Result<ArgMatches<'a>, Error>
    requires { list_any is_dashed (map string_bytes words.now) ≡ false }
    ensures { IfOk result (λ m. rows_of (found_of m)
        ≡ line_rows (map string_bytes words.now)) }
{
    let command = command(alloc)?;
    command.try_get_matches_from(words)
}
