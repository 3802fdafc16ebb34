// The commands behind the program's name.
ghost use Rattle.std.specs.Prelude.{◌≡◌, IfOk, false};
ghost use Rattle.clap.specs.Words.{app_of, new_app};
ghost use Rattle.clap.specs.declared.Command.TheViews.{out-Command};
ghost use Rattle.command_line.specs.Tables.{app_for, with_commands};

use crate::argument::{Argument, with_arguments};
use clap::Command;
use std::alloc::{AllocError, Global};

/// What help says of a command: what it does, how it is used, and what stands at the end.
#[derive(Clone, Copy)]
pub struct Texts<'a> {
    pub about: &'a str,
    pub usage: &'a str,
    pub after: &'a str,
}

/// A command: its name, its texts of help, and its arguments in the order of help.
#[derive(Clone, Copy)]
pub struct Subcommand<'a> {
    pub name: &'a str,
    pub texts: Texts<'a>,
    pub arguments: &'a [Argument<'a>],
}

/// The command with these commands behind its own.
pub fn with_commands<'a>(
    alloc: Global,
    command: Command<'a>,
    table: &[Subcommand<'a>],
) -> Result<Command<'a>, AllocError>
    ensures { IfOk result (λ more. app_of more ≡ with_commands (app_of command.entry) table.now) }
{
    let mut command = command;
    'commands: for subcommand in table {
        command = command.subcommand(subcommand_of(alloc, subcommand)?)?;
    }
    Ok(command)
}

fn subcommand_of<'a>(alloc: Global, subcommand: &Subcommand<'a>) -> Result<Command<'a>, AllocError>
    ensures app { IfOk result (λ command. app_of command ≡ app_for subcommand.now) }
    ensures local { IfOk result (λ command. (out-Command command).has_globals ≡ false) }
{
    let command = command(alloc, subcommand.name, subcommand.texts);
    with_arguments(alloc, command, subcommand.arguments)
}

/// A command without arguments.
pub fn command<'a>(alloc: Global, name: &'a str, texts: Texts<'a>) -> Command<'a>
    ensures app { app_of result ≡ new_app name.entry.now }
    ensures local { (out-Command result).has_globals ≡ false }
{
    Command::new(alloc, name)
        .about(texts.about)
        .override_usage(texts.usage)
        .after_help(texts.after)
}
