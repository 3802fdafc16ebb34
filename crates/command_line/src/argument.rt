// The arguments of commands: what each is called, how it is given, and what help says of it.
ghost use Rattle.std.specs.Prelude.{◌≡◌, IfOk, false, map};
ghost use Rattle.clap.specs.Words.{app_of, rule_of};
ghost use Rattle.clap.specs.declared.Command.TheViews.{out-Command};
ghost use Rattle.command_line.specs.Parser.{flag_rule, option_rule, with_rules};
ghost use Rattle.command_line.specs.Tables.{plain_rule, rule_for};

use clap::{Arg, ArgAction, Command};
use std::alloc::{AllocError, Global};

/// How an argument is given.
#[derive(Clone, Copy)]
pub enum Form<'a> {
    /// A word that must be there.
    Word,
    /// The same, which help shows by another name.
    Shown(&'a str),
    /// `[--name VALUE]`; help shows the value by its name.
    Valued(&'a str),
    /// `--name VALUE`, which must be there.
    Needed(&'a str),
    /// `[--name]`, without a value.
    Flag,
}

/// An argument: its name, how it is given, and its text of help.
#[derive(Clone, Copy)]
pub struct Argument<'a> {
    pub name: &'a str,
    pub form: Form<'a>,
    pub help: &'a str,
}

/// The command with these arguments behind its own.
pub fn with_arguments<'a>(
    alloc: Global,
    command: Command<'a>,
    arguments: &[Argument<'a>],
) -> Result<Command<'a>, AllocError>
    ensures app { IfOk result (λ more. app_of more ≡ with_rules (app_of command.entry) (map rule_for arguments.now)) }
    ensures local { IfOk result (λ more. (out-Command more).has_globals ≡ (out-Command command.entry).has_globals) }
{
    let mut command = command;
    'arguments: for argument in arguments {
        command = command.arg(argument_of(alloc, argument))?;
    }
    Ok(command)
}

// The argument as the parser has it.
fn argument_of<'a>(alloc: Global, argument: &Argument<'a>) -> Arg<'a>
    ensures rule { rule_of result ≡ rule_for argument.now }
    ensures local { result.global ≡ false }
{
    let name = argument.name;
    match argument.form {
        Form::Word => word(alloc, name, argument.help),
        Form::Shown(shown) => word(alloc, name, argument.help).value_name(shown),
        Form::Valued(value) => option(alloc, name, value, argument.help),
        Form::Needed(value) => option(alloc, name, value, argument.help).required(true),
        Form::Flag => flag(alloc, name, argument.help),
    }
}

fn word<'a>(alloc: Global, name: &'a str, help: &'a str) -> Arg<'a>
    ensures rule { rule_of result ≡ plain_rule name.entry.now }
    ensures local { result.global ≡ false }
{
    Arg::new(alloc, name).required(true).help(help)
}

// A flag: an option without a value.
fn flag<'a>(alloc: Global, name: &'a str, help: &'a str) -> Arg<'a>
    ensures rule { rule_of result ≡ flag_rule name.entry.now }
    ensures local { result.global ≡ false }
{
    Arg::new(alloc, name)
        .long(name)
        .action(ArgAction::SetTrue)
        .help(help)
}

fn option<'a>(alloc: Global, name: &'a str, value: &'a str, help: &'a str) -> Arg<'a>
    ensures rule { rule_of result ≡ option_rule name.entry.now }
    ensures local { result.global ≡ false }
{
    Arg::new(alloc, name)
        .long(name)
        .value_name(value)
        .help(help)
}
