//! The command that `clap` is asked about.

ghost use Rattle.std.specs.Prelude.{◌≡◌, [], IfOk, false};
ghost use Rattle.pc_words.specs.CommandLine.{precond};
ghost use Rattle.pc_words.specs.Building.{with_subcommands, proving, with_script, with_domain};
ghost use Rattle.clap.specs.Words.{app_of, with_subcommand};
ghost use Rattle.clap.specs.declared.builder.Command.TheViews.{out-Command as fields_of};

use crate::help;
use crate::subcommands::{breach, facts, infer, quick, replay, run, show, trial};
use clap::Command;
use std::alloc::{AllocError, Global};

/// The command.
pub(crate) fn precond_command<'a>(alloc: Global) -> Result<Command<'a>, AllocError>
    ensures { IfOk result (λ c. app_of c ≡ precond) }
{
    let command = add_proving(alloc, empty_command(alloc)?)?;
    let command = add_scripts(alloc, command)?;
    let command = add_domains(alloc, command)?;
    add_others(alloc, command)
}

/// The command without its subcommands.
fn empty_command<'a>(alloc: Global) -> Result<Command<'a>, AllocError>
    ensures { IfOk result (λ c. app_of c ≡ with_subcommands []) }
{
    Command::new(alloc, "precond")
        .about(help::PRECOND)
        .after_help(help::BELOW)
        .no_binary_name(true)
        .subcommand_required(true)
        .bin_name("precond")
}

/// With the subcommands that prove and replay.
fn add_proving<'a>(alloc: Global, command: Command<'a>) -> Result<Command<'a>, AllocError>
    requires { app_of command ≡ with_subcommands [] }
    ensures { IfOk result (λ c. app_of c ≡ with_subcommands proving) }
{
    let command = add(command, infer(alloc)?)?;
    add(command, replay(alloc)?)
}

/// With the subcommands that take a script.
fn add_scripts<'a>(alloc: Global, command: Command<'a>) -> Result<Command<'a>, AllocError>
    requires { app_of command ≡ with_subcommands proving }
    ensures { IfOk result (λ c. app_of c ≡ with_subcommands with_script) }
{
    let command = add(command, run(alloc)?)?;
    add(command, breach(alloc)?)
}

/// With the subcommands that take a domain.
fn add_domains<'a>(alloc: Global, command: Command<'a>) -> Result<Command<'a>, AllocError>
    requires { app_of command ≡ with_subcommands with_script }
    ensures { IfOk result (λ c. app_of c ≡ with_subcommands with_domain) }
{
    let command = add(command, facts(alloc)?)?;
    add(command, quick(alloc)?)
}

/// With the other subcommands.
fn add_others<'a>(alloc: Global, command: Command<'a>) -> Result<Command<'a>, AllocError>
    requires { app_of command ≡ with_subcommands with_domain }
    ensures { IfOk result (λ c. app_of c ≡ precond) }
{
    let command = add(command, show(alloc)?)?;
    add(command, trial(alloc)?)
}

/// The command with one more subcommand.
fn add<'a>(command: Command<'a>, sub: Command<'a>) -> Result<Command<'a>, AllocError>
    requires { (fields_of sub).has_globals ≡ false }
    ensures { IfOk result (λ c. app_of c ≡ with_subcommand (app_of command.entry) (app_of sub.entry).top) }
{
    command.subcommand(sub)
}
