//! The subcommands that `clap` is asked about.

ghost use Rattle.std.specs.Prelude.{◌≡◌, [], ◌∷◌, IfOk, false, codes};
ghost use Rattle.pc_words.specs.CommandLine.{certificate, domain, subcommand, first, second};
ghost use Rattle.pc_words.specs.Building.{IsSubcommand};
ghost use Rattle.clap.specs.Words.{app_of, rule_of};
ghost use Rattle.clap.specs.declared.builder.Command.TheViews.{out-Command as fields_of};

use crate::arguments::{
    certificate_arg, certificate_file_arg, domain_arg, loops_arg, script_arg, source_arg,
};
use crate::help;
use clap::{Arg, Command};
use std::alloc::{AllocError, Global};

/// `infer FILE [--certificate]`.
pub(crate) fn infer<'a>(alloc: Global) -> Result<Command<'a>, AllocError>
    ensures { IfOk result (λ c. IsSubcommand c (subcommand (codes "infer") (first ∷ certificate ∷ []))) }
{
    let command = of_one(alloc, "infer", source_arg(alloc))?.arg(certificate_arg(alloc))?;
    Ok(told(command, help::INFER, help::INFER_BELOW))
}

/// `replay FILE CERTIFICATE`.
pub(crate) fn replay<'a>(alloc: Global) -> Result<Command<'a>, AllocError>
    ensures { IfOk result (λ c. IsSubcommand c (subcommand (codes "replay") (first ∷ second ∷ []))) }
{
    let command = of_one(alloc, "replay", source_arg(alloc))?.arg(certificate_file_arg(alloc))?;
    Ok(told(command, help::REPLAY, help::REPLAY_BELOW))
}

/// `run FILE SCRIPT`.
pub(crate) fn run<'a>(alloc: Global) -> Result<Command<'a>, AllocError>
    ensures { IfOk result (λ c. IsSubcommand c (subcommand (codes "run") (first ∷ second ∷ []))) }
{
    let command = of_one(alloc, "run", source_arg(alloc))?.arg(script_arg(alloc))?;
    Ok(told(command, help::RUN, help::RUN_BELOW))
}

/// `breach FILE SCRIPT`.
pub(crate) fn breach<'a>(alloc: Global) -> Result<Command<'a>, AllocError>
    ensures { IfOk result (λ c. IsSubcommand c (subcommand (codes "breach") (first ∷ second ∷ []))) }
{
    let command = of_one(alloc, "breach", source_arg(alloc))?.arg(script_arg(alloc))?;
    Ok(told(command, help::BREACH, help::BREACH_BELOW))
}

/// `facts FILE --domain DOMAIN`.
pub(crate) fn facts<'a>(alloc: Global) -> Result<Command<'a>, AllocError>
    ensures { IfOk result (λ c. IsSubcommand c (subcommand (codes "facts") (first ∷ domain ∷ []))) }
{
    let command = of_one(alloc, "facts", source_arg(alloc))?.arg(domain_arg(
        alloc,
        help::FACTS_DOMAIN,
    ))?;
    Ok(told(command, help::FACTS, help::FACTS_BELOW))
}

/// `quick FILE --domain DOMAIN`.
pub(crate) fn quick<'a>(alloc: Global) -> Result<Command<'a>, AllocError>
    ensures { IfOk result (λ c. IsSubcommand c (subcommand (codes "quick") (first ∷ domain ∷ []))) }
{
    let command = of_one(alloc, "quick", source_arg(alloc))?.arg(domain_arg(
        alloc,
        help::QUICK_DOMAIN,
    ))?;
    Ok(told(command, help::QUICK, help::QUICK_BELOW))
}

/// `show FILE`.
pub(crate) fn show<'a>(alloc: Global) -> Result<Command<'a>, AllocError>
    ensures { IfOk result (λ c. IsSubcommand c (subcommand (codes "show") (first ∷ []))) }
{
    let command = of_one(alloc, "show", source_arg(alloc))?;
    Ok(told(command, help::SHOW, help::SHOW_BELOW))
}

/// `trial N`.
pub(crate) fn trial<'a>(alloc: Global) -> Result<Command<'a>, AllocError>
    ensures { IfOk result (λ c. IsSubcommand c (subcommand (codes "trial") (first ∷ []))) }
{
    let command = of_one(alloc, "trial", loops_arg(alloc))?;
    Ok(told(command, help::TRIAL, help::TRIAL_BELOW))
}

/// A subcommand with one argument.
fn of_one<'a>(alloc: Global, name: &'a str, arg: Arg<'a>) -> Result<Command<'a>, AllocError>
    requires { arg.global ≡ false }
    ensures { IfOk result (λ c. IsSubcommand c (subcommand name.entry.now (rule_of arg.entry ∷ []))) }
{
    Command::new(alloc, name).arg(arg)
}

/// The command with these texts in its help.
fn told<'a>(command: Command<'a>, about: &'a str, below: &'a str) -> Command<'a>
    ensures app { app_of result ≡ app_of command.entry }
    ensures globals { (fields_of result).has_globals ≡ (fields_of command.entry).has_globals }
{
    command.about(about).after_help(below)
}
