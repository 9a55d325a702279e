//! The arguments of the subcommands.

ghost use Rattle.pc_words.specs.CommandLine.{positional, certificate, domain, first, second};
ghost use Rattle.pc_words.specs.Building.{IsArg};

use crate::help;
use clap::{Arg, ArgAction};
use std::alloc::Global;

/// The file of a source.
pub(crate) fn source_arg<'a>(alloc: Global) -> Arg<'a>
    ensures { IsArg result first }
{
    positional_arg(alloc, "first", "FILE").help(help::SOURCE_FILE)
}

/// The file of a certificate, behind that of a source.
pub(crate) fn certificate_file_arg<'a>(alloc: Global) -> Arg<'a>
    ensures { IsArg result second }
{
    positional_arg(alloc, "second", "CERTIFICATE").help(help::CERTIFICATE_FILE)
}

/// The file of a script, behind that of a source.
pub(crate) fn script_arg<'a>(alloc: Global) -> Arg<'a>
    ensures { IsArg result second }
{
    positional_arg(alloc, "second", "SCRIPT").help(help::SCRIPT_FILE)
}

/// A number of loops.
pub(crate) fn loops_arg<'a>(alloc: Global) -> Arg<'a>
    ensures { IsArg result first }
{
    positional_arg(alloc, "first", "N").help(help::LOOPS)
}

/// `--certificate`.
pub(crate) fn certificate_arg<'a>(alloc: Global) -> Arg<'a>
    ensures { IsArg result certificate }
{
    Arg::new(alloc, "certificate")
        .long("certificate")
        .action(ArgAction::SetTrue)
        .help(help::CERTIFICATE)
}

/// `--domain DOMAIN`.
pub(crate) fn domain_arg<'a>(alloc: Global, help: &'a str) -> Arg<'a>
    ensures { IsArg result domain }
{
    Arg::new(alloc, "domain")
        .long("domain")
        .required(true)
        .value_name("DOMAIN")
        .help(help)
}

/// A required positional argument.
fn positional_arg<'a>(alloc: Global, id: &'a str, value: &'a str) -> Arg<'a>
    ensures { IsArg result (positional id.entry.now) }
{
    Arg::new(alloc, id).required(true).value_name(value)
}
