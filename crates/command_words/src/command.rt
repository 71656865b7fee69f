//! The command as `clap` is told of it.
ghost use Rattle.std.specs.Prelude.{◌≡◌, IfOk, false, Some, codes};
ghost use Rattle.clap.specs.Words.{rule_of, app_of, with_rule};
ghost use Rattle.command_words.specs.ByClap.{place, option_named, flag_named, with_all, places};
ghost use Rattle.command_words.specs.ByClap.{bare_app, pota_app};
ghost use Rattle.command_words.specs.Rule.{options, flags};

use clap::{Arg, ArgAction, Command};
use std::alloc::{AllocError, Global};

// A required positional.
fn place<'a>(alloc: Global, name: &'a str) -> Arg<'a>
    ensures rule { rule_of result ≡ place name.entry.now }
    ensures local { result.global ≡ false }
{
    Arg::new(alloc, name).required(true)
}

// An option with one value.
fn option_named<'a>(alloc: Global, name: &'a str) -> Arg<'a>
    ensures rule { rule_of result ≡ option_named name.entry.now }
    ensures local { result.global ≡ false }
{
    Arg::new(alloc, name).long(name)
}

// A flag.
fn flag_named<'a>(alloc: Global, name: &'a str) -> Arg<'a>
    ensures rule { rule_of result ≡ flag_named name.entry.now }
    ensures local { result.global ≡ false }
{
    Arg::new(alloc, name).long(name).action(ArgAction::SetTrue)
}

fn with_place<'a>(
    alloc: Global,
    command: Command<'a>,
    name: &'a str,
) -> Result<Command<'a>, AllocError>
    ensures { IfOk result (λ added.
        app_of added ≡ with_rule (app_of command.entry) (place name.entry.now)) }
{
    command.arg(place(alloc, name))
}

fn with_option<'a>(
    alloc: Global,
    command: Command<'a>,
    name: &'a str,
) -> Result<Command<'a>, AllocError>
    ensures { IfOk result (λ added.
        app_of added ≡ with_rule (app_of command.entry) (option_named name.entry.now)) }
{
    command.arg(option_named(alloc, name))
}

fn with_flag<'a>(
    alloc: Global,
    command: Command<'a>,
    name: &'a str,
) -> Result<Command<'a>, AllocError>
    ensures { IfOk result (λ added.
        app_of added ≡ with_rule (app_of command.entry) (flag_named name.entry.now)) }
{
    command.arg(flag_named(alloc, name))
}

// The words come without the program's name, and `clap` adds no flag of its own.
fn bare<'a>(alloc: Global) -> Command<'a>
    ensures { app_of result ≡ bare_app }
{
    Command::new(alloc, "pota")
        .no_binary_name(true)
        .disable_help_flag(true)
        .disable_version_flag(true)
}

fn with_places<'a>(alloc: Global) -> Result<Command<'a>, AllocError>
    ensures { IfOk result (λ c. app_of c ≡ with_all place places bare_app) }
{
    let command = with_place(alloc, bare(alloc), "command")?;
    with_place(alloc, command, "formula")
}

// An option more is a line here.
fn with_options<'a>(alloc: Global, command: Command<'a>) -> Result<Command<'a>, AllocError>
    ensures { IfOk result (λ c.
        app_of c ≡ with_all option_named options (app_of command.entry)) }
{
    let command = with_option(alloc, command, "workers")?;
    let command = with_option(alloc, command, "seed")?;
    let command = with_option(alloc, command, "procs")?;
    with_option(alloc, command, "events")
}

// A flag more is a line here.
fn with_flags<'a>(alloc: Global, command: Command<'a>) -> Result<Command<'a>, AllocError>
    ensures { IfOk result (λ c.
        app_of c ≡ with_all flag_named flags (app_of command.entry)) }
{
    let command = with_flag(alloc, command, "slice")?;
    let command = with_flag(alloc, command, "witness")?;
    let command = with_flag(alloc, command, "each-batch")?;
    let command = with_flag(alloc, command, "vclog")?;
    with_flag(alloc, command, "merged")
}

/// The command with all its arguments.
pub fn command<'a>(alloc: Global) -> Result<Command<'a>, AllocError>
    ensures { IfOk result (λ c. app_of c ≡ pota_app) }
{
    let command = with_places(alloc)?;
    let command = with_options(alloc, command)?;
    with_flags(alloc, command)
}
