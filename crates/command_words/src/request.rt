//! What the words ask for.
ghost use Rattle.std.specs.Prelude.{◌≡◌, IfOk, IfErr, Some, List, option_map, map};
ghost use Rattle.std.specs.String.{string_bytes};
ghost use Rattle.clap.specs.Words.{found_of, kind_of, rows_of};
ghost use Rattle.command_words.specs.ByClap.{values_in};
ghost use Rattle.command_words.specs.Request.{values_of, has_sizes, has_flags, form_of, check_of};
ghost use Rattle.command_words.specs.Request.{certify_of, bench_of, task_of, wanted, request_of};
ghost use Rattle.command_words.specs.Rule.{Given, given};
ghost use Rattle.command_words.specs.Seen.{request_seen};
ghost use Rattle.command_words.specs.inside.Seen.{values_seen};

use crate::command::command;
use crate::numbers::{sizes, workers};
use crate::reading::are_in_form;
use crate::values::{TextValues, values_in};
use call_options::{Shown, Sizes};
use clap::error::ErrorKind;
use clap::{ArgMatches, Error};
use pota_base::NoMemory;
use std::alloc::Global;

/// How an input is read as a log.
#[derive(Clone, Copy, Debug, PartialEq, Eq)]
pub enum Form {
    /// As the text of one log.
    Text,
    /// As records of two lines, of which the first has a vector clock.
    Clocks,
    /// As the texts of several logs one behind another, which are merged.
    Merged,
}

/// Which reports on a log are asked for.
#[derive(Clone, Copy, Debug, PartialEq, Eq)]
pub struct Reporting {
    pub shown: Shown,
    /// A report for each batch, and not for the last one alone.
    pub each_batch: bool,
}

/// What is written of a log that is read.
#[derive(Clone, Copy, Debug, PartialEq, Eq)]
pub enum Product {
    /// Reports on it.
    Reports(Reporting),
    /// The certificate of the formula's truth.
    Certificate,
}

/// What is asked of an input.
#[derive(Clone, Copy, Debug, PartialEq, Eq)]
pub struct Inquiry {
    pub form: Form,
    pub product: Product,
}

/// A command with what belongs to it.
#[derive(Clone, Copy, Debug, PartialEq, Eq)]
pub enum Task {
    /// Judge the log that is read.
    Read(Inquiry),
    /// Judge a log that is made from a number.
    Bench(Sizes),
}

/// What the words ask for.
#[derive(Clone, Copy, Debug)]
pub struct Request<'a> {
    /// The formula as it was given.
    pub formula: &'a str,
    /// 1 to 16 workers.
    pub workers: u32,
    pub task: Task,
}

// Whether an option stands that sizes the log of a bench.
fn has_sizes(values: &TextValues<'_>) -> bool
    ensures { result ≡ has_sizes (values_seen values.now) }
{
    values.seed.is_some() || values.procs.is_some() || values.events.is_some()
}

// Whether a flag stands.
fn has_flags(values: &TextValues<'_>) -> bool
    ensures { result ≡ has_flags (values_seen values.now) }
{
    values.slice || values.witness || values.each_batch || values.vclog || values.merged
}

// How the input is read. Several logs have no records of two lines, and no reports batch by batch.
fn form_of(values: &TextValues<'_>) -> Option<Form>
    ensures { result ≡ form_of (values_seen values.now) }
{
    if values.merged {
        if values.vclog || values.each_batch {
            None
        } else {
            Some(Form::Merged)
        }
    } else if values.vclog {
        Some(Form::Clocks)
    } else {
        Some(Form::Text)
    }
}

fn check_task(values: &TextValues<'_>) -> Option<Task>
    ensures { result ≡ check_of (values_seen values.now) }
{
    if has_sizes(values) {
        return None;
    }
    let form = form_of(values)?;
    let shown = Shown {
        slice: values.slice,
        witness: values.witness,
    };
    let reporting = Reporting {
        shown,
        each_batch: values.each_batch,
    };
    Some(Task::Read(Inquiry {
        form,
        product: Product::Reports(reporting),
    }))
}

fn certify_task(values: &TextValues<'_>) -> Option<Task>
    ensures { result ≡ certify_of (values_seen values.now) }
{
    if has_sizes(values) || has_flags(values) {
        return None;
    }
    Some(Task::Read(Inquiry {
        form: Form::Text,
        product: Product::Certificate,
    }))
}

fn bench_task(values: &TextValues<'_>) -> Option<Task>
    ensures { result ≡ bench_of (values_seen values.now) }
{
    if has_flags(values) {
        return None;
    }
    let sizes = sizes(values.seed, values.procs, values.events)?;
    Some(Task::Bench(sizes))
}

// A command more is a line here.
fn task_named(command: &str, values: &TextValues<'_>) -> Option<Task>
    ensures { result ≡ task_of command.now (values_seen values.now) }
{
    if command == "check" {
        check_task(values)
    } else if command == "bench" {
        bench_task(values)
    } else if command == "certify" {
        certify_task(values)
    } else {
        None
    }
}

fn wanted<'a>(values: &TextValues<'a>) -> Option<Request<'a>>
    ensures { option_map request_seen result ≡ wanted (values_seen values.now) }
{
    let command = values.command?;
    let formula = values.formula?;
    let task = task_named(command, values)?;
    let workers = workers(values.workers)?;
    Some(Request {
        formula,
        workers,
        task,
    })
}

// What `clap` finds in the words. On words of the rule it fails only for want of memory.
fn matches<'a>(alloc: Global, words: &'a [String]) -> Result<ArgMatches<'a>, Error>
    ensures values { IfOk result (λ m. (g : Given)
        → given (map string_bytes words.entry.now) ≡ Some g
        → values_in (rows_of (found_of m)) ≡ values_of g) }
    ensures memory { IfErr result (λ e. (g : Given)
        → given (map string_bytes words.entry.now) ≡ Some g
        → kind_of e ≡ ErrorKind.OutOfMemory) }
{
    command(alloc)?.try_get_matches_from(words)
}

/// What the words ask for, and `None` exactly where they are refused.
pub fn read_request<'a>(alloc: Global, words: &'a [String]) -> Result<Option<Request<'a>>, NoMemory>
    ensures { IfOk result (λ found.
        option_map request_seen found ≡ request_of (map string_bytes words.entry.now)) }
{
    if !are_in_form(alloc, words)? {
        return Ok(None);
    }
    match matches(alloc, words) {
        Ok(matches) => Ok(wanted(&values_in(&matches))),
        Err(_) => Err(NoMemory),
    }
}
