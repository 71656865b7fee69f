//! The values that `clap` gives.
ghost use Rattle.std.specs.Prelude.{◌≡◌, option_map};
ghost use Rattle.clap.specs.Words.{first_of, rows_of, found_of};
ghost use Rattle.command_words.specs.ByClap.{values_in, from_words, stands_in};
ghost use Rattle.command_words.specs.inside.Seen.{text_seen, values_seen};

use clap::ArgMatches;
use clap::parser::ValueSource;

/// The values of the positionals and options, as texts, and which flags stand.
#[derive(Clone, Copy, Debug)]
pub struct TextValues<'a> {
    pub command: Option<&'a str>,
    pub formula: Option<&'a str>,
    pub workers: Option<&'a str>,
    pub seed: Option<&'a str>,
    pub procs: Option<&'a str>,
    pub events: Option<&'a str>,
    pub slice: bool,
    pub witness: bool,
    pub each_batch: bool,
    pub vclog: bool,
    pub merged: bool,
}

// The value of an option or a positional.
fn value<'a>(matches: &ArgMatches<'a>, name: &str) -> Option<&'a str>
    ensures { text_seen result ≡ first_of name.now (rows_of (found_of matches.now)) }
{
    matches.get_str(name)
}

fn is_from_words(source: Option<ValueSource>) -> bool
    ensures { result ≡ from_words source }
{
    match source {
        Some(ValueSource::CommandLine) => true,
        Some(ValueSource::DefaultValue) => false,
        None => false,
    }
}

// Whether a flag stands among the words: then its value is not the default.
fn stands(matches: &ArgMatches<'_>, name: &str) -> bool
    ensures { result ≡ stands_in name.now (rows_of (found_of matches.now)) }
{
    is_from_words(matches.value_source(name))
}

/// What `clap` found.
pub fn values_in<'a>(matches: &ArgMatches<'a>) -> TextValues<'a>
    ensures { values_seen result ≡ values_in (rows_of (found_of matches.now)) }
{
    TextValues {
        command: value(matches, "command"),
        formula: value(matches, "formula"),
        workers: value(matches, "workers"),
        seed: value(matches, "seed"),
        procs: value(matches, "procs"),
        events: value(matches, "events"),
        slice: stands(matches, "slice"),
        witness: stands(matches, "witness"),
        each_batch: stands(matches, "each-batch"),
        vclog: stands(matches, "vclog"),
        merged: stands(matches, "merged"),
    }
}
