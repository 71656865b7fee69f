//! What is asked for.
ghost use Rattle.ask_words.specs.Asking.{are_questions, asked_by, asked_with, is_of_options};
ghost use Rattle.ask_words.specs.Asking.{is_option, with_form, with_option, with_steps};
ghost use Rattle.ask_words.specs.Asking.{with_steps_word};
ghost use Rattle.std.specs.Prelude.{◌≡◌, ◌+◌, ◌<◌, ◌≤◌, drop, length, map, string_bytes, IfSome};
ghost use Rattle.pota_base.specs.Limits.{most_questions};

use log_input::Form;
use pota_base::number_at;

/// What the words ask for.
#[derive(Clone, Copy, Debug, PartialEq, Eq)]
pub struct Asked {
    pub form: Form,
    /// How many steps of each process are shown of a witness.
    pub steps: u32,
    /// The words from this one on, counted from 0, are the questions.
    pub questions_from: usize,
}

pub use pota_base::MOST_QUESTIONS;

/// How many steps are shown where nothing is said of it.
const USUAL_STEPS: u32 = 5;

// What the options say that were read so far.
#[derive(Clone, Copy, Debug, PartialEq, Eq)]
pub struct Options {
    pub form: Form,
    pub steps: Option<u32>,
    /// Whether the next word is the number of steps.
    pub waits: bool,
}

// Whether a word begins with `--`, as no question does.
fn is_option(word: &[u8]) -> bool
    ensures { result ≡ is_option word.now }
{
    match word {
        [b'-', b'-', ..] => true,
        _ => false,
    }
}

// Whether a word is one of the options: it begins as they do, or is the number of steps.
fn is_of_options(options: Options, word: &[u8]) -> bool
    ensures { result ≡ is_of_options options word.now }
{
    options.waits || is_option(word)
}

// Another form is asked for once at most.
fn with_form(options: Options, form: Form) -> Option<Options>
    ensures { result ≡ with_form options form }
{
    match options.form {
        Form::OneLog => Some(Options { form, ..options }),
        Form::Merged | Form::Clocks => None,
    }
}

// And so is a number of steps, which is the next word.
fn with_steps_word(options: Options) -> Option<Options>
    ensures { result ≡ with_steps_word options }
{
    match options.steps {
        None => Some(Options {
            waits: true,
            ..options
        }),
        Some(_) => None,
    }
}

// The word as the number of steps.
fn with_steps(options: Options, word: &[u8]) -> Option<Options>
    ensures { result ≡ with_steps options word.now }
{
    match number_at(u64::from(u32::MAX), word) {
        Some((steps, [])) => Some(Options {
            steps: Some(steps as u32),
            waits: false,
            ..options
        }),
        _ => None,
    }
}

// By one word more before the questions.
fn with_option(options: Options, word: &[u8]) -> Option<Options>
    ensures { result ≡ with_option options word.now }
{
    if options.waits {
        with_steps(options, word)
    } else if word == b"--merged".as_slice() {
        with_form(options, Form::Merged)
    } else if word == b"--vclog".as_slice() {
        with_form(options, Form::Clocks)
    } else if word == b"--steps".as_slice() {
        with_steps_word(options)
    } else {
        None
    }
}

// Whether the words are questions: not too many, and none of them an option.
fn are_questions(words: &[String]) -> bool
    ensures { result ≡ are_questions (map string_bytes words.now) }
{
    for word in words {
        if is_option(word.as_bytes()) {
            return false;
        }
    }
    words.len() <= MOST_QUESTIONS
}

// With the questions from that word on.
fn asked_with(options: Options, from: usize, words: &[String]) -> Option<Asked>
    requires { from < length words.now }
    ensures asked { result ≡ asked_with options from (map string_bytes (drop from words.now)) }
    ensures from { IfSome result (λ asked. asked.questions_from ≡ from) }
    ensures few { IfSome result (λ asked. length words.now ≤ from + most_questions) }
{
    if !are_questions(&words[from..]) {
        return None;
    }
    Some(Asked {
        form: options.form,
        steps: options.steps.unwrap_or(USUAL_STEPS),
        questions_from: from,
    })
}

/// What the words ask for: options first, then 1 to 64 questions.
pub fn asked_by(words: &[String]) -> Option<Asked>
    ensures asked { result ≡ asked_by (map string_bytes words.now) }
    ensures some { IfSome result (λ asked. asked.questions_from < length words.now) }
    ensures few { IfSome result
        (λ asked. length words.now ≤ asked.questions_from + most_questions) }
{
    let mut options = Options {
        form: Form::OneLog,
        steps: None,
        waits: false,
    };
    for i in 0..words.len() {
        let word = words[i].as_bytes();
        if !is_of_options(options, word) {
            return asked_with(options, i, words);
        }
        match with_option(options, word) {
            Some(next) => options = next,
            None => return None,
        }
    }
    None
}
