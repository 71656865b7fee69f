//! What a word is by its spelling.
ghost use Rattle.std.specs.Prelude.{◌≡◌};
ghost use Rattle.command_words.specs.Rule.{begins_dash, kind_of};
ghost use Rattle.command_words.specs.inside.Seen.{kind_seen};

/// What a word is where no option waits for its value.
#[derive(Clone, Copy, Debug)]
pub enum WordKind {
    /// An option, which takes the next word as its value.
    TakesValue(&'static str),
    /// A flag, which stands by itself.
    Flag(&'static str),
    /// It begins with a hyphen and is none of these.
    Unknown,
    /// The command or the formula.
    Positional,
}

/// Whether the word begins with a hyphen.
pub fn begins_dash(word: &str) -> bool
    ensures { result ≡ begins_dash word.now }
{
    match word.as_bytes() {
        [first, ..] => *first == b'-',
        [] => false,
    }
}

/// What the word stands for. An option or a flag more is a line here.
pub fn kind_of(word: &str) -> WordKind
    ensures { kind_seen result ≡ kind_of word.now }
{
    if word == "--workers" {
        WordKind::TakesValue("workers")
    } else if word == "--seed" {
        WordKind::TakesValue("seed")
    } else if word == "--procs" {
        WordKind::TakesValue("procs")
    } else if word == "--events" {
        WordKind::TakesValue("events")
    } else if word == "--slice" {
        WordKind::Flag("slice")
    } else if word == "--witness" {
        WordKind::Flag("witness")
    } else if word == "--each-batch" {
        WordKind::Flag("each-batch")
    } else if word == "--vclog" {
        WordKind::Flag("vclog")
    } else if word == "--merged" {
        WordKind::Flag("merged")
    } else if begins_dash(word) {
        WordKind::Unknown
    } else {
        WordKind::Positional
    }
}
