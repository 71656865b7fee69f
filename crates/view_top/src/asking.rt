//! Which view is asked for.
ghost use Rattle.std.specs.Prelude.{◌≡◌, map, string_bytes};
ghost use Rattle.view_top.specs.Asking.{limit_named, extent_asked, view_asked};

use pota_base::number_at;
use view_parts::Extent;

/// A view of a run.
#[derive(Clone, Copy, Debug, PartialEq, Eq)]
pub enum View {
    /// Text for a terminal, with so many of the steps of its witnesses.
    Text(Extent),
    /// One SVG image, with so many of the events of its run.
    Svg(Extent),
}

// How many steps or events of each process the word asks for.
fn limit_named(word: &str) -> Option<Extent>
    ensures { result ≡ limit_named word.now }
{
    match number_at(u64::from(u32::MAX), word.as_bytes()) {
        Some((limit, [])) => Some(Extent::Last(limit as u32)),
        _ => None,
    }
}

// How much the words ask for: none of them, `--all`, or `--last` and a number.
fn extent_asked(words: &[String]) -> Option<Extent>
    ensures { result ≡ extent_asked (map string_bytes words.now) }
{
    match words {
        [] => Some(Extent::Folded),
        [word] if word.as_str() == "--all" => Some(Extent::Whole),
        [word, limit] if word.as_str() == "--last" => limit_named(limit.as_str()),
        _ => None,
    }
}

/// The view that the words ask for: its name, and behind it how much is shown.
pub fn view_asked(words: &[String]) -> Option<View>
    ensures { result ≡ view_asked (map string_bytes words.now) }
{
    match words {
        [word, rest @ ..] if word.as_str() == "svg" => match extent_asked(rest) {
            Some(extent) => Some(View::Svg(extent)),
            None => None,
        },
        [word, rest @ ..] if word.as_str() == "text" => match extent_asked(rest) {
            Some(extent) => Some(View::Text(extent)),
            None => None,
        },
        _ => None,
    }
}
