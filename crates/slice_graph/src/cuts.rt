//! Cuts and the words of rows.
ghost use Rattle.std.specs.Prelude.{◌≡◌, ◌≤◌, ◌↔◌, length, IsTrue};
ghost use Rattle.run_model.specs.Cut.{IsWithin, max_cut};
ghost use Rattle.pota_base.specs.Limits.{most_processes};

use cut_lattice::Cut;

/// Whether each of the words is at most the count of its process.
pub fn is_within(words: &[u32], counts: &[u32]) -> bool
    requires { length words.now ≡ length counts.now }
    ensures { IsTrue result ↔ IsWithin words.now counts.now }
{
    for process in 0..counts.len() {
        if words[process] > counts[process] {
            return false;
        }
    }
    true
}

/// Makes `into` the componentwise maximum of the words and itself.
pub fn join_words(words: &[u32], into: &mut [u32])
    requires { length words.now ≡ length into.old }
    ensures { into.new ≡ max_cut words.now into.old }
{
    for process in 0..words.len() {
        into[process] = into[process].max(words[process]);
    }
}

/// Gives `into` the words as its counts.
pub fn set_words(words: &[u32], into: &mut Cut)
    requires width { length words.now ≡ length into.old }
    requires few { length words.now ≤ most_processes }
    ensures { into.new ≡ words.now }
{
    for process in 0..words.len() {
        into.set(process as u32, words[process]);
    }
}
