// What a formula is told of the log that `one_log` read, and of the log that it wrote, where the
// words had neither `--torn` nor `--keep` (`the_same_is_answered`).
//
// Whatever the formula asks, the text that is due of what was written is the text that is due of
// what was read, but for the line of the batch. Where the batches stay as they were, the texts are
// the same outright, those after each batch among them. A fault is due of both or of neither.
//
// Not said here: that both faults stand at one place, since the lines of the two texts differ; and
// what a certificate of the formula has.
#![tactic(auto)]

ghost use Rattle.same_answers.specs.Laws.{TheSameIsAnswered};

/// A formula is answered of the text that was written as of the input that was read.
pub fn the_same_is_answered()
    ensures { TheSameIsAnswered }
{}
