// What a run is asked: the words of the command line with the formula that they give.
//
// `read_question` gives the question, or exactly the first fault: the words, then the formula's
// text, then its class. `words_ask_one_thing` says that words have one question or one fault.
//
// Not said here: whether a log has the names of the formula, and that memory suffices.
#![tactic(auto)]

mod laws;
mod question;

pub use laws::words_ask_one_thing;
pub use question::{Question, QuestionFault, read_question};
