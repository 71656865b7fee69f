//! What the words ask.
ghost use Rattle.std.specs.Prelude.{◌≡◌, Some, MatchResult, ℕ, List, map};
ghost use Rattle.std.specs.String.{string_bytes};
ghost use Rattle.command_words.specs.Request.{request_of};
ghost use Rattle.command_words.specs.Seen.{request_seen};
ghost use Rattle.call_request.specs.Questions.{IsQuestion, IsQuestionFault, AreFaults};

use command_words::{Request, Task, read_request};
use pota_base::Refused;
use rctl_parse::FormulaFault;
use stated_formula::{Stated, read_formula};
use std::alloc::Global;

/// What the words ask for.
#[derive(Debug, Drop)]
pub struct Question {
    pub task: Task,
    /// 1 to 16 workers.
    pub workers: u32,
    pub stated: Stated,
}

/// Why the words ask for nothing that is analysed.
#[derive(Clone, Copy, Debug, PartialEq, Eq)]
pub enum QuestionFault {
    /// The words are refused.
    Usage,
    /// The formula's text has a fault, or the formula is outside the class.
    Formula(FormulaFault),
}

// The request with its formula read.
fn with_formula(alloc: Global, request: &Request<'_>) -> Result<Question, Refused<QuestionFault>>
    ensures { (words : List (List ℕ)) → request_of words ≡ Some (request_seen request.now)
        → MatchResult result (IsQuestion words) (λ stop. AreFaults stop (IsQuestionFault words)) }
{
    match read_formula(alloc, request.formula.as_bytes()) {
        Ok(stated) => Ok(Question {
            task: request.task,
            workers: request.workers,
            stated,
        }),
        Err(Refused::Fault(fault)) => Err(Refused::Fault(QuestionFault::Formula(fault))),
        Err(Refused::NoMemory) => Err(Refused::NoMemory),
    }
}

/// Reads the words of the command line, without the program's name. `Fault` is the first of these:
/// the words are refused, the formula's text is faulty, the formula is outside the class.
pub fn read_question(alloc: Global, words: &[String]) -> Result<Question, Refused<QuestionFault>>
    ensures { MatchResult result (IsQuestion (map string_bytes words.now))
        (λ stop. AreFaults stop (IsQuestionFault (map string_bytes words.now))) }
{
    match read_request(alloc, words) {
        Ok(Some(request)) => with_formula(alloc, &request),
        Ok(None) => Err(Refused::Fault(QuestionFault::Usage)),
        Err(_) => Err(Refused::NoMemory),
    }
}
