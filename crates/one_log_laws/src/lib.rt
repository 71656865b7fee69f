// What is written of an input by `one_log`, and what it says of the input.
//
// It has no fault, written again it is the same bytes, and it is read as the log that was written
// (`what_is_written_stays`). Where all of it is asked for, its run is that of the log that was
// read, whatever the form and the batches (`the_same_run_is_written`): so a verdict, a slice, a
// witness or a certificate on it is one on the run that was logged. Of torn logs the log is one
// alone, and no greater beginning of the run is logged whole
// (`a_torn_log_is_the_greatest_beginning`). Where names are given, a formula of these names,
// without EX, is as true of the log that is written as of the one that was read
// (`formulas_stay_as_true`).
//
// Not said here: that a text is written. `one_log` says so.
#![tactic(auto)]

ghost use Rattle.one_log_laws.specs.Laws.{WrittenAgainItIsTheSame, ItIsReadAsItWasWritten};
ghost use Rattle.one_log_laws.specs.Laws.{ItTellsOfTheSameRun};
ghost use Rattle.one_log_laws.specs.Laws.{OneTextIsWritten, NoGreaterBeginningIsLogged};
ghost use Rattle.one_log_laws.specs.Laws.{FormulasStayAsTrue};

/// The text that is written of a log is the text of a log without a fault, written again it is the
/// same bytes, and reading it gives the run of the log that was written.
pub fn what_is_written_stays()
    ensures again { WrittenAgainItIsTheSame }
    ensures run { ItIsReadAsItWasWritten }
{}

/// The run of the log that is written is the run of the log that was read, in one batch or in those
/// in which it was read.
pub fn the_same_run_is_written()
    ensures { ItTellsOfTheSameRun }
{}

/// One text alone is written of an input, and of torn logs it is that of the greatest beginning of
/// the run that is logged whole.
pub fn a_torn_log_is_the_greatest_beginning()
    ensures one { OneTextIsWritten }
    ensures greatest { NoGreaterBeginningIsLogged }
{}

/// A formula of the names that are kept, without EX, is as true of the run that is written as of
/// the run that was read, cut by cut.
pub fn formulas_stay_as_true()
    ensures { FormulasStayAsTrue }
{}
