// What the report of a run says, in the words of the model: `IsReportOf` of `specs/Reports.antt`
// gives its number, names, lengths, formula and verdict, the slice of the set that is shown, and
// the canonical witnesses. `one_report` says that there is one such report at most.
#![tactic(auto)]

pub mod report_laws;
