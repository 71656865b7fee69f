// The meaning of formulas over one run of a distributed program: the definitions in specs/, and the
// laws that runs are read by. Each function here is a law and does nothing.
//
// Promised: what a trace's events give is a run (`traces_are_runs`), its states are those of its
// events (`states_by_events`), and watches go by their answers (`watches_by_their_answers`).
// What follows for cuts, slices, operators and formulas stands in `meaning_laws`, with the examples
// worked by hand that stand against a wrong definition.
//
// Not said: that a log's clocks state what happened, and anything of AF, AX and until.
#![tactic(auto)]

pub mod run_laws;
