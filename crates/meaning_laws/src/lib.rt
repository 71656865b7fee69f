// Laws of the meaning of formulas over one run. The definitions stand in `run_model`; each function
// here is a law that stands over them, and does nothing.
//
// Promised: consistent cuts are closed under minimum and maximum (`consistent_cuts_are_closed`), a
// path leads from each to each that holds it (`paths_rise`); a closed set is that of its slice
// (`slice_of_a_closed_set`) and is denoted by its least cut, greatest cut and edges
// (`printed_text_denotes`); what EF, AG, EG and EX make of a closed set (`operator_laws`); truth is
// decided (`truth_is_decided`), the family of a regular formula is closed
// (`regular_families_are_closed`), the disjuncts mean the formula (`disjuncts_mean_the_formula`);
// the canonical witness is of its kind (`canonical_witness`). What stands against a wrong
// definition are `worked_laws`, examples worked by hand.
#![tactic(auto)]

pub mod formula_laws;
pub mod operator_laws;
pub mod order_laws;
pub mod slice_laws;
pub mod sublattice_laws;
pub mod witness_laws;
pub mod worked_laws;
