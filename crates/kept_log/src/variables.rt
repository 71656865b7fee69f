//! The variables that are kept, and their assignments.
ghost use Rattle.std.specs.Prelude.{◌≡◌, ◌++◌, IfOk};
ghost use Rattle.kept_runs.specs.Chosen.{chosen};
ghost use Rattle.kept_log.specs.inside.Numbered.{is_kept_variable, assigns_by, vars_by, header_by};
ghost use Rattle.kept_log.specs.inside.Numbered.{chosen_one};

use crate::numbers::Numbers;
use event_log::{Assign, Binding, Copies, Header, copy_of};
use pota_base::{List, NoMemory};
use std::alloc::Global;

/// Of these assignments of a process those of kept variables, by the numbers that these get.
#[tactic(auto, using(crate::proofs::Steps::assign_more, crate::proofs::Steps::assign_same))]
pub fn assigns_by(
    alloc: Global,
    numbers: &Numbers,
    process: u32,
    assigns: &[Assign],
) -> Result<List<Assign>, NoMemory>
    ensures { IfOk result (λ kept. kept ≡ assigns_by numbers.now process assigns.now) }
{
    let mut kept = List::new(alloc);
    for assign in assigns {
        if numbers.keeps(process as usize, assign.variable as usize) {
            kept.push(Assign {
                variable: numbers.new_number(process as usize, assign.variable),
                value: assign.value,
            })?;
        }
    }
    Ok(kept)
}

// With this variable of a process behind those before it, where it is kept.
#[tactic(auto, using(crate::proofs::Steps::is_chosen, crate::proofs::Steps::is_not_chosen))]
fn with_binding(
    alloc: Global,
    mut kept: List<Binding>,
    binding: &Binding,
    is_kept: bool,
) -> Result<List<Binding>, NoMemory>
    ensures { IfOk result (λ all. all ≡ kept ++ chosen_one is_kept binding.now) }
{
    if !is_kept {
        return Ok(kept);
    }
    let copy = binding.copied(alloc)?;
    kept.push(copy)?;
    Ok(kept)
}

// The kept variables of a process.
#[tactic(auto, using(crate::proofs::Steps::chosen_empty))]
fn bindings_by(
    alloc: Global,
    numbers: &Numbers,
    process: usize,
    bindings: &[Binding],
) -> Result<List<Binding>, NoMemory>
    ensures { IfOk result (λ kept. kept
        ≡ chosen (is_kept_variable numbers.now process) bindings.now) }
{
    let mut kept = List::new(alloc);
    for variable in 0..bindings.len() {
        let is_kept = numbers.keeps(process, variable);
        kept = with_binding(alloc, kept, &bindings[variable], is_kept)?;
    }
    Ok(kept)
}

#[tactic(auto, using(crate::proofs::Steps::vars_next, crate::proofs::Steps::vars_empty))]
fn vars_by(
    alloc: Global,
    numbers: &Numbers,
    vars: &[List<Binding>],
) -> Result<List<List<Binding>>, NoMemory>
    ensures { IfOk result (λ kept. kept ≡ vars_by numbers.now 0 vars.now) }
{
    let mut kept = List::with_capacity(alloc, vars.len())?;
    for process in 0..vars.len() {
        let bindings = bindings_by(alloc, numbers, process, vars[process].as_slice())?;
        kept.push(bindings)?;
    }
    Ok(kept)
}

/// The header with the kept variables alone.
pub fn header_by(alloc: Global, numbers: &Numbers, header: &Header) -> Result<Header, NoMemory>
    ensures { IfOk result (λ kept. kept ≡ header_by numbers.now header.now) }
{
    let mut var_lines = List::with_capacity(alloc, header.var_lines.len())?;
    var_lines.extend_from_slice(header.var_lines.as_slice())?;
    Ok(Header {
        version: header.version,
        procs: copy_of(alloc, header.procs.as_slice())?,
        vars: vars_by(alloc, numbers, header.vars.as_slice())?,
        var_lines,
    })
}
