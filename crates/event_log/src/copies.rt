//! Copies of the parts of a header, in memory of their own.

ghost use Rattle.std.specs.Prelude.{◌≡◌, ◌≤◌, true, length, All, IfOk};
ghost use Rattle.pota_base.specs.Limits.{most_processes};
ghost use Rattle.log_lines.specs.PassedOn.{is_name};
ghost use Rattle.log_lines.specs.Drafts.{texts_of, values_of};
ghost use Rattle.event_log.specs.Before.{filled, bindings_of, var_lines_of};

use crate::log::Binding;
use log_lines::{Name, Setting};
use pota_base::{List, NoMemory};
use std::alloc::Global;

/// What can be copied where there is memory.
pub trait Copies: Drop {
    fn copied(&self, alloc: Global) -> Result<Self, NoMemory>
        ensures { IfOk result (λ copy. copy ≡ self.now) };
}

impl Copies for Name {
    fn copied(&self, alloc: Global) -> Result<Name, NoMemory> {
        self.copy(alloc)
    }
}

impl Copies for Binding {
    fn copied(&self, alloc: Global) -> Result<Binding, NoMemory> {
        let name = self.name.copy(alloc)?;
        Ok(Binding {
            name,
            value: self.value,
        })
    }
}

impl<T: Copies> Copies for List<T> {
    fn copied(&self, alloc: Global) -> Result<List<T>, NoMemory> {
        copy_of(alloc, self.as_slice())
    }
}

/// A list of copies of the items.
pub fn copy_of<T: Copies>(alloc: Global, items: &[T]) -> Result<List<T>, NoMemory>
    ensures { IfOk result (λ copies. copies ≡ items.now) }
{
    let mut copies = List::new(alloc);
    for item in items {
        let copy = item.copied(alloc)?;
        copies.push(copy)?;
    }
    Ok(copies)
}

/// The lists with empty ones behind them, so that there are `count` of them.
pub fn filled(
    alloc: Global,
    mut variables: List<List<Binding>>,
    count: usize,
) -> Result<List<List<Binding>>, NoMemory>
    ensures { IfOk result (λ lists. lists ≡ filled variables count) }
{
    'fill: while variables.len() < count {
        variables.push(List::new(alloc))?;
    }
    Ok(variables)
}

/// The lines of a log that spell these variables: those right behind its second line. A process
/// without variables has 0.
pub fn var_lines_of(alloc: Global, variables: &[List<Binding>]) -> Result<List<u32>, NoMemory>
    requires { length variables.now ≤ most_processes }
    ensures { IfOk result (λ lines. lines ≡ var_lines_of variables.now) }
{
    let mut lines = List::new(alloc);
    let mut next = 3;
    for bindings in variables {
        if bindings.is_empty() {
            lines.push(0)?;
        } else {
            lines.push(next)?;
            next += 1;
        }
    }
    Ok(lines)
}

/// The variables with their opening values, each with a name of its own.
pub fn bindings_of(alloc: Global, settings: &[Setting<'_>]) -> Result<List<Binding>, NoMemory>
    requires { All (λ s. is_name s.name.now ≡ true) settings.now }
    ensures { IfOk result (λ bindings. bindings ≡ bindings_of (values_of settings.now)) }
{
    let mut bindings = List::new(alloc);
    for setting in settings {
        let binding = binding_of(alloc, *setting)?;
        bindings.push(binding)?;
    }
    Ok(bindings)
}

fn binding_of(alloc: Global, setting: Setting<'_>) -> Result<Binding, NoMemory>
    requires { is_name setting.name.now ≡ true }
    ensures { IfOk result (λ b. b
        ≡ record { name = setting.entry.name.now; value = setting.entry.value }) }
{
    let name = name_of(alloc, setting.name)?;
    Ok(Binding {
        name,
        value: setting.value,
    })
}

/// The names, each in memory of its own.
pub fn names_of(alloc: Global, texts: &[&[u8]]) -> Result<List<Name>, NoMemory>
    requires { All (λ t. is_name t.now ≡ true) texts.now }
    ensures { IfOk result (λ names. names ≡ texts_of texts.now) }
{
    let mut names = List::new(alloc);
    for text in texts {
        let name = name_of(alloc, text)?;
        names.push(name)?;
    }
    Ok(names)
}

// The name of bytes that are one.
fn name_of(alloc: Global, bytes: &[u8]) -> Result<Name, NoMemory>
    requires { is_name bytes.now ≡ true }
    ensures { IfOk result (λ name. name ≡ bytes.now) }
{
    let name = Name::new(alloc, bytes)?;
    Ok(name.unwrap())
}
