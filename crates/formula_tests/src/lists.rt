ghost use Rattle.asked_list.specs.Lists.{IsAskedList};
ghost use Rattle.std.specs.Prelude.{IfOk, IfSome};

use asked_list::{AskedList, AskedRange, ask_each};
use pota_base::{List, NoMemory, Refused};
use question_forms::read_question;
use question_meaning::Form;
use rctl_parts::Part;
use std::alloc::Global;
use std::test::Fail;

/// The list with the question of a text, where that is one and there is room for it.
fn with_text(alloc: Global, list: AskedList, text: &[u8]) -> Result<Option<AskedList>, NoMemory>
    requires { IsAskedList list }
    ensures { IfOk result (λ made. IfSome made IsAskedList) }
{
    let question = match read_question(alloc, text) {
        Ok(question) => question,
        Err(Refused::Fault(_)) => return Ok(None),
        Err(Refused::NoMemory) => return Err(NoMemory),
    };
    match list.add(question) {
        Ok(list) => Ok(Some(list)),
        Err(Refused::Fault(_)) => Ok(None),
        Err(Refused::NoMemory) => Err(NoMemory),
    }
}

/// A list of two questions.
fn two_questions(alloc: Global) -> Result<Option<AskedList>, NoMemory> {
    let list = AskedList::new(alloc);
    match with_text(alloc, list, b"never a.x = 1 | b.x = 1")? {
        Some(list) => with_text(alloc, list, b"at end a.x = 1"),
        None => Ok(None),
    }
}

fn is_as_counted(list: &AskedList) -> bool {
    let wanted = AskedRange {
        form: Form::AtEnd,
        from: 2,
        to: 3,
    };
    list.listed.len() == 2
        && list.listed.as_slice()[1].range == wanted
        && list.classed.disjuncts.len() == 3
        && list.parts == 7
}

#[test]
fn questions_are_listed(rt: HostRuntime) -> Result<(), Fail> {
    let list = two_questions(rt.alloc())?.ok_or("a list")?;
    let is_right = is_as_counted(&list);
    drop(list);
    assert!(rt; is_right);
    Ok(())
}

/// A disjunct of one part that is false.
fn one_part(alloc: Global) -> Result<List<Part>, NoMemory> {
    let mut parts = List::new(alloc);
    parts.push(Part::Never)?;
    Ok(parts)
}

fn is_temporal(parts: &List<Part>) -> bool {
    match parts.as_slice() {
        [Part::Temporal { .. }] => true,
        _ => false,
    }
}

#[test]
fn each_is_asked_by_its_form(rt: HostRuntime) -> Result<(), Fail> {
    let alloc = rt.alloc();
    let mut disjuncts = List::new(alloc);
    disjuncts.push(one_part(alloc)?)?;
    disjuncts.push(one_part(alloc)?)?;
    let made = ask_each(alloc, [Form::Never, Form::Plain].as_slice(), disjuncts)?;
    let found: Option<(bool, bool)> = match made.as_slice() {
        [first, second] => Some((is_temporal(first), is_temporal(second))),
        _ => None,
    };
    drop(made);
    assert!(rt; found == Some((true, false)));
    Ok(())
}
