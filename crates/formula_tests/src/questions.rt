use pota_base::{NoMemory, Refused};
use question_forms::{Question, read_question};
use question_meaning::Form;
use std::alloc::Global;
use std::test::Fail;

/// What a text comes to.
#[derive(Clone, Copy, PartialEq, Eq)]
enum Outcome {
    /// A form, the byte from which on the formula is, and how many disjuncts are asked.
    Asks(Form, u32, usize),
    /// The byte of a fault.
    Faulty(u64),
}

fn told(alloc: Global, text: &[u8]) -> Result<Outcome, NoMemory> {
    match read_question(alloc, text) {
        Ok(question) => {
            let asks = asks_of(&question);
            drop(question);
            Ok(asks)
        }
        Err(Refused::Fault(fault)) => Ok(Outcome::Faulty(fault.place())),
        Err(Refused::NoMemory) => Err(NoMemory),
    }
}

fn asks_of(question: &Question) -> Outcome {
    Outcome::Asks(
        question.form,
        question.formula,
        question.classed.disjuncts.len(),
    )
}

#[test]
fn questions_are_read(rt: HostRuntime) -> Result<(), Fail> {
    let rows: [(&[u8], Outcome); 6] = [
        (
            b"never a.cs = 1 & b.cs = 1".as_slice(),
            Outcome::Asks(Form::Never, 6, 1),
        ),
        (
            b"one holder: never a.cs = 1 | b.cs = 1".as_slice(),
            Outcome::Asks(Form::Never, 18, 2),
        ),
        (b"can can.x = 1".as_slice(), Outcome::Asks(Form::Can, 4, 1)),
        (
            b"surely a.x = 1 | b.x = 1".as_slice(),
            Outcome::Asks(Form::Surely, 7, 1),
        ),
        (
            b"at end a.x = 1 & empty(a, b)".as_slice(),
            Outcome::Asks(Form::AtEnd, 7, 1),
        ),
        (b"EF a.x = 1".as_slice(), Outcome::Asks(Form::Plain, 0, 1)),
    ];
    for (text, wanted) in rows {
        let found = told(rt.alloc(), text)?;
        assert!(rt; found == wanted);
    }
    Ok(())
}

#[test]
fn always_asks_the_negation_where_it_can(rt: HostRuntime) -> Result<(), Fail> {
    let rows: [(&[u8], Outcome); 5] = [
        (
            b"always a.x <= 3".as_slice(),
            Outcome::Asks(Form::AlwaysByNegation, 7, 1),
        ),
        (
            b"always a.x = 1 & b.x = 1".as_slice(),
            Outcome::Asks(Form::AlwaysByNegation, 7, 2),
        ),
        (
            b"always !(a.x = 1 & b.x = 1)".as_slice(),
            Outcome::Asks(Form::AlwaysByNegation, 7, 1),
        ),
        (
            b"always EF a.x = 1".as_slice(),
            Outcome::Asks(Form::Always, 7, 1),
        ),
        (
            b"always a.x = 1 | EF b.x = 1".as_slice(),
            Outcome::Faulty(15),
        ),
    ];
    for (text, wanted) in rows {
        let found = told(rt.alloc(), text)?;
        assert!(rt; found == wanted);
    }
    Ok(())
}

#[test]
fn faults_are_where_they_are(rt: HostRuntime) -> Result<(), Fail> {
    let rows: [(&[u8], Outcome); 6] = [
        (b"never: a.x = 1".as_slice(), Outcome::Faulty(0)),
        (b"x: at a.x = 1".as_slice(), Outcome::Faulty(6)),
        (b"never a.x = ".as_slice(), Outcome::Faulty(12)),
        (
            b"q: surely a.x = 1 & b.x = 1".as_slice(),
            Outcome::Faulty(18),
        ),
        (b"at end a.x = 1 | b.x = 1".as_slice(), Outcome::Faulty(15)),
        (b"never AF a.x = 1".as_slice(), Outcome::Faulty(6)),
    ];
    for (text, wanted) in rows {
        let found = told(rt.alloc(), text)?;
        assert!(rt; found == wanted);
    }
    Ok(())
}
