use pota_base::{Bytes, List, NoMemory};
use pota_names::Name;
use rctl_grammar::{Atom, Boxed, Compare, Formula, Operator, Place, Side, Tree};
use rctl_print::print;
use std::alloc::Global;
use std::test::Fail;

fn named(alloc: Global, name: &[u8]) -> Result<Option<Place>, NoMemory> {
    match Name::new(alloc, name)? {
        Some(name) => Ok(Some(Place { name, at: 0 })),
        None => Ok(None),
    }
}

fn calm_of(process: Place, watch: Option<Place>) -> Option<Tree> {
    let watch = watch?;
    let atom = Atom::Watch { process, watch };
    Some(Tree::Leaf { atom, at: 0 })
}

fn below_of(process: Place, variable: Option<Place>, value: i64) -> Option<Tree> {
    let variable = variable?;
    let atom = Atom::Local {
        process,
        variable,
        compare: Compare::Lt,
        side: Side::Number(value),
    };
    Some(Tree::Leaf { atom, at: 0 })
}

fn calm(alloc: Global) -> Result<Option<Tree>, NoMemory> {
    match named(alloc, b"P")? {
        Some(process) => Ok(calm_of(process, named(alloc, b"calm")?)),
        None => Ok(None),
    }
}

fn below(alloc: Global, value: i64) -> Result<Option<Tree>, NoMemory> {
    match named(alloc, b"P")? {
        Some(process) => Ok(below_of(process, named(alloc, b"x")?, value)),
        None => Ok(None),
    }
}

fn add(members: &mut List<Tree>, one: Option<Tree>) -> Result<(), NoMemory> {
    match one {
        Some(tree) => members.push(tree),
        None => Ok(()),
    }
}

/// `P.x < -2` and `P@calm`.
fn members(alloc: Global) -> Result<List<Tree>, NoMemory> {
    let mut members = List::new(alloc);
    add(&mut members, below(alloc, -2)?)?;
    add(&mut members, calm(alloc)?)?;
    Ok(members)
}

/// EF over one of these.
fn possibly_one(alloc: Global, members: List<Tree>) -> Result<Formula, NoMemory> {
    let inner = Boxed::new(alloc, Tree::Or { members, at: 0 })?;
    let operator = Operator::Ef;
    let at = 0;
    let tree = Tree::Temporal {
        operator,
        inner,
        at,
    };
    Ok(Formula { tree })
}

fn printed(alloc: Global) -> Result<Bytes, NoMemory> {
    let formula = possibly_one(alloc, members(alloc)?)?;
    let text = print(alloc, &formula);
    drop(formula);
    text
}

#[test]
fn brackets_stand_round_an_or_under_an_operator(rt: HostRuntime) -> Result<(), Fail> {
    let text = printed(rt.alloc())?;
    assert!(rt; text.as_slice() == b"EF (P.x < -2 | P@calm)".as_slice());
    Ok(())
}
