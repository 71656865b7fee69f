use pota_base::{NoMemory, Shape};
use pull_system::Rows;
use std::alloc::Global;
use std::process::Abort;

/// The rows of two processes with one event each, of which two are raised, where the first process
/// has one event more.
fn grown(rt: &impl Abort, alloc: Global) -> Result<Rows, NoMemory> {
    let mut old = Rows::new(alloc, &Shape::new(alloc, &[1, 1])?)?;
    assert!(rt; old.shape().procs() == 2);
    assert!(rt; old.shape().events() == 2);
    old.raise(0, 1, 1);
    old.raise(2, 0, 1);
    let shape = Shape::new(alloc, &[2, 1])?;
    assert!(rt; old.shape().len_of(0) == 1 && old.shape().len_of(1) == 1);
    Rows::grown(alloc, &old, &shape)
}

#[test]
fn rows_grow_with_their_shape(rt: HostRuntime) -> Result<(), NoMemory> {
    let rows = grown(&rt, rt.alloc())?;
    assert!(rt; rows.as_words() == [0, 1, 1, 0, 2, 0, 1, 1].as_slice());
    assert!(rt; rows.shape().events() == 3);
    assert!(rt; rows.row(3) == [1, 1].as_slice());
    Ok(())
}

/// That the rows begin at their starts, and that no word falls.
fn judge(rt: &impl Abort, rows: &mut Rows) {
    assert!(rt; rows.as_words() == [0, 0, 1, 0, 2, 0, 3, 0, 0, 1, 0, 2].as_slice());
    assert!(rt; rows.shape().procs() == 2);
    assert!(rt; rows.shape().events() == 5);
    rows.raise(1, 1, 2);
    rows.raise(1, 0, 0);
    assert!(rt; rows.word(1, 1) == 2);
    assert!(rt; rows.word(1, 0) == 1);
}

#[test]
fn rows_begin_at_their_starts(rt: HostRuntime) -> Result<(), NoMemory> {
    let shape = Shape::new(rt.alloc(), &[3, 2])?;
    judge(&rt, &mut Rows::new(rt.alloc(), &shape)?);
    Ok(())
}
