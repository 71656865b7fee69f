ghost use Rattle.pota_base.specs.Blanks.{IsBlankOf};
ghost use Rattle.std.specs.Prelude.{◌+◌, ◌<◌};

use pota_base::{
    Bytes, EventId, Failed, List, MemSink, MemSource, NoMemory, Shape, Sink, Source, Status, Steps,
    put_i64, put_u64, read_i64, read_u64, write_all,
};
use std::alloc::Global;
use std::marker::Brand;
use std::process::Abort;
use std::sync::ledger::{Blank, Ledger};
use std::test::Fail;

/// A type that holds itself through a list.
#[derive(Debug, Drop)]
enum Tree {
    Leaf(u8),
    Node(List<Tree>),
}

fn leaves(tree: &Tree) -> usize {
    match tree {
        Tree::Leaf(_) => 1,
        Tree::Node(children) => {
            let mut count: usize = 0;
            for child in children.as_slice() {
                count = count.saturating_add(leaves(child));
            }
            count
        }
    }
}

fn tree_of(alloc: Global, first: u8, second: u8) -> Result<Tree, NoMemory> {
    let mut inner = List::new(alloc);
    inner.push(Tree::Leaf(first))?;
    let mut outer = List::new(alloc);
    outer.push(Tree::Node(inner))?;
    outer.push(Tree::Leaf(second))?;
    Ok(Tree::Node(outer))
}

#[test]
fn a_tree_holds_itself_through_lists(rt: HostRuntime) -> Result<(), Fail> {
    assert_eq!(rt; leaves(&tree_of(rt.alloc(), 3, 4)?), 2);
    Ok(())
}

#[test]
fn lists_keep_their_items(rt: HostRuntime) -> Result<(), Fail> {
    let mut list = List::with_capacity(rt.alloc(), 1)?;
    assert!(rt; list.is_empty());
    list.push(5)?;
    list.push(7)?;
    assert_eq!(rt; list.len(), 2);
    assert_eq!(rt; list.replace(1, 8), 7);
    assert_eq!(rt; *list.get(1), 8);
    let vec = list.into_vec();
    assert_eq!(rt; List::from_vec(vec).as_slice(), [5, 8].as_slice());
    Ok(())
}

// That the rows of a shape of 3, 0 and 2 events are numbered through its processes.
fn has_rows(rt: &impl Abort, shape: &Shape) {
    assert!(rt; shape.procs() == 3);
    assert!(rt; shape.events() == 5);
    assert!(rt; shape.len_of(2) == 2);
    assert!(rt; shape.len_of(0) == 3);
    let last_of_first = EventId {
        process: 0,
        position: 3,
    };
    let first_of_last = EventId {
        process: 2,
        position: 1,
    };
    assert!(rt; shape.row_of(last_of_first) == 3);
    assert!(rt; shape.row_of(first_of_last) == 4);
    assert!(rt; shape.event_of(0) == None);
    assert!(rt; shape.event_of(3) == Some(last_of_first));
    assert!(rt; shape.event_of(4) == Some(first_of_last));
}

#[test]
fn rows_follow_the_processes(rt: HostRuntime) -> Result<(), Fail> {
    has_rows(&rt, &Shape::new(rt.alloc(), &[3, 0, 2])?);
    Ok(())
}

#[test]
fn a_process_gets_more_events(rt: HostRuntime) -> Result<(), Fail> {
    let mut shape = Shape::new(rt.alloc(), &[3, 0, 2])?;
    shape.raise(1, 4);
    assert_eq!(rt; shape.lens(), [3, 4, 2].as_slice());
    assert_eq!(rt; shape.events(), 9);
    let first_of_last = EventId {
        process: 2,
        position: 1,
    };
    assert_eq!(rt; shape.row_of(first_of_last), 8);
    Ok(())
}

#[test]
fn statuses_have_their_codes(rt: HostRuntime) {
    assert_eq!(rt; Status::True.code(), 0);
    assert_eq!(rt; Status::OutOfMemory.code(), 7);
}

fn two_ticks<L: Ledger>(blank: Blank)
    requires blank { IsBlankOf L.name L.parts blank }
{
    let mut steps = Steps::<L>::new(blank);
    steps.tick();
    steps.tick();
}

#[test]
fn counters_take_no_bytes(rt: HostRuntime) {
    two_ticks::<Brand>(Blank::new(1));
    assert_eq!(rt; size_of::<Steps<Brand>>(), 0);
}

#[test]
fn a_source_gives_pieces_and_fails_where_told(rt: HostRuntime) -> Result<(), Fail> {
    let mut source = MemSource::new(rt.alloc(), b"abcde", 2, &[2])?;
    let mut into = [0u8; 4];
    assert_eq!(rt; source.read(&mut into), Ok(2));
    assert_eq!(rt; into, *b"ab\0\0");
    assert_eq!(rt; source.read(&mut into), Err(Failed));
    assert_eq!(rt; source.read(&mut into), Ok(2));
    assert_eq!(rt; source.read(&mut into), Ok(1));
    assert_eq!(rt; into, *b"ed\0\0");
    assert_eq!(rt; source.read(&mut into), Ok(0));
    Ok(())
}

/// The room of a sink that takes three bytes a call, the calls that fail, what is told of a text of
/// eight bytes, and what the sink holds of it.
type Write = (usize, &'static [u64], Result<(), Failed>, &'static [u8]);

const WRITES: [Write; 3] = [
    (10, &[], Ok(()), b"abcdefgh"),
    (4, &[], Err(Failed), b"abcd"),
    (10, &[2], Err(Failed), b"abc"),
];

// What is told of the text, and whether the sink holds these bytes of it.
fn written(
    alloc: Global,
    room: usize,
    failing: &[u64],
    held: &[u8],
) -> Result<(Result<(), Failed>, bool), NoMemory> {
    let mut sink = MemSink::new(alloc, room, 3, failing)?;
    let told = write_all(&mut sink, b"abcdefgh");
    Ok((told, sink.held() == held))
}

#[test]
fn a_whole_text_is_written_until_the_sink_refuses(rt: HostRuntime) -> Result<(), Fail> {
    for (room, failing, told, held) in WRITES {
        let (found, is_held) = written(rt.alloc(), room, failing, held)?;
        assert!(rt; found == told);
        assert!(rt; is_held);
    }
    Ok(())
}

#[test]
fn numbers_are_spelled_one_way(rt: HostRuntime) -> Result<(), Fail> {
    let mut text = Bytes::new(rt.alloc());
    put_u64(&mut text, u64::MAX)?;
    put_i64(&mut text, i64::MIN)?;
    assert_eq!(rt;
        text.as_slice(),
        b"18446744073709551615-9223372036854775808".as_slice()
    );
    assert_eq!(rt; read_u64(b"18446744073709551615"), Some(u64::MAX));
    assert_eq!(rt; read_u64(b"18446744073709551616"), None);
    assert_eq!(rt; read_u64(b"02"), None);
    assert_eq!(rt; read_i64(b"-9223372036854775808"), Some(i64::MIN));
    assert_eq!(rt; read_i64(b"-0"), None);
    Ok(())
}
