ghost use Rattle.std.specs.Prelude.{◌≡◌, [], ◌∷◌, IfOk};
ghost use Rattle.event_log.specs.Laws.{IsLog};

use crate::events::name;
use event_log::{
    Assign, Binding, Event, Header, Kind, Log, LogCode, LogFault, Reader, count_events,
};
use log_writing::write_log;
use pota_base::{Bytes, List, MOST_PROCESSES, NoMemory};
use std::alloc::Global;
use std::process::Abort;

const LOG: &[u8] =
    b"pota-log 1\nprocs P Q\nvars P x=0\nvars Q y=0\nev P 1,0 int x=1\nev Q 0,1 int y=1\nend\n";

// How many items a byte gives, and its fault.
fn feed(reader: &mut Reader, byte: u8) -> Result<(usize, Option<LogFault>), NoMemory> {
    let fed = reader.feed(&[byte])?;
    Ok((fed.items.len(), fed.fault))
}

// How many items the bytes give, of which none has a fault.
fn feed_each(rt: &impl Abort, reader: &mut Reader, text: &[u8]) -> Result<usize, NoMemory> {
    let mut items = 0;
    for byte in text {
        let (more, fault) = feed(reader, *byte)?;
        assert!(rt; fault == None);
        assert!(rt; more < 9 && items < 9);
        items += more;
    }
    Ok(items)
}

// How many items a log has that comes byte by byte, and the fault of its end.
fn read(
    rt: &impl Abort,
    alloc: Global,
    text: &[u8],
) -> Result<(usize, Option<LogFault>), NoMemory> {
    let mut reader = Reader::new(alloc);
    let items = feed_each(rt, &mut reader, text)?;
    Ok((items, reader.finish()))
}

#[test]
fn in_pieces(rt: HostRuntime) -> Result<(), NoMemory> {
    let (items, fault) = read(&rt, rt.alloc(), LOG)?;
    assert!(rt; items == 4);
    assert!(rt; fault == None);
    Ok(())
}

/// A text, and the code and the line of its first fault.
type Faulty = (&'static [u8], LogCode, u32);

const FAULTY: [Faulty; 5] = [
    (
        b"pota-log 1\nprocs P\nev R 1 int\nend\n",
        LogCode::UnknownProcess,
        3,
    ),
    (
        b"pota-log 1\nprocs P Q\nvars Q y=0\nvars P x=0\nend\n",
        LogCode::BadLine,
        4,
    ),
    (b"pota-log 1\nprocs P\nend\nend\n", LogCode::Trailing, 4),
    (
        b"pota-log 1\nprocs P Q\nev P 1,0 send P 1\nend\n",
        LogCode::SelfMessage,
        3,
    ),
    (b"pota-log 1\nprocs P\nend", LogCode::Truncated, 3),
];

fn fault_of(alloc: Global, text: &[u8]) -> Option<LogFault> {
    let mut reader = Reader::new(alloc);
    match reader.feed(text) {
        Ok(_) => reader.finish(),
        Err(_) => None,
    }
}

// That the texts have these faults.
fn have_faults(rt: &impl Abort, alloc: Global, rows: &[Faulty]) {
    for &(text, code, line) in rows {
        assert!(rt; fault_of(alloc, text) == Some(LogFault { code, line }));
    }
}

#[test]
fn faults(rt: HostRuntime) {
    have_faults(&rt, rt.alloc(), &FAULTY);
}

// `procs P`, `vars P x=0`, `ev P 1 int x=1`, `end`
fn small_log(rt: &impl Abort, alloc: Global) -> Result<Log, NoMemory>
    ensures { IfOk result IsLog }
{
    let process = name(rt, alloc, b"P")?;
    let variable = name(rt, alloc, b"x")?;
    let assign = Assign {
        variable: 0,
        value: 1,
    };
    let event = Event {
        process: 0,
        line: 4,
        clock: one(alloc, 1)?,
        kind: Kind::Internal,
        assigns: one(alloc, assign)?,
    };
    let binding = Binding {
        name: variable,
        value: 0,
    };
    let header = Header {
        version: 1,
        procs: one(alloc, process)?,
        vars: one(alloc, one(alloc, binding)?)?,
        var_lines: one(alloc, 3)?,
    };
    Ok(Log {
        header,
        batches: one(alloc, one(alloc, event)?)?,
    })
}

fn one<T: Drop>(alloc: Global, item: T) -> Result<List<T>, NoMemory>
    ensures { IfOk result (λ list. list ≡ item ∷ []) }
{
    let mut list = List::new(alloc);
    list.push(item)?;
    Ok(list)
}

fn written_small(rt: &impl Abort, alloc: Global) -> Result<Bytes, NoMemory> {
    write_log(alloc, &small_log(rt, alloc)?)
}

#[test]
fn written(rt: HostRuntime) -> Result<(), NoMemory> {
    let text = written_small(&rt, rt.alloc())?;
    let wanted = b"pota-log 1\nprocs P\nvars P x=0\nev P 1 int x=1\nend\n";
    assert!(rt; text.as_slice() == wanted.as_slice());
    Ok(())
}

// The counts of one event of process 1.
fn counted(alloc: Global) -> Result<[u32; MOST_PROCESSES], NoMemory> {
    let event = Event {
        process: 1,
        line: 1,
        clock: List::new(alloc),
        kind: Kind::Internal,
        assigns: List::new(alloc),
    };
    let events = one(alloc, event)?;
    Ok(count_events(events.as_slice()))
}

#[test]
fn events_are_counted(rt: HostRuntime) -> Result<(), NoMemory> {
    let counts = counted(rt.alloc())?;
    assert!(rt; counts[0] == 0);
    assert!(rt; counts[1] == 1);
    Ok(())
}
