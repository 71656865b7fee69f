//! One event more of the run.
ghost use Rattle.std.specs.Prelude.{◌≡◌, ◌+◌, ◌^◌, ◌<◌, ◌≤◌, ◌%◌, ◌≢◌, pos, IfOk, OnOk, [], ◌∷◌};
ghost use Rattle.std.specs.Prelude.{length};
ghost use Rattle.run_model.specs.Cut.{count};
ghost use Rattle.pota_base.specs.Limits.{most_events, most_processes};
ghost use Rattle.trace_gen.specs.Making.{internal, sending, receiving, taking, made, peer};
ghost use Rattle.trace_gen.specs.Making.{process_at, advanced, received, receipt_by, position_is};
ghost use Rattle.trace_gen.specs.Making.{seen_is};
ghost use Rattle.trace_gen.specs.inside.Making.{CanMake};

use crate::process::Process;
use crate::queue::Sent;
use event_log::{Assign, Event, Kind};
use pota_base::{List, NoMemory};
use std::alloc::Global;

fn copy_of(alloc: Global, clock: &List<u32>) -> Result<List<u32>, NoMemory>
    ensures { IfOk result (λ copy. copy ≡ clock.now) }
{
    Ok(List::from_vec(clock.as_slice().to_vec(alloc)?))
}

fn list_of(alloc: Global, assigns: &[Assign]) -> Result<List<Assign>, NoMemory>
    ensures { IfOk result (λ list. list ≡ assigns.now) }
{
    Ok(List::from_vec(assigns.to_vec(alloc)?))
}

// The position of the last event of a process is assigned to its variable `n`.
fn position(process: &Process, index: usize) -> Assign
    requires { index < length process.now.clock }
    ensures { result ≡ position_is (count process.now.clock index) }
{
    Assign {
        variable: 0,
        value: i64::from(*process.clock.get(index)),
    }
}

// The number of receipts of a process is assigned to its variable `seen`.
fn receipts(process: &Process) -> Assign
    ensures { result ≡ seen_is process.now.seen }
{
    Assign {
        variable: 1,
        value: i64::from(process.seen),
    }
}

fn make_internal(
    alloc: Global,
    processes: &mut [Process],
    index: usize,
    line: u32,
    number: u64,
) -> Result<Event, NoMemory>
    requires there { index < length processes.old }
    requires can { CanMake number processes.old }
    ensures { IfOk result (λ event. record { event = event; processes = processes.new }
        ≡ internal index line processes.old) }
{
    let process = &mut processes[index];
    process.advance(index);
    Ok(Event {
        process: index as u32,
        line,
        clock: copy_of(alloc, &process.clock)?,
        kind: Kind::Internal,
        assigns: list_of(alloc, &[position(process, index)])?,
    })
}

fn make_send(
    alloc: Global,
    processes: &mut [Process],
    index: usize,
    line: u32,
    to: usize,
    number: u64,
) -> Result<Event, NoMemory>
    requires there { index < length processes.old }
    requires peer { to < length processes.old }
    requires can { CanMake number processes.old }
    ensures { IfOk result (λ event. record { event = event; processes = processes.new }
        ≡ sending index line to number processes.old) }
{
    let process = &mut processes[index];
    process.advance(index);
    let event = Event {
        process: index as u32,
        line,
        clock: copy_of(alloc, &process.clock)?,
        kind: Kind::Send {
            to: to as u32,
            id: number,
        },
        assigns: list_of(alloc, &[position(process, index)])?,
    };
    let message = Sent {
        sender: index as u32,
        id: number,
        clock: copy_of(alloc, &process.clock)?,
    };
    processes[to].waiting.push(message)?;
    Ok(event)
}

// The receipt of a message, which was taken from the queue of its process.
fn receive(
    alloc: Global,
    process: &mut Process,
    index: usize,
    line: u32,
    message: &Sent,
) -> Result<Event, NoMemory>
    requires there { index < most_processes }
    requires wide { index < length process.old.clock }
    requires room { count process.old.clock index < most_events }
    requires clock { length message.now.clock ≡ length process.old.clock }
    requires few { process.old.seen < most_events }
    ensures event { IfOk result (λ event.
        event ≡ receipt_by index line message.now (advanced process.old index)) }
    ensures process { OnOk result
        (process.new ≡ received (advanced process.old index) message.now) }
{
    process.advance(index);
    let n = position(process, index);
    process.receive(message);
    let seen = receipts(process);
    Ok(Event {
        process: index as u32,
        line,
        clock: copy_of(alloc, &process.clock)?,
        kind: Kind::Receive {
            sender: message.sender,
            id: message.id,
        },
        assigns: list_of(alloc, &[n, seen])?,
    })
}

// Without a waiting message the event is internal.
fn make_receipt(
    alloc: Global,
    processes: &mut [Process],
    index: usize,
    line: u32,
    number: u64,
) -> Result<Event, NoMemory>
    requires there { index < length processes.old }
    requires can { CanMake number processes.old }
    ensures { IfOk result (λ event. record { event = event; processes = processes.new }
        ≡ taking index line (process_at processes.old index).waiting processes.old) }
{
    let process = &mut processes[index];
    let Some(message) = process.waiting.pop() else {
        return make_internal(alloc, processes, index, line, number);
    };
    receive(alloc, process, index, line, &message)
}

/// Event number `number`, of the process whose turn it is. The word decides what it does.
pub fn make(
    alloc: Global,
    processes: &mut [Process],
    number: u32,
    word: u32,
) -> Result<Event, NoMemory>
    requires { CanMake number processes.old }
    ensures { IfOk result (λ event. record { event = event; processes = processes.new }
        ≡ made (length processes.old) number word processes.old) }
{
    let procs = processes.len();
    let index = number as usize % procs;
    let line = procs as u32 + 3 + number;
    if word % 4 <= 1 {
        return make_receipt(alloc, processes, index, line, number as u64);
    }
    if word % 4 == 3 && procs >= 2 {
        let to = (index + 1 + (word / 4) as usize % (procs - 1)) % procs;
        return make_send(alloc, processes, index, line, to, number as u64);
    }
    make_internal(alloc, processes, index, line, number as u64)
}
