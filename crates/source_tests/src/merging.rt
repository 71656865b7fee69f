//! Two sources in both orders.

use crate::pieces::{fault_of, merged_of};
use crate::texts::{OF_P, OF_Q, both};
use event_log::Log;
use log_merge::{Merged, Origin};
use pota_base::{NoMemory, Refused};
use std::alloc::Global;
use std::process::Abort;
use std::test::Fail;

// Whether the batch has one event of each process, in the order of the processes.
fn has_both(log: &Log) -> bool {
    if log.batches.len() != 1 {
        return false;
    }
    match log.batches.get(0).as_slice() {
        [of_p, of_q] => of_p.process == 0 && of_q.process == 1 && of_p.line == 1 && of_q.line == 2,
        _ => false,
    }
}

fn come_from(origins: &[Origin], source_of_p: u32, source_of_q: u32) -> bool {
    match origins {
        [of_p, of_q] => {
            of_p.source == source_of_p
                && of_q.source == source_of_q
                && of_p.line == 4
                && of_q.line == 4
        }
        _ => false,
    }
}

// The two texts merged, `None` where they have a fault.
fn merged(alloc: Global, first: &[u8], second: &[u8]) -> Result<Option<Merged>, NoMemory> {
    let text = both(alloc, first, second)?;
    match merged_of(alloc, text.as_slice()) {
        Ok(merged) => Ok(Some(merged)),
        Err(Refused::Fault(_)) => Ok(None),
        Err(Refused::NoMemory) => Err(NoMemory),
    }
}

// That the events of both stand in one batch, and of which sources they are.
fn comes_from(rt: &impl Abort, merged: &Merged, source_of_p: u32, source_of_q: u32) {
    assert!(rt; has_both(&merged.log));
    assert!(rt; come_from(merged.origins.as_slice(), source_of_p, source_of_q));
}

#[test]
fn in_both_orders(rt: HostRuntime) -> Result<(), Fail> {
    comes_from(&rt, &merged(rt.alloc(), OF_Q, OF_P)?.ok_or("fault")?, 2, 1);
    comes_from(&rt, &merged(rt.alloc(), OF_P, OF_Q)?.ok_or("fault")?, 1, 2);
    Ok(())
}

// That the text has no fault, in whatever pieces it is read.
fn judge_pieces(rt: &impl Abort, alloc: Global, text: &[u8]) -> Result<(), NoMemory> {
    for len in 1..=text.len() {
        let fault = fault_of(alloc, text, len)?;
        assert!(rt; fault == None);
    }
    Ok(())
}

#[test]
fn in_pieces_of_each_length(rt: HostRuntime) -> Result<(), Fail> {
    let text = both(rt.alloc(), OF_Q, OF_P)?;
    judge_pieces(&rt, rt.alloc(), text.as_slice())?;
    Ok(())
}
