//! One case: what goes in, and what must come out.

use event_log::Event;
use pota_base::List;
use pull_system::Pull;
use slice_graph::Edge;
use std::alloc::Global;
use witness::Explained;

/// What is made of a part's slice.
#[derive(Clone, Copy)]
pub enum Operator {
    Ef,
    Ag,
    Eg,
}

/// A slice: that of a system, and then what operators make of it, one after the other.
#[derive(Drop)]
pub struct Part {
    pub pulls: Vec<Pull>,
    pub operators: Vec<Operator>,
}

impl Part {
    pub fn new(alloc: Global) -> Part {
        Part {
            pulls: Vec::new(alloc),
            operators: Vec::new(alloc),
        }
    }
}

/// The witness of an operator over the joined slice.
#[derive(Drop)]
pub struct Why {
    pub operator: Explained,
    /// What the witness tells.
    pub told: String,
}

/// What must come out.
#[derive(Drop)]
pub struct Wanted {
    pub empty: bool,
    pub bottom: Option<Vec<u32>>,
    pub top: Option<Vec<u32>>,
    pub edges: Vec<Edge>,
    pub has: Vec<Vec<u32>>,
    pub lacks: Vec<Vec<u32>>,
    pub whys: Vec<Why>,
}

#[derive(Drop)]
pub struct Case {
    pub name: String,
    pub procs: u32,
    pub events: List<Event>,
    pub parts: Vec<Part>,
    pub wanted: Wanted,
    /// The line that could not be read, if there is one.
    pub unread: Option<String>,
}

impl Case {
    pub fn new(alloc: Global) -> Case {
        Case {
            name: String::new(alloc),
            procs: 0,
            events: List::new(alloc),
            parts: Vec::new(alloc),
            wanted: Wanted {
                empty: false,
                bottom: None,
                top: None,
                edges: Vec::new(alloc),
                has: Vec::new(alloc),
                lacks: Vec::new(alloc),
                whys: Vec::new(alloc),
            },
            unread: None,
        }
    }
}
