//! What a worker is handed, and what it hands back.
use bound_table::Seat;
use pota_base::MOST_PROCESSES;

/// A worker's seat and its number, from 1.
#[derive(Drop)]
pub(crate) struct Job {
    pub(crate) seat: Seat,
    pub(crate) worker: u32,
}

/// A worker's seat, and a mark for each process whose rows it has settled.
#[derive(Drop)]
pub(crate) struct Done {
    pub(crate) seat: Seat,
    pub(crate) handed: [bool; MOST_PROCESSES],
}
