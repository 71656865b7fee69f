//! How an input is read as a log where the log stands only once all bytes are there.
//!
//! `clocks_reading` of `specs/Clocks.antt` reads records of two lines, of which the first has a
//! vector clock; `merged_reading` of `specs/Sources.antt` reads the texts of several logs one
//! behind another, which are merged, and tells a fault of the merged log at the source and line
//! that its event comes from. Laws: each keeps to what every reading keeps to (`clocks_are_read`,
//! `sources_are_read`), and has one report at most (`one_report_is_due`); a fault of a batch of the
//! merged log has an origin (`faults_have_an_origin`).
//!
//! Not said here: how the bytes are read.
#![tactic(auto)]

pub mod reading_laws;
