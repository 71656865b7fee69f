// By which rules a log is taken, and what is due of its bytes, as definitions.
//
// `judge` of `specs/Judgement.antt` judges one item more, up to the first fault: names where the
// header stands, and each batch where it is closed. `due` of `specs/Due.antt` gives the log after
// each batch that was closed, the whole log where it was read to its end, the number of batches and
// the first fault. Clocks that the text leaves out are filled in where their batch is closed,
// before it is judged, so the logs that are due have them all. How bytes are read, which names a
// header lacks and which of its variables are counters are arguments: `specs/Readings.antt` has the
// reading of one log's text, item by item, and that of a log that stands once all bytes are there.
// The laws say what more bytes change, that logs without a fault are those of which none is due,
// and that a fault of the bytes comes before names and batches where the log stands only at the
// end.
//
// Not said here: what is reported of a log.
#![tactic(auto)]

pub mod due_laws;
pub mod log_laws;
