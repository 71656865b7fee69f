//! What a run may be at most. Clauses say the same numbers by the names of `specs/Limits.antt`.

/// The most processes of a run.
pub const MOST_PROCESSES: usize = 32;

/// The most events of a run.
pub const MOST_EVENTS: usize = 50_000;

/// The most variables of a process.
pub const MOST_VARIABLES: usize = 16;

/// The most bytes of a name.
pub const LONGEST_NAME: usize = 64;

/// The most bytes of a log, or of several that are read as one.
pub const LONGEST_LOG: usize = 67_108_864;

/// The most bytes of an input that are kept: with one more than a log may have it is too long.
pub const LONGEST_KEPT: usize = 67_108_865;

/// The most bytes of a log's line, its line feed left out.
pub const LONGEST_LINE: usize = 4_096;

/// The most bytes that are read or written at once.
pub const LONGEST_READ: usize = 65_536;

/// The most logs that are read as one.
pub const MOST_SOURCES: usize = 32;

/// The most bytes of a formula.
pub const LONGEST_FORMULA: usize = 4_096;

/// The most bytes of a text that is taken for tokens.
pub const LONGEST_LEXED: usize = 65_536;

/// The most bytes of a formula's canonical text.
pub const LONGEST_CANONICAL: usize = 65_535;

/// The most nodes of a formula.
pub const MOST_NODES: u32 = 64;

/// The most levels of a formula that are open at one place.
pub const DEEPEST: u32 = 16;

/// The most alternatives of what is answered at once.
pub const MOST_DISJUNCTS: usize = 64;

/// The most parts of these alternatives, inner ones counted too.
pub const MOST_PARTS: u32 = 128;

/// The most bytes of a question.
pub const LONGEST_QUESTION: usize = 8_192;

/// The most questions that are asked at once.
pub const MOST_QUESTIONS: usize = 64;

/// More than the instances that a question over processes has.
pub const MOST_INSTANCES: u32 = 4_096;

/// The most bytes of a certificate's line, its line feed left out.
pub const LONGEST_CERTIFICATE_LINE: usize = 8_192;

/// The most workers that settle one table.
pub const MOST_WORKERS: u32 = 16;

/// The most watches that a caller hands in.
pub const MOST_WATCHES: usize = 8;
