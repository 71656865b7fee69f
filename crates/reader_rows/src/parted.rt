//! The input of a case, taken apart into a log and the certificate behind it, and what must come
//! out where it is cut short.

use row_cases::Case;
use std::alloc::{AllocError, Global};

/// The text of a log, and that of the certificate behind it.
#[derive(Drop)]
pub struct Parted {
    pub log: String,
    pub certificate: String,
}

// How many line feeds the bytes have.
fn feeds(bytes: &[u8]) -> u64 {
    let mut count = 0u64;
    for byte in bytes {
        if *byte == b'\n' {
            count = count.saturating_add(1);
        }
    }
    count
}

impl Parted {
    /// The input of the case, whose log ends with its first line `end`.
    pub fn new(alloc: Global, case: &Case) -> Result<Parted, AllocError> {
        let text = String::from_utf8_lossy(alloc, case.text())?;
        let mut log = String::new(alloc);
        let mut certificate = String::new(alloc);
        let mut is_behind = false;
        for line in text.as_str().lines() {
            let part = if is_behind {
                &mut certificate
            } else {
                &mut log
            };
            part.push_str(line)?;
            part.push('\n')?;
            is_behind = is_behind || line == "end";
        }
        Ok(Parted { log, certificate })
    }

    /// What must be told of the first bytes of the input, where the log has no fault and each line
    /// of the certificate is justified.
    pub fn answer_of_front(&self, alloc: Global, front: &[u8]) -> Result<String, AllocError> {
        let log = self.log.as_str().as_bytes();
        let line = feeds(front).saturating_add(1);
        if front.len() < log.len() {
            return format!(in alloc; "pota_verify: log line {line}: L16 truncated\n");
        }
        format!(in alloc; "refused line {}\n", line.saturating_sub(feeds(log)))
    }
}
