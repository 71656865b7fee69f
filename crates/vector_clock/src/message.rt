//! Messages of a log.
ghost use Rattle.std.specs.Prelude.{◌≡◌};

/// A message, by which the event that sends it and the one that receives it find each other.
#[derive(Clone, Copy, Debug, PartialEq, Eq, PartialOrd, Ord)]
pub struct Message {
    // First, since it mostly tells two messages apart.
    pub id: u64,
    pub sender: u32,
    pub receiver: u32,
}

impl Message {
    /// The message of this number from the one process to the other.
    pub fn new(sender: u32, receiver: u32, id: u64) -> Message
        ensures { result ≡ record { sender = sender; receiver = receiver; id = id } }
    {
        Message {
            id,
            sender,
            receiver,
        }
    }
}
