use pota_base::{Failed, Sink, Source, write_all};
use std::io::{self, Read, Write};
use std::test::Fail;
use std_streams::{Reading, Writing};

#[test]
fn a_slice_is_read_to_its_end(rt: HostRuntime) -> Result<(), Fail> {
    let text: &[u8] = b"abc";
    let mut source = Reading::new(text);
    let mut into = [0; 2];
    assert!(rt; matches!(source.read(&mut into), Ok(2)));
    assert!(rt; &into == b"ab");
    assert!(rt; matches!(source.read(&mut into), Ok(1)));
    assert!(rt; into[0] == b'c');
    assert!(rt; matches!(source.read(&mut into), Ok(0)));
    Ok(())
}

#[test]
fn a_full_writer_takes_nothing(rt: HostRuntime) -> Result<(), Fail> {
    let mut room = [0; 3];
    let mut sink = Writing::new(&mut room[..]);
    assert!(rt; matches!(sink.write(b"ab"), Ok(2)));
    assert!(rt; matches!(sink.write(b"cd"), Ok(1)));
    assert!(rt; matches!(sink.write(b"d"), Ok(0)));
    Ok(())
}

/// It fails every second call, and counts its calls.
#[derive(Drop)]
struct Stumbling {
    calls: u32,
}

impl Stumbling {
    // One call more. Says whether it fails.
    fn fails(&mut self) -> bool {
        self.calls = self.calls.saturating_add(1);
        self.calls % 2 == 0
    }
}

impl Read for Stumbling {
    fn read(&mut self, into: &mut [u8]) -> io::Result<usize> {
        if self.fails() {
            return Err(io::Error::from(io::ErrorKind::Interrupted));
        }
        Ok(into.len())
    }
}

impl Write for Stumbling {
    fn write(&mut self, piece: &[u8]) -> io::Result<usize> {
        if self.fails() {
            return Err(io::Error::from(io::ErrorKind::Interrupted));
        }
        Ok(piece.len())
    }

    fn flush(&mut self) -> io::Result<()> {
        Ok(())
    }
}

#[test]
fn each_read_asks_once_and_tells_a_failure(rt: HostRuntime) {
    let mut reader = Stumbling { calls: 0 };
    let mut source = Reading::new(&mut reader);
    let mut into = [0; 2];
    assert!(rt; matches!(source.read(&mut into), Ok(2)));
    assert!(rt; matches!(source.read(&mut into), Err(Failed)));
    assert!(rt; matches!(source.read(&mut into), Ok(2)));
    drop(source);
    assert!(rt; reader.calls == 3);
}

#[test]
fn each_write_asks_once_and_tells_a_failure(rt: HostRuntime) {
    let mut writer = Stumbling { calls: 0 };
    let mut sink = Writing::new(&mut writer);
    assert!(rt; matches!(sink.write(b"ab"), Ok(2)));
    assert!(rt; matches!(sink.write(b"ab"), Err(Failed)));
    assert!(rt; matches!(sink.write(b"c"), Ok(1)));
    drop(sink);
    assert!(rt; writer.calls == 3);
}

#[test]
fn a_text_is_given_up_at_the_first_write_that_fails(rt: HostRuntime) {
    let mut writer = Stumbling { calls: 1 };
    let mut sink = Writing::new(&mut writer);
    assert!(rt; write_all(&mut sink, b"abc").is_err());
    drop(sink);
    assert!(rt; writer.calls == 2);
}
