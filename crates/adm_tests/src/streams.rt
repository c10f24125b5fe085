// Readers and writers that are interrupted, and that fail.
use adm_wire::{Input, Output, ReadFailed, Watched, WriteFailed};
use std::io;
use std::io::{ErrorKind, Read, Write};

/// Gives a byte at each other read, is interrupted between, and fails at the end.
#[derive(Drop)]
struct Halting<'a> {
    bytes: &'a [u8],
    interrupted: bool,
}

impl<'a> Read for Halting<'a> {
    fn read(&mut self, buf: &mut [u8]) -> io::Result<usize> {
        self.interrupted = !self.interrupted;
        if self.interrupted {
            return Err(io::Error::from(ErrorKind::Interrupted));
        }
        if buf.is_empty() || self.bytes.is_empty() {
            return Err(io::Error::from(ErrorKind::Other));
        }
        buf[0] = self.bytes[0];
        self.bytes = &self.bytes[1..];
        Ok(1)
    }
}

#[test]
fn reads_on_after_an_interruption(rt: HostRuntime) {
    let mut reader = Watched::new(Halting {
        bytes: b"ab",
        interrupted: false,
    });
    let mut buffer = [0; 4];
    assert!(rt; reader.read_some(&mut buffer) == Ok(1));
    assert!(rt; buffer == [b'a', 0, 0, 0]);
    assert!(rt; reader.read_some(&mut buffer) == Ok(1));
    assert!(rt; buffer == [b'b', 0, 0, 0]);
    assert!(rt; !reader.has_failed);
    assert!(rt; reader.read_some(&mut buffer) == Err(ReadFailed));
    assert!(rt; reader.has_failed);
    assert!(rt; reader.read_some(&mut buffer) == Err(ReadFailed));
}

#[test]
fn reads_to_the_end(rt: HostRuntime) {
    let mut reader = Watched::new(b"ab".as_slice());
    let mut buffer = [0; 4];
    assert!(rt; reader.read_some(&mut buffer) == Ok(2));
    assert!(rt; reader.read_some(&mut buffer) == Ok(0));
    assert!(rt; !reader.has_failed);
}

/// Takes a byte at each other write, is interrupted between, and takes or refuses what passes its room.
#[derive(Drop)]
struct Narrow {
    taken: Vec<u8>,
    room: usize,
    fails: bool,
    interrupted: bool,
}

impl Write for Narrow {
    fn write(&mut self, buf: &[u8]) -> io::Result<usize> {
        self.interrupted = !self.interrupted;
        if self.interrupted {
            return Err(io::Error::from(ErrorKind::Interrupted));
        }
        if buf.is_empty() || self.room == 0 {
            return if self.fails {
                Err(io::Error::from(ErrorKind::Other))
            } else {
                Ok(0)
            };
        }
        self.room -= 1;
        self.taken.push(buf[0])?;
        Ok(1)
    }

    fn flush(&mut self) -> io::Result<()> {
        Ok(())
    }
}

#[test]
fn writes_a_beginning(rt: HostRuntime) {
    for fails in [true, false] {
        for room in 0..4 {
            let mut writer = Watched::new(Narrow {
                taken: Vec::new(rt.alloc()),
                room,
                fails,
                interrupted: false,
            });
            let written = writer.put(b"abc");
            assert!(rt; written == if room < 3 { Err(WriteFailed) } else { Ok(()) });
            assert!(rt; writer.has_failed == (room < 3));
            assert!(rt; writer.stream.taken.as_slice() == &b"abc"[..room]);
        }
    }
}
