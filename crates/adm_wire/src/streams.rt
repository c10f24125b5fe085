// Readers and writers that report whether they failed.
ghost use Rattle.std.specs.Prelude.{◌≡◌, ℕ, ◌<◌, ◌≤◌, ◌||◌, List, Option, Bool, false, length, take, is_err, IfOk, OnErr, MatchResult};
ghost use Rattle.std.specs.Io.KnownBytes.{Appends, Keeps, ReadConsumes};

use std::io::{ErrorKind, Read, Write};
use thiserror::Error;

/// A read failed.
#[derive(Clone, Copy, Debug, PartialEq, Eq, Error)]
#[error("the reader failed")]
pub struct ReadFailed;

/// A write failed, or took nothing.
#[derive(Clone, Copy, Debug, PartialEq, Eq, Error)]
#[error("the writer failed")]
pub struct WriteFailed;

/// A reader that reports whether it failed.
pub trait Input {
    // The bytes that reads will give from here on, where they are known.
    ghost remaining: { Self → Option (List ℕ) };

    // Whether a read has failed.
    ghost has_failed: { Self → Bool };

    /// Reads some bytes into the front of the buffer, and returns how many: none only at the end of
    /// the input, or where the buffer has no room.
    fn read_some(&mut self, buffer: &mut [u8]) -> Result<usize, ReadFailed>
        ensures bound { IfOk result (λ n. n ≤ length buffer.new) }
        ensures bytes { ReadConsumes (remaining self.old) (remaining self.new) result buffer.new }
        ensures fails { has_failed self.new ≡ (has_failed self.old || is_err result) };
}

/// A writer that reports whether it failed.
pub trait Output {
    // The bytes that the writer holds, where they are known.
    ghost contents: { Self → Option (List ℕ) };

    // Whether a write has failed.
    ghost has_failed: { Self → Bool };

    /// Writes all of the bytes. At a failure a beginning of them was written.
    fn put(&mut self, bytes: &[u8]) -> Result<(), WriteFailed>
        ensures bytes { MatchResult result
            (λ _. Appends (contents self.old) (contents self.new) bytes.now)
            (λ _. (n : ℕ) × Appends (contents self.old) (contents self.new) (take n bytes.now)) }
        ensures fails { has_failed self.new ≡ (has_failed self.old || is_err result) };
}

/// A reader or a writer, and whether it has failed. A call that was interrupted before it read or
/// wrote anything is made again, 2^64 - 1 times at most.
#[derive(Drop)]
pub struct Watched<S> {
    /// The stream.
    pub stream: S,
    /// Whether one of its calls has failed.
    pub has_failed: bool,
}

impl<S> Watched<S> {
    /// A stream that has not failed yet.
    pub fn new(stream: S) -> Self
        ensures stream { result.stream ≡ stream }
        ensures fails { result.has_failed ≡ false }
    {
        Watched {
            stream,
            has_failed: false,
        }
    }
}

impl<R: Read> Input for Watched<R> {
    ghost remaining = { λ s. R.remaining s.stream };

    ghost has_failed = { λ s. s.has_failed };

    fn read_some(&mut self, buffer: &mut [u8]) -> Result<usize, ReadFailed> {
        for _ in 0..u64::MAX {
            match self.stream.read(buffer) {
                Ok(count) => return Ok(count),
                Err(error) => {
                    if error.kind() != ErrorKind::Interrupted {
                        break;
                    }
                }
            }
        }
        self.has_failed = true;
        Err(ReadFailed)
    }
}

impl<W: Write> Output for Watched<W> {
    ghost contents = { λ s. W.contents s.stream };

    ghost has_failed = { λ s. s.has_failed };

    fn put(&mut self, bytes: &[u8]) -> Result<(), WriteFailed> {
        let mut rest = bytes;
        while !rest.is_empty() {
            let count = self.put_some(rest)?;
            rest = &rest[count..];
        }
        Ok(())
    }
}

impl<W: Write> Watched<W> {
    // Writes one byte at least.
    fn put_some(&mut self, bytes: &[u8]) -> Result<usize, WriteFailed>
        requires { 0 < length bytes.now }
        ensures count { IfOk result (λ n. (0 < n) × (n ≤ length bytes.now)) }
        ensures ok { IfOk result
            (λ n. Appends (W.contents self.old.stream) (W.contents self.new.stream) (take n bytes.now)) }
        ensures err { OnErr result (Keeps (W.contents self.old.stream) (W.contents self.new.stream)) }
        ensures fails { self.new.has_failed ≡ (self.old.has_failed || is_err result) }
    {
        for _ in 0..u64::MAX {
            match self.stream.write(bytes) {
                Ok(count) => {
                    if count > 0 {
                        return Ok(count);
                    }
                    break;
                }
                Err(error) => {
                    if error.kind() != ErrorKind::Interrupted {
                        break;
                    }
                }
            }
        }
        self.has_failed = true;
        Err(WriteFailed)
    }
}
