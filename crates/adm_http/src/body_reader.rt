// The body of a request as a reader, which never fails.
ghost use Rattle.std.specs.Prelude.{Some, false};

use adm_wire::{Input, ReadFailed};
use std::io::Read;

/// What is left to read of a body.
#[derive(Drop)]
pub(crate) struct BodyReader<'a> {
    pub(crate) bytes: &'a [u8],
}

impl Input for BodyReader<'_> {
    ghost remaining = { λ reader. Some reader.bytes.now };

    ghost has_failed = { λ _. false };

    fn read_some(&mut self, buffer: &mut [u8]) -> Result<usize, ReadFailed> {
        let Ok(count) = self.bytes.read(buffer) else {
            unreachable!()
        };
        Ok(count)
    }
}
