ghost use Rattle.std.specs.Prelude.{◌≡◌};

use crate::streams::{Failed, Source};
use std::io::Read;

/// A reader of std as a source. It tells of its bytes what the reader tells, and its
/// count of faults rises where it fails. That it fails where the reader does, and only
/// there, is in no clause: std's reader tells nothing of its errors.
#[derive(Drop)]
pub struct ReadSource<R: Read> {
    inner: R,
    faults: u64,
}

impl<R: Read> ReadSource<R> {
    ghost use Rattle.lf_outside.specs.Adapters.{reader_of, read_faults};

    /// A source whose count of faults begins at 0.
    pub fn new(inner: R) -> ReadSource<R>
        ensures reader { reader_of result ≡ inner }
        ensures faults { read_faults result ≡ 0 }
    {
        ReadSource { inner, faults: 0 }
    }
}

impl<R: Read> Source for ReadSource<R> {
    ghost left = { λ s. R.remaining s.inner };

    ghost faults = { λ s. s.faults };

    fn read(&mut self, buffer: &mut [u8]) -> Result<usize, Failed> {
        match self.inner.read(buffer) {
            Ok(count) => Ok(count),
            Err(_) => {
                self.faults = self.faults.saturating_add(1);
                Err(Failed)
            }
        }
    }
}
