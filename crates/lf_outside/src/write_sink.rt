ghost use Rattle.std.specs.Prelude.{◌≡◌};

use crate::streams::{Failed, Sink};
use std::io::Write;

/// A writer of std as a sink. It tells of its bytes what the writer tells, and its
/// count of faults rises where it fails. That it fails where the writer does or takes
/// nothing, and only there, is in no clause: std's writer tells nothing of its errors.
#[derive(Drop)]
pub struct WriteSink<W: Write> {
    inner: W,
    faults: u64,
}

impl<W: Write> WriteSink<W> {
    ghost use Rattle.lf_outside.specs.Adapters.{writer_of, write_faults};

    /// A sink whose count of faults begins at 0.
    pub fn new(inner: W) -> WriteSink<W>
        ensures writer { writer_of result ≡ inner }
        ensures faults { write_faults result ≡ 0 }
    {
        WriteSink { inner, faults: 0 }
    }
}

impl<W: Write> Sink for WriteSink<W> {
    ghost held = { λ s. W.contents s.inner };

    ghost faults = { λ s. s.faults };

    // A writer that takes nothing has failed, though it doesn't say so.
    fn write(&mut self, bytes: &[u8]) -> Result<usize, Failed> {
        match self.inner.write(bytes) {
            Ok(count) if count > 0 => Ok(count),
            _ => {
                self.faults = self.faults.saturating_add(1);
                Err(Failed)
            }
        }
    }
}
