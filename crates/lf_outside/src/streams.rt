ghost use Rattle.std.specs.Prelude.{◌≡◌, ◌<◌, ℕ, List, Option, length, IfOk};
ghost use Rattle.std.specs.Io.{ReadsAtMost, WritesAtMost};
ghost use Rattle.std.specs.Io.KnownBytes.{ReadConsumes, WriteAppends};
ghost use Rattle.lf_outside.specs.Causes.{HasCause};

/// A call to the outside failed, and moved nothing.
#[derive(Clone, Copy, Debug, PartialEq, Eq)]
pub struct Failed;

/// Where bytes come from.
pub trait Source {
    /// The bytes that are left, where the source tells them.
    ghost left: { Self → Option (List ℕ) };

    /// How many calls have failed. The number never falls, and saturates at 2^64 - 1.
    ghost faults: { Self → ℕ };

    /// Moves the next bytes to the start of a buffer that isn't empty, and answers
    /// how many. `Ok(0)` is the end of input. `Failed` comes only where `faults`
    /// rose, or stood at its last value, and leaves the bytes as they were. `Ok`
    /// leaves `faults` as it was.
    fn read(&mut self, buffer: &mut [u8]) -> Result<usize, Failed>
        requires { 0 < length buffer.old }
        ensures bound { ReadsAtMost result buffer.new }
        ensures bytes { ReadConsumes (left self.old) (left self.new) result buffer.new }
        ensures cause { HasCause (faults self.old) (faults self.new) result };
}

/// Where bytes go.
pub trait Sink {
    /// The bytes that are held, where the sink tells them.
    ghost held: { Self → Option (List ℕ) };

    /// How many calls have failed. The number never falls, and saturates at 2^64 - 1.
    ghost faults: { Self → ℕ };

    /// Takes bytes from the start of a piece that isn't empty, and answers how many,
    /// at least one. `Failed` comes only where `faults` rose, or stood at its last
    /// value, and nothing was taken then. `Ok` leaves `faults` as it was.
    fn write(&mut self, bytes: &[u8]) -> Result<usize, Failed>
        requires { 0 < length bytes.now }
        ensures bound { WritesAtMost result bytes.now }
        ensures some { IfOk result (λ n. 0 < n) }
        ensures bytes { WriteAppends (held self.old) (held self.new) result bytes.now }
        ensures cause { HasCause (faults self.old) (faults self.new) result };
}
