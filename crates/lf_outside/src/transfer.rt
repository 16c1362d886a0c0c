ghost use Rattle.std.specs.Prelude.{flat_map, ◌≡◌, ◌≤◌, ◌<◌, ◌+◌, ◌++◌, ◌-◌, ◌^◌, ℕ, List, length, take, drop, vec_len, IfOk, IsErrOf, OnErr, OnOk};
ghost use Rattle.std.specs.Io.KnownBytes.{Appends, Consumes, IsAtEnd, Keeps};
ghost use Rattle.lf_outside.specs.Causes.{HasCause, Rose};
ghost use Rattle.lf_outside.specs.Streams.{stream_of};
ghost use Rattle.lf_outside.specs.Transfer.{Writes, ConsumesUpTo, ConsumesSome, AppendsPrefix};

use crate::streams::{Failed, Sink, Source};
use std::alloc::{AllocError, Global};

/// The most bytes that one call asks of a source.
const PIECE: usize = 65_536;

/// Why a source wasn't read to its end.
#[derive(Clone, Copy, Debug, PartialEq, Eq)]
pub enum ReadStop {
    /// A call failed.
    Fault,
    /// One byte more than the most was read.
    TooLong,
    /// There was no memory for the bytes, and the source wasn't asked. No clause says
    /// when that comes.
    OutOfMemory,
}

// A buffer of so many bytes.
fn make_buffer(alloc: Global, len: usize) -> Result<Vec<u8>, AllocError>
    ensures { IfOk result (λ buffer. vec_len buffer ≡ len) }
{
    vec![in alloc; 0u8; len]
}

// Reads the next bytes into a buffer from a place on, in one call for at most a piece.
fn read_piece<S: Source>(source: &mut S, buffer: &mut [u8], at: usize) -> Result<usize, Failed>
    requires { at < length buffer.old }
    ensures within { IfOk result (λ n. at + n ≤ length buffer.new) }
    ensures bytes { IfOk result (λ n. (bs : List ℕ) × (take (at + n) buffer.new ≡ take at buffer.old ++ bs)
        × Consumes (S.left source.old) (S.left source.new) bs) }
    ensures end { IfOk result (λ n. n ≡ 0 → IsAtEnd (S.left source.new)) }
    ensures unchanged { OnErr result (Keeps (S.left source.old) (S.left source.new)) }
    ensures cause { HasCause (S.faults source.old) (S.faults source.new) result }
{
    let len = (buffer.len() - at).min(PIECE);
    source.read(&mut buffer[at..at + len])
}

// Fills a buffer from its start, until it is full or the source is at its end.
fn fill<S: Source>(source: &mut S, buffer: &mut [u8]) -> Result<usize, Failed>
    ensures within { IfOk result (λ n. n ≤ length buffer.new) }
    ensures bytes { IfOk result (λ n. Consumes (S.left source.old) (S.left source.new) (take n buffer.new)) }
    ensures end { IfOk result (λ n. n < length buffer.new → IsAtEnd (S.left source.new)) }
    ensures failed { OnErr result (ConsumesUpTo (length buffer.new - 1) (S.left source.old) (S.left source.new)) }
    ensures cause { HasCause (S.faults source.old) (S.faults source.new) result }
{
    let mut at = 0;
    while at < buffer.len() {
        match read_piece(source, buffer, at) {
            Ok(0) => break,
            Ok(count) => at += count,
            Err(failed) => return Err(failed),
        }
    }
    Ok(at)
}

/// Reads a source to its end, or until it gave one byte more than the most that is
/// wanted.
pub fn read_all<S: Source>(alloc: Global, source: &mut S, most: usize) -> Result<Vec<u8>, ReadStop>
    requires { most < 2 ^ 32 }
    ensures length { IfOk result (λ v. length v.items ≤ most) }
    ensures bytes { IfOk result (λ v. Consumes (S.left source.old) (S.left source.new) v.items) }
    ensures end { OnOk result (IsAtEnd (S.left source.new)) }
    ensures kept { OnOk result (S.faults source.new ≡ S.faults source.old) }

    // A fault comes only where the count rose, after at most `most` bytes.
    ensures fault { IsErrOf result ReadStop.Fault → Rose (S.faults source.old) (S.faults source.new) }
    ensures fault_bytes { IsErrOf result ReadStop.Fault → ConsumesUpTo most (S.left source.old) (S.left source.new) }

    // It is too long exactly where one byte more than `most` was read.
    ensures too_long { IsErrOf result ReadStop.TooLong → ConsumesSome (most + 1) (S.left source.old) (S.left source.new) }
    ensures too_long_kept { IsErrOf result ReadStop.TooLong → S.faults source.new ≡ S.faults source.old }
    ensures memory { IsErrOf result ReadStop.OutOfMemory → source.new ≡ source.old }
{
    let Ok(mut bytes) = make_buffer(alloc, most + 1) else {
        return Err(ReadStop::OutOfMemory);
    };
    let Ok(count) = fill(source, bytes.as_mut_slice()) else {
        return Err(ReadStop::Fault);
    };
    if count > most {
        return Err(ReadStop::TooLong);
    }
    bytes.truncate(count);
    Ok(bytes)
}

/// Writes all bytes to a sink, in their order. `Failed` comes only where the sink's
/// faults rose, and the sink then took a prefix of the bytes.
pub fn write_all<K: Sink>(sink: &mut K, bytes: &[u8]) -> Result<(), Failed>
    ensures all { OnOk result (Appends (K.held sink.old) (K.held sink.new) bytes.now) }
    ensures prefix { OnErr result (AppendsPrefix bytes.now (K.held sink.old) (K.held sink.new)) }
    ensures cause { HasCause (K.faults sink.old) (K.faults sink.new) result }
{
    let mut at = 0;
    while at < bytes.len() {
        match sink.write(&bytes[at..]) {
            Ok(count) => at += count,
            Err(failed) => return Err(failed),
        }
    }
    Ok(())
}

/// Writes parts to a sink, one after another. `Failed` comes only where the sink's faults
/// rose, and the sink then took a prefix of the bytes of all parts.
pub fn write_parts<K: Sink>(sink: &mut K, parts: &[&[u8]]) -> Result<(), Failed>
    ensures { Writes (flat_map (λ part. part.now) parts.now) (stream_of K.held K.faults sink.old)
        (stream_of K.held K.faults sink.new) result }
{
    for part in parts {
        write_all(sink, part)?;
    }
    Ok(())
}
