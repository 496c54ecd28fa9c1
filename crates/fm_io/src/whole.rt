//! A whole source into memory, and a whole text to a sink.

ghost use Rattle.std.specs.Prelude.{◌≡◌, ◌+◌, ◌<◌, ◌≤◌, length, IfOk, OnOk, IfSome};
ghost use Rattle.std.specs.Io.KnownBytes.{Consumes, Appends, IsAtEnd};
ghost use Rattle.fm_io.specs.Causes.{HasCause, Rose};
ghost use Rattle.fm_io.specs.Streams.{TakesAtMost, WritesFront};

use crate::sink::Sink;
use crate::source::Source;
use std::alloc::Global;
use thiserror::Error;

/// Why a source wasn't read to its end.
#[derive(Clone, Copy, Debug, Drop, PartialEq, Eq, Error)]
pub enum ReadFail {
    /// The source failed.
    #[error("the source failed")]
    Fault,
    /// More bytes came than the limit allows.
    #[error("the source is too long")]
    TooLong,
    /// Memory was asked for and not found.
    #[error("no memory was found")]
    NoMemory,
}

/// The sink failed.
#[derive(Clone, Copy, Debug, Drop, PartialEq, Eq, Error)]
#[error("the sink failed")]
pub struct WriteFail;

/// The most bytes that one read asks for.
const PIECE: usize = 4096;

/// Reads to the end, and takes at most `limit + 1` bytes. `Fault` comes only where the count of faults
/// rose, `TooLong` exactly where more than `limit` bytes come.
pub fn read_all<S: Source>(alloc: Global, source: &mut S, limit: usize) -> Result<Vec<u8>, ReadFail>
    ensures taken { IfOk result (λ v. Consumes (S.left source.old) (S.left source.new) v.items) }
    ensures whole { IfOk result (λ v. IfSome (S.left source.old) (λ bytes. v.items ≡ bytes)) }
    ensures end { OnOk result (IsAtEnd (S.left source.new)) }
    ensures within { IfOk result (λ v. length v.items ≤ limit) }
    ensures too_long { result ≡ Err ReadFail.TooLong → IfSome (S.left source.old) (λ bytes. limit < length bytes) }
    ensures fault { result ≡ Err ReadFail.Fault → Rose (S.faults source.old) (S.faults source.new) }
    ensures later { S.faults source.old ≤ S.faults source.new }
    ensures most { TakesAtMost (S.left source.old) (S.left source.new) (limit + 1) }
{
    let mut bytes = Vec::new(alloc);
    let mut buf = [0u8; PIECE];
    'pieces: while bytes.len() <= limit {
        let room = (limit - bytes.len()).min(PIECE - 1) + 1;
        let count = match source.read(&mut buf[..room]) {
            Ok(count) => count,
            Err(_) => return Err(ReadFail::Fault),
        };
        if count == 0 {
            return Ok(bytes);
        }
        if bytes.extend_from_slice(&buf[..count]).is_err() {
            return Err(ReadFail::NoMemory);
        }
    }
    Err(ReadFail::TooLong)
}

/// Writes all and flushes. Fails only where the count of faults rose; what was written is then a front
/// of the bytes. Takes no memory.
pub fn write_all<K: Sink>(sink: &mut K, bytes: &[u8]) -> Result<(), WriteFail>
    ensures whole { OnOk result (Appends (K.written sink.old) (K.written sink.new) bytes.now) }
    ensures flushed { OnOk result (K.flushed sink.new) }
    ensures front { WritesFront (K.written sink.old) (K.written sink.new) bytes.now }
    ensures cause { HasCause (K.faults sink.old) (K.faults sink.new) result }
{
    let mut rest = bytes;
    'pieces: while !rest.is_empty() {
        match sink.write(rest) {
            Ok(0) => return Err(WriteFail),
            Ok(count) => {
                let (_, after) = rest.split_at(count);
                rest = after;
            }
            Err(_) => return Err(WriteFail),
        }
    }
    match sink.flush() {
        Ok(()) => Ok(()),
        Err(_) => Err(WriteFail),
    }
}
