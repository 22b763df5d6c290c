// A source read to its end, and a piece written whole.
ghost use Rattle.std.specs.Prelude.{◌≡◌, ◌≤◌, ℕ, length, take, IfOk, OnOk, OnErr, IsErrOf, Option, List, [], ◌<◌, vec_len};
ghost use Rattle.office_base.specs.Outside.{Fails, Rose, Took, IsAtEnd, TookMore, Appends};
ghost use Rattle.office_base.specs.declared.whole.ReadFault.TheVariants.{Failed as SourceFailed, TooLong, OutOfMemory as NoMemory};

use crate::{Failed, OutOfMemory, Sink, Source, Text};
use std::alloc::{AllocError, Global};

/// Why a source was not read to its end.
#[derive(Clone, Copy, Debug, PartialEq, Eq, thiserror::Error)]
pub enum ReadFault {
    /// The source failed: its count of faults rose.
    #[error("the source failed")]
    Failed,
    /// The source gives more bytes than the limit.
    #[error("too long")]
    TooLong,
    /// Memory for the bytes ran out.
    #[error("out of memory")]
    OutOfMemory,
}

impl From<Failed> for ReadFault {
    ghost from_gives = { λ _ fault. fault ≡ SourceFailed };

    fn from(_: Failed) -> Self {
        ReadFault::Failed
    }
}

impl From<OutOfMemory> for ReadFault {
    ghost from_gives = { λ _ fault. fault ≡ NoMemory };

    fn from(_: OutOfMemory) -> Self {
        ReadFault::OutOfMemory
    }
}

impl From<AllocError> for ReadFault {
    ghost from_gives = { λ _ fault. fault ≡ NoMemory };

    fn from(_: AllocError) -> Self {
        ReadFault::OutOfMemory
    }
}

// How many bytes one read asks for.
const BUFFER_LEN: usize = 65_536;

// Returns that many zero bytes.
fn zeros(alloc: Global, len: usize) -> Result<Vec<u8>, AllocError>
    ensures { IfOk result (λ bytes. vec_len bytes ≡ len) }
{
    vec![in alloc; 0u8; len]
}

// Puts the bytes of a source into `bytes`, up to its end, by way of the buffer.
fn read_through<S: Source>(
    mut bytes: Text,
    source: &mut S,
    buffer: &mut [u8],
    limit: usize,
) -> Result<Text, ReadFault>
    requires none { bytes ≡ [] }
    requires room { 0 < length buffer.old }
    ensures taken { IfOk result (λ all. Took all (S.left source.old) (S.left source.new)) }
    ensures ended { IfOk result (λ all. IsAtEnd (S.left source.new)) }
    ensures short { IfOk result (λ all. length all ≤ limit) }
    ensures too_long { IsErrOf result ReadFault.TooLong
        → TookMore limit (S.left source.old) (S.left source.new) }
    ensures blamed { Fails (IsErrOf result ReadFault.Failed)
        (S.faults source.old) (S.faults source.new) }
{
    loop {
        let count = source.read(buffer)?;
        if count == 0 {
            return Ok(bytes);
        }
        if count > limit - bytes.len() {
            return Err(ReadFault::TooLong);
        }
        bytes.extend_from_slice(&buffer[..count])?;
    }
}

/// Returns the bytes of a source up to its end, at most `limit` of them. It keeps at most `limit` bytes and one buffer.
/// It stops at the first failure: unless it returns `Failed`, the source did not fail.
pub fn read_whole<S: Source>(alloc: Global, source: &mut S, limit: usize) -> Result<Text, ReadFault>
    ensures taken { IfOk result (λ bytes. Took bytes (S.left source.old) (S.left source.new)) }
    ensures ended { IfOk result (λ bytes. IsAtEnd (S.left source.new)) }
    ensures short { IfOk result (λ bytes. length bytes ≤ limit) }
    ensures too_long { IsErrOf result ReadFault.TooLong
        → TookMore limit (S.left source.old) (S.left source.new) }
    ensures blamed { Fails (IsErrOf result ReadFault.Failed)
        (S.faults source.old) (S.faults source.new) }
{
    let mut buffer = zeros(alloc, BUFFER_LEN)?;
    read_through(Text::new(alloc), source, &mut buffer, limit)
}

/// Writes a piece whole. After an `Err` a prefix of it was written. It stops at the first failure:
/// if it returns `Ok`, the sink did not fail.
pub fn write_whole<K: Sink>(sink: &mut K, piece: &[u8]) -> Result<(), Failed>
    ensures ok { OnOk result (Appends piece.now (K.written sink.old) (K.written sink.new)) }
    ensures err { OnErr result ((n : ℕ)
        × Appends (take n piece.now) (K.written sink.old) (K.written sink.new)) }
    ensures cause { OnErr result (Rose (K.faults sink.old) (K.faults sink.new)) }
    ensures count { K.faults sink.old ≤ K.faults sink.new }
    ensures steady { OnOk result (K.faults sink.new ≡ K.faults sink.old) }
{
    let mut rest = piece;
    while !rest.is_empty() {
        let count = sink.write(rest)?;
        (_, rest) = rest.split_at(count);
    }
    Ok(())
}
