//! Reading an input to its end.
ghost use Rattle.std.specs.Prelude.{◌≡◌, ◌≤◌, ◌<◌, ◌+◌, ◌++◌, List, ℕ, length, IfOk, IfErr, OnOk, IsErrOf, vec_len};
ghost use Rattle.std.specs.Io.KnownBytes.{Consumes, IsAtEnd};
ghost use Rattle.byte_streams.specs.Faults.{Rose};
ghost use Rattle.byte_streams.specs.Reading.{most_bytes, CanEndAfter};

use crate::streams::Source;
use std::alloc::Global;
use thiserror::Error;

/// The most bytes of an input.
pub const MOST_BYTES: usize = 4_194_304;

// How many bytes are asked for at a time.
const PIECE: usize = 4096;

/// Why an input was not read to its end.
#[derive(Clone, Copy, Debug, PartialEq, Eq, Error)]
pub enum ReadErr {
    /// A call of the source failed.
    #[error("read fault")]
    Fault,
    /// The input has more than `MOST_BYTES` bytes.
    #[error("too long")]
    TooLong,
    /// Memory ran out.
    #[error("no memory")]
    NoMemory,
}

/// Reads what is left of a source to its end. At most `MOST_BYTES + 1` bytes are taken, at least one a turn.
///
/// `Fault` comes only where the source's count of faults rose in this call, or stands at its last value.
/// `TooLong` comes exactly where more than `MOST_BYTES` bytes were taken, unless memory for them ran out: that
/// is `NoMemory`.
pub fn read_all<S: Source>(alloc: Global, source: &mut S) -> Result<Vec<u8>, ReadErr>
    ensures read { IfOk result (λ bytes.
        Consumes (S.left source.old) (S.left source.new) bytes.items × (vec_len bytes ≤ most_bytes)) }
    ensures end { OnOk result (IsAtEnd (S.left source.new)) }
    ensures stopped { IfErr result (λ e.
        (bs : List ℕ) × Consumes (S.left source.old) (S.left source.new) bs × CanEndAfter (length bs) e) }
    ensures fault { IsErrOf result ReadErr.Fault → Rose (S.faults source.old) (S.faults source.new) }
    // No fault of the source is answered as anything else.
    ensures no_fault { (IsErrOf result ReadErr.Fault → ⊥) → S.faults source.new ≡ S.faults source.old }
    ensures later { S.faults source.old ≤ S.faults source.new }
{
    let mut bytes = Vec::new(alloc);
    let mut piece = [0u8; PIECE];
    while read_piece(source, &mut piece, &mut bytes)? > 0 {
        if bytes.len() > MOST_BYTES {
            return Err(ReadErr::TooLong);
        }
    }
    Ok(bytes)
}

// Takes one piece, and adds it to what was read. It takes no byte past the first that is too many.
fn read_piece<S: Source>(
    source: &mut S,
    piece: &mut [u8],
    bytes: &mut Vec<u8>,
) -> Result<usize, ReadErr>
    requires piece { 0 < length piece.old }
    requires room { vec_len bytes.old ≤ most_bytes }
    ensures read { IfOk result (λ n.
        (bs : List ℕ) × Consumes (S.left source.old) (S.left source.new) bs
        × (bytes.new.items ≡ bytes.old.items ++ bs) × (n ≡ length bs)) }
    ensures most { vec_len bytes.new ≤ most_bytes + 1 }
    ensures end { IfOk result (λ n. n ≡ 0 → IsAtEnd (S.left source.new)) }
    ensures stopped { IfErr result (λ e.
        (bs : List ℕ) × Consumes (S.left source.old) (S.left source.new) bs
        × CanEndAfter (length (bytes.old.items ++ bs)) e) }
    ensures fault { IsErrOf result ReadErr.Fault → Rose (S.faults source.old) (S.faults source.new) }
    ensures no_fault { (IsErrOf result ReadErr.Fault → ⊥) → S.faults source.new ≡ S.faults source.old }
    ensures later { S.faults source.old ≤ S.faults source.new }
{
    let room = piece.len().min(MOST_BYTES + 1 - bytes.len());
    let part = &mut piece[..room];
    match source.take(part) {
        Ok(count) => match bytes.extend_from_slice(&part[..count]) {
            Ok(()) => Ok(count),
            Err(_) => Err(ReadErr::NoMemory),
        },
        Err(_) => Err(ReadErr::Fault),
    }
}
