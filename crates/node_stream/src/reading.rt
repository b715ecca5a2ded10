//! A frame is read.
ghost use Rattle.std.specs.Prelude.{◌≡◌, ◌≢◌, ◌≤◌, ◌<◌, ◌+◌, ◌++◌, [], List, ℕ, length, IfOk, OnErr, OnOk, vec_len, vec_capacity};
ghost use Rattle.std.specs.Io.KnownBytes.{Consumes, IsAtEnd};
ghost use Rattle.byte_streams.specs.Faults.{Rose};
ghost use Rattle.node_stream.specs.Layout.{length_at};
ghost use Rattle.node_stream.specs.Reading.{IsRead};

use crate::frame::length_at;
use byte_streams::{Failed, Source};

/// The bytes of a head.
pub(crate) const HEAD: usize = 3;

/// What came of a frame.
#[derive(Clone, Copy, Debug, PartialEq, Eq)]
pub enum Read {
    /// All of it.
    Whole,
    /// A part of it, or nothing: the input is at its end.
    Ended,
    /// A part of it, or nothing: a call of the source failed.
    Failed,
    /// A part of it, or all: more bytes than may come.
    Long,
}

/// Reads a frame in place of what `frame` holds, which has room for one. No byte behind it is asked for, and no more than `piece` has
/// room for at a time. Nothing more is asked for once more than `most` bytes came.
///
/// `Failed` comes only where the source's count of faults rose in this call, or stands at its last value.
pub(crate) fn read_frame<S: Source>(
    source: &mut S,
    piece: &mut [u8],
    most: u64,
    frame: &mut Vec<u8>,
) -> Read
    requires piece { 0 < length piece.old }
    requires room { 65538 ≤ vec_capacity frame.old }
    ensures took { Consumes (S.left source.old) (S.left source.new) frame.new.items }
    ensures read { IsRead most (length piece.old) result frame.new.items (S.left source.new) }
    ensures most { vec_len frame.new ≤ 65538 }
    ensures room { 65538 ≤ vec_capacity frame.new }
    ensures piece { length piece.new ≡ length piece.old }
    ensures fault { result ≡ Read.Failed → Rose (S.faults source.old) (S.faults source.new) }
    ensures no_fault { result ≢ Read.Failed → S.faults source.new ≡ S.faults source.old }
    ensures later { S.faults source.old ≤ S.faults source.new }
{
    frame.clear();
    loop {
        let wanted = wanted(frame.as_slice());
        if frame.len() == wanted {
            return Read::Whole;
        }
        match read_piece(source, piece, frame, wanted) {
            Ok(0) => return Read::Ended,
            Ok(_) => {}
            Err(_) => return Read::Failed,
        }
        if frame.len() as u64 > most {
            return Read::Long;
        }
    }
}

// How many bytes a frame has that begins so, as far as that is known: the head first.
fn wanted(front: &[u8]) -> usize
    ensures head { length front.now < 3 → result ≡ 3 }
    ensures all { 3 ≤ length front.now → result ≡ 3 + length_at front.now }
    ensures most { result ≤ 65538 }
    ensures some { 3 ≤ result }
{
    if front.len() < HEAD {
        return HEAD;
    }
    HEAD + length_at(front)
}

// Takes a piece, and adds it to the frame, up to so many bytes.
fn read_piece<S: Source>(
    source: &mut S,
    piece: &mut [u8],
    frame: &mut Vec<u8>,
    wanted: usize,
) -> Result<usize, Failed>
    requires piece { 0 < length piece.old }
    requires less { vec_len frame.old < wanted }
    requires room { wanted ≤ vec_capacity frame.old }
    ensures read { IfOk result (λ n.
        (bs : List ℕ) × Consumes (S.left source.old) (S.left source.new) bs
        × (frame.new.items ≡ frame.old.items ++ bs) × (n ≡ length bs)) }
    ensures most { vec_len frame.new ≤ wanted }
    ensures few { vec_len frame.new ≤ vec_len frame.old + length piece.old }
    ensures end { IfOk result (λ n. n ≡ 0 → IsAtEnd (S.left source.new)) }
    ensures stopped { OnErr result (Consumes (S.left source.old) (S.left source.new) []) }
    ensures kept { OnErr result (frame.new.items ≡ frame.old.items) }
    ensures room { vec_capacity frame.old ≤ vec_capacity frame.new }
    ensures piece { length piece.new ≡ length piece.old }
    ensures fault { OnErr result (Rose (S.faults source.old) (S.faults source.new)) }
    ensures no_fault { OnOk result (S.faults source.new ≡ S.faults source.old) }
    ensures later { S.faults source.old ≤ S.faults source.new }
{
    let room = piece.len().min(wanted - frame.len());
    let part = &mut piece[..room];
    let count = source.take(part)?;
    let _ = frame.extend_from_slice(&part[..count]);
    Ok(count)
}
