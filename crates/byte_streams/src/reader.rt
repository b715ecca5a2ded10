//! A reader of lines.
ghost use Rattle.std.specs.Prelude.{◌≡◌, ◌≢◌, ◌⊎◌, ◌≤◌, ◌<◌, ◌+◌, ◌==◌, ◌++◌, ◌∷◌, [], List, ℕ, length, position, None, Some, is_some, IfOk, OnErr, OnOk, drop, vec_len, vec_capacity};
ghost use Rattle.std.specs.Io.KnownBytes.{Consumes, IsAtEnd, Keeps, prepend_known};
ghost use Rattle.byte_streams.specs.Faults.{Rose};
ghost use Rattle.byte_streams.specs.Reading.{most_bytes};
ghost use Rattle.script_words.specs.Lines.{text_lines, line_number};
ghost use Rattle.byte_streams.specs.Streams.{Cuts, GivesLine, HasFeed, HasNoFeed, HasNoLine, Held, IsBounded, IsCounted, IsLong, IsOpenOrLast, IsPart, at_first};

use crate::answer::NextLine;
use crate::reading::MOST_BYTES;
use crate::streams::{Failed, Source};
use rsvp_base::NoMemory;
use std::alloc::Global;
use std::marker::Model;

/// The most bytes of a line, its line feed not counted.
pub const MOST_LINE: usize = 2048;

// How many bytes are asked for at a time.
const PIECE: usize = 4096;

/// A reader of lines. All its memory is taken at the opening. Contracts see the bytes that it took and has not given, the
/// line that it gave last with its number, how many bytes it took, and how its lines ended.
#[derive(Drop)]
pub struct LineReader {
    // Bytes that were taken; those before `at` were given.
    kept: Vec<u8>,
    at: usize,
    piece: Vec<u8>,
    line: Vec<u8>,
    number: u32,
    // How many bytes were taken in all.
    taken: usize,
    // The answer behind which no line comes.
    ended: Option<NextLine>,
}

impl Model for LineReader {
    ghost use Rattle.std.specs.Prelude.{◌≡◌, ◌≤◌, drop, vec_len, vec_capacity, length};
    ghost use Rattle.byte_streams.specs.Streams.{Held, IsRoomy, IsWithinInput};

    ghost Value = { Held };

    ghost view = { λ r. record { bytes = drop r.at r.kept.items; line = r.line.items; number = r.number; taken = r.taken; ended = r.ended } };

    ghost invariant = { λ r. IsRoomy r.at (vec_len r.kept) (vec_capacity r.kept) (vec_capacity r.line) (vec_len r.piece) × (length r.line.items ≤ 2048) × IsWithinInput r.taken r.ended };
}

// What stands at the front of what was taken.
#[derive(Clone, Copy, PartialEq, Eq)]
enum Front {
    Line,
    Long,
    // No whole line yet.
    Part,
}

impl LineReader {
    /// A reader that took nothing yet. `NoMemory`: its memory could not be had.
    pub fn open(alloc: Global) -> Result<LineReader, NoMemory>
        ensures { IfOk result (λ r. r ≡ at_first) }
    {
        let kept = room(alloc, MOST_LINE + PIECE)?;
        let line = room(alloc, MOST_LINE)?;
        let piece = blank(alloc)?;
        Ok(LineReader {
            kept,
            at: 0,
            piece,
            line,
            number: 0,
            taken: 0,
            ended: None,
        })
    }

    /// The line that was given last.
    pub fn line(&self) -> &[u8]
        ensures line { result.now ≡ self.now.line }
        ensures short { length self.now.line ≤ 2048 }
    {
        self.line.as_slice()
    }

    /// The number of the line that was given last or found too long, from 1; it stands still at 2^32 - 1.
    pub fn number(&self) -> u32
        ensures { result ≡ self.now.number }
    {
        self.number
    }

    /// Whether a line feed is among the bytes that were taken and not given: `next` then asks the source for nothing.
    pub fn has_line(&self) -> bool
        ensures { result ≡ is_some (position (λ c. c == 10) self.now.bytes) }
    {
        find(behind(&self.kept, self.at)).is_some()
    }

    /// The next line of what is left of the source, which then stands in `line`. The source is asked only where no whole
    /// line is kept, for 4,096 bytes or the fewer up to the 4,194,304th; and for one more only where every whole line of
    /// those was given. Where it answered that nothing is left it is not asked again.
    ///
    /// `Long`: more than 2,048 bytes of the next line were taken. `End`: the source is at its end and all lines were given.
    /// `Fault`: a call of the source failed. `TooLong`: a 4,194,305th byte was taken. After any of these it answers the same
    /// again.
    pub fn next<S: Source>(&mut self, source: &mut S) -> NextLine
        ensures line { result ≡ NextLine.Line → GivesLine (prepend_known self.old.bytes (S.left source.old)) (prepend_known self.new.bytes (S.left source.new)) self.new.line }
        ensures long { result ≡ NextLine.Long → self.old.ended ≡ None → IsLong 2048 (prepend_known self.old.bytes (S.left source.old)) }
        ensures end { result ≡ NextLine.End → self.old.ended ≡ None → HasNoLine (prepend_known self.old.bytes (S.left source.old)) × IsAtEnd (S.left source.new) }
        ensures fault { result ≡ NextLine.Fault → self.old.ended ≡ None → Rose (S.faults source.old) (S.faults source.new) }
        // No fault of the source is answered as anything else.
        ensures no_fault { result ≢ NextLine.Fault → S.faults source.new ≡ S.faults source.old }
        ensures later { S.faults source.old ≤ S.faults source.new }
        // Bytes are counted as they are taken. More than an input may have are one too many, and are found so exactly then.
        ensures counted { IsCounted (S.left source.old) (S.left source.new) self.old.taken self.new.taken }
        ensures too_long { result ≡ NextLine.TooLong → self.new.taken ≡ most_bytes + 1 }
        ensures within { result ≢ NextLine.TooLong → self.new.taken ≤ most_bytes }
        // What it kept, and what it took of the source, are the line with its line feed, and what it keeps; or the line that is the
        // last, and lacks it. Where it gives no line it keeps all, and no whole line is among that, unless the first is too long.
        ensures cut { self.old.ended ≡ None → Cuts (S.left source.old) (S.left source.new) self.old result self.new }
        // Where a line feed is kept the source is not asked: a line comes, or one that is too long.
        ensures asked { self.old.ended ≡ None → HasFeed self.old.bytes → (source.new ≡ source.old) × ((result ≡ NextLine.Line) ⊎ (result ≡ NextLine.Long)) }
        // From the first byte of the line on at most 8,192 bytes were taken, its line feed counted.
        ensures few { length self.new.line + length self.new.bytes ≤ 8192 }
        ensures near { result ≡ NextLine.Line → length self.new.line + length self.new.bytes < 8192 }
        ensures number { self.old.ended ≡ None → (result ≡ NextLine.Line) ⊎ (result ≡ NextLine.Long) → self.new.number ≡ line_number self.old.number }
        // Behind an answer that is no line, it answers the same again; behind a line that lacks its line feed it answers `End`.
        ensures open { result ≡ NextLine.Line → IsOpenOrLast self.new.ended }
        ensures last { result ≡ NextLine.Line → self.new.ended ≡ Some NextLine.End → IsAtEnd (S.left source.new) × (self.new.bytes ≡ []) }
        ensures ended { result ≢ NextLine.Line → self.new.ended ≡ Some result }
        ensures again { self.old.ended ≢ None → (self.old.ended ≡ Some result) × (self.new ≡ self.old) × (source.new ≡ source.old) }
    {
        if let Some(answer) = self.ended {
            return answer;
        }
        self.look(source)
    }

    // The next line, where no answer ended them.
    fn look<S: Source>(&mut self, source: &mut S) -> NextLine
        requires open { self.old.ended ≡ None }
        ensures line { result ≡ NextLine.Line → GivesLine (prepend_known self.old.bytes (S.left source.old)) (prepend_known self.new.bytes (S.left source.new)) self.new.line }
        ensures long { result ≡ NextLine.Long → IsLong 2048 (prepend_known self.old.bytes (S.left source.old)) }
        ensures end { result ≡ NextLine.End → HasNoLine (prepend_known self.old.bytes (S.left source.old)) × IsAtEnd (S.left source.new) }
        ensures fault { result ≡ NextLine.Fault → Rose (S.faults source.old) (S.faults source.new) }
        ensures no_fault { result ≢ NextLine.Fault → S.faults source.new ≡ S.faults source.old }
        ensures later { S.faults source.old ≤ S.faults source.new }
        ensures counted { IsCounted (S.left source.old) (S.left source.new) self.old.taken self.new.taken }
        ensures cut { Cuts (S.left source.old) (S.left source.new) self.old result self.new }
        ensures asked { HasFeed self.old.bytes → (source.new ≡ source.old) × ((result ≡ NextLine.Line) ⊎ (result ≡ NextLine.Long)) }
        ensures number { (result ≡ NextLine.Line) ⊎ (result ≡ NextLine.Long) → self.new.number ≡ line_number self.old.number }
        ensures open { result ≡ NextLine.Line → IsOpenOrLast self.new.ended }
        ensures last { result ≡ NextLine.Line → self.new.ended ≡ Some NextLine.End → IsAtEnd (S.left source.new) × (self.new.bytes ≡ []) }
        ensures ended { result ≢ NextLine.Line → self.new.ended ≡ Some result }
        ensures near { result ≡ NextLine.Line → length self.new.line + length self.new.bytes < 8192 }
        ensures bounded { IsBounded self.new }
    {
        loop {
            match self.front() {
                Front::Line => return NextLine::Line,
                Front::Long => return self.end_with(NextLine::Long),
                Front::Part => match self.take_more(source) {
                    Ok(0) => return self.last(),
                    Ok(_) => {
                        if let Some(answer) = self.ended {
                            return answer;
                        }
                    }
                    Err(_) => return self.end_with(NextLine::Fault),
                },
            }
        }
    }

    // Gives the line at the front, where a whole one was taken.
    fn front(&mut self) -> Front
        ensures line { result ≡ Front.Line → (rest : List ℕ) → text_lines (self.old.bytes ++ rest) ≡ self.new.line ∷ text_lines (self.new.bytes ++ rest) }
        ensures whole { result ≡ Front.Line → (self.old.bytes ≡ self.new.line ++ 10 ∷ self.new.bytes) × HasNoFeed self.new.line }
        ensures near { result ≡ Front.Line → length self.new.line + length self.new.bytes < 8192 }
        ensures number { (result ≡ Front.Line) ⊎ (result ≡ Front.Long) → self.new.number ≡ line_number self.old.number }
        ensures same_number { result ≡ Front.Part → self.new.number ≡ self.old.number }
        ensures long { result ≡ Front.Long → (self.new.bytes ≡ self.old.bytes) × ((rest : List ℕ) → IsLong 2048 (Some (self.old.bytes ++ rest))) }
        ensures part { result ≡ Front.Part → (self.new.bytes ≡ self.old.bytes) × (position (λ c. c == 10) self.old.bytes ≡ None) × (length self.old.bytes ≤ 2048) }
        ensures taken { self.new.taken ≡ self.old.taken }
        ensures ended { self.new.ended ≡ self.old.ended }
        ensures bounded { IsBounded self.new }
    {
        let rest = behind(&self.kept, self.at);
        match find(rest) {
            Some(n) => {
                self.number = self.number.saturating_add(1);
                if n > MOST_LINE {
                    return Front::Long;
                }
                put(&mut self.line, &rest[..n]);
                self.at += n + 1;
                Front::Line
            }
            None => {
                if rest.len() > MOST_LINE {
                    self.number = self.number.saturating_add(1);
                    return Front::Long;
                }
                Front::Part
            }
        }
    }

    // What stands behind the last line feed, where the source is at its end.
    fn last(&mut self) -> NextLine
        requires short { length self.old.bytes ≤ 2048 }
        requires part { position (λ c. c == 10) self.old.bytes ≡ None }
        requires open { self.old.ended ≡ None }
        ensures line { result ≡ NextLine.Line → (text_lines self.old.bytes ≡ self.new.line ∷ []) × (self.new.bytes ≡ []) }
        ensures number { result ≡ NextLine.Line → self.new.number ≡ line_number self.old.number }
        ensures whole { result ≡ NextLine.Line → (self.new.line ≡ self.old.bytes) × (0 < length self.old.bytes) }
        ensures end { result ≡ NextLine.End → (text_lines self.old.bytes ≡ []) × (self.old.bytes ≡ []) × (self.new.bytes ≡ []) }
        ensures ended { self.new.ended ≡ Some NextLine.End }
        ensures others { (result ≡ NextLine.Line) ⊎ (result ≡ NextLine.End) }
        ensures taken { self.new.taken ≡ self.old.taken }
        ensures bounded { IsBounded self.new }
    {
        let rest = behind(&self.kept, self.at);
        if rest.is_empty() {
            return self.end_with(NextLine::End);
        }
        put(&mut self.line, rest);
        self.at = self.kept.len();
        self.number = self.number.saturating_add(1);
        self.ended = Some(NextLine::End);
        NextLine::Line
    }

    // Ends the lines with this answer.
    fn end_with(&mut self, answer: NextLine) -> NextLine
        requires open { self.old.ended ≡ None }
        requires no_line { answer ≢ NextLine.Line }
        requires other { answer ≢ NextLine.TooLong }
        ensures same { result ≡ answer }
        ensures ended { self.new ≡ record self.old { ended = Some answer } }
        ensures bounded { IsBounded self.new }
    {
        self.ended = Some(answer);
        answer
    }

    // Takes a piece more; where all bytes that an input may have were taken, one byte, which shows that there are more.
    fn take_more<S: Source>(&mut self, source: &mut S) -> Result<usize, Failed>
        requires short { length self.old.bytes ≤ 2048 }
        requires open { self.old.ended ≡ None }
        ensures read { IfOk result (λ n. (bs : List ℕ) × Consumes (S.left source.old) (S.left source.new) bs
            × (self.new.bytes ≡ self.old.bytes ++ bs) × (n ≡ length bs) × (self.new.taken ≡ self.old.taken + length bs)) }
        ensures end { IfOk result (λ n. n ≡ 0 → IsAtEnd (S.left source.new) × (self.new.ended ≡ None)) }
        ensures many { IfOk result (λ n. (self.new.ended ≡ None) ⊎ ((self.new.ended ≡ Some NextLine.TooLong) × (n ≡ 1))) }
        ensures number { self.new.number ≡ self.old.number }
        ensures no_fault { OnOk result (S.faults source.new ≡ S.faults source.old) }
        ensures failed { OnErr result ((self.new ≡ self.old) × Keeps (S.left source.old) (S.left source.new) × Rose (S.faults source.old) (S.faults source.new)) }
        ensures later { S.faults source.old ≤ S.faults source.new }
        ensures bounded { IsBounded self.new }
    {
        pack(&mut self.kept, self.at);
        self.at = 0;
        let room = asked(self.taken);
        let count = take_piece(source, &mut self.piece, &mut self.kept, room)?;
        self.taken += count;
        if self.taken > MOST_BYTES {
            self.ended = Some(NextLine::TooLong);
        }
        Ok(count)
    }
}

// How many bytes are asked for behind so many.
fn asked(taken: usize) -> usize
    requires { taken ≤ most_bytes }
    ensures some { 0 < result }
    ensures few { result ≤ 4096 }
    ensures within { taken + result ≤ most_bytes + 1 }
    ensures last { most_bytes < taken + result → taken ≡ most_bytes }
{
    if taken == MOST_BYTES {
        return 1;
    }
    PIECE.min(MOST_BYTES - taken)
}

// Takes at most so many bytes, and adds them to those that are kept.
fn take_piece<S: Source>(
    source: &mut S,
    piece: &mut [u8],
    kept: &mut Vec<u8>,
    room: usize,
) -> Result<usize, Failed>
    requires some { 0 < room }
    requires room { room ≤ length piece.old }
    requires space { vec_len kept.old + room ≤ vec_capacity kept.old }
    ensures few { IfOk result (λ n. n ≤ room) }
    ensures read { IfOk result (λ n. (bs : List ℕ) × Consumes (S.left source.old) (S.left source.new) bs × (kept.new.items ≡ kept.old.items ++ bs) × (n ≡ length bs)) }
    ensures grown { IfOk result (λ n. vec_len kept.new ≡ vec_len kept.old + n) }
    ensures capacity { vec_capacity kept.old ≤ vec_capacity kept.new }
    ensures end { IfOk result (λ n. n ≡ 0 → IsAtEnd (S.left source.new)) }
    ensures no_fault { OnOk result (S.faults source.new ≡ S.faults source.old) }
    ensures failed { OnErr result ((kept.new ≡ kept.old) × Keeps (S.left source.old) (S.left source.new) × Rose (S.faults source.old) (S.faults source.new)) }
    ensures later { S.faults source.old ≤ S.faults source.new }
{
    let part = &mut piece[..room];
    match source.take(part) {
        Ok(count) => {
            let _ = kept.extend_from_slice(&part[..count]);
            Ok(count)
        }
        Err(failed) => Err(failed),
    }
}

// Room for so many bytes.
fn room(alloc: Global, bytes: usize) -> Result<Vec<u8>, NoMemory>
    ensures items { IfOk result (λ v. v.items ≡ []) }
    ensures len { IfOk result (λ v. vec_len v ≡ 0) }
    ensures room { IfOk result (λ v. bytes ≤ vec_capacity v) }
{
    Ok(Vec::with_capacity(alloc, bytes)?)
}

// A piece.
fn blank(alloc: Global) -> Result<Vec<u8>, NoMemory>
    ensures { IfOk result (λ v. vec_len v ≡ 4096) }
{
    Ok(Vec::from_elem(alloc, 0u8, PIECE)?)
}

// What stands from a place on.
fn behind(bytes: &Vec<u8>, at: usize) -> &[u8]
    requires { at ≤ vec_len bytes.now }
    ensures value { result.now ≡ drop at bytes.now.items }
    ensures few { length result.now ≤ vec_len bytes.now }
{
    &bytes[at..]
}

// Puts these bytes in place of a line.
fn put(line: &mut Vec<u8>, bytes: &[u8])
    requires few { length bytes.now ≤ 2048 }
    requires room { 2048 ≤ vec_capacity line.old }
    ensures items { line.new.items ≡ bytes.now }
    ensures capacity { 2048 ≤ vec_capacity line.new }
{
    line.clear();
    let _ = line.extend_from_slice(bytes);
}

// Moves what stands from a place on to the front.
fn pack(bytes: &mut Vec<u8>, at: usize)
    requires { at ≤ vec_len bytes.old }
    ensures items { bytes.new.items ≡ drop at bytes.old.items }
    ensures capacity { vec_capacity bytes.new ≡ vec_capacity bytes.old }
{
    let end = bytes.len();
    bytes.copy_within(at..end, 0);
    bytes.truncate(end - at);
}

// The place of the first line feed.
fn find(text: &[u8]) -> Option<usize>
    ensures { result ≡ position (λ c. c == 10) text.now }
{
    text.iter().position(|c| *c == b'\n')
}
