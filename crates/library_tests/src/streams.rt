//! What no clause says: that memory suffices, what a reader and a writer move, and the texts of the errors.
use byte_streams::{
    MOST_BYTES, MemorySink, MemorySource, PlainSink, PlainSource, ReadErr, Sink, Source, StdSink,
    StdSource, read_all, write_all,
};
use std::alloc::Global;
use std::io;
use std::io::{Read, Write};
use std::test::Fail;

const TEXT: &[u8] = b"one line\nand another\n";

// A reader and a writer that always fail.
#[derive(Drop)]
struct Broken;

impl Read for Broken {
    fn read(&mut self, _buf: &mut [u8]) -> io::Result<usize> {
        Err(io::ErrorKind::BrokenPipe.into())
    }
}

impl Write for Broken {
    fn write(&mut self, _buf: &[u8]) -> io::Result<usize> {
        Err(io::ErrorKind::BrokenPipe.into())
    }

    fn flush(&mut self) -> io::Result<()> {
        Ok(())
    }
}

// The bytes of a source in memory that gives three at a time, and whether it fails in the middle.
fn read_in_threes(alloc: Global, fails: bool) -> Result<Vec<u8>, ReadErr> {
    let mut failing = Vec::new(alloc);
    if fails {
        failing.push(3u64).or(Err(ReadErr::NoMemory))?;
    }
    let text = TEXT.to_vec(alloc).or(Err(ReadErr::NoMemory))?;
    read_all(alloc, &mut MemorySource::new(text, failing, 3))
}

#[test]
fn a_reading_ends_as_its_source_does(rt: HostRuntime) {
    assert!(rt; matches!(&read_in_threes(rt.alloc(), false), Ok(read) if read.as_slice() == TEXT));
    assert!(rt; matches!(read_in_threes(rt.alloc(), true), Err(ReadErr::Fault)));
}

#[test]
fn a_text_may_have_4194304_bytes(rt: HostRuntime) -> Result<(), Fail> {
    let alloc = rt.alloc();
    let mut longest = PlainSource::new(vec![in alloc; b'\n'; MOST_BYTES]?);
    assert!(rt; read_all(alloc, &mut longest).is_ok());
    let mut longer = PlainSource::new(vec![in alloc; b'\n'; MOST_BYTES + 1]?);
    assert!(rt; read_all(alloc, &mut longer).err() == Some(ReadErr::TooLong));
    Ok(())
}

#[test]
fn a_text_cut_in_small_pieces_is_written_whole(rt: HostRuntime) -> Result<(), Fail> {
    let alloc = rt.alloc();
    let short = vec![in alloc; (1u64, 4usize), (2, 1), (2, 3)]?;
    let mut sink = MemorySink::open(alloc, 100, Vec::new(alloc), short)?;
    assert!(rt; write_all(&mut sink, TEXT).is_ok());
    assert!(rt; sink.bytes() == TEXT);
    Ok(())
}

#[test]
fn a_plain_sink_counts_what_it_takes(rt: HostRuntime) {
    let mut plain = PlainSink::new();
    assert!(rt; write_all(&mut plain, TEXT).is_ok());
    assert!(rt; plain.count() == 21);
}

// Whether a source gives these bytes next, into a buffer of 15.
fn gives<S: Source>(source: &mut S, wanted: &[u8]) -> bool {
    let mut buf = [0u8; 15];
    match source.take(&mut buf) {
        Ok(count) => buf.get(..count) == Some(wanted),
        Err(_) => false,
    }
}

#[test]
fn a_standard_source_gives_what_its_reader_gives(rt: HostRuntime) {
    let mut source = StdSource::new(TEXT);
    assert!(rt; gives(&mut source, b"one line\nand an"));
    assert!(rt; gives(&mut source, b"other\n"));
    assert!(rt; gives(&mut source, b""));
    assert!(rt; StdSource::new(Broken).take(&mut [0u8; 15]).is_err());
}

#[test]
fn a_standard_sink_hands_on_to_its_writer(rt: HostRuntime) -> Result<(), Fail> {
    let mut written = Vec::new(rt.alloc());
    assert!(rt; write_all(&mut StdSink::new(&mut written), TEXT).is_ok());
    assert!(rt; written.as_slice() == TEXT);
    assert!(rt; StdSink::new(Broken).give(TEXT).is_err());
    Ok(())
}

#[test]
fn read_errors_are_the_status_texts(rt: HostRuntime) -> Result<(), Fail> {
    let alloc = rt.alloc();
    for (error, text) in [
        (ReadErr::Fault, "read fault"),
        (ReadErr::TooLong, "too long"),
        (ReadErr::NoMemory, "no memory"),
    ] {
        assert!(rt; error.to_string(alloc)?.as_str() == text);
    }
    Ok(())
}
