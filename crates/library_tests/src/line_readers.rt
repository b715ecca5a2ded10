//! One text, its source cut into pieces of each size, and how readers end.
use byte_streams::{LineReader, MOST_BYTES, MOST_LINE, MemorySource, NextLine, PlainSource};
use std::test::Fail;

const TEXT: &[u8] = b"node a\n\nnode b\nlast";

#[test]
fn lines_are_the_same_however_the_source_cuts(rt: HostRuntime) -> Result<(), Fail> {
    let alloc = rt.alloc();
    let lines: [&[u8]; 4] = [b"node a", b"", b"node b", b"last"];
    for most in 1..20 {
        let mut source = MemorySource::new(TEXT.to_vec(alloc)?, Vec::new(alloc), most);
        let mut reader = LineReader::open(alloc)?;
        for line in lines {
            assert_eq!(rt; reader.next(&mut source), NextLine::Line);
            assert_eq!(rt; reader.line(), line, "in pieces of {most}");
        }
        assert_eq!(rt; reader.number(), 4);
        assert_eq!(rt; reader.next(&mut source), NextLine::End);
        assert_eq!(rt; reader.next(&mut source), NextLine::End);
    }
    Ok(())
}

#[test]
fn readers_end_as_they_must(rt: HostRuntime) -> Result<(), Fail> {
    let alloc = rt.alloc();
    let mut failing = MemorySource::new(TEXT.to_vec(alloc)?, vec![in alloc; 1u64; 1]?, 3);
    let mut reader = LineReader::open(alloc)?;
    assert_eq!(rt; reader.next(&mut failing), NextLine::Fault);
    assert_eq!(rt; reader.next(&mut failing), NextLine::Fault);
    for (letters, want) in [
        (MOST_LINE, NextLine::Line),
        (MOST_LINE + 1, NextLine::Long),
        (MOST_BYTES + 1, NextLine::Long),
    ] {
        let mut source = PlainSource::new(vec![in alloc; b'a'; letters]?);
        let mut reader = LineReader::open(alloc)?;
        assert_eq!(rt; reader.next(&mut source), want, "{letters} letters");
    }
    Ok(())
}
