//! Words as the format of scripts shows them.
use rsvp_base::{Addr, EndName, Sender, Session, StyleKind};
use script_words::{
    DottedQuad, FlowWord, SenderWord, SessionWord, Unread, addresses, first_part, is_group,
    is_host, is_printable, next_line, number, read_words, senders, style,
};
use std::test::*;

// How many lines a text has, up to 9, and the first and the last of them.
fn lines_of(text: &[u8]) -> (u32, &[u8], &[u8]) {
    let mut lines = 0u32;
    let mut rest = text;
    let mut first = b"".as_slice();
    let mut last = b"".as_slice();
    for _ in 0..9 {
        let Some((line, behind)) = next_line(rest) else {
            break;
        };
        if lines == 0 {
            first = line;
        }
        lines = lines.saturating_add(1);
        last = line;
        rest = behind;
    }
    (lines, first, last)
}

#[test]
fn lines_end_at_line_feeds(rt: HostRuntime) {
    let texts: [(&[u8], u32, &[u8], &[u8]); 6] = [
        (b"", 0, b"", b""),
        (b"\n", 1, b"", b""),
        (b"a b", 1, b"a b", b"a b"),
        (b"a b\n", 1, b"a b", b"a b"),
        (b"a\n\nc", 3, b"a", b"c"),
        (b"a\n \n", 2, b"a", b" "),
    ];
    for (text, count, first, last) in texts {
        let (lines, one, other) = lines_of(text);
        assert!(rt; lines == count && one == first && other == last);
    }
}

// Whether the last of the words, if there is one, is this.
fn is_last(words: &[&[u8]], wanted: &str) -> bool {
    match words.last() {
        Some(word) => *word == wanted.as_bytes(),
        None => true,
    }
}

#[test]
fn words_stand_between_spaces(rt: HostRuntime) -> Result<(), Fail> {
    let alloc = rt.alloc();
    let mut words = Vec::new(alloc);
    let lines = [
        ("", 0, ""),
        ("   ", 0, ""),
        ("flags", 1, "flags"),
        ("wait 1000", 2, "1000"),
        ("  link   a1 b#2 ", 3, "b#2"),
        ("a b", 2, "b"),
    ];
    for (line, count, last) in lines {
        read_words(line.as_bytes(), &mut words)?;
        assert!(rt;
            words.len() == count && is_last(words.as_slice(), last),
            "in {line}"
        );
    }
    Ok(())
}

#[test]
fn printable_bytes_are_space_to_tilde(rt: HostRuntime) {
    assert!(rt; is_printable(b" ~a") && !is_printable(b"a\tb") && !is_printable(b"a\x7f"));
    assert!(rt; first_part(b"ab", b',').is_none());
}

#[test]
fn numbers_are_decimal(rt: HostRuntime) {
    let words = [
        ("0", Some(0)),
        ("7", Some(7)),
        ("1500", Some(1500)),
        ("18446744073709551616", Some(18446744073709551616u128)),
        ("99999999999999999999", Some(99999999999999999999)),
        ("100000000000000000000", None),
        ("00", None),
        ("007", None),
        ("+1", None),
        ("-1", None),
        ("1a", None),
        ("", None),
    ];
    for (word, wanted) in words {
        assert!(rt; number(word.as_bytes()) == wanted, "at {word}");
    }
}

#[test]
fn names_begin_with_a_letter(rt: HostRuntime) -> Result<(), Fail> {
    let words = [
        ("a", true),
        ("r1", true),
        ("to_the_north_end", true),
        ("to_the_north_ends", false),
        ("Router", false),
        ("rOuter", false),
        ("1r", false),
        ("_r", false),
        ("a-b", false),
        ("", false),
    ];
    for (word, wanted) in words {
        assert!(rt;
            EndName::of(word.as_bytes()).is_some() == wanted,
            "at {word}"
        );
    }
    let name = EndName::of(b"s_1").ok_or("a name")?;
    assert!(rt; name.copy().bytes() == b"s_1".as_slice());
    Ok(())
}

// The address of a word of four numbers.
fn address(word: &str) -> Option<Option<Addr>> {
    Some(DottedQuad::of(word.as_bytes())?.addr())
}

#[test]
fn addresses_are_four_bytes(rt: HostRuntime) {
    let words = [
        ("10.0.1.1", Some(Some(Addr(0x0a00_0101)))),
        ("0.0.0.0", Some(Some(Addr(0)))),
        ("223.255.255.255", Some(Some(Addr(0xdfff_ffff)))),
        ("224.0.0.0", Some(Some(Addr(0xe000_0000)))),
        ("239.255.255.255", Some(Some(Addr(0xefff_ffff)))),
        ("240.0.0.0", Some(Some(Addr(0xf000_0000)))),
        ("10.0.1.256", Some(None)),
        ("10.0.1", None),
        ("10.0.1.1.1", None),
        ("10.0.1.", None),
        ("10.0.01.1", None),
        ("10:0:1:1", None),
        ("", None),
    ];
    for (word, wanted) in words {
        assert!(rt; address(word) == wanted, "at {word}");
    }
}

#[test]
fn addresses_are_of_hosts_or_groups(rt: HostRuntime) {
    for (addr, host) in [
        (0x0a00_0101, true),
        (0, false),
        (0xdfff_ffff, true),
        (0xe000_0000, false),
        (0xefff_ffff, false),
        (0xf000_0000, true),
    ] {
        assert!(rt; is_host(Addr(addr)) == host, "at {addr}");
    }
    assert!(rt; is_group(Addr(0xe000_0001)));
}

// The session of a word of three parts.
fn session(word: &str) -> Option<Option<Session>> {
    Some(SessionWord::of(word.as_bytes())?.session())
}

#[test]
fn sessions_are_group_protocol_port(rt: HostRuntime) {
    let words = [
        ("239.1.1.1/17/5004", true),
        ("224.0.0.0/1/0", true),
        ("239.255.255.255/255/65535", true),
        ("223.255.255.255/17/5004", false),
        ("240.0.0.0/17/5004", false),
        ("239.1.1.256/17/5004", false),
        ("239.1.1.1/0/5004", false),
        ("239.1.1.1/256/5004", false),
        ("239.1.1.1/17/65536", false),
    ];
    for (word, wanted) in words {
        let is_session = match session(word) {
            Some(found) => found.is_some() == wanted,
            None => false,
        };
        assert!(rt; is_session, "at {word}");
    }
    let wanted = Session {
        group: Addr(0xef01_0101),
        proto: 17,
        port: 5004,
    };
    assert!(rt; session("239.1.1.1/17/5004") == Some(Some(wanted)));
}

#[test]
fn other_words_are_no_session(rt: HostRuntime) {
    for word in [
        "239.1.1.1/17",
        "239.1.1.1/17/5004/",
        "239.1.1/17/5004",
        "239.1.1.1/17/x",
    ] {
        assert!(rt; session(word).is_none(), "at {word}");
    }
}

// The sender of a word of two parts.
fn sender(word: &[u8]) -> Option<Option<Sender>> {
    Some(SenderWord::of(word)?.sender())
}

#[test]
fn senders_are_address_and_port(rt: HostRuntime) {
    let wanted = Sender {
        addr: Addr(0x0a00_0101),
        port: 5004,
    };
    assert!(rt; sender(b"10.0.1.1:5004") == Some(Some(wanted)));
    assert!(rt; sender(b"10.0.1.1:65536") == Some(None));
    assert!(rt; sender(b"10.0.1.1").is_none());
}

#[test]
fn lists_have_commas_between(rt: HostRuntime) {
    let alloc = rt.alloc();
    let two = senders(alloc, b"10.0.1.1:5004,10.0.1.2:0");
    assert!(rt; matches!(&two, Ok(list) if list.len() == 2));
    let three = addresses(alloc, b"10.0.1.1,10.0.1.2,999.0.0.0");
    assert!(rt; matches!(&three, Ok(list) if list.len() == 3));
    assert!(rt; matches!(senders(alloc, b"10.0.1.1:5004,"), Err(Unread::Word)));
    assert!(rt; matches!(addresses(alloc, b"10.0.1.1:5004"), Err(Unread::Word)));
    assert!(rt; matches!(addresses(alloc, b""), Err(Unread::Word)));
}

#[test]
fn styles_have_two_letters(rt: HostRuntime) {
    let words = [
        ("WF", Some(StyleKind::Wild)),
        ("FF", Some(StyleKind::Fixed)),
        ("SE", Some(StyleKind::Shared)),
        ("wf", None),
        ("WFF", None),
        ("*", None),
        ("", None),
    ];
    for (word, wanted) in words {
        assert!(rt; style(word.as_bytes()) == wanted, "at {word}");
    }
}

#[test]
fn flows_have_five_parts(rt: HostRuntime) -> Result<(), Fail> {
    let word = FlowWord::of(b"1000/2000/inf/64/1500").ok_or("a flow word")?;
    let wanted = FlowWord {
        r: 1000,
        b: 2000,
        p: None,
        low: 64,
        most: 1500,
    };
    assert!(rt; word == wanted);
    Ok(())
}

#[test]
fn flows_are_rates_and_sizes(rt: HostRuntime) -> Result<(), Fail> {
    let words = [
        ("1000/2000/inf/64/1500", true),
        ("1/1/0/1/1", true),
        ("16777217/1/1/1/1", false),
        ("33554434/1/1/1/1", false),
        ("33554436/1/1/1/1", true),
        ("1/1/70368744177664/1/1", false),
        ("0/1/1/1/1", false),
        ("1/0/1/1/1", false),
        ("1/1/1/0/1", false),
        ("1/1/1/2/1", false),
        ("1/1/1/4294967295/4294967295", true),
        ("1/1/1/1/4294967296", false),
    ];
    for (word, wanted) in words {
        let flow = FlowWord::of(word.as_bytes()).ok_or("a flow word")?;
        assert!(rt; flow.flow().is_some() == wanted, "at {word}");
    }
    Ok(())
}

#[test]
fn other_words_are_no_flow(rt: HostRuntime) {
    for word in [
        "1000/2000/inf/64",
        "1/2/3/4/5/6",
        "1/2/Inf/4/5",
        "inf/2/3/4/5",
        "1/2//4/5",
    ] {
        assert!(rt; FlowWord::of(word.as_bytes()).is_none(), "at {word}");
    }
}
