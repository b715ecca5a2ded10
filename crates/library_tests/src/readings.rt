//! What is shown of a message of each kind, and of each form that a refusal has. The bytes were put together by hand from
//! the figures of RFC 2205 and RFC 2210.
use message_show::show;
use script_words::{LineErr, LineWhy, ParseErr};
use std::test::Fail;

#[test]
fn lines_are_shown_or_refused(rt: HostRuntime) -> Result<(), Fail> {
    let bad = |line, why| Err(ParseErr::Line(LineErr { line, why }));
    let table: [(&[u8], Result<&[u8], ParseErr>); 26] = [
        (
            b"10014cde40000058000c0101ef0101011101138c000c03010a000101000000000008050100007530000c0b010a0001010000138c00240c0200000007010000067f000005447a000044fa00007f80000000000040000005dc",
            Ok(
                b"Path 239.1.1.1/17/5004 police hop 10.0.1.1/0 period 30000 sender 10.0.1.1:5004 1000/2000/inf/64/1500\n",
            ),
        ),
        (
            b"10025a4f4000005c000c0101ef0101011100138c000c03010a000202000000000008050100007530000807010a00010100080801000000110024090200000007050000067f000005447a000044fa00007f80000000000040000005dc",
            Ok(
                b"Resv 239.1.1.1/17/5004 hop 10.0.2.2/0 period 30000 WF scope 10.0.1.1 1000/2000/inf/64/1500\n",
            ),
        ),
        (
            b"1001000040000028000c0101ef0101011100138c000c03010a000101000000090008050100007530",
            Ok(b"Path 239.1.1.1/17/5004 hop 10.0.1.1/9 period 30000\n"),
        ),
        (
            b"10018eff4000008c000c0101ef0101011101138c000c03010a000101000000000008050100007530000c0b010a0001010000138c00240c0200000007010000067f000005447a000044fa00007f80000000000040000005dc00340d020000000b01000008040000010000000106000001461c400008000001000000640a000001000005dc0500000002000000",
            Ok(
                b"Path 239.1.1.1/17/5004 police hop 10.0.1.1/0 period 30000 sender 10.0.1.1:5004 1000/2000/inf/64/1500 adspec hops 1 rate 10000 latency 100 mtu 1500 cl ok\n",
            ),
        ),
        (
            b"100100004000005c000c0101ef0101011100138c000c03010a00010100000009000805010000753000340d020000000b01800008040000010000000106000001461c400008000001000000640a000001000005dc0580000002000000",
            Ok(
                b"Path 239.1.1.1/17/5004 hop 10.0.1.1/9 period 30000 adspec hops 1 rate 10000 latency 100 mtu 1500 broken cl broken\n",
            ),
        ),
        (
            b"1001000040000054000c0101ef0101011100138c000c03010a000101000000090008050100007530002c0d0200000009010000080400000100000001060000017f80000008000001000000640a000001000005dc",
            Ok(
                b"Path 239.1.1.1/17/5004 hop 10.0.1.1/9 period 30000 adspec hops 1 rate inf latency 100 mtu 1500\n",
            ),
        ),
        (
            b"1002000040000074000c0101ef0101011100138c000c03010a00020200000000000805010000753000080f010a00020200080801000000120024090200000007050000067f00000543fa000043fa0000447a000000000040000005dc000c0a010a0001010000138e000c0a010a0001010000138c",
            Ok(
                b"Resv 239.1.1.1/17/5004 hop 10.0.2.2/0 period 30000 confirm 10.0.2.2 SE 10.0.1.1:5004,10.0.1.1:5006 500/500/1000/64/1500\n",
            ),
        ),
        (
            b"100300004000002c000c0101ef0101011100138c000c06010a00010200150002000c0b010a0001010000138c",
            Ok(b"PathErr 239.1.1.1/17/5004 error 10.0.1.2 21/2 sender 10.0.1.1:5004\n"),
        ),
        (
            b"1004000040000064000c0101ef0101011100138c000c03010a00020100000000000c06010a00010203010002000c07010a0001030a00010100080801000000110024090200000007050000067f000005447a000044fa00007f80000000000040000005dc",
            Ok(
                b"ResvErr 239.1.1.1/17/5004 hop 10.0.2.1/0 error 10.0.1.2 1/2 inplace notguilty WF scope 10.0.1.1,10.0.1.3 1000/2000/inf/64/1500\n",
            ),
        ),
        (
            b"1004000040000034000c0101ef0101011100138c000c03010a00020100000000000c06010a00010202040000000808010000000a",
            Ok(b"ResvErr 239.1.1.1/17/5004 hop 10.0.2.1/0 error 10.0.1.2 4/0 notguilty FF\n"),
        ),
        (
            b"1004000040000064000c0101ef0101011100138c000c03010a00020100000000000c06010a00010201010003000808010000000a0024090200000007050000067f000005447a000044fa00007f80000000000040000005dc000c0a010a0001010000138c",
            Ok(
                b"ResvErr 239.1.1.1/17/5004 hop 10.0.2.1/0 error 10.0.1.2 1/3 inplace FF 10.0.1.1:5004 1000/2000/inf/64/1500\n",
            ),
        ),
        (
            b"100500004000002c000c0101ef0101011100138c000c03010a00010100000007000c0b010a0001010000138c",
            Ok(b"PathTear 239.1.1.1/17/5004 hop 10.0.1.1/7 sender 10.0.1.1:5004\n"),
        ),
        (
            b"1005000040000020000c0101ef0101011100138c000c03010a00010100000007",
            Ok(b"PathTear 239.1.1.1/17/5004 hop 10.0.1.1/7\n"),
        ),
        (
            b"100600004000002c000c0101ef0101011100138c000c03010a00020200000000000407010008080100000011",
            Ok(b"ResvTear 239.1.1.1/17/5004 hop 10.0.2.2/0 WF scope -\n"),
        ),
        (
            b"1006000040000028000c0101ef0101011100138c000c03010a000202000000000008080100000011",
            Ok(b"ResvTear 239.1.1.1/17/5004 hop 10.0.2.2/0 WF\n"),
        ),
        (
            b"1006000040000040000c0101ef0101011100138c000c03010a00020200000000000808010000000a000c0a010a0001010000138c000c0a010a0001010000138e",
            Ok(b"ResvTear 239.1.1.1/17/5004 hop 10.0.2.2/0 FF 10.0.1.1:5004,10.0.1.1:5006\n"),
        ),
        (
            b"1007000040000090000c0101ef0101011100138c000c06010a0002010000000000080f010a000909000808010000000a0024090200000007050000067f00000543960000439600007f80000000000040000005dc000c0a010a0001010000138c0024090200000007050000067f00000543fa000043fa00007f80000000000040000005dc000c0a010a0001010000138e",
            Ok(
                b"ResvConf 239.1.1.1/17/5004 error 10.0.2.1 0/0 confirm 10.0.9.9 FF 10.0.1.1:5004 300/300/inf/64/1500 10.0.1.1:5006 500/500/inf/64/1500\n",
            ),
        ),
        (b"", Ok(b"")),
        (b"\n\n", Ok(b"")),
        (b"00\n\n0000", Ok(b"refused Short\nrefused Short\n")),
        (b"2001000040000008", Ok(b"refused Version\n")),
        (b"100100004000000a0000", Ok(b"refused Short 8\n")),
        (b"00\n0g", bad(2, LineWhy::Word)),
        (b"00\n000", bad(2, LineWhy::Word)),
        (b"\n 00", bad(2, LineWhy::Word)),
        (b"00\r\n", bad(1, LineWhy::Word)),
    ];
    for (input, want) in table {
        let mut advice = Vec::new(rt.alloc());
        match (show(rt.alloc(), input, &mut advice), want) {
            (Ok(text), Ok(wanted)) => assert_eq!(rt; text.as_slice(), wanted),
            (Err(error), Err(wanted)) => assert_eq!(rt; error, wanted),
            _ => return Err(Fail::from("another answer")),
        }
    }
    Ok(())
}

// The input with the most lines, each of a byte that is no message: 4,194,304 bytes, whose text is the longest.
#[test]
fn the_largest_input_is_shown(rt: HostRuntime) -> Result<(), Fail> {
    let mut input = Vec::with_capacity(rt.alloc(), 4_194_304)?;
    for _line in 0..1_398_101 {
        input.extend_from_slice(b"00\n")?;
    }
    input.push(b'\n')?;
    let mut advice = Vec::new(rt.alloc());
    let Ok(text) = show(rt.alloc(), input.as_slice(), &mut advice) else {
        return Err(Fail::from("the text"));
    };
    assert!(rt; text.len() == 14 * 1_398_101);
    assert!(rt;
        text.as_slice()
            .chunks_exact(14)
            .all(|line| line == b"refused Short\n".as_slice())
    );
    Ok(())
}
