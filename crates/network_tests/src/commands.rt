//! Whole commands over sources and sinks in memory: what no clause says, and the worked rows.
use byte_streams::{MemorySink, MemorySource, PlainSink, PlainSource, Sink, Source};
use network_model::Event;
use network_replay::{Router, World};
use router_rules::Heard;
use rsvpd_run::{Ended, Status, Unwatched, Watch, run};
use std::alloc::{AllocError, Global};
use std::test::Fail;

const REPLAY: &[&str] = &["replay"];

const DEMAND: &[&str] = &["demand"];

const SHOW: &[&str] = &["show"];

const USAGE: &str = "usage: rsvpd replay|demand|show|grow|node|police [--seed N]";

const FIRST_RUN: &[u8] = b"node r
end r1 r 10.0.1.2 1000 1500
stale-resv r1 239.1.1.1/17/5004 WF 10.0.1.1 10.0.9.9 400/400/inf/1/1500 157500
stale-resv r1 239.1.1.2/17/5004 WF 10.0.1.1 10.0.9.9 500/500/inf/1/1500 100
report
wait 157499
report
wait 1
report
";

const ITS_REPORTS: &[u8] = b"end r1 held 900 of 1000
239.1.1.1/17/5004 WF 10.0.9.9 400/400/inf/1/1500
239.1.1.2/17/5004 WF 10.0.9.9 500/500/inf/1/1500
end r1 held 400 of 1000
239.1.1.1/17/5004 WF 10.0.9.9 400/400/inf/1/1500
end r1 held 0 of 1000
";

const THREE_ENDS: &[u8] = b"node r
node q
end q1 q 10.0.2.1 9 1500
end r1 r 10.0.1.2 5000 1500
end q2 q 10.0.3.1 8 1500
stale-resv q2 239.1.1.2/17/5004 WF 10.0.3.9 10.0.9.9,10.0.9.8 2/2/3/4/5 50
stale-resv q2 239.1.1.1/17/5004 WF 10.0.3.9 10.0.9.9 1/1/inf/1/1500 51
wait 49
report
wait 1
report
";

const THEIR_REPORTS: &[u8] = b"end q1 held 0 of 9
end r1 held 0 of 5000
end q2 held 3 of 8
239.1.1.1/17/5004 WF 10.0.9.9 1/1/inf/1/1500
239.1.1.2/17/5004 WF 10.0.9.8,10.0.9.9 2/2/3/4/5
end q1 held 0 of 9
end r1 held 0 of 5000
end q2 held 1 of 8
239.1.1.1/17/5004 WF 10.0.9.9 1/1/inf/1/1500
";

const A_FULL_END: &[u8] = b"node r
end r1 r 10.0.1.2 1000 1500
stale-resv r1 239.1.1.1/17/5004 WF 10.0.1.1 10.0.9.9 400/400/inf/1/1500 157500
stale-resv r1 239.1.1.2/17/5004 WF 10.0.1.1 10.0.9.9 500/500/inf/1/1500 100
stale-resv r1 239.1.1.3/17/5004 WF 10.0.1.1 10.0.9.9 100/101/inf/1/1500 100
report
";

const ITS_REPORT: &[u8] = b"end r1 held 1000 of 1000
239.1.1.1/17/5004 WF 10.0.9.9 400/400/inf/1/1500
239.1.1.2/17/5004 WF 10.0.9.9 500/500/inf/1/1500
239.1.1.3/17/5004 WF 10.0.9.9 100/101/inf/1/1500
";

const ONE_OVER: &[u8] = b"node r
end r1 r 10.0.1.2 1000 1500
stale-resv r1 239.1.1.1/17/5004 WF 10.0.1.1 10.0.9.9 400/400/inf/1/1500 157500
stale-resv r1 239.1.1.2/17/5004 WF 10.0.1.1 10.0.9.9 500/500/inf/1/1500 100
stale-resv r1 239.1.1.3/17/5004 WF 10.0.1.1 10.0.9.9 101/101/inf/1/1500 100
report
";

const PATH: &[u8] =
    b"10014cde40000058000c0101ef0101011101138c000c03010a000101000000000008050100007530000c0b010a0001010000138c00240c0200000007010000067f000005447a000044fa00007f80000000000040000005dc";

// The first 174 digits of that.
const A_CUT_PATH: &[u8] =
    b"10014cde40000058000c0101ef0101011101138c000c03010a000101000000000008050100007530000c0b010a0001010000138c00240c0200000007010000067f000005447a000044fa00007f80000000000040000005";

const RESV: &[u8] =
    b"10025a4f4000005c000c0101ef0101011100138c000c03010a000202000000000008050100007530000807010a00010100080801000000110024090200000007050000067f000005447a000044fa00007f80000000000040000005dc";

const AN_UNKNOWN_OBJECT: &[u8] =
    b"100100004000005c000c0101ef0101011101138c00044001000c03010a000101000000000008050100007530000c0b010a0001010000138c00240c0200000007010000067f000005447a000044fa00007f80000000000040000005dc";

const NO_PERIOD: &[u8] =
    b"1001000040000050000c0101ef0101011101138c000c03010a00010100000000000c0b010a0001010000138c00240c0200000007010000067f000005447a000044fa00007f80000000000040000005dc";

const ONE_RECEIVER: &[u8] = b"node s
node r
node t
end s1 s 10.0.1.1 10000 1500
end r1 r 10.0.1.2 10000 1500
end r2 r 10.0.2.1 10000 1500
end t1 t 10.0.2.2 10000 1500
link s1 r1
link r2 t1
hop 239.1.1.1 10.0.1.1 s1 r1
hop 239.1.1.1 10.0.1.1 r2 t1
send s 239.1.1.1/17/5004 10.0.1.1:5004 1000/2000/inf/64/1500
want t 239.1.1.1/17/5004 WF * 1000/2000/inf/64/1500
rounds 48
report
";

const ITS_ENDS: &[u8] = b"end s1 held 1000 of 10000
239.1.1.1/17/5004 WF 10.0.1.1 1000/2000/inf/64/1500
end r1 held 0 of 10000
end r2 held 1000 of 10000
239.1.1.1/17/5004 WF 10.0.1.1 1000/2000/inf/64/1500
end t1 held 0 of 10000
";

const A_NETWORK: &[u8] = b"node s
node r
node t
end s1 s 10.0.1.1 10000 1500
end r1 r 10.0.1.2 10000 1500
end r2 r 10.0.2.1 10000 1500
end t1 t 10.0.2.2 10000 1500
link s1 r1
link r2 t1
hop 239.1.1.1 10.0.1.1 s1 r1
hop 239.1.1.1 10.0.1.1 r2 t1
stale-resv r2 239.1.1.1/17/5004 FF 10.0.2.2 10.0.1.1:5004 50/50/inf/1/1500 60000
send s 239.1.1.1/17/5004 10.0.1.1:5004 1000/2000/inf/64/1500
want t 239.1.1.1/17/5004 WF * 1000/2000/inf/64/1500
trace on
pass 3
trace off
rounds 48
report
";

const ITS_TEXT: &[u8] = b"r1 Path taken
t1 Path taken
s1 Resv taken
r2 Resv answered 5/10
end s1 held 1000 of 10000
239.1.1.1/17/5004 WF 10.0.1.1 1000/2000/inf/64/1500
end r1 held 0 of 10000
end r2 held 1000 of 10000
239.1.1.1/17/5004 WF 10.0.1.1 1000/2000/inf/64/1500
end t1 held 0 of 10000
";

const ITS_DEMAND: &[u8] = b"end s1 held 1000 of 10000
239.1.1.1/17/5004 WF 10.0.1.1 1000/2000/inf/64/1500
end r1 held 0 of 10000
end r2 held 1000 of 10000
239.1.1.1/17/5004 WF 10.0.1.1 1000/2000/inf/64/1500
end t1 held 0 of 10000
longest 2 fits yes
";

const A_RING: &[u8] = b"node a
node b
node c
end a1 a 10.0.1.1 1000 1500
end a2 a 10.0.3.2 1000 1500
end b1 b 10.0.1.2 1000 1500
end b2 b 10.0.2.1 1000 1500
end c1 c 10.0.2.2 1000 1500
end c2 c 10.0.3.1 1000 1500
link a1 b1
link b2 c1
link c2 a2
hop 239.1.1.1 10.0.1.1 a1 b1
hop 239.1.1.1 10.0.1.1 b2 c1
hop 239.1.1.1 10.0.2.1 b2 c1
hop 239.1.1.1 10.0.2.1 c2 a2
hop 239.1.1.1 10.0.3.1 c2 a2
hop 239.1.1.1 10.0.3.1 a1 b1
";

// The words, the input, the exit status, its text, and what is written.
type Row = (
    &'static [&'static str],
    &'static [u8],
    u8,
    &'static str,
    &'static [u8],
);

const ROWS: &[Row] = &[
    (REPLAY, FIRST_RUN, 0, "", ITS_REPORTS),
    (REPLAY, b"", 0, "", b""),
    (REPLAY, b"report\n", 0, "", b""),
    // ends in the order of their lines
    (REPLAY, THREE_ENDS, 0, "", THEIR_REPORTS),
    // a network of three routers, in which a reservation was left over
    (REPLAY, A_NETWORK, 0, "", ITS_TEXT),
    // an end promises its capacity and no more
    (REPLAY, A_FULL_END, 0, "", ITS_REPORT),
    (REPLAY, ONE_OVER, 2, "line 5: over", b""),
    (
        REPLAY,
        A_RING,
        2,
        "line 18: loop in 239.1.1.1 through a1>b1",
        b"",
    ),
    (
        REPLAY,
        b"node r\n\n# r again\nnode r\n",
        2,
        "line 4: twice",
        b"",
    ),
    // the first fault of a line
    (REPLAY, b"wait 1\nnode x\n", 2, "line 2: late", b""),
    (REPLAY, b"node a\nnode a\n", 2, "line 2: twice", b""),
    (
        REPLAY,
        b"end a1 a 10.0.0.1 5 1500\n",
        2,
        "line 1: name",
        b"",
    ),
    (REPLAY, b"period 1002\n", 2, "line 1: range", b""),
    (REPLAY, b"frob\n", 2, "line 1: word", b""),
    // what comes before a bad line is written
    (
        REPLAY,
        b"node r\nend r1 r 10.0.1.2 9 1500\nreport\nfrob\n",
        2,
        "line 4: word",
        b"end r1 held 0 of 9\n",
    ),
    // what is demanded, whatever was left over; before a bad line nothing is written
    (DEMAND, A_NETWORK, 0, "", ITS_DEMAND),
    (DEMAND, b"", 0, "", b"longest 0 fits yes\n"),
    (
        DEMAND,
        A_RING,
        2,
        "line 18: loop in 239.1.1.1 through a1>b1",
        b"",
    ),
    (
        DEMAND,
        b"node r\nend r1 r 10.0.1.2 9 1500\nreport\nfrob\n",
        2,
        "line 4: word",
        b"",
    ),
    // other words are no command
    (&[], FIRST_RUN, 1, USAGE, b""),
    (&["demand", "--seed", "3"], FIRST_RUN, 1, USAGE, b""),
    (
        &["grow", "--seed", "18446744073709551616"],
        FIRST_RUN,
        1,
        USAGE,
        b"",
    ),
    (
        &["grow", "--seed", "000000000000000000001"],
        FIRST_RUN,
        1,
        USAGE,
        b"",
    ),
    (&["Replay"], FIRST_RUN, 1, USAGE, b""),
    (&["replay", "replay"], FIRST_RUN, 1, USAGE, b""),
    (&["replay", "--seed", "3"], FIRST_RUN, 1, USAGE, b""),
    (&["show", "--seed=3"], FIRST_RUN, 1, USAGE, b""),
    (&["--help"], FIRST_RUN, 1, USAGE, b""),
    // messages in words
    (
        SHOW,
        PATH,
        0,
        "",
        b"Path 239.1.1.1/17/5004 police hop 10.0.1.1/0 period 30000 sender 10.0.1.1:5004 1000/2000/inf/64/1500\n",
    ),
    (
        SHOW,
        RESV,
        0,
        "",
        b"Resv 239.1.1.1/17/5004 hop 10.0.2.2/0 period 30000 WF scope 10.0.1.1 1000/2000/inf/64/1500\n",
    ),
    (SHOW, &[b'0'; 8194], 0, "", b"refused TooLong\n"),
    (SHOW, A_CUT_PATH, 0, "", b"refused Length\n"),
    (SHOW, AN_UNKNOWN_OBJECT, 0, "", b"refused Class 20 64/1\n"),
    (SHOW, NO_PERIOD, 0, "", b"refused Missing 5\n"),
    // nothing is shown before a bad line
    (SHOW, b"0", 2, "line 1: word", b""),
    (SHOW, b"00\n\n0g\n", 2, "line 3: word", b""),
    (SHOW, &[b'x'; 8195], 2, "line 1: limit", b""),
];

fn words(alloc: Global, all: &[&str]) -> Result<Vec<String>, AllocError> {
    let mut words = Vec::new(alloc);
    for word in all {
        words.push(word.to_string(alloc)?)?;
    }
    Ok(words)
}

// How a run of these words ends, with what it advises.
fn ending<S: Source, K: Sink, W: Watch>(
    alloc: Global,
    list: &[&str],
    source: &mut S,
    sink: &mut K,
    watch: &mut W,
) -> Result<(Status, Vec<u8>), AllocError> {
    let words = words(alloc, list)?;
    let mut ended = Ended::new(alloc);
    let status = run(alloc, &words, source, sink, watch, &mut ended);
    Ok((status, ended.advice))
}

// Whether a status has this number and text.
fn is_status(alloc: Global, status: &Status, code: u8, told: &str) -> Result<bool, Fail> {
    let shown = format!(in alloc; "{status}")?;
    Ok(status.code() == code && shown.as_str() == told)
}

// Whether a run ends and writes as a row says.
fn ends(alloc: Global, row: &Row) -> Result<bool, Fail> {
    let (list, input, code, told, text) = row;
    let mut source = MemorySource::new(input.to_vec(alloc)?, Vec::new(alloc), 7);
    let mut sink = MemorySink::open(alloc, 1000, Vec::new(alloc), Vec::new(alloc))?;
    let (status, _) = ending(alloc, list, &mut source, &mut sink, &mut Unwatched)?;
    Ok(is_status(alloc, &status, *code, told)? && *sink.bytes() == **text)
}

// Runs the words of each row, and fails at the first that ends or writes otherwise.
fn run_rows(alloc: Global, rows: &[Row]) -> Result<(), Fail> {
    for (number, row) in rows.iter().enumerate() {
        if !ends(alloc, row)? {
            return Err(Fail::new(format_args!("row {number}")));
        }
    }
    Ok(())
}

#[test]
fn runs_end_and_write_what_their_words_order(rt: HostRuntime) -> Result<(), Fail> {
    run_rows(rt.alloc(), ROWS)
}

const GROW: &[&str] = &["grow", "--seed", "1"];

// The network of seed 1: what a second program says of it, and that its report is the demand.
const OF_SEED_ONE: &[u8] = b"seed 1
nodes 64 hops 756 longest 11
rounds 192 delivered 362944
booked ends 86 entries 281 held 3161000
equal yes
";

const GROWN: &[Row] = &[
    (GROW, b"frob\n", 0, "", OF_SEED_ONE),
    (&["grow", "--seed", "01"], b"frob\n", 0, "", OF_SEED_ONE),
];

#[test]
fn a_seed_grows_a_network_that_settles(rt: HostRuntime) -> Result<(), Fail> {
    run_rows(rt.alloc(), GROWN)
}

// The calls of the source and of the sink that fail, what a call of the sink takes at most, the exit status, and what is written.
type Devices = (
    &'static [u64],
    &'static [u64],
    &'static [(u64, usize)],
    u8,
    &'static [u8],
);

const FAILING: &[Devices] = &[
    (&[1], &[], &[], 3, b""),
    // the first call gave the whole script, which was run before the second
    (&[2], &[], &[], 3, ITS_ENDS),
    (&[], &[1], &[], 4, b""),
    (&[], &[], &[(1, 0)], 4, b""),
    (&[], &[2], &[(1, 10)], 4, b"end s1 hel"),
];

// Whether a run over these devices ends and writes as a row says, and advises nothing.
fn fails(alloc: Global, row: &Devices) -> Result<bool, Fail> {
    let (unread, unwritten, short, code, text) = row;
    let script = ONE_RECEIVER.to_vec(alloc)?;
    let mut source = MemorySource::new(script, unread.to_vec(alloc)?, 4096);
    let mut sink = MemorySink::open(alloc, 1000, unwritten.to_vec(alloc)?, short.to_vec(alloc)?)?;
    let (status, advice) = ending(alloc, REPLAY, &mut source, &mut sink, &mut Unwatched)?;
    Ok(status.code() == *code && advice.is_empty() && *sink.bytes() == **text)
}

#[test]
fn failing_devices_are_faults(rt: HostRuntime) -> Result<(), Fail> {
    for row in FAILING {
        assert!(rt; fails(rt.alloc(), row)?);
    }
    Ok(())
}

// Whoever is told of each round counts them, and keeps what was told last.
#[derive(Drop)]
struct Counted {
    calls: u32,
    last: (u32, u32, u64),
}

impl Watch for Counted {
    ghost saw = { λ w ss. Unit {0} };

    fn round_over<R: Router + Drop>(&mut self, world: &World<R>, done: u32, all: u32) {
        self.calls = self.calls.saturating_add(1);
        self.last = (done, all, world.delivered());
    }

    fn delivered<R: Router + Drop>(&mut self, _world: &World<R>, _place: usize, _heard: Heard) {}

    fn waited<R: Router + Drop>(&mut self, _world: &World<R>, _ms: u32) {}

    fn happens<R: Router + Drop>(&mut self, _world: &World<R>, _line: &[u8]) {}

    fn happened<R: Router + Drop>(&mut self, _world: &World<R>, _event: &Event, _text: &[u8]) {}
}

// The exit status of a run that writes nowhere, and what was told of its rounds.
fn told(alloc: Global, list: &[&str]) -> Result<(u8, Counted), Fail> {
    let mut source = MemorySource::new(ONE_RECEIVER.to_vec(alloc)?, Vec::new(alloc), 4096);
    let mut sink = PlainSink::new();
    let mut counted = Counted {
        calls: 0,
        last: (0, 0, 0),
    };
    let (status, _) = ending(alloc, list, &mut source, &mut sink, &mut counted)?;
    Ok((status.code(), counted))
}

// Whether a run is done, and told of so many rounds, each of them, and of so many deliveries at least.
fn tells(alloc: Global, list: &[&str], rounds: u32, delivered: u64) -> Result<bool, Fail> {
    let (code, counted) = told(alloc, list)?;
    let (done, all, so_far) = counted.last;
    let is_each = counted.calls == rounds && done == rounds && all == rounds;
    Ok(code == 0 && is_each && so_far >= delivered)
}

// The deliveries of the seed are those of its summary.
#[test]
fn each_round_is_told_of(rt: HostRuntime) -> Result<(), Fail> {
    assert!(rt; tells(rt.alloc(), REPLAY, 48, 0)?);
    assert!(rt; tells(rt.alloc(), GROW, 192, 362_944)?);
    Ok(())
}

// The exit status of a replay of so many line feeds.
fn replayed(alloc: Global, feeds: usize) -> Result<u8, Fail> {
    let mut source = PlainSource::new(vec![in alloc; b'\n'; feeds]?);
    let mut sink = PlainSink::new();
    let (status, _) = ending(alloc, REPLAY, &mut source, &mut sink, &mut Unwatched)?;
    Ok(status.code())
}

#[test]
fn too_many_line_feeds_are_too_long(rt: HostRuntime) -> Result<(), Fail> {
    assert!(rt; replayed(rt.alloc(), 4_194_304)? == 0);
    assert!(rt; replayed(rt.alloc(), 4_194_305)? == 7);
    Ok(())
}
