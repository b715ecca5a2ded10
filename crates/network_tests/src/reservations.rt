//! What a router makes of reservations: what goes on, what is refused, to which hop each goes, and how they end.
use crate::networks::{CHAIN, FORK, TWO_HOPS};
use crate::runs::{Row, run_rows};
use std::test::*;

const RESERVATIONS_GO_ON: &[Row] = &[
    (
        "a Resv goes on with its scope and flow, and the hop of the interface toward its source",
        CHAIN,
        "trace on
# Path 239.1.1.1/17/5004 police hop 10.0.1.1/0 period 30000 sender 10.0.1.1:5004 1000/2000/inf/64/1500
inject r1 239.1.1.1 10014cde40000058000c0101ef0101011101138c000c03010a000101000000000008050100007530000c0b010a0001010000138c00240c0200000007010000067f000005447a000044fa00007f80000000000040000005dc
# Resv 239.1.1.1/17/5004 hop 10.0.2.2/0 period 30000 WF scope 10.0.1.1 1000/2000/inf/64/1500
inject r2 10.0.2.1 10025a4f4000005c000c0101ef0101011100138c000c03010a000202000000000008050100007530000807010a00010100080801000000110024090200000007050000067f000005447a000044fa00007f80000000000040000005dc
pass
report r2
",
        "r1 Path taken
r2 Resv taken
end r2 held 1000 of 1000
239.1.1.1/17/5004 WF 10.0.1.1 1000/2000/inf/64/1500
Path 239.1.1.1/17/5004 hop 10.0.2.1/0 period 30000 sender 10.0.1.1:5004 1000/2000/inf/64/1500
Resv 239.1.1.1/17/5004 hop 10.0.1.2/0 period 30000 WF scope 10.0.1.1 1000/2000/inf/64/1500
",
    ),
    (
        "the same again is taken at full capacity, and sends nothing",
        CHAIN,
        "send s 239.1.1.1/17/5004 10.0.1.1:5004 1000/2000/inf/64/1500
pass 2
want t 239.1.1.1/17/5004 WF * 1000/2000/inf/64/1500
pass 2
trace on
# Resv 239.1.1.1/17/5004 hop 10.0.2.2/0 period 30000 WF scope 10.0.1.1 1000/2000/inf/64/1500
inject r2 10.0.2.1 10025a4f4000005c000c0101ef0101011100138c000c03010a000202000000000008050100007530000807010a00010100080801000000110024090200000007050000067f000005447a000044fa00007f80000000000040000005dc
deliver 1
report r2
",
        "r2 Resv taken
end r2 held 1000 of 1000
239.1.1.1/17/5004 WF 10.0.1.1 1000/2000/inf/64/1500
",
    ),
    (
        "a Resv without SCOPE goes on with the scope of the senders",
        CHAIN,
        "send s 239.1.1.1/17/5004 10.0.1.1:5004 1000/2000/inf/64/1500
pass 2
trace on
# Resv 239.1.1.1/17/5004 hop 10.0.2.2/0 period 30000 WF 1000/2000/inf/64/1500
inject r2 10.0.2.1 1002000040000054000c0101ef0101011100138c000c03010a00020200000000000805010000753000080801000000110024090200000007050000067f000005447a000044fa00007f80000000000040000005dc
deliver 1
",
        "r2 Resv taken
Resv 239.1.1.1/17/5004 hop 10.0.1.2/0 period 30000 WF scope 10.0.1.1 1000/2000/inf/64/1500
",
    ),
    (
        "a Resv goes on with those of its scope that are known",
        CHAIN,
        "send s 239.1.1.1/17/5004 10.0.1.1:5004 1000/2000/inf/64/1500
pass 2
trace on
# Resv 239.1.1.1/17/5004 hop 10.0.2.2/0 period 30000 WF scope 10.0.1.1,10.0.9.9 1000/2000/inf/64/1500
inject r2 10.0.2.1 1002000040000060000c0101ef0101011100138c000c03010a000202000000000008050100007530000c07010a0001010a00090900080801000000110024090200000007050000067f000005447a000044fa00007f80000000000040000005dc
deliver 1
",
        "r2 Resv taken
Resv 239.1.1.1/17/5004 hop 10.0.1.2/0 period 30000 WF scope 10.0.1.1 1000/2000/inf/64/1500
",
    ),
    (
        "fixed filters stand in their units",
        CHAIN,
        "send s 239.1.1.1/17/5004 10.0.1.1:5004 1000/2000/inf/64/1500
send s 239.1.1.1/17/5004 10.0.1.1:5006 1000/2000/inf/64/1500
pass 2
want t 239.1.1.1/17/5004 FF 10.0.1.1:5004 300/300/inf/64/1500
want t 239.1.1.1/17/5004 FF 10.0.1.1:5006 500/500/inf/64/1500
pass
report r2
",
        "end r2 held 800 of 1000
239.1.1.1/17/5004 FF 10.0.1.1:5004 300/300/inf/64/1500
239.1.1.1/17/5004 FF 10.0.1.1:5006 500/500/inf/64/1500
Resv 239.1.1.1/17/5004 hop 10.0.1.2/0 period 30000 FF 10.0.1.1:5004 300/300/inf/64/1500
Resv 239.1.1.1/17/5004 hop 10.0.1.2/0 period 30000 FF 10.0.1.1:5004 300/300/inf/64/1500 10.0.1.1:5006 500/500/inf/64/1500
",
    ),
    (
        "a shared filter joins senders and flows",
        FORK,
        "send s 239.1.1.1/17/5004 10.0.1.1:5004 1000/2000/inf/64/1500
send s 239.1.1.1/17/5004 10.0.1.1:5006 1000/2000/inf/64/1500
pass 2
want t 239.1.1.1/17/5004 SE 10.0.1.1:5004 300/600/inf/64/1500
want u 239.1.1.1/17/5004 SE 10.0.1.1:5006 500/400/inf/128/1000
pass
report r2
report r3
",
        "end r2 held 300 of 10000
239.1.1.1/17/5004 SE 10.0.1.1:5004 300/600/inf/64/1500
end r3 held 500 of 10000
239.1.1.1/17/5004 SE 10.0.1.1:5006 500/400/inf/128/1000
Resv 239.1.1.1/17/5004 hop 10.0.1.2/0 period 30000 SE 10.0.1.1:5004 300/600/inf/64/1500
Resv 239.1.1.1/17/5004 hop 10.0.1.2/0 period 30000 SE 10.0.1.1:5004,10.0.1.1:5006 500/600/inf/64/1500
",
    ),
    (
        "a wildcard filter joins flows",
        FORK,
        "send s 239.1.1.1/17/5004 10.0.1.1:5004 1000/2000/inf/64/1500
pass 2
want t 239.1.1.1/17/5004 WF * 300/600/inf/64/1500
want u 239.1.1.1/17/5004 WF * 500/400/inf/128/1000
pass
",
        "Resv 239.1.1.1/17/5004 hop 10.0.1.2/0 period 30000 WF scope 10.0.1.1 300/600/inf/64/1500
Resv 239.1.1.1/17/5004 hop 10.0.1.2/0 period 30000 WF scope 10.0.1.1 500/600/inf/64/1500
",
    ),
    (
        "a request below another one sends nothing",
        FORK,
        "send s 239.1.1.1/17/5004 10.0.1.1:5004 1000/2000/inf/64/1500
pass 2
want t 239.1.1.1/17/5004 WF * 500/600/inf/64/1500
want u 239.1.1.1/17/5004 WF * 300/400/inf/128/1000
pass
",
        "Resv 239.1.1.1/17/5004 hop 10.0.1.2/0 period 30000 WF scope 10.0.1.1 500/600/inf/64/1500
",
    ),
];

#[test]
fn reservations_go_on(rt: HostRuntime) -> Result<(), Fail> {
    run_rows(rt.alloc(), RESERVATIONS_GO_ON)
}

const RESERVATIONS_ARE_REFUSED: &[Row] = &[
    (
        "a raise above the capacity is refused in place, and what was held stays",
        CHAIN,
        "send s 239.1.1.1/17/5004 10.0.1.1:5004 1000/2000/inf/64/1500
pass 2
want t 239.1.1.1/17/5004 WF * 1000/2000/inf/64/1500
pass 2
want t 239.1.1.1/17/5004 WF * 1001/2000/inf/64/1500
trace on
deliver 1
report r2
",
        "r2 Resv answered 1/2
end r2 held 1000 of 1000
239.1.1.1/17/5004 WF 10.0.1.1 1000/2000/inf/64/1500
ResvErr 239.1.1.1/17/5004 hop 10.0.2.1/0 error 10.0.2.1 1/2 inplace WF scope 10.0.1.1 1001/2000/inf/64/1500
",
    ),
    (
        "a rate above the capacity is refused",
        CHAIN,
        "send s 239.1.1.1/17/5004 10.0.1.1:5004 1000/2000/inf/64/1500
pass 2
want t 239.1.1.1/17/5004 WF * 1001/2000/inf/64/1500
trace on
deliver 1
report r2
",
        "r2 Resv answered 1/2
end r2 held 0 of 1000
ResvErr 239.1.1.1/17/5004 hop 10.0.2.1/0 error 10.0.2.1 1/2 WF scope 10.0.1.1 1001/2000/inf/64/1500
",
    ),
    (
        "packets above the MTU are refused before the rate",
        CHAIN,
        "send s 239.1.1.1/17/5004 10.0.1.1:5004 1000/2000/inf/64/1500
pass 2
want t 239.1.1.1/17/5004 WF * 1001/2000/inf/64/1501
trace on
deliver 1
report r2
",
        "r2 Resv answered 1/3
end r2 held 0 of 1000
ResvErr 239.1.1.1/17/5004 hop 10.0.2.1/0 error 10.0.2.1 1/3 WF scope 10.0.1.1 1001/2000/inf/64/1501
",
    ),
    (
        "of two fixed filters the one that fits goes on",
        CHAIN,
        "send s 239.1.1.1/17/5004 10.0.1.1:5004 1000/2000/inf/64/1500
send s 239.1.1.1/17/5004 10.0.1.1:5006 1000/2000/inf/64/1500
pass 2
want t 239.1.1.1/17/5004 FF 10.0.1.1:5004,10.0.1.1:5006 600/600/inf/64/1500
trace on
deliver 1
report r2
",
        "r2 Resv answered 1/2
end r2 held 600 of 1000
239.1.1.1/17/5004 FF 10.0.1.1:5004 600/600/inf/64/1500
ResvErr 239.1.1.1/17/5004 hop 10.0.2.1/0 error 10.0.2.1 1/2 FF 10.0.1.1:5006 600/600/inf/64/1500
Resv 239.1.1.1/17/5004 hop 10.0.1.2/0 period 30000 FF 10.0.1.1:5004 600/600/inf/64/1500
",
    ),
    (
        "without a path there is no reservation",
        CHAIN,
        "trace on
# Resv 239.1.1.1/17/5004 hop 10.0.2.2/0 period 30000 WF scope 10.0.1.1 1000/2000/inf/64/1500
inject r2 10.0.2.1 10025a4f4000005c000c0101ef0101011100138c000c03010a000202000000000008050100007530000807010a00010100080801000000110024090200000007050000067f000005447a000044fa00007f80000000000040000005dc
deliver 1
report r2
",
        "r2 Resv answered 3/0
end r2 held 0 of 1000
ResvErr 239.1.1.1/17/5004 hop 10.0.2.1/0 error 10.0.2.1 3/0 WF scope 10.0.1.1 1000/2000/inf/64/1500
",
    ),
    (
        "a shared filter stands for the senders that are known, and the others are told",
        CHAIN,
        "send s 239.1.1.1/17/5004 10.0.1.1:5004 1000/2000/inf/64/1500
pass 2
trace on
# Resv 239.1.1.1/17/5004 hop 10.0.2.2/0 period 30000 SE 10.0.1.1:5004,10.0.1.1:5006 500/500/inf/64/1500
inject r2 10.0.2.1 100200004000006c000c0101ef0101011100138c000c03010a00020200000000000805010000753000080801000000120024090200000007050000067f00000543fa000043fa00007f80000000000040000005dc000c0a010a0001010000138c000c0a010a0001010000138e
deliver 1
report r2
",
        "r2 Resv answered 4/0
end r2 held 500 of 1000
239.1.1.1/17/5004 SE 10.0.1.1:5004 500/500/inf/64/1500
ResvErr 239.1.1.1/17/5004 hop 10.0.2.1/0 error 10.0.2.1 4/0 SE 10.0.1.1:5006 500/500/inf/64/1500
Resv 239.1.1.1/17/5004 hop 10.0.1.2/0 period 30000 SE 10.0.1.1:5004 500/500/inf/64/1500
",
    ),
    (
        "a scope that has no sender is refused as it came",
        CHAIN,
        "send s 239.1.1.1/17/5004 10.0.1.1:5004 1000/2000/inf/64/1500
pass 2
trace on
# Resv 239.1.1.1/17/5004 hop 10.0.2.2/0 period 30000 WF scope 10.0.9.9 1000/2000/inf/64/1500
inject r2 10.0.2.1 100200004000005c000c0101ef0101011100138c000c03010a000202000000000008050100007530000807010a00090900080801000000110024090200000007050000067f000005447a000044fa00007f80000000000040000005dc
deliver 1
",
        "r2 Resv answered 4/0
ResvErr 239.1.1.1/17/5004 hop 10.0.2.1/0 error 10.0.2.1 4/0 WF scope 10.0.9.9 1000/2000/inf/64/1500
",
    ),
    (
        "another style than the one that stands is refused",
        CHAIN,
        "send s 239.1.1.1/17/5004 10.0.1.1:5004 1000/2000/inf/64/1500
pass 2
want t 239.1.1.1/17/5004 WF * 1000/2000/inf/64/1500
pass 2
trace on
# Resv 239.1.1.1/17/5004 hop 10.0.2.2/0 period 30000 FF 10.0.1.1:5004 500/500/inf/64/1500
inject r2 10.0.2.1 1002000040000060000c0101ef0101011100138c000c03010a000202000000000008050100007530000808010000000a0024090200000007050000067f00000543fa000043fa00007f80000000000040000005dc000c0a010a0001010000138c
deliver 1
report r2
",
        "r2 Resv answered 5/17
end r2 held 1000 of 1000
239.1.1.1/17/5004 WF 10.0.1.1 1000/2000/inf/64/1500
ResvErr 239.1.1.1/17/5004 hop 10.0.2.1/0 error 10.0.2.1 5/17 FF 10.0.1.1:5004 500/500/inf/64/1500
",
    ),
    (
        "another service than controlled load is answered",
        CHAIN,
        "send s 239.1.1.1/17/5004 10.0.1.1:5004 1000/2000/inf/64/1500
pass 2
trace on
# Resv 239.1.1.1/17/5004 hop 10.0.2.2/0 period 30000 WF scope 10.0.1.1 1000/2000/inf/64/1500, with a FLOWSPEC of service 2
inject r2 10.0.2.1 100200004000005c000c0101ef0101011100138c000c03010a000202000000000008050100007530000807010a00010100080801000000110024090200000007020000067f000005447a000044fa00007f80000000000040000005dc
deliver 1
",
        "r2 ? answered 21/2
ResvErr 239.1.1.1/17/5004 hop 10.0.2.1/0 error 10.0.2.1 21/2 WF
",
    ),
];

#[test]
fn reservations_are_refused(rt: HostRuntime) -> Result<(), Fail> {
    run_rows(rt.alloc(), RESERVATIONS_ARE_REFUSED)
}

const RESERVATIONS_GO_TO_THEIR_HOPS: &[Row] = &[
    (
        "the handle is that of the path of the least sender",
        CHAIN,
        "# Path 239.1.1.1/17/5004 police hop 10.0.1.1/3 period 30000 sender 10.0.1.1:5006 1000/2000/inf/64/1500
inject r1 239.1.1.1 1001000040000058000c0101ef0101011101138c000c03010a000101000000030008050100007530000c0b010a0001010000138e00240c0200000007010000067f000005447a000044fa00007f80000000000040000005dc
# Path 239.1.1.1/17/5004 police hop 10.0.1.1/7 period 30000 sender 10.0.1.1:5004 1000/2000/inf/64/1500
inject r1 239.1.1.1 1001000040000058000c0101ef0101011101138c000c03010a000101000000070008050100007530000c0b010a0001010000138c00240c0200000007010000067f000005447a000044fa00007f80000000000040000005dc
pass
lose 1
lose 1
# Resv 239.1.1.1/17/5004 hop 10.0.2.2/0 period 30000 WF scope 10.0.1.1 1000/2000/inf/64/1500
inject r2 10.0.2.1 10025a4f4000005c000c0101ef0101011100138c000c03010a000202000000000008050100007530000807010a00010100080801000000110024090200000007050000067f000005447a000044fa00007f80000000000040000005dc
deliver 1
",
        "Resv 239.1.1.1/17/5004 hop 10.0.1.2/7 period 30000 WF scope 10.0.1.1 1000/2000/inf/64/1500
",
    ),
    (
        "where that path is gone it is the handle of the next sender",
        CHAIN,
        "# Path 239.1.1.1/17/5004 police hop 10.0.1.1/3 period 30000 sender 10.0.1.1:5006 1000/2000/inf/64/1500
inject r1 239.1.1.1 1001000040000058000c0101ef0101011101138c000c03010a000101000000030008050100007530000c0b010a0001010000138e00240c0200000007010000067f000005447a000044fa00007f80000000000040000005dc
# Path 239.1.1.1/17/5004 police hop 10.0.1.1/7 period 30000 sender 10.0.1.1:5004 1000/2000/inf/64/1500
inject r1 239.1.1.1 1001000040000058000c0101ef0101011101138c000c03010a000101000000070008050100007530000c0b010a0001010000138c00240c0200000007010000067f000005447a000044fa00007f80000000000040000005dc
pass
lose 1
lose 1
# Resv 239.1.1.1/17/5004 hop 10.0.2.2/0 period 30000 WF scope 10.0.1.1 1000/2000/inf/64/1500
inject r2 10.0.2.1 10025a4f4000005c000c0101ef0101011100138c000c03010a000202000000000008050100007530000807010a00010100080801000000110024090200000007050000067f000005447a000044fa00007f80000000000040000005dc
# PathTear 239.1.1.1/17/5004 hop 10.0.1.1/0 sender 10.0.1.1:5004
inject r1 239.1.1.1 100500004000002c000c0101ef0101011100138c000c03010a00010100000000000c0b010a0001010000138c
pass
lose 1
wait 30000
",
        "PathTear 239.1.1.1/17/5004 hop 10.0.2.1/0 sender 10.0.1.1:5004
Path 239.1.1.1/17/5004 hop 10.0.2.1/0 period 30000 sender 10.0.1.1:5006 1000/2000/inf/64/1500
Resv 239.1.1.1/17/5004 hop 10.0.1.2/3 period 30000 WF scope 10.0.1.1 1000/2000/inf/64/1500
",
    ),
    (
        "a Path of another hop takes the reservation there",
        CHAIN,
        "send s 239.1.1.1/17/5004 10.0.1.1:5004 1000/2000/inf/64/1500
pass 2
want t 239.1.1.1/17/5004 WF * 1000/2000/inf/64/1500
pass 2
# Path 239.1.1.1/17/5004 police hop 10.0.1.9/4 period 30000 sender 10.0.1.1:5004 1000/2000/inf/64/1500
inject r1 239.1.1.1 1001000040000058000c0101ef0101011101138c000c03010a000109000000040008050100007530000c0b010a0001010000138c00240c0200000007010000067f000005447a000044fa00007f80000000000040000005dc
deliver 1
",
        "Resv 239.1.1.1/17/5004 hop 10.0.1.2/4 period 30000 WF scope 10.0.1.1 1000/2000/inf/64/1500
",
    ),
    (
        "the scope is that of the hop",
        TWO_HOPS,
        "send s 239.1.1.1/17/5004 10.0.1.1:5004 1000/2000/inf/64/1500
send p 239.1.1.1/17/5004 10.0.4.1:5004 1000/2000/inf/64/1500
pass 2
want t 239.1.1.1/17/5004 WF * 1000/2000/inf/64/1500
deliver 1
",
        "Resv 239.1.1.1/17/5004 hop 10.0.1.2/0 period 30000 WF scope 10.0.1.1 1000/2000/inf/64/1500
Resv 239.1.1.1/17/5004 hop 10.0.4.2/0 period 30000 WF scope 10.0.4.1 1000/2000/inf/64/1500
",
    ),
    (
        "the fixed filters are those of the hop",
        TWO_HOPS,
        "send s 239.1.1.1/17/5004 10.0.1.1:5004 1000/2000/inf/64/1500
send p 239.1.1.1/17/5004 10.0.4.1:5004 1000/2000/inf/64/1500
pass 2
want t 239.1.1.1/17/5004 FF 10.0.1.1:5004,10.0.4.1:5004 300/300/inf/64/1500
deliver 1
",
        "Resv 239.1.1.1/17/5004 hop 10.0.1.2/0 period 30000 FF 10.0.1.1:5004 300/300/inf/64/1500
Resv 239.1.1.1/17/5004 hop 10.0.4.2/0 period 30000 FF 10.0.4.1:5004 300/300/inf/64/1500
",
    ),
];

#[test]
fn reservations_go_to_their_hops(rt: HostRuntime) -> Result<(), Fail> {
    run_rows(rt.alloc(), RESERVATIONS_GO_TO_THEIR_HOPS)
}

const RESERVATIONS_END: &[Row] = &[
    (
        "a fixed filter that is torn leaves the other one",
        CHAIN,
        "send s 239.1.1.1/17/5004 10.0.1.1:5004 1000/2000/inf/64/1500
send s 239.1.1.1/17/5004 10.0.1.1:5006 1000/2000/inf/64/1500
pass 2
want t 239.1.1.1/17/5004 FF 10.0.1.1:5004 300/300/inf/64/1500
want t 239.1.1.1/17/5004 FF 10.0.1.1:5006 500/500/inf/64/1500
pass 3
trace on
# ResvTear 239.1.1.1/17/5004 hop 10.0.2.2/0 FF 10.0.1.1:5006
inject r2 10.0.2.1 1006000040000034000c0101ef0101011100138c000c03010a00020200000000000808010000000a000c0a010a0001010000138e
deliver 1
report r2
",
        "r2 ResvTear taken
end r2 held 300 of 1000
239.1.1.1/17/5004 FF 10.0.1.1:5004 300/300/inf/64/1500
ResvTear 239.1.1.1/17/5004 hop 10.0.1.2/0 FF 10.0.1.1:5006
Resv 239.1.1.1/17/5004 hop 10.0.1.2/0 period 30000 FF 10.0.1.1:5004 300/300/inf/64/1500
",
    ),
    (
        "a sender that is gone takes its reservation, without a ResvTear",
        CHAIN,
        "send s 239.1.1.1/17/5004 10.0.1.1:5004 1000/2000/inf/64/1500
send s 239.1.1.1/17/5004 10.0.1.1:5006 1000/2000/inf/64/1500
pass 2
want t 239.1.1.1/17/5004 FF 10.0.1.1:5004 300/300/inf/64/1500
want t 239.1.1.1/17/5004 FF 10.0.1.1:5006 500/500/inf/64/1500
pass 3
drop s 239.1.1.1/17/5004 10.0.1.1:5006
trace on
deliver 1
report r2
",
        "r1 PathTear taken
end r2 held 300 of 1000
239.1.1.1/17/5004 FF 10.0.1.1:5004 300/300/inf/64/1500
PathTear 239.1.1.1/17/5004 hop 10.0.2.1/0 sender 10.0.1.1:5006
Resv 239.1.1.1/17/5004 hop 10.0.1.2/0 period 30000 FF 10.0.1.1:5004 300/300/inf/64/1500
",
    ),
    (
        "of two receivers the larger one leaves",
        FORK,
        "send s 239.1.1.1/17/5004 10.0.1.1:5004 1000/2000/inf/64/1500
pass 2
want t 239.1.1.1/17/5004 WF * 300/600/inf/64/1500
want u 239.1.1.1/17/5004 WF * 500/400/inf/128/1000
pass 3
quit u 239.1.1.1/17/5004
trace on
deliver 1
",
        "r3 ResvTear taken
Resv 239.1.1.1/17/5004 hop 10.0.1.2/0 period 30000 WF scope 10.0.1.1 300/600/inf/64/1500
",
    ),
    (
        "the last receiver leaves",
        CHAIN,
        "send s 239.1.1.1/17/5004 10.0.1.1:5004 1000/2000/inf/64/1500
pass 2
want t 239.1.1.1/17/5004 WF * 1000/2000/inf/64/1500
pass 2
quit t 239.1.1.1/17/5004
trace on
deliver 1
report r2
",
        "r2 ResvTear taken
end r2 held 0 of 1000
ResvTear 239.1.1.1/17/5004 hop 10.0.1.2/0 WF scope 10.0.1.1
",
    ),
    (
        "a ResvTear of another hop does nothing",
        CHAIN,
        "send s 239.1.1.1/17/5004 10.0.1.1:5004 1000/2000/inf/64/1500
pass 2
want t 239.1.1.1/17/5004 WF * 1000/2000/inf/64/1500
pass 2
trace on
# ResvTear 239.1.1.1/17/5004 hop 10.0.2.9/0 WF
inject r2 10.0.2.1 1006000040000028000c0101ef0101011100138c000c03010a000209000000000008080100000011
deliver 1
report r2
",
        "r2 ResvTear dropped NoState
end r2 held 1000 of 1000
239.1.1.1/17/5004 WF 10.0.1.1 1000/2000/inf/64/1500
",
    ),
];

#[test]
fn reservations_end(rt: HostRuntime) -> Result<(), Fail> {
    run_rows(rt.alloc(), RESERVATIONS_END)
}
