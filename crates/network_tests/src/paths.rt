//! What a router makes of paths: which it learns and sends on, which it drops, how they end, and how a tree moves.
use crate::networks::{CHAIN, TWO_WAYS};
use crate::runs::{Row, run_rows};
use std::test::*;

const PATHS_GO_ON: &[Row] = &[
    (
        "a Path goes on with the hop of the interface by which it leaves",
        CHAIN,
        "trace on
# Path 239.1.1.1/17/5004 police hop 10.0.1.1/0 period 30000 sender 10.0.1.1:5004 1000/2000/inf/64/1500
inject r1 239.1.1.1 10014cde40000058000c0101ef0101011101138c000c03010a000101000000000008050100007530000c0b010a0001010000138c00240c0200000007010000067f000005447a000044fa00007f80000000000040000005dc
deliver 1
",
        "r1 Path taken
Path 239.1.1.1/17/5004 hop 10.0.2.1/0 period 30000 sender 10.0.1.1:5004 1000/2000/inf/64/1500
",
    ),
    (
        "a Path goes on with the period of the router, and the handle 0",
        CHAIN,
        "trace on
# Path 239.1.1.1/17/5004 police hop 10.0.1.1/7 period 20000 sender 10.0.1.1:5004 1000/2000/inf/64/1500
inject r1 239.1.1.1 1001000040000058000c0101ef0101011101138c000c03010a000101000000070008050100004e20000c0b010a0001010000138c00240c0200000007010000067f000005447a000044fa00007f80000000000040000005dc
deliver 1
",
        "r1 Path taken
Path 239.1.1.1/17/5004 hop 10.0.2.1/0 period 30000 sender 10.0.1.1:5004 1000/2000/inf/64/1500
",
    ),
    (
        "the same Path once more sends nothing",
        CHAIN,
        "trace on
# Path 239.1.1.1/17/5004 police hop 10.0.1.1/0 period 30000 sender 10.0.1.1:5004 1000/2000/inf/64/1500
inject r1 239.1.1.1 10014cde40000058000c0101ef0101011101138c000c03010a000101000000000008050100007530000c0b010a0001010000138c00240c0200000007010000067f000005447a000044fa00007f80000000000040000005dc
copy 1
pass
",
        "r1 Path taken
r1 Path taken
Path 239.1.1.1/17/5004 hop 10.0.2.1/0 period 30000 sender 10.0.1.1:5004 1000/2000/inf/64/1500
",
    ),
    (
        "a Path with another TSpec goes on at once",
        CHAIN,
        "trace on
# Path 239.1.1.1/17/5004 police hop 10.0.1.1/0 period 30000 sender 10.0.1.1:5004 1000/2000/inf/64/1500
inject r1 239.1.1.1 10014cde40000058000c0101ef0101011101138c000c03010a000101000000000008050100007530000c0b010a0001010000138c00240c0200000007010000067f000005447a000044fa00007f80000000000040000005dc
# Path 239.1.1.1/17/5004 police hop 10.0.1.1/0 period 30000 sender 10.0.1.1:5004 500/600/700/1/9000
inject r1 239.1.1.1 1001000040000058000c0101ef0101011101138c000c03010a000101000000000008050100007530000c0b010a0001010000138c00240c0200000007010000067f00000543fa000044160000442f00000000000100002328
pass
",
        "r1 Path taken
r1 Path taken
Path 239.1.1.1/17/5004 hop 10.0.2.1/0 period 30000 sender 10.0.1.1:5004 1000/2000/inf/64/1500
Path 239.1.1.1/17/5004 hop 10.0.2.1/0 period 30000 sender 10.0.1.1:5004 500/600/700/1/9000
",
    ),
    (
        "a Path of a local sender has E_Police",
        CHAIN,
        "send s 239.1.1.1/17/5004 10.0.1.1:5004 1000/2000/inf/64/1500
",
        "Path 239.1.1.1/17/5004 police hop 10.0.1.1/0 period 30000 sender 10.0.1.1:5004 1000/2000/inf/64/1500
",
    ),
    (
        "before the countdown ends nothing is sent",
        CHAIN,
        "# Path 239.1.1.1/17/5004 police hop 10.0.1.1/0 period 30000 sender 10.0.1.1:5004 1000/2000/inf/64/1500
inject r1 239.1.1.1 10014cde40000058000c0101ef0101011101138c000c03010a000101000000000008050100007530000c0b010a0001010000138c00240c0200000007010000067f000005447a000044fa00007f80000000000040000005dc
deliver 1
lose 1
wait 15000
wait 14999
",
        "",
    ),
    (
        "two waits of half a period send it again",
        CHAIN,
        "# Path 239.1.1.1/17/5004 police hop 10.0.1.1/0 period 30000 sender 10.0.1.1:5004 1000/2000/inf/64/1500
inject r1 239.1.1.1 10014cde40000058000c0101ef0101011101138c000c03010a000101000000000008050100007530000c0b010a0001010000138c00240c0200000007010000067f000005447a000044fa00007f80000000000040000005dc
deliver 1
lose 1
wait 15000
wait 15000
",
        "Path 239.1.1.1/17/5004 hop 10.0.2.1/0 period 30000 sender 10.0.1.1:5004 1000/2000/inf/64/1500
",
    ),
    // The fifth random word of seed 1 is 3,416,422,068: 15,000 and the rest of a division by 30,001 are 43,192.
    (
        "the next countdown is half a period and a random part of a period: not yet",
        CHAIN,
        "# Path 239.1.1.1/17/5004 police hop 10.0.1.1/0 period 30000 sender 10.0.1.1:5004 1000/2000/inf/64/1500
inject r1 239.1.1.1 10014cde40000058000c0101ef0101011101138c000c03010a000101000000000008050100007530000c0b010a0001010000138c00240c0200000007010000067f000005447a000044fa00007f80000000000040000005dc
deliver 1
lose 1
wait 15000
wait 15000
lose 1
wait 43191
",
        "",
    ),
    (
        "the next countdown is half a period and a random part of a period",
        CHAIN,
        "# Path 239.1.1.1/17/5004 police hop 10.0.1.1/0 period 30000 sender 10.0.1.1:5004 1000/2000/inf/64/1500
inject r1 239.1.1.1 10014cde40000058000c0101ef0101011101138c000c03010a000101000000000008050100007530000c0b010a0001010000138c00240c0200000007010000067f000005447a000044fa00007f80000000000040000005dc
deliver 1
lose 1
wait 15000
wait 15000
lose 1
wait 43191
wait 1
",
        "Path 239.1.1.1/17/5004 hop 10.0.2.1/0 period 30000 sender 10.0.1.1:5004 1000/2000/inf/64/1500
",
    ),
];

#[test]
fn paths_go_on(rt: HostRuntime) -> Result<(), Fail> {
    run_rows(rt.alloc(), PATHS_GO_ON)
}

const PATHS_ARE_DROPPED: &[Row] = &[
    (
        "a Path by an interface that is not the one toward its source",
        CHAIN,
        "trace on
# Path 239.1.1.1/17/5004 police hop 10.0.1.1/0 period 30000 sender 10.0.1.1:5004 1000/2000/inf/64/1500
inject r2 239.1.1.1 10014cde40000058000c0101ef0101011101138c000c03010a000101000000000008050100007530000c0b010a0001010000138c00240c0200000007010000067f000005447a000044fa00007f80000000000040000005dc
deliver 1
wait 30000
",
        "r2 Path dropped NotInward
",
    ),
    (
        "such a Path does not change the one that is known",
        CHAIN,
        "# Path 239.1.1.1/17/5004 police hop 10.0.1.1/0 period 30000 sender 10.0.1.1:5004 1000/2000/inf/64/1500
inject r1 239.1.1.1 10014cde40000058000c0101ef0101011101138c000c03010a000101000000000008050100007530000c0b010a0001010000138c00240c0200000007010000067f000005447a000044fa00007f80000000000040000005dc
deliver 1
lose 1
trace on
# Path 239.1.1.1/17/5004 police hop 10.0.1.1/0 period 30000 sender 10.0.1.1:5004 500/600/700/1/9000
inject r2 239.1.1.1 1001000040000058000c0101ef0101011101138c000c03010a000101000000000008050100007530000c0b010a0001010000138c00240c0200000007010000067f00000543fa000044160000442f00000000000100002328
deliver 1
wait 30000
",
        "r2 Path dropped NotInward
Path 239.1.1.1/17/5004 hop 10.0.2.1/0 period 30000 sender 10.0.1.1:5004 1000/2000/inf/64/1500
",
    ),
    (
        "a Path of a group without a tree",
        CHAIN,
        "trace on
# Path 239.1.1.2/17/5004 police hop 10.0.1.1/0 period 30000 sender 10.0.1.1:5004 1000/2000/inf/64/1500
inject r1 239.1.1.2 1001000040000058000c0101ef0101021101138c000c03010a000101000000000008050100007530000c0b010a0001010000138c00240c0200000007010000067f000005447a000044fa00007f80000000000040000005dc
deliver 1
wait 30000
",
        "r1 Path dropped NotInward
",
    ),
    (
        "a Path to the address of the router",
        CHAIN,
        "trace on
# Path 239.1.1.1/17/5004 police hop 10.0.1.1/0 period 30000 sender 10.0.1.1:5004 1000/2000/inf/64/1500
inject r1 10.0.1.2 10014cde40000058000c0101ef0101011101138c000c03010a000101000000000008050100007530000c0b010a0001010000138c00240c0200000007010000067f000005447a000044fa00007f80000000000040000005dc
deliver 1
wait 30000
",
        "r1 Path dropped NotMine
",
    ),
    (
        "a Path without a sender",
        CHAIN,
        "trace on
# Path 239.1.1.1/17/5004 hop 10.0.1.1/0 period 30000
inject r1 239.1.1.1 1001000040000028000c0101ef0101011100138c000c03010a000101000000000008050100007530
deliver 1
wait 30000
",
        "r1 Path dropped NoSender
",
    ),
    (
        "a Path of a 17th sender",
        CHAIN,
        "stale-path r 239.1.1.1/17/5004 10.0.1.1:1 r1 10.0.1.1 1000/2000/inf/64/1500 100000
stale-path r 239.1.1.1/17/5004 10.0.1.1:2 r1 10.0.1.1 1000/2000/inf/64/1500 100000
stale-path r 239.1.1.1/17/5004 10.0.1.1:3 r1 10.0.1.1 1000/2000/inf/64/1500 100000
stale-path r 239.1.1.1/17/5004 10.0.1.1:4 r1 10.0.1.1 1000/2000/inf/64/1500 100000
stale-path r 239.1.1.1/17/5004 10.0.1.1:5 r1 10.0.1.1 1000/2000/inf/64/1500 100000
stale-path r 239.1.1.1/17/5004 10.0.1.1:6 r1 10.0.1.1 1000/2000/inf/64/1500 100000
stale-path r 239.1.1.1/17/5004 10.0.1.1:7 r1 10.0.1.1 1000/2000/inf/64/1500 100000
stale-path r 239.1.1.1/17/5004 10.0.1.1:8 r1 10.0.1.1 1000/2000/inf/64/1500 100000
stale-path r 239.1.1.1/17/5004 10.0.1.1:9 r1 10.0.1.1 1000/2000/inf/64/1500 100000
stale-path r 239.1.1.1/17/5004 10.0.1.1:10 r1 10.0.1.1 1000/2000/inf/64/1500 100000
stale-path r 239.1.1.1/17/5004 10.0.1.1:11 r1 10.0.1.1 1000/2000/inf/64/1500 100000
stale-path r 239.1.1.1/17/5004 10.0.1.1:12 r1 10.0.1.1 1000/2000/inf/64/1500 100000
stale-path r 239.1.1.1/17/5004 10.0.1.1:13 r1 10.0.1.1 1000/2000/inf/64/1500 100000
stale-path r 239.1.1.1/17/5004 10.0.1.1:14 r1 10.0.1.1 1000/2000/inf/64/1500 100000
stale-path r 239.1.1.1/17/5004 10.0.1.1:15 r1 10.0.1.1 1000/2000/inf/64/1500 100000
stale-path r 239.1.1.1/17/5004 10.0.1.1:16 r1 10.0.1.1 1000/2000/inf/64/1500 100000
trace on
# Path 239.1.1.1/17/5004 police hop 10.0.1.1/0 period 30000 sender 10.0.1.1:5004 1000/2000/inf/64/1500
inject r1 239.1.1.1 10014cde40000058000c0101ef0101011101138c000c03010a000101000000000008050100007530000c0b010a0001010000138c00240c0200000007010000067f000005447a000044fa00007f80000000000040000005dc
deliver 1
",
        "r1 Path dropped Full
",
    ),
    (
        "a Path of a 17th sender, behind the PathTear of one of the others",
        CHAIN,
        "stale-path r 239.1.1.1/17/5004 10.0.1.1:1 r1 10.0.1.1 1000/2000/inf/64/1500 100000
stale-path r 239.1.1.1/17/5004 10.0.1.1:2 r1 10.0.1.1 1000/2000/inf/64/1500 100000
stale-path r 239.1.1.1/17/5004 10.0.1.1:3 r1 10.0.1.1 1000/2000/inf/64/1500 100000
stale-path r 239.1.1.1/17/5004 10.0.1.1:4 r1 10.0.1.1 1000/2000/inf/64/1500 100000
stale-path r 239.1.1.1/17/5004 10.0.1.1:5 r1 10.0.1.1 1000/2000/inf/64/1500 100000
stale-path r 239.1.1.1/17/5004 10.0.1.1:6 r1 10.0.1.1 1000/2000/inf/64/1500 100000
stale-path r 239.1.1.1/17/5004 10.0.1.1:7 r1 10.0.1.1 1000/2000/inf/64/1500 100000
stale-path r 239.1.1.1/17/5004 10.0.1.1:8 r1 10.0.1.1 1000/2000/inf/64/1500 100000
stale-path r 239.1.1.1/17/5004 10.0.1.1:9 r1 10.0.1.1 1000/2000/inf/64/1500 100000
stale-path r 239.1.1.1/17/5004 10.0.1.1:10 r1 10.0.1.1 1000/2000/inf/64/1500 100000
stale-path r 239.1.1.1/17/5004 10.0.1.1:11 r1 10.0.1.1 1000/2000/inf/64/1500 100000
stale-path r 239.1.1.1/17/5004 10.0.1.1:12 r1 10.0.1.1 1000/2000/inf/64/1500 100000
stale-path r 239.1.1.1/17/5004 10.0.1.1:13 r1 10.0.1.1 1000/2000/inf/64/1500 100000
stale-path r 239.1.1.1/17/5004 10.0.1.1:14 r1 10.0.1.1 1000/2000/inf/64/1500 100000
stale-path r 239.1.1.1/17/5004 10.0.1.1:15 r1 10.0.1.1 1000/2000/inf/64/1500 100000
stale-path r 239.1.1.1/17/5004 10.0.1.1:16 r1 10.0.1.1 1000/2000/inf/64/1500 100000
trace on
# PathTear 239.1.1.1/17/5004 hop 10.0.1.1/0 sender 10.0.1.1:16
inject r1 239.1.1.1 100500004000002c000c0101ef0101011100138c000c03010a00010100000000000c0b010a00010100000010
# Path 239.1.1.1/17/5004 police hop 10.0.1.1/0 period 30000 sender 10.0.1.1:5004 1000/2000/inf/64/1500
inject r1 239.1.1.1 10014cde40000058000c0101ef0101011101138c000c03010a000101000000000008050100007530000c0b010a0001010000138c00240c0200000007010000067f000005447a000044fa00007f80000000000040000005dc
pass
",
        "r1 PathTear taken
r1 Path taken
PathTear 239.1.1.1/17/5004 hop 10.0.2.1/0 sender 10.0.1.1:16
Path 239.1.1.1/17/5004 hop 10.0.2.1/0 period 30000 sender 10.0.1.1:5004 1000/2000/inf/64/1500
",
    ),
    // 16385 is 256 times the class 64, plus the C-Type.
    (
        "a Path with an object of an unknown class is answered",
        CHAIN,
        "trace on
# Path 239.1.1.1/17/5004 police hop 10.0.1.1/0 period 30000 sender 10.0.1.1:5004 1000/2000/inf/64/1500, with an object of class 64
inject r1 239.1.1.1 100100004000005c000c0101ef0101011101138c00044001000c03010a000101000000000008050100007530000c0b010a0001010000138c00240c0200000007010000067f000005447a000044fa00007f80000000000040000005dc
deliver 1
",
        "r1 ? answered 13/16385
PathErr 239.1.1.1/17/5004 error 10.0.1.2 13/16385 sender 10.0.1.1:5004
",
    ),
];

#[test]
fn paths_are_dropped(rt: HostRuntime) -> Result<(), Fail> {
    run_rows(rt.alloc(), PATHS_ARE_DROPPED)
}

const PATHS_END: &[Row] = &[
    (
        "a PathTear of the previous hop goes on",
        CHAIN,
        "# Path 239.1.1.1/17/5004 police hop 10.0.1.1/0 period 30000 sender 10.0.1.1:5004 1000/2000/inf/64/1500
inject r1 239.1.1.1 10014cde40000058000c0101ef0101011101138c000c03010a000101000000000008050100007530000c0b010a0001010000138c00240c0200000007010000067f000005447a000044fa00007f80000000000040000005dc
deliver 1
lose 1
trace on
# PathTear 239.1.1.1/17/5004 hop 10.0.1.1/0 sender 10.0.1.1:5004
inject r1 239.1.1.1 100500004000002c000c0101ef0101011100138c000c03010a00010100000000000c0b010a0001010000138c
deliver 1
wait 30000
",
        "r1 PathTear taken
PathTear 239.1.1.1/17/5004 hop 10.0.2.1/0 sender 10.0.1.1:5004
",
    ),
    (
        "a PathTear of another hop does nothing",
        CHAIN,
        "# Path 239.1.1.1/17/5004 police hop 10.0.1.1/0 period 30000 sender 10.0.1.1:5004 1000/2000/inf/64/1500
inject r1 239.1.1.1 10014cde40000058000c0101ef0101011101138c000c03010a000101000000000008050100007530000c0b010a0001010000138c00240c0200000007010000067f000005447a000044fa00007f80000000000040000005dc
deliver 1
lose 1
trace on
# PathTear 239.1.1.1/17/5004 hop 10.0.1.9/0 sender 10.0.1.1:5004
inject r1 239.1.1.1 100500004000002c000c0101ef0101011100138c000c03010a00010900000000000c0b010a0001010000138c
deliver 1
wait 30000
",
        "r1 PathTear dropped NoState
Path 239.1.1.1/17/5004 hop 10.0.2.1/0 period 30000 sender 10.0.1.1:5004 1000/2000/inf/64/1500
",
    ),
    (
        "a PathTear by another interface does nothing",
        CHAIN,
        "# Path 239.1.1.1/17/5004 police hop 10.0.1.1/0 period 30000 sender 10.0.1.1:5004 1000/2000/inf/64/1500
inject r1 239.1.1.1 10014cde40000058000c0101ef0101011101138c000c03010a000101000000000008050100007530000c0b010a0001010000138c00240c0200000007010000067f000005447a000044fa00007f80000000000040000005dc
deliver 1
lose 1
trace on
# PathTear 239.1.1.1/17/5004 hop 10.0.1.1/0 sender 10.0.1.1:5004
inject r2 239.1.1.1 100500004000002c000c0101ef0101011100138c000c03010a00010100000000000c0b010a0001010000138c
deliver 1
wait 30000
",
        "r2 PathTear dropped NoState
Path 239.1.1.1/17/5004 hop 10.0.2.1/0 period 30000 sender 10.0.1.1:5004 1000/2000/inf/64/1500
",
    ),
    // Of a period of 1,000 these are 5,250.
    (
        "a Path lives for 5.25 of its periods: not over",
        CHAIN,
        "# Path 239.1.1.1/17/5004 police hop 10.0.1.1/0 period 1000 sender 10.0.1.1:5004 1000/2000/inf/64/1500
inject r1 239.1.1.1 1001000040000058000c0101ef0101011101138c000c03010a0001010000000000080501000003e8000c0b010a0001010000138c00240c0200000007010000067f000005447a000044fa00007f80000000000040000005dc
deliver 1
lose 1
wait 5249
",
        "",
    ),
    (
        "a Path lives for 5.25 of its periods, and a PathTear tells its end",
        CHAIN,
        "# Path 239.1.1.1/17/5004 police hop 10.0.1.1/0 period 1000 sender 10.0.1.1:5004 1000/2000/inf/64/1500
inject r1 239.1.1.1 1001000040000058000c0101ef0101011101138c000c03010a0001010000000000080501000003e8000c0b010a0001010000138c00240c0200000007010000067f000005447a000044fa00007f80000000000040000005dc
deliver 1
lose 1
wait 5249
wait 1
",
        "PathTear 239.1.1.1/17/5004 hop 10.0.2.1/0 sender 10.0.1.1:5004
",
    ),
    (
        "a router that is cleared sends nothing of the paths that it knew",
        CHAIN,
        "# Path 239.1.1.1/17/5004 police hop 10.0.1.1/0 period 30000 sender 10.0.1.1:5004 1000/2000/inf/64/1500
inject r1 239.1.1.1 10014cde40000058000c0101ef0101011101138c000c03010a000101000000000008050100007530000c0b010a0001010000138c00240c0200000007010000067f000005447a000044fa00007f80000000000040000005dc
deliver 1
lose 1
clear r
wait 30000
",
        "",
    ),
    (
        "the countdown of a local sender is a period again after clear: not over",
        CHAIN,
        "send s 239.1.1.1/17/5004 10.0.1.1:5004 1000/2000/inf/64/1500
lose 1
wait 15000
clear s
wait 15000
",
        "",
    ),
    (
        "the countdown of a local sender is a period again after clear",
        CHAIN,
        "send s 239.1.1.1/17/5004 10.0.1.1:5004 1000/2000/inf/64/1500
lose 1
wait 15000
clear s
wait 15000
wait 15000
",
        "Path 239.1.1.1/17/5004 police hop 10.0.1.1/0 period 30000 sender 10.0.1.1:5004 1000/2000/inf/64/1500
",
    ),
    (
        "a PathErr goes to the previous hop as it came",
        CHAIN,
        "# Path 239.1.1.1/17/5004 police hop 10.0.1.1/0 period 30000 sender 10.0.1.1:5004 1000/2000/inf/64/1500
inject r1 239.1.1.1 10014cde40000058000c0101ef0101011101138c000c03010a000101000000000008050100007530000c0b010a0001010000138c00240c0200000007010000067f000005447a000044fa00007f80000000000040000005dc
deliver 1
lose 1
trace on
# PathErr 239.1.1.1/17/5004 error 10.0.2.2 21/4 sender 10.0.1.1:5004
inject r2 10.0.2.1 100300004000002c000c0101ef0101011100138c000c06010a00020200150004000c0b010a0001010000138c
deliver 1
",
        "r2 PathErr taken
PathErr 239.1.1.1/17/5004 error 10.0.2.2 21/4 sender 10.0.1.1:5004
",
    ),
];

#[test]
fn paths_end(rt: HostRuntime) -> Result<(), Fail> {
    run_rows(rt.alloc(), PATHS_END)
}

const TREES_MOVE: &[Row] = &[
    (
        "a tree moves: the old way is torn, and the new one told",
        TWO_WAYS,
        "send s 239.1.1.1/17/5004 10.0.1.1:5004 1000/2000/inf/64/1500
pass 2
want t 239.1.1.1/17/5004 WF * 1000/2000/inf/64/1500
pass 2
reroute 239.1.1.1 10.0.1.1 s2 q1 q2 t2
",
        "PathTear 239.1.1.1/17/5004 hop 10.0.1.1/0 sender 10.0.1.1:5004
Path 239.1.1.1/17/5004 police hop 10.0.3.1/0 period 30000 sender 10.0.1.1:5004 1000/2000/inf/64/1500
PathTear 239.1.1.1/17/5004 hop 10.0.2.1/0 sender 10.0.1.1:5004
ResvTear 239.1.1.1/17/5004 hop 10.0.1.2/0 WF scope 10.0.1.1
",
    ),
    (
        "a tree is withdrawn",
        TWO_WAYS,
        "send s 239.1.1.1/17/5004 10.0.1.1:5004 1000/2000/inf/64/1500
pass 2
want t 239.1.1.1/17/5004 WF * 1000/2000/inf/64/1500
pass 2
reroute 239.1.1.1 10.0.1.1
",
        "PathTear 239.1.1.1/17/5004 hop 10.0.1.1/0 sender 10.0.1.1:5004
PathTear 239.1.1.1/17/5004 hop 10.0.2.1/0 sender 10.0.1.1:5004
ResvTear 239.1.1.1/17/5004 hop 10.0.1.2/0 WF scope 10.0.1.1
",
    ),
    (
        "it comes back before its tears arrive",
        TWO_WAYS,
        "send s 239.1.1.1/17/5004 10.0.1.1:5004 1000/2000/inf/64/1500
pass 2
want t 239.1.1.1/17/5004 WF * 1000/2000/inf/64/1500
pass 2
reroute 239.1.1.1 10.0.1.1
lose 1
lose 1
lose 1
reroute 239.1.1.1 10.0.1.1 s1 p1 p2 t1
",
        "Path 239.1.1.1/17/5004 police hop 10.0.1.1/0 period 30000 sender 10.0.1.1:5004 1000/2000/inf/64/1500
Path 239.1.1.1/17/5004 hop 10.0.2.1/0 period 30000 sender 10.0.1.1:5004 1000/2000/inf/64/1500
Resv 239.1.1.1/17/5004 hop 10.0.1.2/0 period 30000 WF scope 10.0.1.1 1000/2000/inf/64/1500
",
    ),
    (
        "the tree that stands is named again",
        TWO_WAYS,
        "send s 239.1.1.1/17/5004 10.0.1.1:5004 1000/2000/inf/64/1500
pass 2
want t 239.1.1.1/17/5004 WF * 1000/2000/inf/64/1500
pass 2
reroute 239.1.1.1 10.0.1.1 s1 p1 p2 t1
",
        "",
    ),
];

#[test]
fn trees_move(rt: HostRuntime) -> Result<(), Fail> {
    run_rows(rt.alloc(), TREES_MOVE)
}
