//! What a router makes of errors and confirmations, whom it blockades, and how its entries are flagged.
use crate::networks::{CHAIN, FORK, TWO_SOURCES};
use crate::runs::{Row, run_rows};
use std::test::*;

const REQUESTS_ARE_BLOCKADED: &[Row] = &[
    (
        "a greedy receiver is told and blockaded, and the smaller one stays",
        FORK,
        "send s 239.1.1.1/17/5004 10.0.1.1:5004 1000/2000/inf/64/1500
pass 2
want t 239.1.1.1/17/5004 WF * 400/800/inf/64/1500
want u 239.1.1.1/17/5004 WF * 1001/600/inf/64/1500
pass 2
trace on
deliver 1
",
        "r1 ResvErr taken
ResvErr 239.1.1.1/17/5004 hop 10.0.3.1/0 error 10.0.1.1 1/2 inplace WF scope 10.0.1.1 1001/800/inf/64/1500
Resv 239.1.1.1/17/5004 hop 10.0.1.2/0 period 30000 WF scope 10.0.1.1 400/800/inf/64/1500
",
    ),
    (
        "where nothing is in place both are told",
        FORK,
        "send s 239.1.1.1/17/5004 10.0.1.1:5004 1000/2000/inf/64/1500
pass 2
want t 239.1.1.1/17/5004 WF * 400/800/inf/64/1500
want u 239.1.1.1/17/5004 WF * 1001/600/inf/64/1500
pass
lose 1
deliver 1
trace on
deliver 1
",
        "r1 ResvErr taken
ResvErr 239.1.1.1/17/5004 hop 10.0.2.1/0 error 10.0.1.1 1/2 WF scope 10.0.1.1 1001/800/inf/64/1500
ResvErr 239.1.1.1/17/5004 hop 10.0.3.1/0 error 10.0.1.1 1/2 WF scope 10.0.1.1 1001/800/inf/64/1500
Resv 239.1.1.1/17/5004 hop 10.0.1.2/0 period 30000 WF scope 10.0.1.1 400/800/inf/64/1500
",
    ),
    (
        "a fixed filter is blockaded by its sender",
        FORK,
        "send s 239.1.1.1/17/5004 10.0.1.1:5004 1000/2000/inf/64/1500
pass 2
want t 239.1.1.1/17/5004 FF 10.0.1.1:5004 400/800/inf/64/1500
want u 239.1.1.1/17/5004 FF 10.0.1.1:5004 1001/600/inf/64/1500
pass 2
trace on
deliver 1
",
        "r1 ResvErr taken
ResvErr 239.1.1.1/17/5004 hop 10.0.3.1/0 error 10.0.1.1 1/2 inplace FF 10.0.1.1:5004 1001/800/inf/64/1500
Resv 239.1.1.1/17/5004 hop 10.0.1.2/0 period 30000 FF 10.0.1.1:5004 400/800/inf/64/1500
",
    ),
    (
        "where all are blockaded their meet is sent",
        FORK,
        "send s 239.1.1.1/17/5004 10.0.1.1:5004 1000/2000/inf/64/1500
pass 2
want t 239.1.1.1/17/5004 WF * 1001/2000/inf/64/1500
want u 239.1.1.1/17/5004 WF * 1100/800/inf/128/1000
pass
lose 2
deliver 1
trace on
deliver 1
",
        "r1 ResvErr taken
ResvErr 239.1.1.1/17/5004 hop 10.0.2.1/0 error 10.0.1.1 1/2 WF scope 10.0.1.1 1001/2000/inf/64/1500
ResvErr 239.1.1.1/17/5004 hop 10.0.3.1/0 error 10.0.1.1 1/2 WF scope 10.0.1.1 1001/2000/inf/64/1500
Resv 239.1.1.1/17/5004 hop 10.0.1.2/0 period 30000 WF scope 10.0.1.1 1001/800/inf/128/1000
",
    ),
    (
        "all are blockaded by a blockade that was left over",
        FORK,
        "stale-blockade r 239.1.1.1/17/5004 hop r1 10.0.1.1 2 500/500/inf/1/1500 20000
send s 239.1.1.1/17/5004 10.0.1.1:5004 1000/2000/inf/64/1500
pass 2
want t 239.1.1.1/17/5004 WF * 500/900/inf/64/1500
want u 239.1.1.1/17/5004 WF * 600/800/inf/128/1000
pass
",
        "Resv 239.1.1.1/17/5004 hop 10.0.1.2/0 period 30000 WF scope 10.0.1.1 500/900/inf/64/1500
Resv 239.1.1.1/17/5004 hop 10.0.1.2/0 period 30000 WF scope 10.0.1.1 500/800/inf/128/1000
",
    ),
    (
        "the smaller request is sent alone beside a blockade that was left over",
        FORK,
        "stale-blockade r 239.1.1.1/17/5004 hop r1 10.0.1.1 2 500/500/inf/1/1500 20000
send s 239.1.1.1/17/5004 10.0.1.1:5004 1000/2000/inf/64/1500
pass 2
want t 239.1.1.1/17/5004 WF * 499/900/inf/64/1500
want u 239.1.1.1/17/5004 WF * 600/800/inf/128/1000
pass
",
        "Resv 239.1.1.1/17/5004 hop 10.0.1.2/0 period 30000 WF scope 10.0.1.1 499/900/inf/64/1500
",
    ),
    (
        "with the end of the blockade the larger one is sent",
        FORK,
        "stale-blockade r 239.1.1.1/17/5004 hop r1 10.0.1.1 2 500/500/inf/1/1500 20000
send s 239.1.1.1/17/5004 10.0.1.1:5004 1000/2000/inf/64/1500
pass 2
want t 239.1.1.1/17/5004 WF * 499/900/inf/64/1500
want u 239.1.1.1/17/5004 WF * 600/800/inf/128/1000
pass 2
wait 15000
wait 4999
wait 1
",
        "Resv 239.1.1.1/17/5004 hop 10.0.1.2/0 period 30000 WF scope 10.0.1.1 600/900/inf/64/1500
",
    ),
];

#[test]
fn requests_are_blockaded(rt: HostRuntime) -> Result<(), Fail> {
    run_rows(rt.alloc(), REQUESTS_ARE_BLOCKADED)
}

const ERRORS_GO_ON: &[Row] = &[
    (
        "an error goes on with the scope of each reservation",
        TWO_SOURCES,
        "send s 239.1.1.1/17/5004 10.0.1.1:5004 1000/2000/inf/64/1500
send s 239.1.1.1/17/5004 10.0.5.1:5004 1000/2000/inf/64/1500
pass 2
want t 239.1.1.1/17/5004 WF * 400/800/inf/64/1500
want u 239.1.1.1/17/5004 WF * 400/800/inf/64/1500
pass 3
trace on
# ResvErr 239.1.1.1/17/5004 hop 10.0.1.1/0 error 10.0.1.1 1/2 WF scope 10.0.1.1,10.0.5.1 400/800/inf/64/1500
inject r1 10.0.1.2 1004000040000064000c0101ef0101011100138c000c03010a00010100000000000c06010a00010100010002000c07010a0001010a00050100080801000000110024090200000007050000067f00000543c80000444800007f80000000000040000005dc
deliver 1
",
        "r1 ResvErr taken
ResvErr 239.1.1.1/17/5004 hop 10.0.2.1/0 error 10.0.1.1 1/2 WF scope 10.0.1.1,10.0.5.1 400/800/inf/64/1500
ResvErr 239.1.1.1/17/5004 hop 10.0.3.1/0 error 10.0.1.1 1/2 WF scope 10.0.1.1 400/800/inf/64/1500
",
    ),
    (
        "an error goes to those whose reservation has its scope",
        TWO_SOURCES,
        "send s 239.1.1.1/17/5004 10.0.1.1:5004 1000/2000/inf/64/1500
send s 239.1.1.1/17/5004 10.0.5.1:5004 1000/2000/inf/64/1500
pass 2
want t 239.1.1.1/17/5004 WF * 400/800/inf/64/1500
want u 239.1.1.1/17/5004 WF * 400/800/inf/64/1500
pass 3
trace on
# ResvErr 239.1.1.1/17/5004 hop 10.0.1.1/0 error 10.0.1.1 1/2 WF scope 10.0.5.1 400/800/inf/64/1500
inject r1 10.0.1.2 1004000040000060000c0101ef0101011100138c000c03010a00010100000000000c06010a00010100010002000807010a00050100080801000000110024090200000007050000067f00000543c80000444800007f80000000000040000005dc
deliver 1
",
        "r1 ResvErr taken
ResvErr 239.1.1.1/17/5004 hop 10.0.2.1/0 error 10.0.1.1 1/2 WF scope 10.0.5.1 400/800/inf/64/1500
",
    ),
    (
        "an error without SCOPE goes on with that of each reservation",
        TWO_SOURCES,
        "send s 239.1.1.1/17/5004 10.0.1.1:5004 1000/2000/inf/64/1500
send s 239.1.1.1/17/5004 10.0.5.1:5004 1000/2000/inf/64/1500
pass 2
want t 239.1.1.1/17/5004 WF * 400/800/inf/64/1500
want u 239.1.1.1/17/5004 WF * 400/800/inf/64/1500
pass 3
trace on
# ResvErr 239.1.1.1/17/5004 hop 10.0.1.1/0 error 10.0.1.1 1/2 WF 400/800/inf/64/1500
inject r1 10.0.1.2 1004000040000058000c0101ef0101011100138c000c03010a00010100000000000c06010a0001010001000200080801000000110024090200000007050000067f00000543c80000444800007f80000000000040000005dc
deliver 1
",
        "r1 ResvErr taken
ResvErr 239.1.1.1/17/5004 hop 10.0.2.1/0 error 10.0.1.1 1/2 WF scope 10.0.1.1,10.0.5.1 400/800/inf/64/1500
ResvErr 239.1.1.1/17/5004 hop 10.0.3.1/0 error 10.0.1.1 1/2 WF scope 10.0.1.1 400/800/inf/64/1500
",
    ),
    (
        "an error with an empty SCOPE sets a blockade and goes nowhere",
        FORK,
        "send s 239.1.1.1/17/5004 10.0.1.1:5004 1000/2000/inf/64/1500
pass 2
want t 239.1.1.1/17/5004 WF * 400/800/inf/64/1500
want u 239.1.1.1/17/5004 WF * 600/600/inf/64/1500
pass 3
trace on
# ResvErr 239.1.1.1/17/5004 hop 10.0.1.1/0 error 10.0.1.1 1/2 WF scope - 600/800/inf/64/1500
inject r1 10.0.1.2 100400004000005c000c0101ef0101011100138c000c03010a00010100000000000c06010a000101000100020004070100080801000000110024090200000007050000067f00000544160000444800007f80000000000040000005dc
deliver 1
",
        "r1 ResvErr taken
Resv 239.1.1.1/17/5004 hop 10.0.1.2/0 period 30000 WF scope 10.0.1.1 400/800/inf/64/1500
",
    ),
    (
        "an error without senders goes to each next hop once",
        FORK,
        "send s 239.1.1.1/17/5004 10.0.1.1:5004 1000/2000/inf/64/1500
send s 239.1.1.1/17/5004 10.0.1.1:5006 1000/2000/inf/64/1500
pass 2
want t 239.1.1.1/17/5004 FF 10.0.1.1:5004,10.0.1.1:5006 200/200/inf/64/1500
want u 239.1.1.1/17/5004 FF 10.0.1.1:5006 200/200/inf/64/1500
pass 3
trace on
# ResvErr 239.1.1.1/17/5004 hop 10.0.1.1/0 error 10.0.1.1 21/3 FF
inject r1 10.0.1.2 1004000040000034000c0101ef0101011100138c000c03010a00010100000000000c06010a00010100150003000808010000000a
deliver 1
",
        "r1 ResvErr taken
ResvErr 239.1.1.1/17/5004 hop 10.0.2.1/0 error 10.0.1.1 21/3 FF
ResvErr 239.1.1.1/17/5004 hop 10.0.3.1/0 error 10.0.1.1 21/3 FF
",
    ),
    (
        "an error of a sender goes to those who asked for it",
        FORK,
        "send s 239.1.1.1/17/5004 10.0.1.1:5004 1000/2000/inf/64/1500
send s 239.1.1.1/17/5004 10.0.1.1:5006 1000/2000/inf/64/1500
pass 2
want t 239.1.1.1/17/5004 FF 10.0.1.1:5004,10.0.1.1:5006 200/200/inf/64/1500
want u 239.1.1.1/17/5004 FF 10.0.1.1:5006 200/200/inf/64/1500
pass 3
trace on
# ResvErr 239.1.1.1/17/5004 hop 10.0.1.1/0 error 10.0.1.1 4/0 FF 10.0.1.1:5004 200/200/inf/64/1500
inject r1 10.0.1.2 1004000040000064000c0101ef0101011100138c000c03010a00010100000000000c06010a00010100040000000808010000000a0024090200000007050000067f00000543480000434800007f80000000000040000005dc000c0a010a0001010000138c
deliver 1
",
        "r1 ResvErr taken
ResvErr 239.1.1.1/17/5004 hop 10.0.2.1/0 error 10.0.1.1 4/0 FF 10.0.1.1:5004 200/200/inf/64/1500
",
    ),
    (
        "an error of another hop goes nowhere",
        FORK,
        "send s 239.1.1.1/17/5004 10.0.1.1:5004 1000/2000/inf/64/1500
pass 2
want t 239.1.1.1/17/5004 WF * 400/800/inf/64/1500
pass 2
trace on
# ResvErr 239.1.1.1/17/5004 hop 10.0.1.9/0 error 10.0.1.9 1/2 WF scope 10.0.1.1 400/800/inf/64/1500
inject r1 10.0.1.2 1004000040000060000c0101ef0101011100138c000c03010a00010900000000000c06010a00010900010002000807010a00010100080801000000110024090200000007050000067f00000543c80000444800007f80000000000040000005dc
deliver 1
",
        "r1 ResvErr dropped NoState
",
    ),
];

#[test]
fn errors_go_on(rt: HostRuntime) -> Result<(), Fail> {
    run_rows(rt.alloc(), ERRORS_GO_ON)
}

const CONFIRMATIONS_COME_BACK: &[Row] = &[
    (
        "a wish goes on with the change that it makes, and is confirmed where it makes none",
        FORK,
        "send s 239.1.1.1/17/5004 10.0.1.1:5004 1000/2000/inf/64/1500
pass 2
want t 239.1.1.1/17/5004 WF * 500/600/inf/64/1500 confirm
want u 239.1.1.1/17/5004 WF * 300/400/inf/128/1000 confirm
trace on
pass
",
        "r2 Resv taken
r3 Resv taken
Resv 239.1.1.1/17/5004 hop 10.0.1.2/0 period 30000 confirm 10.0.2.2 WF scope 10.0.1.1 500/600/inf/64/1500
ResvConf 239.1.1.1/17/5004 error 10.0.3.1 0/0 confirm 10.0.3.2 WF 300/400/inf/128/1000
",
    ),
    (
        "a confirmation goes to the one who wanted it",
        FORK,
        "send s 239.1.1.1/17/5004 10.0.1.1:5004 1000/2000/inf/64/1500
pass 2
want t 239.1.1.1/17/5004 WF * 500/600/inf/64/1500 confirm
want u 239.1.1.1/17/5004 WF * 300/400/inf/128/1000 confirm
pass 2
trace on
deliver 1
",
        "r1 ResvConf taken
ResvConf 239.1.1.1/17/5004 error 10.0.1.1 0/0 confirm 10.0.2.2 WF 500/600/inf/64/1500
",
    ),
    (
        "a confirmation goes to each who wanted it",
        FORK,
        "send s 239.1.1.1/17/5004 10.0.1.1:5004 1000/2000/inf/64/1500
pass 2
# Resv 239.1.1.1/17/5004 hop 10.0.2.2/0 period 30000 confirm 10.0.9.9 WF 300/300/inf/64/1500
inject r2 10.0.2.1 100200004000005c000c0101ef0101011100138c000c03010a00020200000000000805010000753000080f010a00090900080801000000110024090200000007050000067f00000543960000439600007f80000000000040000005dc
# Resv 239.1.1.1/17/5004 hop 10.0.3.2/0 period 30000 confirm 10.0.9.9 WF 400/400/inf/64/1500
inject r3 10.0.3.1 100200004000005c000c0101ef0101011100138c000c03010a00030200000000000805010000753000080f010a00090900080801000000110024090200000007050000067f00000543c8000043c800007f80000000000040000005dc
pass
lose 1
lose 1
trace on
# ResvConf 239.1.1.1/17/5004 error 10.0.1.1 0/0 confirm 10.0.9.9 WF 400/400/inf/64/1500
inject r1 10.0.1.2 1007000040000054000c0101ef0101011100138c000c06010a0001010000000000080f010a00090900080801000000110024090200000007050000067f00000543c8000043c800007f80000000000040000005dc
deliver 1
",
        "r1 ResvConf taken
ResvConf 239.1.1.1/17/5004 error 10.0.1.1 0/0 confirm 10.0.9.9 WF 400/400/inf/64/1500
ResvConf 239.1.1.1/17/5004 error 10.0.1.1 0/0 confirm 10.0.9.9 WF 400/400/inf/64/1500
",
    ),
    (
        "a confirmation of a shared filter goes to those who have its sender",
        FORK,
        "send s 239.1.1.1/17/5004 10.0.1.1:5004 1000/2000/inf/64/1500
send s 239.1.1.1/17/5004 10.0.1.1:5006 1000/2000/inf/64/1500
pass 2
# Resv 239.1.1.1/17/5004 hop 10.0.2.2/0 period 30000 confirm 10.0.9.9 SE 10.0.1.1:5004 300/300/inf/64/1500
inject r2 10.0.2.1 1002000040000068000c0101ef0101011100138c000c03010a00020200000000000805010000753000080f010a00090900080801000000120024090200000007050000067f00000543960000439600007f80000000000040000005dc000c0a010a0001010000138c
# Resv 239.1.1.1/17/5004 hop 10.0.3.2/0 period 30000 confirm 10.0.9.9 SE 10.0.1.1:5006 400/400/inf/64/1500
inject r3 10.0.3.1 1002000040000068000c0101ef0101011100138c000c03010a00030200000000000805010000753000080f010a00090900080801000000120024090200000007050000067f00000543c8000043c800007f80000000000040000005dc000c0a010a0001010000138e
pass
lose 1
lose 1
trace on
# ResvConf 239.1.1.1/17/5004 error 10.0.1.1 0/0 confirm 10.0.9.9 SE 10.0.1.1:5006 400/400/inf/64/1500
inject r1 10.0.1.2 1007000040000060000c0101ef0101011100138c000c06010a0001010000000000080f010a00090900080801000000120024090200000007050000067f00000543c8000043c800007f80000000000040000005dc000c0a010a0001010000138e
deliver 1
",
        "r1 ResvConf taken
ResvConf 239.1.1.1/17/5004 error 10.0.1.1 0/0 confirm 10.0.9.9 SE 10.0.1.1:5006 400/400/inf/64/1500
",
    ),
    (
        "a refresh does not forget who wanted it",
        CHAIN,
        "send s 239.1.1.1/17/5004 10.0.1.1:5004 1000/2000/inf/64/1500
pass 2
want t 239.1.1.1/17/5004 WF * 1000/2000/inf/64/1500 confirm
pass
# Resv 239.1.1.1/17/5004 hop 10.0.2.2/0 period 30000 WF scope 10.0.1.1 1000/2000/inf/64/1500
inject r2 10.0.2.1 10025a4f4000005c000c0101ef0101011100138c000c03010a000202000000000008050100007530000807010a00010100080801000000110024090200000007050000067f000005447a000044fa00007f80000000000040000005dc
pass
trace on
deliver 1
",
        "r1 ResvConf taken
ResvConf 239.1.1.1/17/5004 error 10.0.1.1 0/0 confirm 10.0.2.2 WF 1000/2000/inf/64/1500
",
    ),
    (
        "a ResvConf has no SCOPE",
        CHAIN,
        "send s 239.1.1.1/17/5004 10.0.1.1:5004 1000/2000/inf/64/1500
pass 2
want t 239.1.1.1/17/5004 WF * 1000/2000/inf/64/1500 confirm
pass
lose 1
trace on
# ResvConf 239.1.1.1/17/5004 error 10.0.1.1 0/0 confirm 10.0.2.2 WF 1000/2000/inf/64/1500, with a SCOPE
inject r1 10.0.1.2 100700004000005c000c0101ef0101011100138c000c06010a0001010000000000080f010a000202000807010a00010100080801000000110024090200000007050000067f000005447a000044fa00007f80000000000040000005dc
deliver 1
",
        "r1 ? dropped Unspelt
",
    ),
    (
        "refreshes of a wish that was told have no address",
        CHAIN,
        "send s 239.1.1.1/17/5004 10.0.1.1:5004 1000/2000/inf/64/1500
pass 2
want t 239.1.1.1/17/5004 WF * 1000/2000/inf/64/1500 confirm
lose 1
wait 30000
",
        "Path 239.1.1.1/17/5004 police hop 10.0.1.1/0 period 30000 sender 10.0.1.1:5004 1000/2000/inf/64/1500
Path 239.1.1.1/17/5004 hop 10.0.2.1/0 period 30000 sender 10.0.1.1:5004 1000/2000/inf/64/1500
Resv 239.1.1.1/17/5004 hop 10.0.2.2/0 period 30000 WF scope 10.0.1.1 1000/2000/inf/64/1500
",
    ),
];

#[test]
fn confirmations_come_back(rt: HostRuntime) -> Result<(), Fail> {
    run_rows(rt.alloc(), CONFIRMATIONS_COME_BACK)
}

const ENTRIES_HAVE_THEIR_FLAGS: &[Row] = &[
    (
        "two flows that do not cover each other: b on both",
        FORK,
        "send s 239.1.1.1/17/5004 10.0.1.1:5004 1000/2000/inf/64/1500
pass 2
want t 239.1.1.1/17/5004 WF * 300/600/inf/64/1500
want u 239.1.1.1/17/5004 WF * 500/400/inf/128/1000
pass 3
flags
",
        "end s1 held 500 of 1000
239.1.1.1/17/5004 WF 10.0.1.1 500/600/inf/64/1500 ---
end r1 held 0 of 10000
end r2 held 300 of 10000
239.1.1.1/17/5004 WF 10.0.1.1 300/600/inf/64/1500 e-b
end t1 held 0 of 10000
end r3 held 500 of 10000
239.1.1.1/17/5004 WF 10.0.1.1 500/400/inf/128/1000 e-b
end u1 held 0 of 10000
",
    ),
    (
        "a flow that covers the other one: b on the other alone",
        FORK,
        "send s 239.1.1.1/17/5004 10.0.1.1:5004 1000/2000/inf/64/1500
pass 2
want t 239.1.1.1/17/5004 WF * 500/600/inf/64/1500
want u 239.1.1.1/17/5004 WF * 300/400/inf/128/1000
pass 3
flags
",
        "end s1 held 500 of 1000
239.1.1.1/17/5004 WF 10.0.1.1 500/600/inf/64/1500 ---
end r1 held 0 of 10000
end r2 held 500 of 10000
239.1.1.1/17/5004 WF 10.0.1.1 500/600/inf/64/1500 e--
end t1 held 0 of 10000
end r3 held 300 of 10000
239.1.1.1/17/5004 WF 10.0.1.1 300/400/inf/128/1000 e-b
end u1 held 0 of 10000
",
    ),
    (
        "two senders share a reservation: m",
        FORK,
        "send s 239.1.1.1/17/5004 10.0.1.1:5004 1000/2000/inf/64/1500
send s 239.1.1.1/17/5004 10.0.1.1:5006 1000/2000/inf/64/1500
pass 2
want t 239.1.1.1/17/5004 SE 10.0.1.1:5004,10.0.1.1:5006 300/300/inf/64/1500
pass 3
flags
",
        "end s1 held 300 of 1000
239.1.1.1/17/5004 SE 10.0.1.1:5004,10.0.1.1:5006 300/300/inf/64/1500 ---
end r1 held 0 of 10000
end r2 held 300 of 10000
239.1.1.1/17/5004 SE 10.0.1.1:5004,10.0.1.1:5006 300/300/inf/64/1500 em-
end t1 held 0 of 10000
end r3 held 0 of 10000
end u1 held 0 of 10000
",
    ),
    (
        "two senders with a reservation each: no m",
        FORK,
        "send s 239.1.1.1/17/5004 10.0.1.1:5004 1000/2000/inf/64/1500
send s 239.1.1.1/17/5004 10.0.1.1:5006 1000/2000/inf/64/1500
pass 2
want t 239.1.1.1/17/5004 FF 10.0.1.1:5004,10.0.1.1:5006 300/300/inf/64/1500
pass 3
flags
",
        "end s1 held 600 of 1000
239.1.1.1/17/5004 FF 10.0.1.1:5004 300/300/inf/64/1500 ---
239.1.1.1/17/5004 FF 10.0.1.1:5006 300/300/inf/64/1500 ---
end r1 held 0 of 10000
end r2 held 600 of 10000
239.1.1.1/17/5004 FF 10.0.1.1:5004 300/300/inf/64/1500 e--
239.1.1.1/17/5004 FF 10.0.1.1:5006 300/300/inf/64/1500 e--
end t1 held 0 of 10000
end r3 held 0 of 10000
end u1 held 0 of 10000
",
    ),
    (
        "a path whose sender was policed before: no e",
        FORK,
        "# Path 239.1.1.1/17/5004 hop 10.0.1.1/0 period 30000 sender 10.0.1.1:5004 1000/2000/inf/64/1500
inject r1 239.1.1.1 1001000040000058000c0101ef0101011100138c000c03010a000101000000000008050100007530000c0b010a0001010000138c00240c0200000007010000067f000005447a000044fa00007f80000000000040000005dc
deliver 1
lose 1
lose 1
# Resv 239.1.1.1/17/5004 hop 10.0.2.2/0 period 30000 WF scope 10.0.1.1 1000/2000/inf/64/1500
inject r2 10.0.2.1 10025a4f4000005c000c0101ef0101011100138c000c03010a000202000000000008050100007530000807010a00010100080801000000110024090200000007050000067f000005447a000044fa00007f80000000000040000005dc
deliver 1
lose 1
flags
",
        "end s1 held 0 of 1000
end r1 held 0 of 10000
end r2 held 1000 of 10000
239.1.1.1/17/5004 WF 10.0.1.1 1000/2000/inf/64/1500 ---
end t1 held 0 of 10000
end r3 held 0 of 10000
end u1 held 0 of 10000
",
    ),
];

#[test]
fn entries_have_their_flags(rt: HostRuntime) -> Result<(), Fail> {
    run_rows(rt.alloc(), ENTRIES_HAVE_THEIR_FLAGS)
}
