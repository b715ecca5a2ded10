//! The networks of the rows, as the first lines of a script.

/// A host s that sends, a router r, and a host t that listens: s1 - r1, r2 - t1. The interface r2 has 1,000 bytes per second.
pub const CHAIN: &str = "node s
node r
node t
end s1 s 10.0.1.1 10000 1500
end r1 r 10.0.1.2 10000 1500
end r2 r 10.0.2.1 1000 1500
end t1 t 10.0.2.2 10000 1500
link s1 r1
link r2 t1
hop 239.1.1.1 10.0.1.1 s1 r1
hop 239.1.1.1 10.0.1.1 r2 t1
";

/// A host s that sends, a router r, and two hosts t and u that listen: s1 - r1, r2 - t1, r3 - u1. The interface s1 has 1,000 bytes
/// per second.
pub const FORK: &str = "node s
node r
node t
node u
end s1 s 10.0.1.1 1000 1500
end r1 r 10.0.1.2 10000 1500
end r2 r 10.0.2.1 10000 1500
end t1 t 10.0.2.2 10000 1500
end r3 r 10.0.3.1 10000 1500
end u1 u 10.0.3.2 10000 1500
link s1 r1
link r2 t1
link r3 u1
hop 239.1.1.1 10.0.1.1 s1 r1
hop 239.1.1.1 10.0.1.1 r2 t1
hop 239.1.1.1 10.0.1.1 r3 u1
";

/// The same with a second source at s, 10.0.5.1, of which t alone hears.
pub const TWO_SOURCES: &str = "node s
node r
node t
node u
end s1 s 10.0.1.1 10000 1500
end s2 s 10.0.5.1 10000 1500
end r1 r 10.0.1.2 10000 1500
end r2 r 10.0.2.1 10000 1500
end t1 t 10.0.2.2 10000 1500
end r3 r 10.0.3.1 10000 1500
end u1 u 10.0.3.2 10000 1500
link s1 r1
link r2 t1
link r3 u1
hop 239.1.1.1 10.0.1.1 s1 r1
hop 239.1.1.1 10.0.1.1 r2 t1
hop 239.1.1.1 10.0.1.1 r3 u1
hop 239.1.1.1 10.0.5.1 s1 r1
hop 239.1.1.1 10.0.5.1 r2 t1
";

/// Two hosts s and p that send, each on a link of its own, a router r, and a host t that hears both: s1 - r1, p1 - r3, r2 - t1.
pub const TWO_HOPS: &str = "node s
node p
node r
node t
end s1 s 10.0.1.1 10000 1500
end p1 p 10.0.4.1 10000 1500
end r1 r 10.0.1.2 10000 1500
end r2 r 10.0.2.1 10000 1500
end r3 r 10.0.4.2 10000 1500
end t1 t 10.0.2.2 10000 1500
link s1 r1
link p1 r3
link r2 t1
hop 239.1.1.1 10.0.1.1 s1 r1
hop 239.1.1.1 10.0.1.1 r2 t1
hop 239.1.1.1 10.0.4.1 p1 r3
hop 239.1.1.1 10.0.4.1 r2 t1
";

/// Two ways from s to t: by p, which the tree has, and by q.
pub const TWO_WAYS: &str = "node s
node p
node q
node t
end s1 s 10.0.1.1 10000 1500
end p1 p 10.0.1.2 10000 1500
end p2 p 10.0.2.1 10000 1500
end t1 t 10.0.2.2 10000 1500
end s2 s 10.0.3.1 10000 1500
end q1 q 10.0.3.2 10000 1500
end q2 q 10.0.4.1 10000 1500
end t2 t 10.0.4.2 10000 1500
link s1 p1
link p2 t1
link s2 q1
link q2 t2
hop 239.1.1.1 10.0.1.1 s1 p1
hop 239.1.1.1 10.0.1.1 p2 t1
";
