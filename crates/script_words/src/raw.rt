//! What words say, before the range of any number is looked at.

/// Four numbers joined by dots, the first one highest.
#[derive(Clone, Copy, Debug, PartialEq, Eq)]
pub struct DottedQuad {
    pub a: u128,
    pub b: u128,
    pub c: u128,
    pub d: u128,
}

/// A session as `GROUP/PROTO/PORT`: its group, IP protocol and destination port.
#[derive(Clone, Copy, Debug, PartialEq, Eq)]
pub struct SessionWord {
    pub group: DottedQuad,
    pub proto: u128,
    pub port: u128,
}

/// A sender as `ADDR:PORT`.
#[derive(Clone, Copy, Debug, PartialEq, Eq)]
pub struct SenderWord {
    pub addr: DottedQuad,
    pub port: u128,
}

/// A flow as `r/b/p/m/M`, the letters of RFC 2210, 3.2.
#[derive(Clone, Copy, Debug, PartialEq, Eq)]
pub struct FlowWord {
    /// Token bucket rate r, in bytes per second.
    pub r: u128,
    /// Token bucket size b, in bytes.
    pub b: u128,
    /// Peak data rate p, in bytes per second; `None` for `inf`.
    pub p: Option<u128>,
    /// Minimum policed unit m, in bytes.
    pub low: u128,
    /// Maximum packet size M, in bytes.
    pub most: u128,
}
