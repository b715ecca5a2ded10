//! Why a flow is refused.

/// Why an interface does not promise a flow: an admission control failure (RFC 2205, appendix B, error code 01).
#[derive(Clone, Copy, Debug, PartialEq, Eq)]
pub enum Refused {
    /// The flow has packets of up to `most` bytes, and the interface sends none larger than `mtu` (error value 3).
    Mtu { most: u32, mtu: u32 },
    /// The flow wants `want` bytes per second, and the interface's other entries leave `free` (error value 2).
    Rate { want: u64, free: u64 },
}
