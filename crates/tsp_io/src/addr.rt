//! Addresses of datagrams.

/// An IPv4 address and a UDP port.
#[derive(Clone, Copy, PartialEq, Eq, Debug)]
pub struct Addr {
    /// The four octets of the address, in the order in which they are written.
    pub ip: [u8; 4],
    /// The UDP port.
    pub port: u16,
}
