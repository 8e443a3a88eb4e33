//! An address as the system gets it.
ghost use Rattle.std.specs.Net.SockAddr.{family_and_port, in_storage};
ghost use Rattle.std.specs.Prelude.{◌≡◌, ◌+◌, ◌++◌, ◌≤◌, List, length, ℕ};
ghost use Rattle.tsp_io.specs.Sockets.{sockaddr_of};

use crate::addr::Addr;
use libc::net;

/// How many of the octets the system reads.
pub(crate) const RAW_LEN: u32 = 16;

/// The address as the octets of C's `sockaddr_in`, and zeros behind them.
#[inline(always)]
pub(crate) fn raw_addr(addr: Addr) -> [u8; 128]
    ensures { result ≡ sockaddr_of addr }
{
    let mut raw = family_and_port(addr.port);
    put(&mut raw, 4, &addr.ip);
    raw
}

/// The fields of C's `sockaddr_in` before the address, and zeros behind them.
#[inline(always)]
fn family_and_port(port: u16) -> [u8; 128]
    ensures { result ≡ in_storage (family_and_port 2 port) }
{
    let mut raw = [0; 128];
    put(&mut raw, 0, &(net::AF_INET as u16).to_ne_bytes());
    put(&mut raw, 2, &port.to_be_bytes());
    raw
}

/// Writes the next field.
#[inline(always)]
fn put(raw: &mut [u8; 128], at: usize, octets: &[u8])
    requires { at + length octets.now ≤ 128 }
    ensures { (front : List ℕ) → length front ≡ at → raw.old ≡ in_storage front
        → raw.new ≡ in_storage (front ++ octets.now) }
{
    raw[at..at + octets.len()].copy_from_slice(octets);
}
