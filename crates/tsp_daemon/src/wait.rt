//! How long the daemon waits.
ghost use Rattle.std.specs.Prelude.{◌≡◌};
ghost use Rattle.tsp_daemon.specs.Waits.{wait_until};

/// How many microseconds to wait for a datagram at this tick: until tick `due`, when the node's
/// next alarm or repeat is due, but at least 1,000 and at most 1,000,000.
pub fn wait_until(due: u64, tick: u64) -> u64
    ensures { result ≡ wait_until due tick }
{
    due.saturating_sub(tick).min(1_000_000).max(1_000)
}
