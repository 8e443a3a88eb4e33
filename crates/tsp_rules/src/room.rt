//! How much room a step takes.
ghost use Rattle.std.specs.Prelude.{◌≡◌, ◌≤◌};
ghost use Rattle.tsp_rules.specs.Rooms.{room_for};

/// How many acts a step may put on a port with so many peers, at most 1,000: 24 for each peer and 256 more.
pub fn room_for(peers: usize) -> usize
    requires { peers ≤ 1000 }
    ensures { result ≡ room_for peers }
{
    24 * peers + 256
}
