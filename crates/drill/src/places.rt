ghost use Rattle.std.specs.Prelude.{◌≡◌, ◌<◌, ◌≤◌};
ghost use Rattle.drill.specs.Places.{IsHost, home_of, neighbour_of};

use levels::Partition;

/// The level of a host.
pub fn home_of(host: u8) -> Partition
    requires { IsHost host }
    ensures home { result ≡ home_of host }
    ensures within { result.0 < 3 }
{
    Partition((host - 1) / 2)
}

/// The other host of a host's level.
pub fn neighbour_of(host: u8) -> u8
    requires { IsHost host }
    ensures neighbour { result ≡ neighbour_of host }
    ensures within { IsHost result }
{
    if host % 2 == 0 { host - 1 } else { host + 1 }
}
