ghost use Rattle.std.specs.Prelude.{◌≡◌, ◌+◌, ◌≤◌, length};
ghost use Rattle.ring_link.specs.Links.{pending_towards, IsLinked, IsSettled, SameLink, SameTowards};
ghost use Rattle.ring_link.specs.declared.gate.Side.{Side};
ghost use Rattle.unit_core.specs.inside.Messages.{AreFew};
ghost use Rattle.unit_core.specs.inside.Ours.{AreMine};
ghost use Rattle.unit_core.specs.inside.Ends.{InOrder, SameMemory};
ghost use Rattle.unit_core.specs.inside.Sides.{Hears, Seals};

use crate::host_turn::hear;
use crate::messages::Messages;
use crate::net_turn::seal;
use crate::parts::NetOut;
use host_side::HostSide;
use net_side::NetSide;
use ring_link::{Link, Side};
use seal_core::Seal;

/// Hears the rest, once both ends are in one thread again.
pub(crate) fn hear_rest(
    host: &mut HostSide,
    link: &mut Link,
    heard: u16,
    messages: &mut Messages,
    body: &mut [u8; 5632],
)
    requires linked { IsLinked link.old }
    requires few { AreFew heard messages.old.list }
    requires mine { InOrder Side.Host link.old →
        AreMine host.old heard (pending_towards Side.Host link.old) }
    ensures order { InOrder Side.Host link.old }
    ensures hears { Hears host.old host.new heard (pending_towards Side.Host link.old)
        messages.old messages.new }
    ensures settled { IsSettled Side.Host link.new }
    ensures other { SameTowards Side.Net link.old link.new }
    ensures link { SameLink link.old link.new }
    ensures memory { SameMemory link.old link.new }
{
    let mut number = heard;
    let mut next = link.settle(Side::Host);
    while let Some(piece) = next {
        hear(host, number, &piece, messages, body);
        number += 1;
        next = link.settle(Side::Host);
    }
}

/// Seals the rest, once both ends are in one thread again.
pub(crate) fn seal_rest<S: Seal>(net: &NetSide<S>, link: &mut Link, out: &mut NetOut)
    requires linked { IsLinked link.old }
    requires few { InOrder Side.Net link.old →
        length out.old.sealed.items + length (pending_towards Side.Net link.old) ≤ 256 }
    ensures order { InOrder Side.Net link.old }
    ensures seals { Seals S.sealed_text net.now.keys (pending_towards Side.Net link.old) out.old
        out.new }
    ensures settled { IsSettled Side.Net link.new }
    ensures other { SameTowards Side.Host link.old link.new }
    ensures link { SameLink link.old link.new }
    ensures memory { SameMemory link.old link.new }
{
    let mut next = link.settle(Side::Net);
    while let Some(piece) = next {
        seal(net, &piece, out);
        next = link.settle(Side::Net);
    }
}
