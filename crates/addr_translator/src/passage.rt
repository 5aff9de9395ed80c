ghost use Rattle.std.specs.Prelude.{◌≡◌, false};
ghost use Rattle.std.specs.Option.{option_map_or};
ghost use Rattle.nf_function.specs.Units.{is_transport};
ghost use Rattle.addr_translator.specs.Passages.{passage_of};

use flow_filter::{FIRST_PORT, Packet, Site};
use nf_function::is_transport;

/// How a packet passes the border of a site.
#[derive(Clone, Copy, Debug, PartialEq, Eq)]
pub enum Passage {
    /// From an inside host out, under this outside address.
    Leaves(u32),
    /// To a port of the outside address.
    Returns,
    /// From outside to an inside host's own address.
    Direct,
    /// None of these.
    Other,
}

impl Passage {
    /// How the packet passes the site's border.
    #[tactic(auto, unfolding(crate::specs::Passages::passage_of))]
    pub fn of(site: &Site, packet: &Packet) -> Passage
        ensures value { result ≡ passage_of site.now packet.now }
        ensures other { is_transport packet.now.proto ≡ false → result ≡ Passage.Other }
    {
        if !is_transport(packet.proto) {
            return Passage::Other;
        }
        match (site.inside.holds(packet.src), site.inside.holds(packet.dst)) {
            (true, false) => leaving(site.outside),
            (false, true) => Passage::Direct,
            (false, false) if site.outside == Some(packet.dst) && packet.dport >= FIRST_PORT => {
                Passage::Returns
            }
            _ => Passage::Other,
        }
    }
}

/// An inside host's packet leaves where the site has an outside address.
fn leaving(outside: Option<u32>) -> Passage
    ensures { result ≡ option_map_or Passage.Leaves outside Passage.Other }
{
    outside.map_or(Passage::Other, Passage::Leaves)
}
