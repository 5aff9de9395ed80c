ghost use Rattle.std.specs.Prelude.{◌≡◌};
ghost use Rattle.asset_monitor.specs.Banners.{banner_in};
ghost use Rattle.asset_monitor.specs.Services.{end_cmp};
ghost use Rattle.asset_monitor.specs.Outputs.{source};
ghost use Rattle.asset_monitor.specs.Rows.{payload};

use crate::banner::Banner;
use flow_filter::Packet;
use std::cmp::Ordering;

/// A service of a local host: where it is reached, and how it greets.
#[derive(Clone, Copy, Debug, PartialEq, Eq, PartialOrd, Ord)]
pub struct Service {
    pub proto: u8,
    pub port: u16,
    pub banner: Banner,
}

impl Service {
    /// The service at the packet's source, its banner not seen.
    pub fn of_source(packet: &Packet) -> Service
        ensures { result ≡ source packet.now }
    {
        Service {
            proto: packet.proto,
            port: packet.sport,
            banner: Banner::Unseen,
        }
    }

    /// The service with the banner that the packet's payload begins with.
    pub fn greeting(self, packet: &Packet) -> Service
        ensures { result ≡ record self { banner = banner_in (payload packet.now) } }
    {
        let held = usize::from(packet.held).min(packet.head.len());
        Service {
            banner: Banner::of_payload(&packet.head[..held]),
            ..self
        }
    }

    /// The order of services by their protocols and ports.
    pub fn end_cmp(&self, other: &Service) -> Ordering
        ensures { result ≡ end_cmp self.now other.now }
    {
        self.proto
            .cmp(&other.proto)
            .then(self.port.cmp(&other.port))
    }
}
