ghost use Rattle.std.specs.Prelude.{◌≡◌};
ghost use Rattle.asset_monitor.specs.Outputs.{nothing, counted};

use crate::services::Services;
use std::alloc::Global;

/// What the monitor keeps of a local host.
#[derive(Debug, Drop)]
pub struct AssetRecord {
    /// How many packets of the host's flows came by.
    pub packets: u64,
    pub services: Services,
}

impl AssetRecord {
    /// No services and no packets. This takes no memory.
    pub fn open(alloc: Global) -> Self
        ensures { result ≡ nothing }
    {
        AssetRecord {
            packets: 0,
            services: Services::open(alloc),
        }
    }

    /// Counts a packet. The count stays at its greatest number.
    pub fn count_packet(&mut self)
        ensures { self.new ≡ counted self.old }
    {
        self.packets = self.packets.saturating_add(1);
    }
}
