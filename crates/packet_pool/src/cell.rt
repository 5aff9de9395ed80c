ghost use Rattle.std.specs.Prelude.{◌≡◌};

use basics::Boxed;
use flow_filter::Packet;
use std::marker::Model;

/// A cell that is away from its pool, with the packet in it. Moving it moves a pointer.
#[derive(Debug, Drop)]
pub struct Cell {
    pub(crate) pool: u32,
    pub(crate) packet: Boxed<Packet>,
}

impl Model for Cell {
    ghost use Rattle.packet_pool.specs.Pool.{FullCell};

    ghost Value = { FullCell };

    ghost view = { λ c. record { pool = c.pool; packet = c.packet } };
}

impl Cell {
    /// The packet in the cell.
    pub fn packet(&self) -> &Packet
        ensures { result.now ≡ self.now.packet }
    {
        self.packet.get()
    }

    /// The number of the pool that the cell is of.
    pub fn pool(&self) -> u32
        ensures { result ≡ self.now.pool }
    {
        self.pool
    }
}
