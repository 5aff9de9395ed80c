ghost use Rattle.std.specs.Prelude.{◌≡◌, ◌<◌, IfOk, OnOk, IfErr, OnErr};
ghost use Rattle.packet_pool.specs.Pool.{one_less, one_more};

use crate::cell::Cell;
use basics::Boxed;
use flow_filter::Packet;
use std::marker::Model;

/// A pool of cells.
///
/// A cell at home is only counted: the packet brings its own room along, so that it is never copied.
#[derive(Debug, Drop)]
pub struct Pool {
    name: u32,
    cells: u32,
    home: u32,
}

impl Model for Pool {
    ghost use Rattle.std.specs.Prelude.{◌≤◌};
    ghost use Rattle.packet_pool.specs.Pool.{PoolState};

    ghost Value = { PoolState };

    ghost view = { λ p. record { name = p.name; cells = p.cells; home = p.home } };

    ghost invariant = { λ p. p.home ≤ p.cells };
}

impl Pool {
    /// A pool with all of its cells at home.
    pub fn open(name: u32, cells: u32) -> Self
        ensures { result ≡ record { name = name; cells = cells; home = cells } }
    {
        Pool {
            name,
            cells,
            home: cells,
        }
    }

    /// Puts a packet into a cell, or hands the packet back where no cell is at home.
    pub fn take(&mut self, packet: Boxed<Packet>) -> Result<Cell, Boxed<Packet>>
        ensures cell { IfOk result (λ cell. cell ≡ record { pool = self.old.name; packet = packet }) }
        ensures less { OnOk result ((0 < self.old.home) × (self.new ≡ one_less self.old)) }
        ensures back { IfErr result (λ back. back ≡ packet) }
        ensures none { OnErr result ((self.old.home ≡ 0) × (self.new ≡ self.old)) }
    {
        let Some(left) = self.home.checked_sub(1) else {
            return Err(packet);
        };
        self.home = left;
        Ok(Cell {
            pool: self.name,
            packet,
        })
    }

    /// Takes a cell home, and gives its packet back, whose room can be used again.
    pub fn give(&mut self, cell: Cell) -> Boxed<Packet>
        requires own { cell.pool ≡ self.old.name }
        requires away { self.old.home < self.old.cells }
        ensures more { self.new ≡ one_more self.old }
        ensures packet { result ≡ cell.packet }
    {
        self.home += 1;
        cell.packet
    }

    /// The pool's number, by which a cell names it.
    pub fn name(&self) -> u32
        ensures { result ≡ self.now.name }
    {
        self.name
    }

    /// How many cells stand at home.
    pub fn home(&self) -> u32
        ensures { result ≡ self.now.home }
    {
        self.home
    }

    /// How many cells the pool has, at home and away.
    pub fn cells(&self) -> u32
        ensures { result ≡ self.now.cells }
    {
        self.cells
    }
}
