//! The switch's window: its cells, how many packets are under way, and whether it is closed.
ghost use Rattle.std.specs.Prelude.{◌≡◌, true, IfOk};
ghost use Rattle.packet_window.specs.Window.{cell_for, has_ended, has_room, window_at_start, with_end, with_home, with_one};

use basics::{Boxed, NoMemory};
use flow_filter::{CapturedPacket, Packet};
use packet_pool::{Cell, Pool};
use std::alloc::Global;
use std::marker::Model;

/// The number of the pool of a switch.
const POOL: u32 = 0;

/// The window of a switch.
#[derive(Drop)]
pub struct Window {
    pool: Pool,
    /// Packets that came home: their room is used again.
    spare: Vec<Boxed<Packet>>,
    /// How many packets are under way.
    flying: u32,
    /// Whether no more come.
    closed: bool,
    alloc: Global,
}

impl Model for Window {
    ghost use Rattle.packet_window.specs.Window.{IsBalanced, WindowState};

    ghost Value = { WindowState };

    ghost view = { λ w. record { pool = w.pool; flying = w.flying; closed = w.closed } };

    ghost invariant = { λ w. IsBalanced (record { pool = w.pool; flying = w.flying; closed = w.closed }) };
}

impl Window {
    /// A window of so many cells, all at home. This takes no memory.
    pub fn open(alloc: Global, cells: u32) -> Self
        ensures { result ≡ window_at_start cells }
    {
        Window {
            pool: Pool::open(POOL, cells),
            spare: Vec::new(alloc),
            flying: 0,
            closed: false,
            alloc,
        }
    }

    /// Whether one packet more may be under way.
    pub fn has_room(&self) -> bool
        ensures { result ≡ has_room self.now }
    {
        self.flying < self.pool.cells()
    }

    /// The packet behind a pointer: in the room that one before it has left, or else in a new one.
    #[inline(always)]
    pub fn boxed(&mut self, captured: CapturedPacket) -> Result<Boxed<Packet>, NoMemory>
        ensures packet { IfOk result (λ packet. packet ≡ captured) }
        ensures same { self.new ≡ self.old }
    {
        match self.spare.pop() {
            Some(room) => Ok(captured.into_room(room)),
            None => captured.into_boxed(self.alloc),
        }
    }

    /// Puts a packet into a cell: it is under way.
    #[inline(always)]
    pub fn let_in(&mut self, packet: Boxed<Packet>) -> Cell
        requires { has_room self.old ≡ true }
        ensures cell { result ≡ cell_for self.old packet }
        ensures more { self.new ≡ with_one self.old }
    {
        let has_room = self.pool.cells() > self.flying;
        prove!(has_room);
        let Ok(cell) = self.pool.take(packet) else {
            unreachable!()
        };
        self.flying += 1;
        cell
    }

    /// Takes a cell home, if it is one of the pool's. Where there is no memory to keep its packet's room, that is dropped.
    #[inline(always)]
    pub fn take_home(&mut self, cell: Cell)
        ensures { self.new ≡ with_home self.old cell }
    {
        if self.flying == 0 || cell.pool() != self.pool.name() {
            return;
        }
        self.flying -= 1;
        let packet = self.pool.give(cell);
        self.keep(packet);
    }

    /// Keeps the room of a packet, if there is memory for it.
    #[inline(always)]
    fn keep(&mut self, packet: Boxed<Packet>)
        ensures { self.new ≡ self.old }
    {
        if self.spare.len() == self.spare.capacity() {
            let Ok(()) = self.spare.reserve(1) else {
                return;
            };
        }
        self.spare.push_reserved(packet);
    }

    /// From now on no more packets come.
    pub fn close(&mut self)
        ensures { self.new ≡ with_end self.old }
    {
        self.closed = true;
    }

    /// Whether no more packets come and none is under way.
    pub fn has_ended(&self) -> bool
        ensures { result ≡ has_ended self.now }
    {
        self.closed && self.flying == 0
    }

    /// How many cells stand at home.
    pub fn home(&self) -> u32
        ensures { result ≡ self.now.pool.home }
    {
        self.pool.home()
    }
}
