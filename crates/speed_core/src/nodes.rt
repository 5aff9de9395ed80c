//! The nodes of a world like the program's network: a switch with a window, a controller, and instances that process packets.
ghost use Rattle.std.specs.Prelude.{◌≡◌, ◌++◌, OnOk};

use crate::work::scramble;
use actor_net::{Actor, Outbox};
use basics::NoMemory;

/// How many packets may be under way.
pub const WINDOW: u64 = 256;

/// The node of the first instance.
pub const FIRST: u8 = 2;

/// A packet, with as many bytes as a message of the program's network has.
#[derive(Clone, Copy, Debug, PartialEq, Eq)]
pub struct Packet {
    pub number: u64,
    pub flow: u64,
    pub bytes: u64,
}

/// What is sent on a link: a packet to an instance, or a place in the window back to the switch.
#[derive(Debug, Drop)]
pub enum Message {
    Packet(Packet),
    Credit,
}

/// The node that lets packets in while fewer than the window are under way, and sends each to the instance that its flow
/// chooses.
#[derive(Debug, Drop)]
pub struct Switch {
    /// The number of the last instance, from 0.
    pub last: u8,
    pub under_way: u64,
}

/// A node that does so many rounds of work on each packet, notes its number, and gives its place in the window back.
#[derive(Debug, Drop)]
pub struct Instance {
    pub rounds: u32,
    pub digest: u64,
}

/// A node of the world: the switch at 0, the controller at 1, and the instances from [`FIRST`] on.
#[derive(Debug, Drop)]
pub enum Node {
    Switch(Switch),
    /// It has nothing to do.
    Controller,
    Instance(Instance),
}

impl Actor for Node {
    ghost use Rattle.speed_core.specs.NetworkWorld.{network_step, has_room, is_idle};

    type Message = Message;

    type Note = u64;

    ghost stepped = { network_step };

    ghost is_ready = { λ node message. has_room node };

    ghost has_ended = { is_idle };

    fn ready(&self, _item: &Message) -> bool {
        match self {
            Node::Switch(switch) => switch.under_way < WINDOW,
            _ => true,
        }
    }

    fn step(
        &mut self,
        _port: u8,
        message: Message,
        out: &mut Outbox<Message, u64>,
    ) -> Result<(), NoMemory> {
        match self {
            Node::Switch(switch) => switch.step(message, out),
            Node::Controller => Ok(()),
            Node::Instance(instance) => instance.step(message, out),
        }
    }

    fn ended(&self) -> bool {
        match self {
            Node::Switch(switch) => switch.under_way == 0,
            _ => true,
        }
    }
}

impl Switch {
    ghost use Rattle.speed_core.specs.NetworkWorld.{switch_step};

    /// Sends a packet to the instance of its flow; a credit makes room for one more.
    fn step(&mut self, message: Message, out: &mut Outbox<Message, u64>) -> Result<(), NoMemory>
        ensures switch { OnOk result (self.new ≡ (switch_step self.old message).0) }
        ensures sends { OnOk result (out.new ≡ (out.old.0 ++ (switch_step self.old message).1, out.old.1)) }
    {
        match message {
            Message::Packet(packet) => {
                self.under_way = self.under_way.saturating_add(1);
                let instance = (packet.flow % (self.last as u64 + 1)) as u8;
                out.send(instance.saturating_add(FIRST), Message::Packet(packet))
            }
            Message::Credit => {
                self.under_way = self.under_way.saturating_sub(1);
                Ok(())
            }
        }
    }
}

impl Instance {
    ghost use Rattle.speed_core.specs.NetworkWorld.{instance_step};

    /// Works on a packet, gives its place in the window back, and notes its number.
    fn step(&mut self, message: Message, out: &mut Outbox<Message, u64>) -> Result<(), NoMemory>
        ensures instance { OnOk result (self.new ≡ (instance_step self.old message).0) }
        ensures sends { OnOk result (out.new.0 ≡ out.old.0 ++ (instance_step self.old message).1) }
        ensures notes { OnOk result (out.new.1 ≡ out.old.1 ++ (instance_step self.old message).2) }
    {
        match message {
            Message::Packet(packet) => {
                let work = scramble(self.rounds, packet.flow);
                self.digest = self.digest.wrapping_add(work);
                out.send(0, Message::Credit)?;
                out.note(packet.number)
            }
            Message::Credit => Ok(()),
        }
    }
}
