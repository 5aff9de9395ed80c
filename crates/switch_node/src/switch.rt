//! The switch: it takes in packets and commands, sends packets where its rules say, and takes cells home.
ghost use Rattle.std.specs.Prelude.{◌≡◌, ◌≤◌, ◌<◌, ◌+◌, ◌++◌, false, All, IfOk, OnOk};
ghost use Rattle.switch_rules.specs.Rules.{opened};
ghost use Rattle.switch_node.specs.Switch.{has_closed, on_command, on_credit, on_install, on_packet, sends_to_instance};
ghost use Rattle.switch_node.specs.Switch.{stop_messages, switch_step, takes_in, target_of, is_there};

use actor_net::{Actor, Outbox};
use basics::{Boxed, NoMemory};
use event_filter::Mark;
use flow_filter::{CapturedPacket, Filter, Packet, Site, flow_of};
use nf_msgs::{CONTROLLER, Command, MOST_INSTANCES, Msg, Note, instance_node};
use packet_pool::Cell;
use packet_window::Window;
use std::alloc::Global;
use std::marker::Model;
use switch_rules::{Rules, Target};

/// The most packets that may be under way.
pub const MOST_WINDOW: u32 = 4096;

/// The most commands that may wait for their answer.
pub const MOST_WAITING: u32 = u32::MAX;

/// The switch of a network.
#[derive(Drop)]
pub struct Switch {
    rules: Rules,
    window: Window,
    site: Site,
    instances: u8,
    /// How many commands wait for their answer.
    waiting: u32,
}

impl Model for Switch {
    ghost use Rattle.std.specs.Prelude.{◌≡◌, ◌≤◌, ◌+◌};
    ghost use Rattle.nf_msgs.specs.declared.nodes.TheConstants.{MOST_INSTANCES};
    ghost use Rattle.switch_node.specs.Switch.{SwitchState};

    ghost Value = { SwitchState };

    ghost view = { λ s. record {
      rules = s.rules;
      pool = s.window.pool;
      site = s.site;
      instances = s.instances;
      flying = s.window.flying;
      waiting = s.waiting;
      closed = s.window.closed;
    } };

    ghost invariant = { λ s. (s.window.flying + s.window.pool.home ≡ s.window.pool.cells) × (s.instances ≤ MOST_INSTANCES) };
}

impl Actor for Switch {
    ghost use Rattle.switch_node.specs.Switch.{has_closed, switch_step, takes_in};

    type Message = Msg;

    type Note = Note;

    ghost stepped = { λ s port message. switch_step s message };

    ghost is_ready = { takes_in };

    ghost has_ended = { has_closed };

    fn ready(&self, item: &Msg) -> bool {
        match item {
            Msg::InPacket(_) => self.window.has_room(),
            Msg::InCommand(_) => self.waiting < MOST_WAITING,
            Msg::InSettle => self.waiting == 0,
            _ => true,
        }
    }

    #[inline(always)]
    fn step(
        &mut self,
        _port: u8,
        message: Msg,
        out: &mut Outbox<Msg, Note>,
    ) -> Result<(), NoMemory> {
        match message {
            Msg::InPacket(packet) => self.let_in(packet, out),
            Msg::Credit(cell) => self.credit(cell),
            message => self.obey(message, out),
        }
    }

    fn ended(&self) -> bool {
        self.window.has_ended()
    }
}

impl Switch {
    /// A switch with all cells at home and the rules of the routes; each route names an instance by its number from 0.
    pub fn open(
        alloc: Global,
        window: u32,
        instances: u8,
        site: Site,
        routes: &[(Filter, u8)],
    ) -> Result<Switch, NoMemory>
        requires window { (1 ≤ window) × (window ≤ MOST_WINDOW) }
        requires instances { (1 ≤ instances) × (instances ≤ MOST_INSTANCES) }
        requires routes { All (λ r. r.1 < instances) routes.now }
        ensures { IfOk result (λ switch. switch ≡ record {
          rules = opened routes.now;
          pool = record { name = 0; cells = window; home = window };
          site = site;
          instances = instances;
          flying = 0;
          waiting = 0;
          closed = false;
        }) }
    {
        Ok(Switch {
            rules: Rules::open(alloc, routes)?,
            window: Window::open(alloc, window),
            site,
            instances,
            waiting: 0,
        })
    }

    /// How many cells stand at home.
    pub fn home(&self) -> u32
        ensures { result ≡ self.now.pool.home }
    {
        self.window.home()
    }

    /// Does what any message asks. Most messages are packets and cells that come home; they don't come here, so that nothing which the others need
    /// is made ready for them.
    #[inline(never)]
    fn obey(&mut self, message: Msg, out: &mut Outbox<Msg, Note>) -> Result<(), NoMemory>
        ensures node { OnOk result (self.new ≡ (switch_step self.old message).node) }
        ensures sends { OnOk result (out.new.0 ≡ out.old.0 ++ (switch_step self.old message).sends) }
        ensures notes { OnOk result (out.new.1 ≡ out.old.1 ++ (switch_step self.old message).notes) }
    {
        match message {
            Msg::InPacket(packet) => self.let_in(packet, out),
            Msg::InCommand(command) => self.ask(command, out),
            Msg::InEnd => out.send(CONTROLLER, Msg::End),
            Msg::Forward { to, mark, parcel } => self.send_to(to, Msg::Carry { mark, parcel }, out),
            Msg::Install {
                op,
                filter,
                from,
                to,
            } => self.install(op, filter.get(), from, to, out),
            Msg::FenceTo { op, to } => self.send_to(to, Msg::Fence { op }, out),
            Msg::Answered { .. } => {
                self.waiting = self.waiting.saturating_sub(1);
                Ok(())
            }
            Msg::Finish => {
                self.window.close();
                stop_all(self.instances, out)
            }
            Msg::Credit(cell) => self.credit(cell),
            _ => Ok(()),
        }
    }

    /// Puts a packet into a cell and sends it to its target.
    #[inline(always)]
    fn let_in(
        &mut self,
        captured: CapturedPacket,
        out: &mut Outbox<Msg, Note>,
    ) -> Result<(), NoMemory>
        ensures node { OnOk result (self.new ≡ (on_packet self.old captured).node) }
        ensures sends { OnOk result (out.new.0 ≡ out.old.0 ++ (on_packet self.old captured).sends) }
        ensures notes { OnOk result (out.new.1 ≡ out.old.1 ++ (on_packet self.old captured).notes) }
    {
        let packet = self.window.boxed(captured)?;
        let target = self.target_of(packet.get());
        let number = packet.get().number;
        if !self.window.has_room() || !self.is_there(target) {
            return Ok(());
        }
        let cell = self.window.let_in(packet);
        out.note(Note::Arrived(number))?;
        match target {
            Target::Controller => out.send(CONTROLLER, Msg::Diverted(cell)),
            Target::Instance(to) => {
                let message = Msg::Carry {
                    mark: Mark::Plain,
                    parcel: cell,
                };
                out.send(instance_node(to), message)
            }
        }
    }

    /// The target of a packet, by its flow.
    #[inline(always)]
    fn target_of(&self, packet: &Packet) -> Target
        ensures { result ≡ target_of self.now packet.now }
    {
        if let Some(target) = self.rules.only() {
            return target;
        }
        let (flow, _direction) = flow_of(&self.site, packet);
        self.rules.target(&flow)
    }

    /// Whether a target is there.
    fn is_there(&self, target: Target) -> bool
        ensures { result ≡ is_there self.now target }
    {
        match target {
            Target::Controller => true,
            Target::Instance(instance) => instance < self.instances,
        }
    }

    /// Takes a cell home.
    #[inline(always)]
    fn credit(&mut self, cell: Cell) -> Result<(), NoMemory>
        ensures { OnOk result (self.new ≡ (on_credit self.old cell).node) }
    {
        self.window.take_home(cell);
        Ok(())
    }

    /// Hands a command on to the controller.
    fn ask(&mut self, command: Boxed<Command>, out: &mut Outbox<Msg, Note>) -> Result<(), NoMemory>
        ensures node { OnOk result (self.new ≡ (on_command self.old command).node) }
        ensures sends { OnOk result (out.new.0 ≡ out.old.0 ++ (on_command self.old command).sends) }
        ensures notes { OnOk result (out.new.1 ≡ out.old.1) }
    {
        self.waiting = self.waiting.saturating_add(1);
        out.send(CONTROLLER, Msg::Asked(command))
    }

    /// Sends a message to an instance, if it is there.
    fn send_to(
        &self,
        instance: u8,
        message: Msg,
        out: &mut Outbox<Msg, Note>,
    ) -> Result<(), NoMemory>
        ensures sends { OnOk result (out.new.0 ≡ out.old.0 ++ (sends_to_instance self.now instance message).sends) }
        ensures notes { OnOk result (out.new.1 ≡ out.old.1) }
    {
        if instance >= self.instances {
            return Ok(());
        }
        out.send(instance_node(instance), message)
    }

    /// Changes the rules, and sends a fence after the packets of the old ones.
    fn install(
        &mut self,
        op: u32,
        filter: &Filter,
        from: u8,
        to: Target,
        out: &mut Outbox<Msg, Note>,
    ) -> Result<(), NoMemory>
        ensures node { OnOk result (self.new ≡ (on_install self.old op filter.now from to).node) }
        ensures sends { OnOk result (out.new.0 ≡ out.old.0 ++ (on_install self.old op filter.now from to).sends) }
        ensures notes { OnOk result (out.new.1 ≡ out.old.1 ++ (on_install self.old op filter.now from to).notes) }
    {
        if from >= self.instances || !self.is_there(to) {
            return Ok(());
        }
        self.rules.redirect(filter, Target::Instance(from), to)?;
        out.note(Note::Installed(op))?;
        out.send(instance_node(from), Msg::Fence { op })
    }
}

/// Stops each of so many instances, in order.
pub fn stop_all<N>(instances: u8, out: &mut Outbox<Msg, N>) -> Result<(), NoMemory>
    requires { instances ≤ MOST_INSTANCES }
    ensures { OnOk result (out.new ≡ (out.old.0 ++ stop_messages instances, out.old.1)) }
{
    for instance in 0..instances {
        out.send(instance_node(instance), Msg::Stop)?;
    }
    Ok(())
}
