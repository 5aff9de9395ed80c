//! The switch of a two-phase update: packets are copied, then go by the low rule, and then by the high one.
ghost use Rattle.std.specs.Prelude.{◌≡◌, ◌≤◌, ◌<◌, ◌++◌, [], ◌∷◌, true, IfOk, OnOk};
ghost use Rattle.switch_rules.specs.Rules.{opened};
ghost use Rattle.packet_window.specs.Window.{has_room, window_at_start as open_window};
ghost use Rattle.two_phase.specs.Tables.{arrival_step, destination_node, goes_to, on_finish};
ghost use Rattle.two_phase.specs.Tables.{on_lay, switch_step, target_of, the_update};

use crate::msg::TwoMsg;
use crate::note::TwoNote;
use crate::roles::{DESTINATION, INSTANCES, SOURCE, THE_UPDATE};
use actor_net::Outbox;
use basics::{Boxed, NoMemory};
use event_filter::Mark;
use flow_filter::{Filter, Packet, Site, flow_of};
use nf_msgs::{CONTROLLER, Msg, Note, instance_node};
use packet_pool::Cell;
use packet_window::Window;
use std::alloc::Global;
use std::marker::Model;
use switch_node::switch::MOST_WINDOW;
use switch_rules::{Rules, Target};

/// The switch of an update.
#[derive(Drop)]
pub struct TwoSwitch {
    rules: Rules,
    pub(crate) window: Window,
    site: Site,
    filter: Filter,
    alloc: Global,
}

impl Model for TwoSwitch {
    ghost use Rattle.two_phase.specs.Parts.{SwitchState};

    ghost Value = { SwitchState };

    ghost view = { λ s. record { rules = s.rules; window = s.window; site = s.site; filter = s.filter } };
}

impl TwoSwitch {
    /// A switch with all cells at home, by whose rules every flow goes to the source.
    pub(crate) fn open(
        alloc: Global,
        window: u32,
        filter: Filter,
        site: Site,
    ) -> Result<TwoSwitch, NoMemory>
        requires { (1 ≤ window) × (window ≤ MOST_WINDOW) }
        ensures { IfOk result (λ switch. switch ≡ record { rules = opened []; window = open_window window; site = site; filter = filter }) }
    {
        Ok(TwoSwitch {
            rules: Rules::open(alloc, &[])?,
            window: Window::open(alloc, window),
            site,
            filter,
            alloc,
        })
    }

    /// Takes a message: its row of the table.
    pub(crate) fn step(
        &mut self,
        message: TwoMsg,
        out: &mut Outbox<TwoMsg, TwoNote>,
    ) -> Result<(), NoMemory>
        ensures node { OnOk result (self.new ≡ (switch_step self.old message).node) }
        ensures sends { OnOk result (out.new.0 ≡ out.old.0 ++ (switch_step self.old message).sends) }
        ensures notes { OnOk result (out.new.1 ≡ out.old.1 ++ (switch_step self.old message).notes) }
    {
        match message {
            TwoMsg::InPacket(captured) if self.window.has_room() => {
                let packet = self.window.boxed(captured)?;
                match self.target_of(packet.get()) {
                    Target::Controller => self.carry_and_copy(packet, out),
                    Target::Instance(to) if to < INSTANCES => self.carry(to, packet, out),
                    Target::Instance(_) => Ok(()),
                }
            }
            TwoMsg::InStart => out.send(CONTROLLER, TwoMsg::Start),
            TwoMsg::InEnd => out.send(CONTROLLER, TwoMsg::End),
            TwoMsg::Forward(cell) => forward(cell, out),
            TwoMsg::Lay { high } => self.lay(high, out),
            TwoMsg::Finish { to } => self.finish(to, out),
            TwoMsg::Inner(Msg::Credit(cell)) => {
                self.window.take_home(cell);
                Ok(())
            }
            _ => {
                drop(message);
                Ok(())
            }
        }
    }

    /// The target of a packet, by its flow.
    fn target_of(&self, packet: &Packet) -> Target
        ensures { result ≡ target_of self.now packet.now }
    {
        let (flow, _direction) = flow_of(&self.site, packet);
        self.rules.target(&flow)
    }

    /// Puts a packet into a cell and sends it to an instance.
    fn carry(
        &mut self,
        to: u8,
        packet: Boxed<Packet>,
        out: &mut Outbox<TwoMsg, TwoNote>,
    ) -> Result<(), NoMemory>
        requires instance { to < INSTANCES }
        requires room { has_room self.old.window ≡ true }
        ensures node { OnOk result (self.new ≡ (arrival_step self.old packet to []).node) }
        ensures sends { OnOk result (out.new.0 ≡ out.old.0 ++ (arrival_step self.old packet to []).sends) }
        ensures notes { OnOk result (out.new.1 ≡ out.old.1 ++ (arrival_step self.old packet to []).notes) }
    {
        let number = packet.get().number;
        let parcel = self.window.let_in(packet);
        out.note(TwoNote::Inner(Note::Arrived(number)))?;
        let message = Msg::Carry {
            mark: Mark::Plain,
            parcel,
        };
        out.send(instance_node(to), TwoMsg::Inner(message))
    }

    /// Sends a packet to the source, and a copy of it to the controller.
    fn carry_and_copy(
        &mut self,
        packet: Boxed<Packet>,
        out: &mut Outbox<TwoMsg, TwoNote>,
    ) -> Result<(), NoMemory>
        requires { has_room self.old.window ≡ true }
        ensures node { OnOk result (self.new ≡ (goes_to self.old packet Target.Controller).node) }
        ensures sends { OnOk result (out.new.0 ≡ out.old.0 ++ (goes_to self.old packet Target.Controller).sends) }
        ensures notes { OnOk result (out.new.1 ≡ out.old.1 ++ (goes_to self.old packet Target.Controller).notes) }
    {
        let copy = Boxed::new(self.alloc, *packet.get())?;
        self.carry(SOURCE, packet, out)?;
        out.send(CONTROLLER, TwoMsg::Copied(copy))
    }

    /// Lays a rule, and says so.
    fn lay(&mut self, high: bool, out: &mut Outbox<TwoMsg, TwoNote>) -> Result<(), NoMemory>
        ensures node { OnOk result (self.new ≡ (on_lay high self.old).node) }
        ensures sends { OnOk result (out.new.0 ≡ out.old.0 ++ (on_lay high self.old).sends) }
        ensures notes { OnOk result (out.new.1 ≡ out.old.1 ++ (on_lay high self.old).notes) }
    {
        let (from, to) = if high {
            (Target::Controller, Target::Instance(DESTINATION))
        } else {
            (Target::Instance(SOURCE), Target::Controller)
        };
        self.rules.redirect(&self.filter, from, to)?;
        out.note(if high { TwoNote::High } else { TwoNote::Low })?;
        out.send(CONTROLLER, TwoMsg::Laid { high })
    }

    /// Stops an instance, if it is there.
    fn finish(&mut self, to: u8, out: &mut Outbox<TwoMsg, TwoNote>) -> Result<(), NoMemory>
        ensures node { OnOk result (self.new ≡ (on_finish self.old to).node) }
        ensures sends { OnOk result (out.new.0 ≡ out.old.0 ++ (on_finish self.old to).sends) }
        ensures notes { OnOk result (out.new.1 ≡ out.old.1) }
    {
        if to >= INSTANCES {
            return Ok(());
        }
        if to == DESTINATION {
            self.window.close();
        }
        out.send(instance_node(to), TwoMsg::Inner(Msg::Stop))
    }
}

/// Sends a packet on to the destination, past its rules.
fn forward(parcel: Cell, out: &mut Outbox<TwoMsg, TwoNote>) -> Result<(), NoMemory>
    ensures { OnOk result (out.new ≡ (out.old.0 ++ (destination_node, TwoMsg.Inner (Msg.Carry (Mark.Pass the_update) parcel)) ∷ [], out.old.1)) }
{
    let mark = Mark::Pass(THE_UPDATE);
    let message = Msg::Carry { mark, parcel };
    out.send(instance_node(DESTINATION), TwoMsg::Inner(message))
}
