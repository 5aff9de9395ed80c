//! The switch of strong sharing: it gives the filter's packets to the members in turn, and all others to the first.
ghost use Rattle.std.specs.Prelude.{◌≡◌, ◌≤◌, ◌<◌, ◌++◌, OnOk};
ghost use Rattle.nf_msgs.specs.declared.nodes.TheConstants.{MOST_INSTANCES as MOST};
ghost use Rattle.packet_window.specs.Window.{window_at_start};
ghost use Rattle.strong_share.specs.Tables.{member_for, switch_step};

use crate::note::StrongNote;
use actor_net::Outbox;
use basics::NoMemory;
use event_filter::Mark;
use flow_filter::{Filter, Packet, Site, flow_of};
use nf_msgs::{CONTROLLER, MOST_INSTANCES, Msg, Note, instance_node};
use packet_window::Window;
use std::alloc::Global;
use std::marker::Model;
use switch_node::switch::{MOST_WINDOW, stop_all};

/// The switch of strong sharing.
#[derive(Drop)]
pub struct StrongSwitch {
    pub(crate) window: Window,
    site: Site,
    filter: Filter,
    members: u8,
}

impl Model for StrongSwitch {
    ghost use Rattle.std.specs.Prelude.{◌≤◌};
    ghost use Rattle.nf_msgs.specs.declared.nodes.TheConstants.{MOST_INSTANCES};
    ghost use Rattle.strong_share.specs.Parts.{SwitchState};

    ghost Value = { SwitchState };

    ghost view = { λ s. record { window = s.window; site = s.site; filter = s.filter; members = s.members } };

    ghost invariant = { λ s. (1 ≤ s.members) × (s.members ≤ MOST_INSTANCES) };
}

impl StrongSwitch {
    /// A switch with all cells at home.
    pub(crate) fn open(alloc: Global, window: u32, members: u8, filter: Filter, site: Site) -> Self
        requires window { (1 ≤ window) × (window ≤ MOST_WINDOW) }
        requires members { (1 ≤ members) × (members ≤ MOST_INSTANCES) }
        ensures { result ≡ record { window = window_at_start window; site = site; filter = filter; members = members } }
    {
        StrongSwitch {
            window: Window::open(alloc, window),
            site,
            filter,
            members,
        }
    }

    /// Takes a message: its row of the table.
    pub(crate) fn step(
        &mut self,
        message: Msg,
        out: &mut Outbox<Msg, StrongNote>,
    ) -> Result<(), NoMemory>
        ensures node { OnOk result (self.new ≡ (switch_step self.old message).node) }
        ensures sends { OnOk result (out.new.0 ≡ out.old.0 ++ (switch_step self.old message).sends) }
        ensures notes { OnOk result (out.new.1 ≡ out.old.1 ++ (switch_step self.old message).notes) }
    {
        match message {
            Msg::InPacket(captured) if self.window.has_room() => {
                let packet = self.window.boxed(captured)?;
                let number = packet.get().number;
                out.note(StrongNote::Inner(Note::Arrived(number)))?;
                let member = self.member_for(packet.get());
                let parcel = self.window.let_in(packet);
                let mark = Mark::Plain;
                out.send(instance_node(member), Msg::Carry { mark, parcel })
            }
            Msg::InEnd => out.send(CONTROLLER, Msg::End),
            Msg::Finish => {
                self.window.close();
                stop_all(self.members, out)
            }
            Msg::Credit(cell) => {
                self.window.take_home(cell);
                Ok(())
            }
            _ => {
                drop(message);
                Ok(())
            }
        }
    }

    /// The member to which a packet goes: what the filter matches goes round by the packets' numbers, the rest to the first.
    fn member_for(&self, packet: &Packet) -> u8
        ensures value { result ≡ member_for self.now packet.now }
        ensures within { result < MOST }
    {
        let (flow, _direction) = flow_of(&self.site, packet);
        if !self.filter.matches(&flow) {
            return 0;
        }
        let members = u32::from(self.members);
        (packet.number.saturating_sub(1) % members) as u8
    }
}
