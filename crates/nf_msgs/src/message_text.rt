//! Messages as texts, for tests and whoever looks at a link; and which operation and packet a message is of.
ghost use Rattle.std.specs.Prelude.{◌≡◌, ◌++◌, option_map, IfOk, OnOk};
ghost use Rattle.nf_msgs.specs.MessageParts.{kind_name, with_number, op_of, packet_carried, receiver_of, telling};

use crate::answer_text::push_numbered;
use crate::msg::Msg;
use basics::{NoMemory, Text};
use std::alloc::Global;

/// A message's kind, the numbers of its operation and of its packet, and the instance that the switch is to send to. For tests.
#[tactic(auto, unfolding(crate::specs::MessageParts::telling))]
pub fn show(alloc: Global, message: &Msg) -> Result<Text, NoMemory>
    ensures { IfOk result (λ text. text ≡ telling message.now) }
{
    let number = message.packet_number();
    let mut text = Text::open(alloc);
    text.push_bytes(message.kind_name().as_bytes())?;
    push_noted(&mut text, b" op ", message.op())?;
    push_noted(&mut text, b" packet ", number)?;
    push_noted(&mut text, b" to ", message.receiver())?;
    Ok(text)
}

/// Puts a number after a word, where there is one.
fn push_noted(text: &mut Text, word: &[u8], number: Option<u32>) -> Result<(), NoMemory>
    ensures { OnOk result (text.new ≡ text.old ++ with_number word.now number) }
{
    match number {
        Some(number) => push_numbered(text, word, number),
        None => Ok(()),
    }
}

impl Msg {
    /// The name of the message's kind.
    pub fn kind_name(&self) -> &'static str
        ensures { result.now ≡ kind_name self.now }
    {
        match self {
            Msg::InPacket(_) => "in packet",
            Msg::InCommand(_) => "in command",
            Msg::InSettle => "in settle",
            Msg::InEnd => "in end",
            Msg::Asked(_) => "asked",
            Msg::Diverted(_) => "diverted",
            Msg::End => "end",
            Msg::Forward { .. } => "forward",
            Msg::Install { .. } => "install",
            Msg::FenceTo { .. } => "fence to",
            Msg::Answered { .. } => "answered",
            Msg::Finish => "finish",
            Msg::Carry { .. } => "carry",
            Msg::Fence { .. } => "fence",
            Msg::Stop => "stop",
            Msg::Enable { .. } => "enable",
            Msg::Get { .. } => "get",
            Msg::Stream { .. } => "stream",
            Msg::GetAll { .. } => "get all",
            Msg::Delete { .. } => "delete",
            Msg::Put { .. } => "put",
            Msg::Restore { .. } => "restore",
            Msg::Standby { .. } => "standby",
            Msg::PutAll { .. } => "put all",
            Msg::Sync { .. } => "sync",
            Msg::Enabled { .. } => "enabled",
            Msg::Chunks { .. } => "chunks",
            Msg::Piece { .. } => "piece",
            Msg::AllChunk { .. } => "all chunk",
            Msg::Deleted { .. } => "deleted",
            Msg::PutOk { .. } => "put ok",
            Msg::PutNo { .. } => "put no",
            Msg::Restored { .. } => "restored",
            Msg::Kept { .. } => "kept",
            Msg::Event { .. } => "event",
            Msg::Seen { .. } => "seen",
            Msg::Fenced { .. } => "fenced",
            Msg::Shared { .. } => "shared",
            Msg::Synced { .. } => "synced",
            Msg::Final => "final",
            Msg::Credit(_) => "credit",
        }
    }

    /// The number of the operation that the message is of.
    pub fn op(&self) -> Option<u32>
        ensures { result ≡ op_of self.now }
    {
        match self {
            Msg::InCommand(command) | Msg::Asked(command) => Some(command.get().op),
            Msg::Install { op, .. }
            | Msg::FenceTo { op, .. }
            | Msg::Answered { op }
            | Msg::Fence { op }
            | Msg::Enable { op, .. }
            | Msg::Get { op, .. }
            | Msg::Stream { op, .. }
            | Msg::GetAll { op }
            | Msg::Delete { op, .. }
            | Msg::Put { op, .. }
            | Msg::Restore { op, .. }
            | Msg::Standby { op, .. }
            | Msg::PutAll { op, .. }
            | Msg::Sync { op, .. }
            | Msg::Enabled { op }
            | Msg::Chunks { op, .. }
            | Msg::Piece { op, .. }
            | Msg::AllChunk { op, .. }
            | Msg::Deleted { op }
            | Msg::PutOk { op }
            | Msg::PutNo { op, .. }
            | Msg::Restored { op }
            | Msg::Kept { op }
            | Msg::Event { op, .. }
            | Msg::Seen { op, .. }
            | Msg::Fenced { op }
            | Msg::Shared { op, .. }
            | Msg::Synced { op } => Some(*op),
            _ => None,
        }
    }

    /// The number of the packet that the message carries.
    pub fn packet_number(&self) -> Option<u32>
        ensures { result ≡ option_map (λ packet. packet.number) (packet_carried self.now) }
    {
        match self {
            Msg::InPacket(packet) => Some(packet.number()),
            Msg::Seen { packet, .. } => Some(packet.get().number),
            Msg::Diverted(parcel)
            | Msg::Forward { parcel, .. }
            | Msg::Carry { parcel, .. }
            | Msg::Event { parcel, .. }
            | Msg::Credit(parcel) => Some(parcel.packet().number),
            _ => None,
        }
    }

    /// The instance that the switch is to send to.
    pub fn receiver(&self) -> Option<u32>
        ensures { result ≡ receiver_of self.now }
    {
        match self {
            Msg::Forward { to, .. } | Msg::FenceTo { to, .. } => Some(u32::from(*to)),
            _ => None,
        }
    }
}
