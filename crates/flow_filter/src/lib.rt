//! Packets, flows and the small types that every other crate of `opennf` names.
//!
//! Contracts see a [`Sequence`] as the list of its items, a [`Name`] as the list of its bytes, a [`CapturedPacket`] as its packet,
//! and every other type as its fields. The main promise is that of [`flow_of`]: it is the four cases of the definition `flow_of`, for every site and
//! packet. The crate touches nothing outside of memory.
#![tactic(auto)]

pub mod captured;
pub mod filter;
pub mod filter_text;
pub mod flow;
pub mod name;
pub mod packet;
pub mod prefix;
pub mod reading;
pub mod site;

pub use basics::{Bytes, Sequence, Text};
pub use captured::{CapturedPacket, Packets};
pub use filter::Filter;
pub use filter_text::FilterFault;
pub use flow::{Direction, FIRST_PORT, Flow, PORTS_PER_HOST, flow_of};
pub use name::Name;
pub use packet::{ACK, FIN, Packet, RST, SYN, TCP, UDP};
pub use prefix::Prefix;
pub use site::Site;
