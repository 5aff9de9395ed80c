ghost use Rattle.std.specs.Prelude.{◌≡◌};
ghost use Rattle.switch_rules.specs.Masks.{mask_of, values_of, masked, front};

use flow_filter::{Filter, Flow};

/// Which fields a filter gives, and how many bits of its addresses; the length of a prefix that it doesn't give is 0.
#[derive(Clone, Copy, Debug, PartialEq, Eq)]
pub struct Mask {
    pub proto: bool,
    pub local: u8,
    pub lport: bool,
    pub remote: u8,
    pub rport: bool,
}

impl Mask {
    /// The mask of a filter.
    pub fn of(filter: &Filter) -> Mask
        ensures { result ≡ mask_of filter.now }
    {
        Mask {
            proto: filter.proto.is_some(),
            local: filter.local.map_or(0, |prefix| prefix.len),
            lport: filter.lport.is_some(),
            remote: filter.remote.map_or(0, |prefix| prefix.len),
            rport: filter.rport.is_some(),
        }
    }

    /// What a flow has in the fields of the mask, and 0 in the others.
    pub fn masked(&self, flow: &Flow) -> Flow
        ensures { result ≡ masked self.now flow.now }
    {
        Flow {
            local: front(self.local, flow.local),
            remote: front(self.remote, flow.remote),
            lport: if self.lport { flow.lport } else { 0 },
            rport: if self.rport { flow.rport } else { 0 },
            proto: if self.proto { flow.proto } else { 0 },
        }
    }
}

/// What a filter says of each field, and 0 for a field that it doesn't give.
pub fn values_of(filter: &Filter) -> Flow
    ensures { result ≡ values_of filter.now }
{
    Flow {
        local: filter.local.map_or(0, |prefix| prefix.bits),
        remote: filter.remote.map_or(0, |prefix| prefix.bits),
        lport: filter.lport.unwrap_or(0),
        rport: filter.rport.unwrap_or(0),
        proto: filter.proto.unwrap_or(0),
    }
}

/// The first bits of an address, and zeros after them.
fn front(len: u8, address: u32) -> u32
    ensures { result ≡ front len address }
{
    let rest = 32u8.saturating_sub(len);
    ((u64::from(address) >> rest) << rest) as u32
}
