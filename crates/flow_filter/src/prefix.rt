ghost use Rattle.std.specs.Prelude.{◌≡◌, ◌≤◌, ◌-◌, ◌/◌, ◌%◌, ◌^◌};
ghost use Rattle.flow_filter.specs.Prefixes.{in_prefix, address_bits};

/// The addresses that begin with the first `len` bits of `bits`, as `A.B.C.D/L` names them.
#[derive(Clone, Copy, Debug, PartialEq, Eq, Hash)]
pub struct Prefix {
    /// The lowest of the addresses.
    pub bits: u32,
    /// How many bits they have in common.
    pub len: u8,
    ghost within: { len ≤ address_bits },
    ghost aligned: { bits % 2 ^ (address_bits - len) ≡ 0 },
}

impl Prefix {
    /// Whether the address begins with the prefix's bits.
    pub fn holds(&self, address: u32) -> bool
        ensures { result ≡ in_prefix self.now.bits self.now.len address }
    {
        first_bits(address, self.len) == first_bits(self.bits, self.len)
    }
}

/// The first `len` bits of an address, as a number.
fn first_bits(address: u32, len: u8) -> u64
    requires { len ≤ address_bits }
    ensures { result ≡ address / 2 ^ (address_bits - len) }
{
    u64::from(address) >> (32 - len)
}
