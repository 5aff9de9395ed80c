ghost use Rattle.std.specs.Prelude.{◌≡◌, false};
ghost use Rattle.std.specs.Option.{ForSome};
ghost use Rattle.flow_filter.specs.Prefixes.{in_prefix, translated_bits};

use crate::prefix::Prefix;

/// The addresses of a site, and the outside address where it translates.
///
/// A site that translates is a /24 that doesn't hold its outside address.
#[derive(Clone, Copy, Debug, PartialEq, Eq, Hash)]
pub struct Site {
    pub inside: Prefix,
    pub outside: Option<u32>,
    ghost translates: { ForSome outside (λ address. (inside.len ≡ translated_bits) × (in_prefix inside.bits inside.len address ≡ false)) },
}
