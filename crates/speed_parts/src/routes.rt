//! The switch's rules.
ghost use Rattle.std.specs.Prelude.{◌≡◌, ◌<◌, ◌≤◌, IfOk, vec_len};
ghost use Rattle.speed_parts.specs.Draws.{most_size};

use crate::draws::numbered_flow;
use crate::fault::Fault;
use basics::NoMemory;
use flow_filter::{Filter, Flow, TCP};
use rand_core::SeedableRng;
use rand_core::utils::NextWord;
use rand_xoshiro::SplitMix64;
use std::alloc::Global;
use switch_rules::{Rules, Target};

/// The sum of the instances that so many flows go to by so many routes, whose filters have so many masks. Half of the flows have a
/// route's local port.
pub fn find_targets(alloc: Global, routes: u32, masks: u32, lookups: u64) -> Result<u64, Fault>
    requires { (0 < routes) × (routes ≤ most_size) × (0 < masks) }
{
    let rules = Rules::open(alloc, &routes_of(alloc, routes, masks)?)?;
    let mut words = SplitMix64::seed_from_u64(7);
    let mut sum: u64 = 0;
    for _flow in 0..lookups {
        let number = words.next_word() % (2 * u64::from(routes));
        let flow = Flow {
            lport: (number % 65_536) as u16,
            ..numbered_flow(0)
        };
        if let Target::Instance(instance) = rules.target(&flow) {
            sum = sum.wrapping_add(u64::from(instance));
        }
    }
    Ok(sum)
}

/// The routes, with the instances in turn.
fn routes_of(alloc: Global, routes: u32, masks: u32) -> Result<Vec<(Filter, u8)>, NoMemory>
    requires { 0 < masks }
    ensures { IfOk result (λ all. vec_len all ≡ routes) }
{
    let mut all = Vec::new(alloc);
    for number in 0..routes {
        all.push((route_filter(number, number % masks), (number % 16) as u8))?;
    }
    Ok(all)
}

/// The filter of a local port, and by its mask also of TCP, of the remote port 443, or of both.
fn route_filter(number: u32, mask: u32) -> Filter {
    Filter {
        proto: (mask % 2 == 1).then_some(TCP),
        local: None,
        lport: Some((number % 65_536) as u16),
        remote: None,
        rport: (mask / 2 % 2 == 1).then_some(443),
    }
}
