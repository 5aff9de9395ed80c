//! The bytes that a record is stored as.
ghost use Rattle.std.specs.Prelude.{◌≡◌, ◌++◌, length, option_map, OnOk};
ghost use Rattle.std.specs.List.{flat_map, list_all};
ghost use Rattle.nf_function.specs.Records.{Reads, age_cmp};
ghost use Rattle.nf_function.specs.Semantics.{record_in};
ghost use Rattle.asset_monitor.specs.Services.{are_services, is_rising, is_service};
ghost use Rattle.asset_monitor.specs.Body.{body_of, first_service, is_valid, service_bytes, services_in, spelled};
ghost use Rattle.asset_monitor.specs.Monitor.{monitor};

use crate::banner::Banner;
use crate::record::AssetRecord;
use crate::service::Service;
use crate::services::{SERVICES_PER_HOST, Services};
use basics::{Bytes, NoMemory, Sequence};
use nf_function::stored::{first_byte, first_u16, first_u64, push_u16, push_u64};
use nf_function::{BodyFault, Unit, is_transport};
use std::alloc::Global;
use std::cmp::Ordering;

/// How many bytes a record without services is stored as.
const FIXED: usize = 9;

/// How many bytes a service is stored as.
const SERVICE: usize = 4;

/// How many bytes a record is stored as.
pub fn body_length(kept: &AssetRecord) -> u16
    ensures { result ≡ length (body_of kept.now) }
{
    (FIXED + SERVICE * kept.services.items().len()) as u16
}

/// Puts the bytes that a record is stored as after others.
#[tactic(auto, unfolding(crate::specs::Body::body_of))]
pub fn push_body(bytes: &mut Bytes, kept: &AssetRecord) -> Result<(), NoMemory>
    ensures { OnOk result (bytes.new ≡ bytes.old ++ body_of kept.now) }
{
    let services = kept.services.items();
    push_u64(bytes, kept.packets)?;
    bytes.push(services.len() as u8)?;
    push_services(bytes, services)
}

/// Puts services after other bytes.
fn push_services(bytes: &mut Bytes, services: &[Service]) -> Result<(), NoMemory>
    ensures { OnOk result (bytes.new ≡ bytes.old ++ flat_map service_bytes services.now) }
{
    for service in services {
        bytes.push(service.proto)?;
        push_u16(bytes, service.port)?;
        bytes.push(service.banner.number())?;
    }
    Ok(())
}

/// The record of the unit that the bytes spell.
pub fn record_in(alloc: Global, unit: &Unit, body: &[u8]) -> Result<AssetRecord, BodyFault>
    ensures { Reads result (record_in monitor unit.now body.now) }
{
    let (packets, services) = spelled(alloc, body)?;
    if !is_valid(*unit, packets, services.items()) {
        return Err(BodyFault::Body);
    }
    let services = Services::from_vec(services.into_vec());
    Ok(AssetRecord { packets, services })
}

/// How many packets the bytes spell, and which services.
#[tactic(auto, unfolding(crate::specs::Body::spelled))]
fn spelled(alloc: Global, body: &[u8]) -> Result<(u64, Sequence<Service>), BodyFault>
    ensures { Reads result (option_map (λ r. (r.packets, r.services)) (spelled body.now)) }
{
    let (packets, rest) = first_u64(body).ok_or(BodyFault::Body)?;
    let (count, rest) = first_byte(rest).ok_or(BodyFault::Body)?;
    if usize::from(count) > SERVICES_PER_HOST {
        return Err(BodyFault::Body);
    }
    let services = services_in(alloc, count, rest)?;
    Ok((packets, services))
}

/// As many services, where nothing comes after them.
fn services_in(alloc: Global, count: u8, bytes: &[u8]) -> Result<Sequence<Service>, BodyFault>
    ensures { Reads result (services_in count bytes.now) }
{
    let mut services = Sequence::from_vec(Vec::with_capacity(alloc, usize::from(count))?);
    let mut rest = bytes;
    'services: for _ in 0..count {
        let Some((service, more)) = first_service(rest) else {
            return Err(BodyFault::Body);
        };
        services.push(service)?;
        rest = more;
    }
    if !rest.is_empty() {
        return Err(BodyFault::Body);
    }
    Ok(services)
}

/// A service, and the bytes after it.
#[tactic(auto, unfolding(crate::specs::Body::first_service))]
fn first_service(bytes: &[u8]) -> Option<(Service, &[u8])>
    ensures { option_map (λ x. (x.0, x.1.now)) result ≡ first_service bytes.now }
{
    let (proto, rest) = first_byte(bytes)?;
    let (port, rest) = first_u16(rest)?;
    let (number, rest) = first_byte(rest)?;
    let banner = Banner::numbered(number)?;
    let service = Service {
        proto,
        port,
        banner,
    };
    Some((service, rest))
}

/// Whether so many packets of the unit can have left these services.
fn is_valid(unit: Unit, packets: u64, services: &[Service]) -> bool
    ensures { result ≡ is_valid unit (record { packets = packets; services = services.now }) }
{
    match unit {
        Unit::Flow(_) => false,
        Unit::Host(_) => are_services(services) && packets >= 1,
    }
}

/// Whether a host can have these services.
fn are_services(services: &[Service]) -> bool
    ensures { result ≡ are_services services.now }
{
    services.len() <= SERVICES_PER_HOST && are_all_services(services) && is_rising(services)
}

/// Whether each is of TCP or UDP.
fn are_all_services(services: &[Service]) -> bool
    ensures { result ≡ list_all is_service services.now }
{
    services.iter().all(|s| is_service(*s))
}

/// Whether the service is of TCP or UDP.
fn is_service(service: Service) -> bool
    ensures { result ≡ is_service service }
{
    is_transport(service.proto)
}

/// Whether the services rise by their protocols and ports.
fn is_rising(services: &[Service]) -> bool
    ensures { result ≡ is_rising services.now }
{
    services.is_sorted_by(|a, b| a.end_cmp(b).is_lt())
}

/// The order of records by their packets, and then by the bytes that they are stored as.
pub fn age_cmp(a: &AssetRecord, b: &AssetRecord) -> Ordering
    ensures { result ≡ age_cmp monitor a.now b.now }
{
    let (counted, other) = (a.packets, b.packets);
    let (mine, theirs) = (a.services.items(), b.services.items());
    let sizes = mine.len().cmp(&theirs.len());
    counted.cmp(&other).then(sizes).then(mine.cmp(theirs))
}
