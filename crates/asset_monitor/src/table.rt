//! The monitor's table: what a packet tells of its host's services, and the output.
ghost use Rattle.std.specs.Prelude.{◌≡◌, ◌<◌, ◌^◌, true, Some, if◌then◌else◌, unwrap_or, IfOk, OnOk, OnErr};
ghost use Rattle.nf_function.specs.Units.{is_transport};
ghost use Rattle.asset_monitor.specs.Places.{IsAt, IsGap};
ghost use Rattle.asset_monitor.specs.Services.{is_service, service_like};
ghost use Rattle.asset_monitor.specs.Table.{announces, watched};
ghost use Rattle.asset_monitor.specs.Outputs.{nothing, source as source_of, counted};
ghost use Rattle.asset_monitor.specs.Rows.{accepts, greeting_row, new_row, sent_row};

use crate::record::AssetRecord;
use crate::service::Service;
use crate::services::SERVICES_PER_HOST;
use basics::NoMemory;
use flow_filter::{ACK, Direction, Packet, RST, SYN, TCP, UDP};
use nf_function::{Output, is_transport};
use std::alloc::Global;

/// The codes of outputs.
const QUIET: u8 = 0;

/// A service was found.
const NEW: u8 = 1;

/// A service greeted by a banner that wasn't known of it.
const BANNER: u8 = 2;

/// A service was found, and its host has no room for one more.
const FULL: u8 = 3;

/// The first port that doesn't belong to servers.
const FIRST_CLIENT_PORT: u16 = 1024;

/// Takes a packet that goes in this direction into what is kept of its host, and gives the output. A packet that is neither of TCP nor of
/// UDP changes nothing.
pub fn step_of_host(
    alloc: Global,
    direction: Direction,
    kept: &mut Option<AssetRecord>,
    packet: &Packet,
) -> Result<Output, NoMemory>
    ensures kept { OnOk result
        (kept.new ≡ (if is_transport packet.now.proto then Some (watched direction (counted (unwrap_or kept.old nothing)) packet.now).kept else kept.old)) }
    ensures output { IfOk result (λ output. output ≡ (watched direction (counted (unwrap_or kept.old nothing)) packet.now).output) }
    ensures err { OnErr result (kept.new ≡ kept.old) }
    ensures port { packet.now.sport < 2 ^ 16 }
{
    let service = Service::of_source(packet);
    if !is_transport(packet.proto) {
        return Ok(output(QUIET));
    }
    match kept {
        Some(record) => watch(record, direction, service, packet),
        None => {
            let mut record = AssetRecord::open(alloc);
            let output = watch(&mut record, direction, service, packet)?;
            *kept = Some(record);
            Ok(output)
        }
    }
}

/// Takes a packet of TCP or UDP from this source into its host's record, and gives the output.
fn watch(
    kept: &mut AssetRecord,
    direction: Direction,
    service: Service,
    packet: &Packet,
) -> Result<Output, NoMemory>
    requires transport { is_transport packet.now.proto ≡ true }
    requires source { service ≡ source_of packet.now }
    ensures kept { OnOk result (kept.new ≡ (watched direction (counted kept.old) packet.now).kept) }
    ensures output { IfOk result (λ output. output ≡ (watched direction (counted kept.old) packet.now).output) }
    ensures err { OnErr result (kept.new ≡ kept.old) }
{
    let output = match direction {
        Direction::Out => watch_sent(kept, service, packet)?,
        Direction::In => output(QUIET),
    };
    kept.count_packet();
    Ok(output)
}

/// Takes a packet that the host sends from this source, and doesn't count it.
fn watch_sent(kept: &mut AssetRecord, service: Service, packet: &Packet) -> Result<Output, NoMemory>
    requires transport { is_transport packet.now.proto ≡ true }
    requires source { service ≡ source_of packet.now }
    ensures kept { OnOk result (kept.new ≡ (sent_row kept.old packet.now (service_like kept.old.services service)).kept) }
    ensures output { IfOk result (λ output. output ≡ (sent_row kept.old packet.now (service_like kept.old.services service)).output) }
    ensures err { OnErr result (kept.new ≡ kept.old) }
{
    match kept.services.place_of(&service) {
        Err(place) => {
            if announces(packet) {
                list(kept, place, service)
            } else {
                Ok(output(QUIET))
            }
        }
        Ok(place) => {
            let known = kept.services.items()[place];
            if known.banner.is_unseen() {
                Ok(set_banner(kept, place, service.greeting(packet)))
            } else {
                Ok(output(QUIET))
            }
        }
    }
}

/// Lists a service that is announced, where there is room.
#[tactic(auto, unfolding(crate::specs::Rows::new_row))]
fn list(kept: &mut AssetRecord, place: usize, service: Service) -> Result<Output, NoMemory>
    requires gap { IsGap kept.old.services service place }
    requires valid { is_service service ≡ true }
    ensures kept { OnOk result (kept.new ≡ (new_row kept.old service).kept) }
    ensures output { IfOk result (λ output. output ≡ (new_row kept.old service).output) }
    ensures err { OnErr result (kept.new ≡ kept.old) }
{
    if kept.services.items().len() >= SERVICES_PER_HOST {
        return Ok(output(FULL));
    }
    kept.services.insert(place, service)?;
    Ok(Output {
        code: NEW,
        a: u32::from(service.proto),
        b: u32::from(service.port),
    })
}

/// Sets the banner of a service that has none yet, where it is one.
#[tactic(auto, unfolding(crate::specs::Rows::greeting_row))]
fn set_banner(kept: &mut AssetRecord, place: usize, service: Service) -> Output
    requires listed { IsAt kept.old.services service place }
    requires valid { is_service service ≡ true }
    ensures kept { kept.new ≡ (greeting_row kept.old service).kept }
    ensures output { result ≡ (greeting_row kept.old service).output }
{
    if service.banner.is_unseen() {
        return output(QUIET);
    }
    kept.services.replace(place, service);
    Output {
        code: BANNER,
        a: u32::from(service.proto) * 256 + u32::from(service.banner.number()),
        b: u32::from(service.port),
    }
}

/// Whether the packet shows that its source serves.
fn announces(packet: &Packet) -> bool
    ensures { result ≡ announces packet.now }
{
    (packet.proto == TCP && accepts(packet.flags))
        || (packet.proto == UDP && packet.sport < FIRST_CLIENT_PORT)
}

/// Whether a TCP packet accepts a connection.
fn accepts(flags: u8) -> bool
    ensures { result ≡ accepts flags }
{
    flags & SYN != 0 && flags & ACK != 0 && flags & RST == 0
}

/// An output without numbers.
fn output(code: u8) -> Output
    ensures { result ≡ record { code = code; a = 0; b = 0 } }
{
    Output { code, a: 0, b: 0 }
}
