//! The translator's table: what a packet changes of its host's mappings, and the output.
ghost use Rattle.std.specs.Prelude.{◌≡◌, ◌<◌, ◌^◌, Some, None, if◌then◌else◌};
ghost use Rattle.std.specs.List.{position};
ghost use Rattle.flow_filter.specs.Flow.{flow_of, ports_per_host};
ghost use Rattle.nf_function.specs.Units.{is_transport};
ghost use Rattle.addr_translator.specs.Mappings.{mapping_eq};
ghost use Rattle.addr_translator.specs.Table.{drop_step, left, mapped, step_of};
ghost use Rattle.addr_translator.specs.Passages.{source as source_of, translated};
ghost use Rattle.addr_translator.specs.Outputs.{code, counted};

use crate::mapping::Mapping;
use crate::passage::Passage;
use crate::record::{NatRecord, place_of};
use flow_filter::{FIRST_PORT, PORTS_PER_HOST, Packet, Site, flow_of};
use nf_function::{Output, is_transport};

/// The codes of outputs.
const PASS: u8 = 0;

/// The packet left by an outside port.
const MAP: u8 = 1;

/// The packet came back to an inside host and port.
const UNMAP: u8 = 2;

/// It was dropped: all ports of its host are given.
const NO_PORT: u8 = 3;

/// It was dropped: the outside port wasn't given for its protocol.
const NO_MAP: u8 = 4;

/// It was dropped: it came from outside to an inside address.
const DIRECT: u8 = 5;

/// Takes a packet into what is kept of its host, and gives the output. A packet that is neither of TCP nor of UDP changes
/// nothing.
pub fn step(site: &Site, kept: &mut Option<NatRecord>, packet: &Packet) -> Output
    ensures kept { kept.new ≡ (if is_transport packet.now.proto then Some (step_of site.now kept.old packet.now).kept else kept.old) }
    ensures output { result ≡ (step_of site.now kept.old packet.now).output }
{
    let (flow, _) = flow_of(site, packet);
    step_of_host(site, flow.local, kept, packet)
}

/// Takes a packet, whose host is at hand, into what is kept of that host, and gives the output.
#[tactic(auto, using(crate::specs::StepLemmas::step_of_passage))]
pub fn step_of_host(site: &Site, host: u32, kept: &mut Option<NatRecord>, packet: &Packet) -> Output
    requires { host ≡ (flow_of site.now packet.now).0.local }
    ensures kept { kept.new ≡ (if is_transport packet.now.proto then Some (step_of site.now kept.old packet.now).kept else kept.old) }
    ensures output { result ≡ (step_of site.now kept.old packet.now).output }
    ensures port { packet.now.sport < 2 ^ 16 }
{
    let source = Mapping::source(packet);
    let passage = Passage::of(site, packet);
    if !is_transport(packet.proto) {
        return output(PASS);
    }
    match kept {
        Some(record) => translate(record, passage, host, source, packet),
        None => {
            let mut record = NatRecord::open();
            let output = translate(&mut record, passage, host, source, packet);
            *kept = Some(record);
            output
        }
    }
}

/// Takes a packet that passes so into its host's record, and gives the output.
fn translate(
    kept: &mut NatRecord,
    passage: Passage,
    host: u32,
    source: Mapping,
    packet: &Packet,
) -> Output
    requires { source ≡ source_of packet.now }
    ensures kept { kept.new ≡ (translated passage host (counted kept.old) packet.now).kept }
    ensures output { result ≡ (translated passage host (counted kept.old) packet.now).output }
{
    kept.count_packet();
    match passage {
        Passage::Leaves(outside) => leave(kept, outside, host, source),
        Passage::Returns => come_back(kept, host, packet),
        Passage::Direct => drop_packet(kept, DIRECT),
        Passage::Other => output(PASS),
    }
}

/// A packet leaves through the port of its source, or through the next free one.
fn leave(kept: &mut NatRecord, outside: u32, host: u32, source: Mapping) -> Output
    ensures kept { let place = position (λ m. mapping_eq m source) kept.old.mappings in kept.new ≡ (left outside host kept.old source place).kept }
    ensures output { let place = position (λ m. mapping_eq m source) kept.old.mappings in result ≡ (left outside host kept.old source place).output }
{
    match place_of(kept.mappings(), source) {
        Some(number) => mapped(outside, host, number),
        None => open(kept, outside, host, source),
    }
}

/// The next free port is given to a source.
fn open(kept: &mut NatRecord, outside: u32, host: u32, source: Mapping) -> Output
    ensures kept { kept.new ≡ (left outside host kept.old source None).kept }
    ensures output { result ≡ (left outside host kept.old source None).output }
{
    if !kept.has_room() {
        return drop_packet(kept, NO_PORT);
    }
    let number = kept.mappings().len();
    kept.push(source);
    mapped(outside, host, number)
}

/// The output for a packet that leaves through the host's port with this number.
fn mapped(outside: u32, host: u32, number: usize) -> Output
    requires { number < ports_per_host }
    ensures { result ≡ mapped outside host number }
{
    let first = u32::from(FIRST_PORT) + PORTS_PER_HOST as u32 * (host % 256);
    Output {
        code: MAP,
        a: outside,
        b: first + number as u32,
    }
}

/// A packet comes back to the end that has its port.
fn come_back(kept: &mut NatRecord, host: u32, packet: &Packet) -> Output
    ensures kept { kept.new ≡ (translated Passage.Returns host kept.old packet.now).kept }
    ensures output { result ≡ (translated Passage.Returns host kept.old packet.now).output }
{
    let number = usize::from(packet.dport.saturating_sub(FIRST_PORT)) % PORTS_PER_HOST;
    match kept.mappings().get(number) {
        Some(mapping) if mapping.proto == packet.proto => Output {
            code: UNMAP,
            a: host,
            b: u32::from(mapping.port),
        },
        _ => drop_packet(kept, NO_MAP),
    }
}

/// Counts a dropped packet. The output says why.
fn drop_packet(kept: &mut NatRecord, reason: u8) -> Output
    ensures kept { kept.new ≡ (drop_step kept.old reason).kept }
    ensures output { result ≡ (drop_step kept.old reason).output }
{
    kept.count_drop();
    output(reason)
}

/// An output without numbers.
fn output(number: u8) -> Output
    ensures { result ≡ code number }
{
    Output {
        code: number,
        a: 0,
        b: 0,
    }
}
