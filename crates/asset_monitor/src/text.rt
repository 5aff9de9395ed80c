//! The texts of outputs and records.
ghost use Rattle.std.specs.Prelude.{◌≡◌, ◌≤◌, ◌++◌, [], length, IfOk, OnOk, OnErr};
ghost use Rattle.std.specs.List.{flat_map, slice_index_or};
ghost use Rattle.flow_filter.specs.FilterText.{protocol_text};
ghost use Rattle.asset_monitor.specs.Banners.{banner_names};
ghost use Rattle.asset_monitor.specs.WordRoom.{banner_room, protocol_room, next_text};
ghost use Rattle.asset_monitor.specs.Text.{found_text, greeted_text, output_text, record_text, service_text, services_text};

use crate::banner::Banner;
use crate::record::AssetRecord;
use crate::service::Service;
use arrayvec::ArrayString;
use basics::{NoMemory, Text};
use flow_filter::TCP;
use itoa::Buffer;
use nf_function::Output;

/// Room for the text of an output, and to spare.
type OutputText = ArrayString<128>;

/// Puts the text of an output after a text.
pub fn push_output(text: &mut Text, output: &Output) -> Result<(), NoMemory>
    ensures ok { OnOk result (text.new ≡ text.old ++ output_text output.now) }
    ensures err { OnErr result (text.new ≡ text.old) }
{
    match output.code {
        0 => text.push_bytes(b"quiet"),
        1 => text.push_bytes(found_text(output).as_str().as_bytes()),
        2 => text.push_bytes(greeted_text(output).as_str().as_bytes()),
        3 => text.push_bytes(b"full"),
        _ => Ok(()),
    }
}

/// `new PROTO PORT`, which takes no memory.
#[tactic(auto, unfolding(crate::specs::Text::found_text))]
fn found_text(output: &Output) -> OutputText
    ensures { result.bytes ≡ found_text output.now }
{
    let mut buffer = Buffer::new();
    let mut line = OutputText::new();
    line.push_str("new ");
    line.push_str(protocol_name(output.a));
    line.push_str(" ");
    line.push_str(buffer.format(output.b));
    line
}

/// `banner PROTO PORT NAME`, which takes no memory.
#[tactic(auto, unfolding(crate::specs::Text::greeted_text))]
fn greeted_text(output: &Output) -> OutputText
    ensures { result.bytes ≡ greeted_text output.now }
{
    let mut buffer = Buffer::new();
    let mut line = OutputText::new();
    line.push_str("banner ");
    line.push_str(protocol_name(output.a / 256));
    line.push_str(" ");
    line.push_str(buffer.format(output.b));
    line.push_str(" ");
    line.push_str(name_of((output.a % 256) as u8));
    line
}

/// The name of the banner with this number, if there is one.
fn name_of(number: u8) -> &'static str
    ensures name { result.now ≡ slice_index_or banner_names number [] }
    ensures short { length result.now ≤ banner_room }
{
    match Banner::numbered(number) {
        Some(banner) => banner.name(),
        None => "",
    }
}

/// The word of a protocol: `tcp`, or `udp` for any other.
fn protocol_name(proto: u32) -> &'static str
    ensures name { result.now ≡ protocol_text proto }
    ensures short { length result.now ≤ protocol_room }
{
    if proto == u32::from(TCP) {
        "tcp"
    } else {
        "udp"
    }
}

/// Puts the text of a record after a text: `packets P services LIST`.
pub fn push_record(text: &mut Text, kept: &AssetRecord) -> Result<(), NoMemory>
    ensures ok { OnOk result (text.new ≡ text.old ++ record_text kept.now) }
    ensures err { OnErr result (text.new ≡ text.old) }
{
    let line = printed(kept)?;
    text.push_bytes(line.items())
}

/// The text of a record, on the allocator of its services.
#[tactic(auto, unfolding(crate::specs::Text::record_text))]
fn printed(kept: &AssetRecord) -> Result<Text, NoMemory>
    ensures { IfOk result (λ line. line ≡ record_text kept.now) }
{
    let mut line = Text::open(kept.services.allocator());
    line.push_bytes(b"packets ")?;
    line.push_decimal(kept.packets)?;
    line.push_bytes(b" services ")?;
    push_services(&mut line, kept.services.items())?;
    Ok(line)
}

/// Puts services after a text, with commas between them.
fn push_services(text: &mut Text, services: &[Service]) -> Result<(), NoMemory>
    ensures { OnOk result (text.new ≡ text.old ++ services_text services.now) }
{
    let [first, more @ ..] = services else {
        return text.push_bytes(b"none");
    };
    push_service(text, first)?;
    push_next(text, more)
}

/// Puts services after a text that has one already.
fn push_next(text: &mut Text, services: &[Service]) -> Result<(), NoMemory>
    ensures { OnOk result (text.new ≡ text.old ++ flat_map next_text services.now) }
{
    for service in services {
        text.push_bytes(b",")?;
        push_service(text, service)?;
    }
    Ok(())
}

/// Puts `PROTO/PORT/NAME` after a text.
#[tactic(auto, unfolding(crate::specs::Text::service_text))]
fn push_service(text: &mut Text, service: &Service) -> Result<(), NoMemory>
    ensures { OnOk result (text.new ≡ text.old ++ service_text service.now) }
{
    text.push_bytes(protocol_name(u32::from(service.proto)).as_bytes())?;
    text.push_bytes(b"/")?;
    text.push_decimal(u64::from(service.port))?;
    text.push_bytes(b"/")?;
    text.push_bytes(service.banner.name().as_bytes())
}
