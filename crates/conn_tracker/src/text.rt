ghost use Rattle.std.specs.Prelude.{◌≡◌, ◌≤◌, ◌+◌, ◌++◌, length, OnOk, OnErr};
ghost use Rattle.conn_tracker.specs.Text.{output_text, record_text};
ghost use Rattle.conn_tracker.specs.RecordRoom.{direction_text, seen_text};
ghost use Rattle.conn_tracker.specs.RecordRoom.{record_room, seen_room, direction_room};

use crate::record::TrackRecord;
use crate::state::State;
use arrayvec::ArrayString;
use basics::NoMemory;
use flow_filter::{Direction, Text};
use itoa::Buffer;
use nf_function::Output;

/// Room for the text of a record, and to spare.
type RecordText = ArrayString<192>;

/// Puts the text of an output after a text: the name of its state.
pub fn push_output(text: &mut Text, output: &Output) -> Result<(), NoMemory>
    ensures ok { OnOk result (text.new ≡ text.old ++ output_text output.now) }
    ensures err { OnErr result (text.new ≡ text.old) }
{
    match State::numbered(output.code) {
        Some(state) => text.push_bytes(state.name().as_bytes()),
        None => Ok(()),
    }
}

/// Puts the text of a record after a text: `STATE out|in packets P bytes B`, and ` seen N` where a time is known.
pub fn push_record(text: &mut Text, kept: &TrackRecord) -> Result<(), NoMemory>
    ensures ok { OnOk result (text.new ≡ text.old ++ record_text kept.now) }
    ensures err { OnErr result (text.new ≡ text.old) }
{
    text.push_bytes(record_text(kept).as_str().as_bytes())
}

/// The text of a record, which takes no memory.
#[tactic(auto, unfolding(crate::specs::Text::record_text))]
fn record_text(kept: &TrackRecord) -> RecordText
    ensures { result.bytes ≡ record_text kept.now }
{
    let mut buffer = Buffer::new();
    let mut text = RecordText::new();
    text.push_str(kept.state.name());
    text.push_str(" ");
    text.push_str(direction_name(kept.opener));
    text.push_str(" packets ");
    text.push_str(buffer.format(kept.packets));
    text.push_str(" bytes ");
    text.push_str(buffer.format(kept.bytes));
    push_seen(&mut text, kept.seen);
    text
}

/// Puts the time of the last packet after a text, where one is known.
fn push_seen(text: &mut RecordText, seen: u64)
    requires { length text.old.bytes + seen_room ≤ record_room }
    ensures { text.new.bytes ≡ text.old.bytes ++ seen_text seen }
{
    if seen == 0 {
        return;
    }
    let mut buffer = Buffer::new();
    text.push_str(" seen ");
    text.push_str(buffer.format(seen));
}

/// The word of a direction: `out` of the site, or `in`.
fn direction_name(direction: Direction) -> &'static str
    ensures name { result.now ≡ direction_text direction }
    ensures short { length result.now ≤ direction_room }
{
    match direction {
        Direction::Out => "out",
        Direction::In => "in",
    }
}
