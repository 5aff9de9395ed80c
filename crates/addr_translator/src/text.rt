//! The texts of outputs and records.
ghost use Rattle.std.specs.Prelude.{◌≡◌, ◌≤◌, ◌++◌, length, OnOk, OnErr};
ghost use Rattle.addr_translator.specs.Text.{endpoint_text, output_text, record_text};
ghost use Rattle.addr_translator.specs.WordRoom.{word_room};

use crate::record::NatRecord;
use arrayvec::ArrayString;
use basics::text::dotted;
use basics::{NoMemory, Text};
use itoa::Buffer;
use nf_function::Output;

/// Room for the text of an output or a record, and to spare.
type Line = ArrayString<192>;

/// Puts the text of an output after a text.
pub fn push_output(text: &mut Text, output: &Output) -> Result<(), NoMemory>
    ensures ok { OnOk result (text.new ≡ text.old ++ output_text output.now) }
    ensures err { OnErr result (text.new ≡ text.old) }
{
    match output.code {
        0 => text.push_bytes(b"pass"),
        1 => text.push_bytes(endpoint_text("map", output).as_str().as_bytes()),
        2 => text.push_bytes(endpoint_text("unmap", output).as_str().as_bytes()),
        3 => text.push_bytes(b"drop noport"),
        4 => text.push_bytes(b"drop nomap"),
        5 => text.push_bytes(b"drop direct"),
        _ => Ok(()),
    }
}

/// A word, an address and a port, which takes no memory.
#[tactic(auto, unfolding(crate::specs::Text::endpoint_text))]
fn endpoint_text(word: &str, output: &Output) -> Line
    requires { length word.now ≤ word_room }
    ensures { result.bytes ≡ endpoint_text word.now output.now }
{
    let mut buffer = Buffer::new();
    let mut line = Line::new();
    line.push_str(word);
    line.push_str(" ");
    line.push_str(dotted(output.a).as_str());
    line.push_str(":");
    line.push_str(buffer.format(output.b));
    line
}

/// Puts the text of a record after a text: `ports USED packets P drops D`.
pub fn push_record(text: &mut Text, kept: &NatRecord) -> Result<(), NoMemory>
    ensures ok { OnOk result (text.new ≡ text.old ++ record_text kept.now) }
    ensures err { OnErr result (text.new ≡ text.old) }
{
    text.push_bytes(record_text(kept).as_str().as_bytes())
}

/// The text of a record, which takes no memory.
#[tactic(auto, unfolding(crate::specs::Text::record_text))]
fn record_text(kept: &NatRecord) -> Line
    ensures { result.bytes ≡ record_text kept.now }
{
    let mut buffer = Buffer::new();
    let mut line = Line::new();
    line.push_str("ports ");
    line.push_str(buffer.format(kept.mappings().len()));
    line.push_str(" packets ");
    line.push_str(buffer.format(kept.packets()));
    line.push_str(" drops ");
    line.push_str(buffer.format(kept.drops()));
    line
}
