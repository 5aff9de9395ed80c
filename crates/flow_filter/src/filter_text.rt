//! Filters as texts: how they are read, and how they are printed.
ghost use Rattle.std.specs.Prelude.{◌≡◌, ◌≤◌, ◌<◌, ◌+◌, true, false, ◌++◌, ◌∷◌, ◌==◌, ◌||◌};
ghost use Rattle.std.specs.Prelude.{if◌then◌else◌, IfOk, OnOk, OnErr, codes, length, option_map, is_some};
ghost use Rattle.std.specs.Fmt.{decimal};
ghost use Rattle.std.specs.List.{slice_split};
ghost use Rattle.basics.specs.Parsing.{parse_number};
ghost use Rattle.flow_filter.specs.FilterText.{parse, with_fields, with_named, protocol_of, fields_of, AgreesBy, print};
ghost use Rattle.flow_filter.specs.FilterText.{is_printable, is_transport, after_commas, piece, protocol_text, prefix_text};
ghost use Rattle.flow_filter.specs.FieldSteps.{with_field, with_proto, with_local, with_lport, with_remote, with_rport};
ghost use Rattle.flow_filter.specs.FilterRoom.{text_room, protocol_room, name_room, prefix_room, port_room};
ghost use Rattle.basics.specs.Bytes.{comma};
ghost use Rattle.flow_filter.specs.Packet.{most_port};

use crate::filter::Filter;
use crate::packet::{TCP, UDP};
use crate::prefix::Prefix;
use crate::reading::prefix;
use arrayvec::ArrayString;
use basics::parsing::{parse_number, split_once};
use basics::text::dotted;
use basics::{NoMemory, Text};
use itoa::Buffer;
use std::alloc::Global;
use thiserror::Error;

/// Room for the canonical text of a filter, and to spare.
type Printed = ArrayString<384>;

/// Why a text is no filter.
#[derive(Clone, Copy, Debug, PartialEq, Eq, Error)]
pub enum FilterFault {
    /// A field is empty, has no equals sign, or has an unknown name.
    #[error("field")]
    Field,
    /// A field is given twice.
    #[error("twice")]
    Twice,
    /// A protocol or a port can't be read.
    #[error("number")]
    Number,
    /// A prefix can't be read.
    #[error("prefix")]
    Prefix,
}

impl Filter {
    /// The filter that the text spells, or the fault of its first field from the left that breaks a rule.
    pub fn parse(text: &str) -> Result<Self, FilterFault>
        ensures value { AgreesBy fields_of result (parse text.now) }
        ensures printable { IfOk result (λ f. is_printable f ≡ true) }
    {
        Filter::parse_bytes(text.as_bytes())
    }

    /// The filter that a text spells, which is given as its bytes, or the fault of its first field from the left that breaks a rule.
    #[tactic(auto, unfolding(crate::specs::FilterText::parse))]
    pub fn parse_bytes(text: &[u8]) -> Result<Self, FilterFault>
        ensures value { AgreesBy fields_of result (parse text.now) }
        ensures printable { IfOk result (λ f. is_printable f ≡ true) }
    {
        if text == b"any".as_slice() {
            Ok(Filter::ANY)
        } else {
            with_fields(Filter::ANY, text)
        }
    }

    /// The canonical text: the given fields in their order, with each prefix's length, or `any`.
    pub fn print(&self, alloc: Global) -> Result<Text, NoMemory>
        requires { is_printable self.now ≡ true }
        ensures text { IfOk result (λ text. text ≡ print self.now) }
        ensures again { IfOk result (λ text. parse text ≡ Ok (fields_of self.now)) }
    {
        let mut out = Text::open(alloc);
        self.print_to(&mut out)?;
        Ok(out)
    }

    /// Puts the canonical text after a text.
    pub fn print_to(self, out: &mut Text) -> Result<(), NoMemory>
        requires { is_printable self ≡ true }
        ensures ok { OnOk result (out.new ≡ out.old ++ print self) }
        ensures again { OnOk result (parse (print self) ≡ Ok (fields_of self)) }
        ensures err { OnErr result (out.new ≡ out.old) }
    {
        out.push_bytes(printed(self).as_str().as_bytes())
    }
}

/// The fields of the text, one after another, added to those so far.
fn with_fields(so_far: Filter, text: &[u8]) -> Result<Filter, FilterFault>
    ensures { AgreesBy fields_of result (with_fields (fields_of so_far) (slice_split (λ b. b == comma) text.now)) }
{
    match split_once(text, b',') {
        Some((first, more)) => with_fields(with_field(so_far, first)?, more),
        None => with_field(so_far, text),
    }
}

/// One field, added to those so far.
fn with_field(so_far: Filter, text: &[u8]) -> Result<Filter, FilterFault>
    ensures { AgreesBy fields_of result (with_field (fields_of so_far) text.now) }
{
    match split_once(text, b'=') {
        Some((name, value)) => with_named(so_far, name, value),
        None => Err(FilterFault::Field),
    }
}

/// The field with this name and value, added to those so far.
#[tactic(auto, unfolding(crate::specs::FilterText::with_named))]
fn with_named(so_far: Filter, name: &[u8], value: &[u8]) -> Result<Filter, FilterFault>
    ensures { AgreesBy fields_of result (with_named (fields_of so_far) name.now value.now) }
{
    if name == b"proto".as_slice() {
        with_proto(so_far, value)
    } else if name == b"local".as_slice() {
        with_local(so_far, value)
    } else if name == b"lport".as_slice() {
        with_lport(so_far, value)
    } else if name == b"remote".as_slice() {
        with_remote(so_far, value)
    } else if name == b"rport".as_slice() {
        with_rport(so_far, value)
    } else {
        Err(FilterFault::Field)
    }
}

/// The filter with a protocol besides.
fn with_proto(so_far: Filter, value: &[u8]) -> Result<Filter, FilterFault>
    ensures { AgreesBy fields_of result (with_proto (fields_of so_far) value.now) }
{
    if so_far.proto.is_some() {
        return Err(FilterFault::Twice);
    }
    let Some(proto) = protocol(value) else {
        return Err(FilterFault::Number);
    };
    Ok(Filter {
        proto: Some(proto),
        ..so_far
    })
}

/// The number of a protocol's name.
#[tactic(auto, unfolding(crate::specs::FilterText::protocol_of))]
fn protocol(name: &[u8]) -> Option<u8>
    ensures { result ≡ protocol_of name.now }
{
    if name == b"tcp".as_slice() {
        Some(TCP)
    } else if name == b"udp".as_slice() {
        Some(UDP)
    } else {
        None
    }
}

/// The filter with a local prefix besides.
fn with_local(so_far: Filter, value: &[u8]) -> Result<Filter, FilterFault>
    ensures { AgreesBy fields_of result (with_local (fields_of so_far) value.now) }
{
    if so_far.local.is_some() {
        return Err(FilterFault::Twice);
    }
    let Some(local) = prefix(value) else {
        return Err(FilterFault::Prefix);
    };
    Ok(Filter {
        local: Some(local),
        ..so_far
    })
}

/// The filter with a local port besides.
fn with_lport(so_far: Filter, value: &[u8]) -> Result<Filter, FilterFault>
    ensures { AgreesBy fields_of result (with_lport (fields_of so_far) value.now) }
{
    if so_far.lport.is_some() {
        return Err(FilterFault::Twice);
    }
    let Some(lport) = port(value) else {
        return Err(FilterFault::Number);
    };
    Ok(Filter {
        lport: Some(lport),
        ..so_far
    })
}

/// The filter with a remote prefix besides.
fn with_remote(so_far: Filter, value: &[u8]) -> Result<Filter, FilterFault>
    ensures { AgreesBy fields_of result (with_remote (fields_of so_far) value.now) }
{
    if so_far.remote.is_some() {
        return Err(FilterFault::Twice);
    }
    let Some(remote) = prefix(value) else {
        return Err(FilterFault::Prefix);
    };
    Ok(Filter {
        remote: Some(remote),
        ..so_far
    })
}

/// The filter with a remote port besides.
fn with_rport(so_far: Filter, value: &[u8]) -> Result<Filter, FilterFault>
    ensures { AgreesBy fields_of result (with_rport (fields_of so_far) value.now) }
{
    if so_far.rport.is_some() {
        return Err(FilterFault::Twice);
    }
    let Some(rport) = port(value) else {
        return Err(FilterFault::Number);
    };
    Ok(Filter {
        rport: Some(rport),
        ..so_far
    })
}

/// The port that the text spells.
fn port(text: &[u8]) -> Option<u16>
    ensures { result ≡ parse_number most_port text.now }
{
    let value = parse_number(text, 65535)?;
    Some(value as u16)
}

/// The canonical text of a filter, which takes no memory.
fn printed(filter: Filter) -> Printed
    requires { is_printable filter ≡ true }
    ensures text { result.bytes ≡ print filter }
    ensures again { parse (print filter) ≡ Ok (fields_of filter) }
{
    let mut out = Printed::new();
    let begun = print_proto(&mut out, filter.proto);
    let begun = print_prefix(&mut out, begun, "local=", filter.local);
    let begun = print_port(&mut out, begun, "lport=", filter.lport);
    let begun = print_prefix(&mut out, begun, "remote=", filter.remote);
    let begun = print_port(&mut out, begun, "rport=", filter.rport);
    if !begun {
        out.push_str("any");
    }
    out
}

/// Puts the protocol after the text, where it is given, and answers whether a field was written.
fn print_proto(out: &mut Printed, proto: Option<u8>) -> bool
    requires known { is_transport proto ≡ true }
    requires room { length out.old.bytes + protocol_room ≤ text_room }
    ensures begun { result ≡ is_some proto }
    ensures text { out.new.bytes ≡ out.old.bytes ++ after_commas false (piece (codes "proto=") (option_map protocol_text proto)) }
    ensures short { length out.new.bytes ≤ length out.old.bytes + protocol_room }
{
    match proto {
        None => false,
        Some(TCP) => {
            out.push_str("proto=tcp");
            true
        }
        Some(_) => {
            out.push_str("proto=udp");
            true
        }
    }
}

/// Puts a prefix under its name after the text, where it is given, and answers whether a field was written so far.
fn print_prefix(out: &mut Printed, begun: bool, name: &str, prefix: Option<Prefix>) -> bool
    requires name { length name.now < name_room }
    requires room { length out.old.bytes + name_room + prefix_room ≤ text_room }
    ensures begun { result ≡ (begun || is_some prefix) }
    ensures text { out.new.bytes ≡ out.old.bytes ++ after_commas begun (piece name.now (option_map prefix_text prefix)) }
    ensures short { length out.new.bytes ≤ length out.old.bytes + name_room + prefix_room }
{
    let Some(prefix) = prefix else {
        return begun;
    };
    print_name(out, begun, name);
    push_prefix(out, prefix);
    true
}

/// Puts a prefix after the text, as `A.B.C.D/L`.
fn push_prefix(out: &mut Printed, prefix: Prefix)
    requires room { length out.old.bytes + prefix_room ≤ text_room }
    ensures text { out.new.bytes ≡ out.old.bytes ++ prefix_text prefix }
    ensures short { length out.new.bytes ≤ length out.old.bytes + prefix_room }
{
    let mut buffer = Buffer::new();
    out.push_str(dotted(prefix.bits).as_str());
    out.push_str("/");
    out.push_str(buffer.format(prefix.len));
}

/// Puts a port under its name after the text, where it is given, and answers whether a field was written so far.
fn print_port(out: &mut Printed, begun: bool, name: &str, port: Option<u16>) -> bool
    requires name { length name.now < name_room }
    requires room { length out.old.bytes + port_room ≤ text_room }
    ensures begun { result ≡ (begun || is_some port) }
    ensures text { out.new.bytes ≡ out.old.bytes ++ after_commas begun (piece name.now (option_map decimal port)) }
    ensures short { length out.new.bytes ≤ length out.old.bytes + port_room }
{
    let Some(port) = port else {
        return begun;
    };
    let mut buffer = Buffer::new();
    print_name(out, begun, name);
    out.push_str(buffer.format(port));
    true
}

/// Puts a field's name after the text, and a comma before it where a field stands there.
fn print_name(out: &mut Printed, begun: bool, name: &str)
    requires name { length name.now < name_room }
    requires room { length out.old.bytes + name_room ≤ text_room }
    ensures text { out.new.bytes ≡ out.old.bytes ++ (if begun then comma ∷ name.now else name.now) }
    ensures short { length out.new.bytes ≤ length out.old.bytes + name_room }
{
    if begun {
        out.push_str(",");
    }
    out.push_str(name);
}
