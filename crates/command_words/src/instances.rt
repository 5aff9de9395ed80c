//! The list of instances that words spell, as `a,b:5000,c:v1`.
ghost use Rattle.std.specs.Prelude.{◌≡◌, ◌==◌, IfOk, option_map, option_and_then};
ghost use Rattle.std.specs.List.{slice_split};
ghost use Rattle.basics.specs.Bytes.{comma};
ghost use Rattle.command_words.specs.Values.{limit_of, suffix_of, with_suffix, instance_of, all_instances, instances_of};

use crate::request::{InstanceWords, Instances};
use basics::parsing::{first_piece, parse_number, split_once};
use basics::{NoMemory, TryCopy};
use flow_filter::name::has_twice;
use flow_filter::{Name, Sequence};
use std::alloc::Global;

/// The limit of an instance that names none, and the greatest.
const MOST_RECORDS: u32 = 1_000_000;

/// What stands after an instance that reads chunks of version 1 alone.
const VERSION_1: &[u8] = b"v1";

const MOST_INSTANCES: usize = 16;

/// The instances of a list, where there are at most 16 and their names differ.
#[tactic(auto, unfolding(crate::specs::Values::instances_of))]
pub fn instances_of(alloc: Global, list: Option<&str>) -> Result<Option<Instances>, NoMemory>
    ensures { IfOk result (λ found. option_map (λ i. i.rows.items) found ≡ option_and_then instances_of (option_map (λ t. t.now) list.entry)) }
{
    let Some(list) = list else {
        return Ok(None);
    };
    let Some(rows) = all_instances(alloc, list.as_bytes())? else {
        return Ok(None);
    };
    if rows.is_empty() || rows.len() > MOST_INSTANCES {
        return Ok(None);
    }
    let instances = Instances { rows };
    let names = instances.names(alloc)?;
    if has_twice(alloc, names.items())? {
        Ok(None)
    } else {
        Ok(Some(instances))
    }
}

impl Instances {
    ghost use Rattle.std.specs.Prelude.{◌≡◌, ◌≤◌, length, IfOk};
    ghost use Rattle.flow_filter.specs.Limits.{most_instances};
    ghost use Rattle.command_words.specs.Values.{names_of};

    /// Their names.
    pub fn names(&self, alloc: Global) -> Result<Sequence<Name>, NoMemory>
        ensures names { IfOk result (λ names. names ≡ names_of self.now.rows.items) }
        ensures few { IfOk result (λ names. length names ≤ most_instances) }
    {
        let mut names = Sequence::open(alloc);
        for row in self.rows.as_slice() {
            names.push(row.name.copy()?)?;
        }
        Ok(names)
    }
}

/// The instances of a list, or `None` where one is malformed.
fn all_instances(alloc: Global, list: &[u8]) -> Result<Option<Vec<InstanceWords>>, NoMemory>
    ensures { IfOk result (λ found. option_map (λ rows. rows.items) found ≡ all_instances (slice_split (λ b. b == comma) list.now)) }
{
    let mut rows = Vec::new(alloc);
    let mut rest = Some(list);
    while let Some(text) = rest {
        let (first, more) = first_piece(text, b',');
        let Some(row) = instance_of(alloc, first)? else {
            return Ok(None);
        };
        rows.push(row)?;
        rest = more;
    }
    Ok(Some(rows))
}

/// The instance that the text spells as `NAME`, `NAME:LIMIT`, `NAME:v1` or `NAME:LIMIT:v1`.
#[tactic(auto, unfolding(crate::specs::Values::instance_of))]
fn instance_of(alloc: Global, text: &[u8]) -> Result<Option<InstanceWords>, NoMemory>
    ensures { IfOk result (λ found. found ≡ instance_of text.now) }
{
    match split_once(text, b':') {
        None => named(alloc, text, Some((MOST_RECORDS, false))),
        Some((name, suffix)) => named(alloc, name, suffix_of(suffix)),
    }
}

/// The instance with this name, where the name is one and what stands after it is well formed.
fn named(
    alloc: Global,
    name: &[u8],
    suffix: Option<(u32, bool)>,
) -> Result<Option<InstanceWords>, NoMemory>
    ensures { IfOk result (λ found. found ≡ with_suffix name.now suffix) }
{
    let Some(name) = Name::read(alloc, name)? else {
        return Ok(None);
    };
    match suffix {
        None => Ok(None),
        Some((limit, reads_old)) => Ok(Some(InstanceWords {
            name,
            limit,
            reads_old,
        })),
    }
}

/// The limit that the text after a name and a colon spells, and whether the instance reads chunks of version 1 alone.
#[tactic(auto, unfolding(crate::specs::Values::suffix_of))]
fn suffix_of(text: &[u8]) -> Option<(u32, bool)>
    ensures { result ≡ suffix_of text.now }
{
    if text == VERSION_1 {
        return Some((MOST_RECORDS, true));
    }
    match split_once(text, b':') {
        None => Some((limit_of(text)?, false)),
        Some((limit, version)) if version == VERSION_1 => Some((limit_of(limit)?, true)),
        Some(_) => None,
    }
}

/// The limit that the text spells.
fn limit_of(text: &[u8]) -> Option<u32>
    ensures { result ≡ limit_of text.now }
{
    let limit = parse_number(text, 1_000_000)?;
    Some(limit as u32)
}
