//! The choices of a journal, two bytes each.
ghost use Rattle.std.specs.Prelude.{◌≡◌, ◌++◌, OnOk};
ghost use Rattle.std.specs.List.{flat_map};
ghost use Rattle.journal_file.specs.Format.{choice_bytes};
ghost use Rattle.journal_file.specs.Reading.{choices_in};

use actor_net::{Choice, Choices};
use basics::{Bytes, NoMemory};

/// Puts the bytes of choices after others.
pub(crate) fn push_bytes_of(bytes: &mut Bytes, choices: &Choices) -> Result<(), NoMemory>
    ensures { OnOk result (bytes.new ≡ bytes.old ++ flat_map choice_bytes choices.now) }
{
    for choice in choices.iter() {
        bytes.push(choice.node)?;
        bytes.push(choice.port)?;
    }
    Ok(())
}

/// Puts the choices that bytes spell after others.
pub(crate) fn push_choices_in(choices: &mut Choices, bytes: &[u8]) -> Result<(), NoMemory>
    ensures { OnOk result (choices.new ≡ choices.old ++ choices_in bytes.now) }
{
    let mut rest = bytes;
    while rest.len() >= 2 {
        choices.push(Choice {
            node: rest[0],
            port: rest[1],
        })?;
        rest = &rest[2..];
    }
    Ok(())
}
