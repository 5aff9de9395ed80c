use crate::answer::Answer;
use crate::kept::KeptUnits;
use basics::Boxed;
use nf_function::{Output, Units};

/// What a step writes into the log. Units stand behind a pointer, or one in place, so that a note takes 24 bytes.
///
/// `op` is the number of the operation, and `instance` that of the instance, from 0.
#[derive(Debug, Drop)]
pub enum Note {
    /// The switch took the packet with this number in.
    Arrived(u32),
    /// An instance processed the packet with this number.
    Processed {
        number: u32,
        instance: u8,
        output: Output,
    },
    /// The command with this number begins.
    Begun(u32),
    /// The instance gave the chunks of these units.
    Exported {
        instance: u8,
        op: u32,
        units: Boxed<Units>,
    },
    /// The instance took the records of these units as live.
    Imported {
        instance: u8,
        op: u32,
        units: Boxed<Units>,
    },
    /// The instance took the records of these units as standby, or as a share's.
    Kept {
        instance: u8,
        op: u32,
        units: KeptUnits,
    },
    /// The switch changed its rules for the command with this number.
    Installed(u32),
    /// The command is answered.
    Answered {
        op: u32,
        answer: Boxed<Answer>,
    },
}
