//! Chunks, in which state travels, and how their bytes are held: as they are, or as the numbers that spell them.
ghost use Rattle.std.specs.Prelude.{◌≡◌, slice_get, IfOk};
ghost use Rattle.nf_function.specs.Forms.{form_bytes, packed_bytes};

use crate::kind::Scope;
use crate::short::ShortBody;
use crate::unit::Unit;
use basics::{Bytes, NoMemory, Sequence, TryCopy};
use flow_filter::Flow;
use std::marker::Model;

/// The state of one unit, or the state that belongs to all flows, as it travels between instances.
#[derive(Debug, Drop)]
pub struct Chunk {
    pub scope: Scope,
    /// The unit whose state it is; none for the state of all flows.
    pub unit: Option<Unit>,
    pub bytes: ChunkBytes,
}

/// Chunks in order, which contracts see as their list.
pub type Chunks = Sequence<Chunk>;

/// The bytes of a chunk: held as bytes, or as the numbers that spell them. Contracts see their list.
#[derive(Debug, Drop)]
pub struct ChunkBytes {
    form: Form,
}

/// How the bytes of a chunk are held.
#[derive(Debug, Drop)]
pub enum Form {
    /// As they are.
    Spelled(Bytes),
    /// As numbers, which takes no room of its own: the chunk of a flow's record.
    Packed(Packed),
}

/// The numbers of a flow's chunk, each as the chunk's format spells it.
#[derive(Clone, Copy, Debug, PartialEq, Eq)]
pub struct Packed {
    pub body: ShortBody,
    pub flow: Flow,
    pub version: u8,
    pub kind: u8,
    pub scope: u8,
}

impl Model for ChunkBytes {
    ghost use Rattle.std.specs.Prelude.{ℕ, List};
    ghost use Rattle.nf_function.specs.Forms.{form_bytes as bytes_of_form};

    ghost Value = { List ℕ };

    ghost view = { λ b. bytes_of_form b.form };
}

impl ChunkBytes {
    /// Bytes, held as they are.
    pub fn spelled(bytes: Bytes) -> Self
        ensures { result ≡ bytes }
    {
        ChunkBytes {
            form: Form::Spelled(bytes),
        }
    }

    /// The bytes that numbers spell.
    pub fn packed(numbers: Packed) -> Self
        ensures { result ≡ packed_bytes numbers }
    {
        ChunkBytes {
            form: Form::Packed(numbers),
        }
    }

    /// How they are held.
    pub fn form(&self) -> &Form
        ensures { form_bytes result.now ≡ self.now }
    {
        &self.form
    }

    /// The first byte, if there is one.
    #[tactic(auto, unfolding(crate::specs::Forms::packed_bytes))]
    pub fn first(&self) -> Option<u8>
        ensures { result ≡ slice_get self.now 0 }
    {
        match &self.form {
            Form::Spelled(bytes) => bytes.items().first().copied(),
            Form::Packed(numbers) => Some(numbers.version),
        }
    }
}

impl TryCopy for ChunkBytes {
    fn copy(&self) -> Result<Self, NoMemory> {
        match &self.form {
            Form::Spelled(bytes) => Ok(ChunkBytes::spelled(bytes.copy_at_once()?)),
            Form::Packed(numbers) => Ok(ChunkBytes::packed(*numbers)),
        }
    }
}

impl TryCopy for Chunk {
    fn copy(&self) -> Result<Self, NoMemory> {
        Ok(Chunk {
            scope: self.scope,
            unit: self.unit,
            bytes: self.bytes.copy()?,
        })
    }
}
