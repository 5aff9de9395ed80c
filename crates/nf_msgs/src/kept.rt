//! Units whose records were kept, as a note holds them: one in place, and others in a list.
ghost use Rattle.std.specs.Prelude.{◌≡◌, [], ◌∷◌, length, IfOk};
ghost use Rattle.nf_msgs.specs.Exports.{units_in};

use crate::exports::units_in;
use basics::{Boxed, NoMemory};
use flow_filter::Flow;
use nf_function::{Chunk, Unit, Units};
use std::alloc::Global;
use std::marker::Model;

/// Units whose records were kept, which contracts see as their list. One unit stands in place and takes no memory of its own.
#[derive(Debug, Drop)]
pub struct KeptUnits {
    form: KeptForm,
}

/// How units stand in a note: 16 bytes. The narrow fields of a flow fill the room beside the number of the variant.
#[derive(Debug, Drop)]
enum KeptForm {
    /// One flow.
    Flow {
        proto: u8,
        lport: u16,
        rport: u16,
        local: u32,
        remote: u32,
    },
    /// One local host, by its address.
    Host(u32),
    /// None, or several.
    List(Boxed<Units>),
}

impl Model for KeptUnits {
    ghost use Rattle.std.specs.Prelude.{List};
    ghost use Rattle.nf_function.specs.declared.unit.Unit as units;
    ghost use Rattle.nf_msgs.specs.KeptUnits.{units_of};

    ghost Value = { List units.Unit };

    ghost view = { λ k. units_of k.form };
}

impl KeptUnits {
    /// The units of the chunks that have one, in order.
    pub fn of(alloc: Global, chunks: &[Chunk]) -> Result<Self, NoMemory>
        ensures { IfOk result (λ kept. kept ≡ units_in chunks.now) }
    {
        if let [chunk] = chunks {
            if let Some(unit) = chunk.unit {
                return Ok(KeptUnits::one(unit));
            }
        }
        let units = Boxed::new(alloc, units_in(alloc, chunks)?)?;
        Ok(KeptUnits {
            form: KeptForm::List(units),
        })
    }

    /// One unit.
    fn one(unit: Unit) -> Self
        ensures { result ≡ unit ∷ [] }
    {
        let form = match unit {
            Unit::Flow(flow) => KeptForm::Flow {
                proto: flow.proto,
                lport: flow.lport,
                rport: flow.rport,
                local: flow.local,
                remote: flow.remote,
            },
            Unit::Host(address) => KeptForm::Host(address),
        };
        KeptUnits { form }
    }

    /// How many there are.
    pub fn count(&self) -> usize
        ensures { result ≡ length self.now }
    {
        match &self.form {
            KeptForm::Flow { .. } | KeptForm::Host(_) => 1,
            KeptForm::List(units) => units.get().items().len(),
        }
    }

    /// A list of them.
    pub fn list(&self, alloc: Global) -> Result<Units, NoMemory>
        ensures { IfOk result (λ units. units ≡ self.now) }
    {
        match &self.form {
            KeptForm::Flow {
                proto,
                lport,
                rport,
                local,
                remote,
            } => {
                let flow = Flow {
                    local: *local,
                    remote: *remote,
                    lport: *lport,
                    rport: *rport,
                    proto: *proto,
                };
                list_of(alloc, Unit::Flow(flow))
            }
            KeptForm::Host(address) => list_of(alloc, Unit::Host(*address)),
            KeptForm::List(units) => units.get().copy_at_once(),
        }
    }
}

/// A list of one unit.
fn list_of(alloc: Global, unit: Unit) -> Result<Units, NoMemory>
    ensures { IfOk result (λ units. units ≡ unit ∷ []) }
{
    let mut units = Units::open(alloc);
    units.push(unit)?;
    Ok(units)
}
