use crate::action::Action;
use crate::held::Held;
use flow_filter::Filter;

/// The rule of an operation.
#[derive(Debug, Drop)]
pub struct Rule<P> {
    /// The number of the operation.
    pub op: u32,
    pub filter: Filter,
    pub action: Action,
    /// The parcels that are held for the operation.
    pub held: Held<P>,
}
