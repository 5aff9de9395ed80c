/// Where packets go from the switch.
#[derive(Clone, Copy, Debug, PartialEq, Eq)]
pub enum Target {
    /// The instance with this number, from 0.
    Instance(u8),
    Controller,
}
