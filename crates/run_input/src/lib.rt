//! What a run of the network is given: its configuration and its input, made of the words' values, a script and a trace.
//!
//! Contracts see a [`Setting`] as its fields. The main promise is that of [`input_of`]: what it gives is an input of `nf_net`
//! (`IsInput`), for which every run keeps what is promised there, for every script. The packets of a capture are kept as items of the
//! input while it is read ([`CapturedItems`]). This crate touches nothing but memory and the source that it is given.
#![tactic(auto)]

pub mod captured;
pub mod input;
pub mod setting;

pub use captured::CapturedItems;
pub use input::input_of;
pub use setting::Setting;
