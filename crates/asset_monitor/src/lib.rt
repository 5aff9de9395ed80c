//! The asset monitor: which services the local hosts offer, and how these greet.
//!
//! Contracts see an [`AssetRecord`] as its fields, and [`Services`] as their list. The main promise is that of [`Monitor`]: the record
//! and the output after a packet are those of the table in `specs/Table.antt`, for every record and packet. A step takes memory only where
//! it lists one more service, and a host has at most [`SERVICES_PER_HOST`] of them. The crate touches nothing but its arguments.
#![tactic(auto)]

pub mod banner;
pub mod body;
pub mod monitor;
pub mod record;
pub mod service;
pub mod services;
pub mod table;
pub mod text;

pub use banner::Banner;
pub use monitor::Monitor;
pub use record::AssetRecord;
pub use service::Service;
pub use services::{SERVICES_PER_HOST, Services};
