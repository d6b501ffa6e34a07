//! A machine as firmware sees it: RAM, the system block, windows to devices, and a hart that drives them as a master.
//!
//! A part of the address space is RAM from 0x80000000 on, the system block, which is a page at 0x00100000, or a window to a port.
//! What a unit of the machine does stands in `specs/Units.antt`, and that it keeps the laws of masters in `specs/Laws.antt`.
#![tactic(auto)]

mod machine;
mod map;
mod rv_master;
mod system;

pub use map::{Map, MapFault, Window};
pub use rv_master::RvMaster;
