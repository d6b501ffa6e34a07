//! What a run leaves.
use crate::Parts;
use cos_api::{Calls, Device, Master};

/// What a run of the direct machine leaves: its parts, every call in order, and the ticks that it took.
#[derive(Drop)]
pub struct Direct<M: Master, D: Device> {
    pub master: M,
    pub devices: Parts<D>,
    pub calls: Calls,
    pub ticks: u64,
}
