//! Children that a program starts and waits for: the trait of what starts them, and one in memory, for tests.
#![tactic(auto)]

mod mem_children;
mod mem_spawner;
mod spawners;

pub use mem_spawner::MemSpawner;
pub use spawners::{SpawnFault, Spawner};

#[cfg(test)]
mod tests;
