//! Sessions with lawful and hostile peers.
#![tactic(auto)]

#[cfg(test)]
mod rows;
