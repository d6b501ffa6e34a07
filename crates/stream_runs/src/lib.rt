//! Packets by hand, and streams of them, however they are cut, over a link too.
#![tactic(auto)]

#[cfg(test)]
mod accesses;
#[cfg(test)]
mod streams;
