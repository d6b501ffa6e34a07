//! Worked runs of the direct machine and of its parts: what the built program doesn't reach.
#![tactic(auto)]

#[cfg(test)]
mod bus;
#[cfg(test)]
mod calls;
#[cfg(test)]
mod configurations;
#[cfg(test)]
mod devices;
#[cfg(test)]
mod moments;
#[cfg(test)]
mod ram;
#[cfg(test)]
mod scripts;
#[cfg(test)]
mod transcripts;
