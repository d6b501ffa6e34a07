//! Device ends in memory behind a link, whose bytes were worked out by hand.
#![tactic(auto)]

#[cfg(test)]
mod timers;
