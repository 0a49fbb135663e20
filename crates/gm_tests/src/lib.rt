//! Tests of public calls whose proof is short: vectors and worked cases from the protocol. It holds nothing else. The
//! others are in tests/tried, and aren't proved.
#![tactic(auto)]

#[cfg(test)]
mod checks;
#[cfg(test)]
mod conns;
#[cfg(test)]
mod packets;
#[cfg(test)]
mod settings;
