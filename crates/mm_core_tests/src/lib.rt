//! The tests of the crates from `mm_base` to `mm_shorten`: one path of each public call, with
//! faults that name a position and devices that fail. They stand apart from those of the commands,
//! so that a change of a reply proves none of them again.
//!
//! Others take from here the databases that cases build on (`databases`, `doublings`), and a writer
//! that fails (`failing`).
#![tactic(auto)]

#[cfg(test)]
mod code;
pub mod databases;
pub mod doublings;
pub mod failing;
#[cfg(test)]
mod frame;
#[cfg(test)]
mod growths;
#[cfg(test)]
mod included;
#[cfg(test)]
mod load;
#[cfg(test)]
mod proof;
#[cfg(test)]
mod remarks;
#[cfg(test)]
mod text;
