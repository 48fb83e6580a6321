//! One happy path of each public call of the crates, faults that name a position, and devices that
//! fail. They stand here and not in their crates, so that the gate proves each crate once.

mod check;
mod devices;
mod diff;
mod find;
mod growths;
mod lemmas;
mod mend;
mod near;
mod profiles;
mod save;
mod shorter;
mod stated;
