//! The `$d` of many variables, each kept as it is written: of its pairs there would be as many as
//! the square of its length.

ghost use Rattle.std.specs.Prelude.{◌↔◌, Contains, IfOk, IsTrue, map};
ghost use Rattle.std.specs.List.Sorted.{IsNonDecreasing, IsPermutation};

use crate::number::Sym;
use std::alloc::{AllocError, Global};

/// A `$d` of many variables.
#[derive(Drop)]
pub struct WideDistinct {
    /// Its index.
    pub(crate) index: usize,
    /// The numbers of its variables, in order.
    pub(crate) members: Vec<u32>,
    /// How many `$d` of many variables there are up to the latest one before it that is active
    /// where it stands.
    pub(crate) older: usize,
}

/// The numbers of some symbols, in order.
pub(crate) fn numbers_in_order(alloc: Global, symbols: &[Sym]) -> Result<Vec<u32>, AllocError>
    ensures among { IfOk result (λ numbers.
        IsPermutation (map (λ n. n.0) symbols.now) numbers.items) }
    ensures sorted { IfOk result (λ numbers. IsNonDecreasing numbers.items) }
{
    let mut numbers = Vec::with_capacity(alloc, symbols.len())?;
    for symbol in symbols {
        numbers.push(symbol.0)?;
    }
    numbers.sort_unstable();
    Ok(numbers)
}

// Whether a number is among numbers that are in order.
fn is_among(numbers: &[u32], number: u32) -> bool
    requires { IsNonDecreasing numbers.now }
    ensures { IsTrue result ↔ Contains numbers.now number }
{
    numbers.binary_search(&number).is_ok()
}

/// Whether two numbers are among numbers that are in order.
pub(crate) fn are_among(numbers: &[u32], a: u32, b: u32) -> bool
    requires { IsNonDecreasing numbers.now }
    ensures { IsTrue result ↔ (Contains numbers.now a × Contains numbers.now b) }
{
    is_among(numbers, a) && is_among(numbers, b)
}
