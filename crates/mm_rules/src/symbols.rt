//! The symbols of an expression, as words.

ghost use Rattle.std.specs.Prelude.{◌≡◌, ◌<◌, ◌++◌, length, OnOk};
ghost use Rattle.std.specs.List.{AllByRecursion};
ghost use Rattle.mm_frame.specs.Numbers.{symbols_of};
ghost use Rattle.mm_step.specs.Stores.{numbers_in};
ghost use Rattle.mm_rules.specs.Answer.{labels_at};
ghost use Rattle.mm_rules.specs.Shown.{symbols_text};

use crate::words::push_word;
use mm_frame::{Book, Sym};
use std::alloc::AllocError;

/// Appends a space and the symbol, for each of these symbols.
#[tactic(auto, using(crate::proofs::SymbolWords::symbol_steps))]
pub fn push_symbols(out: &mut Vec<u8>, book: &Book, symbols: &[Sym]) -> Result<(), AllocError>
    requires { AllByRecursion (λ n. n < length (symbols_of book.now.statements))
        (numbers_in symbols.now) }
    ensures { OnOk result (out.new.items ≡ out.old.items
        ++ symbols_text (labels_at (symbols_of book.now.statements) (numbers_in symbols.now))) }
{
    for symbol in symbols {
        push_word(out, book.name(*symbol))?;
    }
    Ok(())
}
