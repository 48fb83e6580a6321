//! The types of variables, by their names.

ghost use Rattle.std.specs.Prelude.{◌≡◌, ◌↔◌, ◌++◌, ◌∷◌, [], List, OnOk, IsTrue};
ghost use Rattle.std.specs.Prelude.{map, option_map};
ghost use Rattle.mm_base.specs.Token.{plain_token};
ghost use Rattle.std.specs.Str.{bytes_eq};
ghost use Rattle.std.specs.Cmp.Rules.{comparing, hashing};
ghost use Rattle.std.proofs.Common.{rules};
ghost use Rattle.mm_base.specs.declared.statement.Kind.TheVariants.{Floating};
ghost use Rattle.mm_frame.specs.Rules.{IsMeant};
ghost use Rattle.mm_frame.specs.Sentence.{Sentence, sentence_in};
ghost use Rattle.mm_find.specs.Variant.{AreTypeCodes, ShareType};
ghost use Rattle.mm_find.specs.Mirror.Types.{type_in};

use indexmap::IndexMap;
use mm_base::{Kind, Seed, Statement, Token};
use std::alloc::{AllocError, Global};
use std::hash::{Hash, Hasher};

/// A name, which is hashed by one write of its bytes.
#[derive(Clone, Copy)]
pub(crate) struct Name<'a>(&'a [u8]);

impl<'a> PartialEq for Name<'a> {
    ghost eq = { λ a b. bytes_eq a.0.now b.0.now };

    ghost laws = { Prim.search (comparing, rules) };

    fn eq(&self, other: &Name<'a>) -> bool {
        self.0 == other.0
    }
}

impl<'a> Eq for Name<'a> {
    ghost laws = { Prim.search (comparing, rules) };
}

impl<'a> Hash for Name<'a> {
    ghost hash_input = { λ a. a.0.now ∷ [] };

    ghost respects_eq = { Prim.search (hashing, rules) };

    fn hash<H: Hasher>(&self, state: &mut H) {
        state.write(self.0);
    }
}

/// The type codes of the variables of the `$f` that were noted.
#[derive(Drop)]
pub(crate) struct Types<'a> {
    codes: IndexMap<Name<'a>, &'a [u8], Seed>,
}

impl<'a> Types<'a> {
    /// No types, whose variables' hashes begin from the seed. It takes no memory.
    pub(crate) fn new(alloc: Global, seed: Seed) -> Types<'a>
        ensures { AreTypeCodes [] (type_in result) }
    {
        Types {
            codes: IndexMap::with_hasher(alloc, seed),
        }
    }

    // Notes that the first of two symbols is the type code of the second, a variable. Of another
    // count of symbols nothing is noted.
    fn note_typing(&mut self, symbols: &[Token<'a>]) -> Result<(), AllocError>
        ensures { OnOk result ((before : List Sentence) (s : Sentence)
            → AreTypeCodes before (type_in self.old) → IsMeant before s → s.kind ≡ Floating
            → s.symbols ≡ map (λ t. t.text) (map plain_token symbols.now)
            → AreTypeCodes (before ++ s ∷ []) (type_in self.new)) }
    {
        match symbols {
            [code, variable] => {
                self.codes.insert(Name(variable.text), code.text)?;
                Ok(())
            }
            _ => Ok(()),
        }
    }

    /// Notes the type of the variable, if the statement is a `$f`. Each other `$f` of the variable
    /// gives it the same, by rule M13.
    pub(crate) fn note(&mut self, statement: &Statement<'a>) -> Result<(), AllocError>
        ensures { OnOk result ((before : List Sentence) → AreTypeCodes before (type_in self.old)
            → IsMeant before (sentence_in statement.now)
            → AreTypeCodes (before ++ sentence_in statement.now ∷ []) (type_in self.new)) }
    {
        match statement.kind {
            Kind::Floating => self.note_typing(&statement.symbols),
            _ => Ok(()),
        }
    }

    // The type code of a symbol, if it is a variable that has one.
    fn code(&self, symbol: &[u8]) -> Option<&'a [u8]>
        ensures { option_map (λ code. code.now) result ≡ type_in self.now symbol.now }
    {
        match self.codes.get(&Name(symbol)) {
            Some(code) => Some(*code),
            None => None,
        }
    }

    /// Whether both are variables, and have one type code.
    pub(crate) fn share_type(&self, one: &[u8], other: &[u8]) -> bool
        ensures { IsTrue result ↔ ShareType (type_in self.now) one.now other.now }
    {
        let Some(code) = self.code(one) else {
            return false;
        };
        match self.code(other) {
            Some(same) => code == same,
            None => false,
        }
    }
}
