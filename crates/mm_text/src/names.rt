//! The names of the handed files, and the numbers that they stand for.

ghost use Rattle.std.specs.Prelude.{◌≡◌, map, ◌∷◌, []};
ghost use Rattle.std.specs.Str.{bytes_eq};
ghost use Rattle.std.specs.Cmp.Rules.{comparing, hashing};
ghost use Rattle.std.proofs.Common.{rules};
ghost use Rattle.mm_text.specs.Files.{plain_file};
ghost use Rattle.mm_text.specs.Mirror.Names.{number_among, AreNames};

use crate::fault::{LoadRule, TextFault};
use indexmap::IndexSet;
use mm_base::{File, Seed};
use std::alloc::Global;
use std::hash::{Hash, Hasher};
use std::marker::Model;

/// A name, which is hashed by one write of its bytes.
#[derive(Clone, Copy)]
struct Name<'a>(&'a [u8]);

impl<'a> PartialEq for Name<'a> {
    ghost eq = { λ a b. bytes_eq a.0.now b.0.now };

    ghost laws = { Prim.search (comparing, rules) };

    fn eq(&self, other: &Name<'a>) -> bool {
        self.0 == other.0
    }
}

impl<'a> Eq for Name<'a> {
    ghost laws = { Prim.search (comparing, rules) };
}

impl<'a> Hash for Name<'a> {
    ghost hash_input = { λ a. a.0.now ∷ [] };

    ghost respects_eq = { Prim.search (hashing, rules) };

    fn hash<H: Hasher>(&self, state: &mut H) {
        state.write(self.0);
    }
}

/// The names of the handed files in their order, no two of them equal. Contracts see a list.
#[derive(Drop)]
pub struct Names<'a> {
    numbers: IndexSet<Name<'a>, Seed>,
}

impl<'a> Model for Names<'a> {
    ghost use Rattle.std.specs.Prelude.{ℕ, List, map};

    ghost Value = { List (List ℕ) };

    ghost view = { λ s. map (λ n. n.0.now) s.numbers.keys };
}

impl<'a> Names<'a> {
    /// The names of the files. `Load(F2)` where two are equal; else `Memory` alone can be wanting.
    pub fn of(alloc: Global, seed: Seed, files: &'a [File<'a>]) -> Result<Names<'a>, TextFault<'a>>
        ensures { AreNames (map plain_file files.now) result }
    {
        let mut numbers = IndexSet::with_hasher(alloc, seed);
        for file in files {
            let (_, is_new) = numbers.insert_full(Name(file.name))?;
            if !is_new {
                return Err(TextFault::Load(LoadRule::F2));
            }
        }
        Ok(Names { numbers })
    }

    /// The number of the file with a name; none where no file has it.
    pub fn number(&self, name: &[u8]) -> Option<usize>
        ensures { result ≡ number_among self.now name.now }
    {
        self.numbers.get_index_of(&Name(name))
    }
}
