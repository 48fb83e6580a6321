//! A position in the files, from which the next item is taken.

ghost use Rattle.std.specs.Prelude.{◌≡◌, map};
ghost use Rattle.mm_text.specs.Files.{plain_file};
ghost use Rattle.mm_text.specs.Mirror.Next.{TakesItem, TakesWord, IsFirstCursor};

use crate::fault::{LoadRule, TextFault};
use crate::handed::is_within_limit;
use crate::names::Names;
use crate::nest::Nest;
use crate::next::Next;
use mm_base::{File, Seed, Token};
use std::alloc::Global;
use std::marker::Model;

/// The position up to which the files were read. Contracts see what is left: its items.
#[derive(Drop)]
pub struct Cursor<'a> {
    nest: Nest<'a>,
}

impl<'a> Model for Cursor<'a> {
    ghost use Rattle.std.specs.Prelude.{List};
    ghost use Rattle.mm_text.specs.Items.{Item};

    ghost Value = { List Item };

    ghost use Rattle.mm_text.specs.Mirror.Nest.{IsNest, items_left};

    ghost view = { λ c. items_left c.nest };

    ghost invariant = { λ c. IsNest c.nest };
}

impl<'a> Cursor<'a> {
    /// The beginning of the handed files, of which the first is the top file.
    ///
    /// The files are judged as a whole first, in this order: `Load(F1)` where there is none,
    /// `Load(F2)` where two have one name, `Load(F3)` where they hold over 1,073,741,824 bytes in
    /// all. Else `Memory` alone can be wanting: for their names, and for those that are open at
    /// once.
    #[tactic(auto, using(crate::proofs::Reader::OneToken::handed_steps))]
    pub fn new(
        alloc: Global,
        seed: Seed,
        files: &'a [File<'a>],
    ) -> Result<Cursor<'a>, TextFault<'a>>
        ensures { IsFirstCursor (map plain_file files.now) result }
    {
        if files.is_empty() {
            return Err(TextFault::Load(LoadRule::F1));
        }
        let names = Names::of(alloc, seed, files)?;
        if !is_within_limit(files) {
            return Err(TextFault::Load(LoadRule::F3));
        }
        let nest = Nest::begin(alloc, files, names)?;
        Ok(Cursor { nest })
    }

    /// Takes the next item where it is a word that is told at once; else takes nothing, and `next`
    /// tells what comes. Most items are words.
    #[inline(always)]
    pub fn word(&mut self) -> Option<Token<'a>>
        ensures { TakesWord self.old result self.new }
    {
        self.nest.word()
    }

    /// Takes the next item. It takes no memory.
    #[inline(always)]
    pub fn next(&mut self) -> Next<'a>
        ensures { TakesItem self.old result self.new }
    {
        self.nest.next()
    }
}
