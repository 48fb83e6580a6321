//! Taking a `$d` in: the pairs of its members are gathered before anything is written. A `$d` of
//! many variables has too many pairs, and is kept as it is.

ghost use Rattle.std.specs.Prelude.{◌≡◌, ◌+◌, ◌<◌, ◌≤◌, ◌++◌, None, IfOk, OnErr, OnOk, length, map};
ghost use Rattle.mm_base.specs.declared.statement.Kind.TheVariants.{Distinct};
ghost use Rattle.mm_base.specs.MostBytes.{most_bytes};
ghost use Rattle.mm_frame.specs.Sentence.{Sentence};
ghost use Rattle.mm_frame.specs.Rules.{IsMeant};
ghost use Rattle.mm_frame.specs.Numbers.{AreNumbers};
ghost use Rattle.mm_frame.specs.Form.{IsFormedSentence};
ghost use Rattle.mm_frame.specs.Mirror.Layout.{AreTables, statements_of};
ghost use Rattle.mm_frame.specs.Mirror.Grows.{Grows, HaveRoom, IsSame};
ghost use Rattle.mm_frame.specs.Mirror.Separated.{ArePaired, EntersMembers, stated_at};
ghost use Rattle.mm_frame.specs.Mirror.ScopesOf.{CanTake};
ghost use Rattle.mm_frame.specs.Mirror.Wide.{EndWithActive, IsNewWide, NoneFrom};
ghost use Rattle.mm_frame.specs.Active.{IsActive};
ghost use Rattle.mm_frame.specs.declared.answer.Taken.TheVariants.{Declared};

use crate::answer::Taken;
use crate::number::Sym;
use crate::pairs::{Pairs, in_order};
use crate::tables::Tables;
use crate::wide::{WideDistinct, numbers_in_order};
use mm_base::Kind;
use std::alloc::AllocError;

// A `$d` of so many variables at most is kept as its pairs, which are found sooner. Databases that
// people write have no greater one.
const MOST_PAIRED: usize = 64;

// Notes that a `$d` at an index states some pairs.
fn state(distinct: &mut Pairs, pairs: &[(u32, u32)], index: usize)
    requires room { length pairs.now ≤ distinct.old.room }
    requires index { index < 4294967296 }
    ensures { distinct.new.stated ≡ record {
      pairs = distinct.old.stated.pairs ++ map (stated_at index) pairs.now;
      wide = distinct.old.stated.wide;
    } }
{
    for pair in pairs {
        distinct.add(*pair, index);
    }
}

impl<'a> Tables<'a> {
    // Gathers the pairs of one member of a `$d` with those before it that aren't distinct already.
    fn gather(
        &self,
        pairs: &mut Vec<(u32, u32)>,
        members: &[Sym],
        i: usize,
    ) -> Result<(), AllocError>
        requires tables { AreTables self.now }
        requires within { i < length members.now }
        requires pairs { ArePaired (statements_of self.now) members.now i 0 pairs.old.items }
        ensures { OnOk result
            (ArePaired (statements_of self.now) members.now (i + 1) 0 pairs.new.items) }
    {
        for j in 0..i {
            if !self.is_distinct(members[i], members[j], self.log.len()) {
                pairs.push(in_order(members[i].0, members[j].0))?;
            }
        }
        Ok(())
    }

    // The pairs of a `$d`'s members that aren't distinct already.
    fn new_pairs(&self, members: &[Sym]) -> Result<Vec<(u32, u32)>, AllocError>
        requires { AreTables self.now }
        ensures { IfOk result (λ pairs.
            ArePaired (statements_of self.now) members.now (length members.now) 0 pairs.items) }
    {
        let mut pairs = Vec::new(self.alloc);
        for i in 0..members.len() {
            self.gather(&mut pairs, members, i)?;
        }
        Ok(pairs)
    }

    // How many `$d` of many variables there are up to the latest that is active.
    fn active_wide(&self) -> usize
        requires { AreTables self.now }
        ensures within { result ≤ length self.now.distinct.stated.wide }
        ensures latest { EndWithActive
            (statements_of self.now) self.now.distinct.stated.wide result }
        ensures passed { NoneFrom
            (λ w. IsActive (statements_of self.now) w.index) self.now.distinct.stated.wide result }
    {
        let wide = self.distinct.wide();
        let at = self.log.len();
        let mut left = wide.len();
        for _ in 0..wide.len() {
            if left == 0 {
                return 0;
            }
            let last = &wide[left - 1];
            if self.scopes.is_active(last.index, at) {
                return left;
            }
            left = last.older;
        }
        left
    }

    // What is kept of a `$d` of many variables.
    fn new_wide(&self, members: &[Sym]) -> Result<WideDistinct, AllocError>
        requires { AreTables self.now }
        ensures { IfOk result (IsNewWide
            (statements_of self.now) self.now.distinct.stated.wide members.now) }
    {
        let numbers = numbers_in_order(self.alloc, members)?;
        Ok(WideDistinct {
            index: self.log.len(),
            members: numbers,
            older: self.active_wide(),
        })
    }

    // Writes the entry of a `$d`, for which there is room, and its members.
    fn enter_members(&mut self, members: &[Sym], bytes: u64) -> Taken
        requires room { HaveRoom self.old (length members.now) }
        requires scopes { CanTake Distinct self.old.scopes }
        requires few { self.old.bytes + bytes ≤ most_bytes }
        ensures taken { result ≡ Declared }
        ensures entered { EntersMembers self.old self.new members.now bytes }
    {
        let start = self.flat.len() as u32;
        let _ = self.flat.extend_from_slice(members);
        self.enter(Kind::Distinct, None, start, bytes);
        Taken::Declared
    }

    // Takes a `$d` in, by the pairs of its members.
    fn separate_pairs(&mut self, numbers: &[Sym], bytes: u64) -> Result<Taken, AllocError>
        requires tables { AreTables self.old }
        requires room { self.old.bytes + bytes ≤ most_bytes }
        requires enough { 1 + length numbers.now ≤ bytes }
        ensures ok { IfOk result (λ taken. (taken ≡ Declared) × ((s : Sentence)
            → s.kind ≡ Distinct → s.label ≡ None
            → AreNumbers (statements_of self.old) (map (λ n. n.0) numbers.now) s.symbols
            → IsMeant (statements_of self.old) s → IsFormedSentence s
            → Grows self.old self.new s bytes)) }
        ensures err { OnErr result (IsSame self.old self.new) }
    {
        let pairs = self.new_pairs(numbers)?;
        self.reserve(numbers.len())?;
        self.distinct.reserve(pairs.len())?;
        let index = self.log.len();
        state(&mut self.distinct, &pairs, index);
        Ok(self.enter_members(numbers, bytes))
    }

    // Takes a `$d` of many variables in.
    fn separate_wide(&mut self, numbers: &[Sym], bytes: u64) -> Result<Taken, AllocError>
        requires tables { AreTables self.old }
        requires room { self.old.bytes + bytes ≤ most_bytes }
        requires enough { 1 + length numbers.now ≤ bytes }
        ensures ok { IfOk result (λ taken. (taken ≡ Declared) × ((s : Sentence)
            → s.kind ≡ Distinct → s.label ≡ None
            → AreNumbers (statements_of self.old) (map (λ n. n.0) numbers.now) s.symbols
            → IsMeant (statements_of self.old) s → IsFormedSentence s
            → Grows self.old self.new s bytes)) }
        ensures err { OnErr result (IsSame self.old self.new) }
    {
        let wide = self.new_wide(numbers)?;
        self.reserve(numbers.len())?;
        self.distinct.widen(wide)?;
        Ok(self.enter_members(numbers, bytes))
    }

    // Takes a `$d` in, by the numbers of its members.
    pub(crate) fn separate_all(&mut self, numbers: &[Sym], bytes: u64) -> Result<Taken, AllocError>
        requires tables { AreTables self.old }
        requires room { self.old.bytes + bytes ≤ most_bytes }
        requires enough { 1 + length numbers.now ≤ bytes }
        ensures ok { IfOk result (λ taken. (taken ≡ Declared) × ((s : Sentence)
            → s.kind ≡ Distinct → s.label ≡ None
            → AreNumbers (statements_of self.old) (map (λ n. n.0) numbers.now) s.symbols
            → IsMeant (statements_of self.old) s → IsFormedSentence s
            → Grows self.old self.new s bytes)) }
        ensures err { OnErr result (IsSame self.old self.new) }
    {
        if numbers.len() <= MOST_PAIRED {
            self.separate_pairs(numbers, bytes)
        } else {
            self.separate_wide(numbers, bytes)
        }
    }
}
