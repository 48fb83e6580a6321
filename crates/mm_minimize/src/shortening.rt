//! Shorter proofs of the theorems of a database, as they are judged.

ghost use Rattle.std.specs.Prelude.{◌≡◌, ◌↔◌, ◌<◌, ◌≤◌, List, ℕ, map, length, Contains, slice_get, true};
ghost use Rattle.std.specs.Prelude.{IsTrue, IfOk, IfErr, IfSome, Some, None, take};
ghost use Rattle.std.specs.Prelude.{MatchOption, OnOk};
ghost use Rattle.std.specs.List.{AllByRecursion};
ghost use Rattle.std.specs.Option.{option_to_list};
ghost use Rattle.mm_base.specs.Statement.{PlainStatement};
ghost use Rattle.mm_text.specs.Reading.{Reads};
ghost use Rattle.mm_frame.specs.Numbers.{labelled_sentences, AreNumbers};
ghost use Rattle.mm_frame.specs.Sentence.{Sentence};
ghost use Rattle.mm_step.specs.Steps.{IsProofNumber};
ghost use Rattle.mm_rules.specs.declared.ask.AskFault.TheVariants.{Memory};
ghost use Rattle.mm_rules.specs.Rests.{AreRising, IsAt};
ghost use Rattle.mm_render.specs.Shorter.{IsMinimized, IsMarkedWith, proof_mark};
ghost use Rattle.mm_rules.specs.Mirror.Marks.{UsedIn};
ghost use Rattle.mm_minimize.specs.Mirror.Shortening.{KnowsDatabase, AreNewlyUsed, IsAllowedIn};
ghost use Rattle.mm_minimize.specs.Mirror.Shortening.{IsSearchedFor};
ghost use Rattle.mm_minimize.specs.Remarks.{IsRemarkOf};
ghost use Rattle.mm_minimize.specs.Mirror.Shortening.{IsAllowedProof, IsUnmarkedIn};
ghost use Rattle.mm_render.specs.Mirror.Shortening.{IsOwnProof};
ghost use Rattle.mm_minimize.specs.Mirror.Shortening.{IsProvedAnew, IsFound, HaveOneCode, IsJustOne};
ghost use Rattle.mm_verdict.specs.Mirror.Theorems.{AreStepsOf, IsWholeProof};

use crate::library_search::LibrarySearch;
use crate::remarks::{Remark, may_use, remarks_of};
use crate::search::{OwnSize, Search};
use crate::search_watch::Searched;
use crate::sizes::Sizes;
use mm_axioms::{Tables, is_founded, tables};
use mm_frame::{Book, LabelId, Sym};
use mm_render::{Handed, OwnProof, handed_proof, own_proof};
use mm_rules::{AskFault, is_among};
use mm_shorten::Reach;
use mm_step::Used;
use mm_verdict::{Checked, Theorem};
use std::alloc::{AllocError, Global};

/// A database in which nothing is at fault, and what shorter proofs of its theorems have to heed.
#[derive(Drop)]
pub(crate) struct Shortening<'c, 'a> {
    pub checked: &'c Checked<'a>,
    remarks: Vec<Remark>,
    tables: Tables,
}

/// Another proof of a theorem, which is shorter than its own.
#[derive(Drop)]
pub struct Shorter {
    /// The theorem, with the steps of this proof.
    pub theorem: Theorem,
    /// The assertions of its tree.
    pub used: Used,
    /// Its small text, and how many steps it has where it is fully shared.
    pub proof: OwnProof,
    /// Whether it uses one assertion alone, the syntax aside.
    pub(crate) is_duplicate: bool,
}

/// The shortest proof of a theorem that is known.
#[derive(Drop)]
pub(crate) struct Minimized {
    /// Its small text.
    pub text: Vec<u8>,
    /// What the search for it came to.
    pub searched: Searched,
}

/// The type code of a labelled statement.
fn type_code(book: &Book, id: LabelId) -> Option<Sym>
    ensures { (s : Sentence)
        → slice_get (labelled_sentences book.now.statements) id.0 ≡ Some s
        → AreNumbers book.now.statements (map (λ n. n.0) (option_to_list result))
        (take 1 s.symbols) }
{
    book.expression(id).first().copied()
}

/// Whether two labelled statements have the same type code.
fn have_one_code(book: &Book, id: LabelId, other: LabelId) -> bool
    requires id { id.0 < length (labelled_sentences book.now.statements) }
    requires other { other.0 < length (labelled_sentences book.now.statements) }
    ensures { IsTrue result ↔ HaveOneCode book.now.statements id.0 other.0 }
{
    type_code(book, id) == type_code(book, other)
}

/// Whether just one of these assertions has the type code of the theorem.
fn is_by_one_alone(book: &Book, theorem: LabelId, used: &[LabelId]) -> bool
    requires theorem { theorem.0 < length (labelled_sentences book.now.statements) }
    requires used { AllByRecursion (λ n. n < length (labelled_sentences book.now.statements))
        (map (λ id. id.0) used.now) }
    requires rising { AreRising (map (λ id. id.0) used.now) }
    ensures { IsTrue result
        ↔ IsJustOne (HaveOneCode book.now.statements theorem.0) (map (λ id. id.0) used.now) }
{
    let mut some = false;
    for id in used {
        if have_one_code(book, theorem, *id) {
            if some {
                return false;
            }
            some = true;
        }
    }
    some
}

/// The shorter proof that was found; the theorem's own, where none was.
fn shortest(own: OwnProof, found: Option<Shorter>) -> Minimized
    ensures text { MatchOption found (result.text.items ≡ own.text.items)
        (λ new. result.text.items ≡ new.proof.text.items) }
    ensures searched { IsSearchedFor own found result.searched }
{
    match found {
        Some(new) => {
            let searched = Searched::Shorter {
                own: Sizes::of(&own),
                new: Sizes::of(&new.proof),
            };
            Minimized {
                text: new.proof.text,
                searched,
            }
        }
        None => Minimized {
            text: own.text,
            searched: Searched::NoneShorter,
        },
    }
}

/// Whether a proof is shorter than another: its text has fewer bytes, and it takes no more steps.
fn is_shorter(proof: &OwnProof, own: &OwnProof) -> bool
    ensures { IsTrue result ↔ ((length proof.now.text.items < length own.now.text.items)
        × (proof.now.steps ≤ own.now.steps)) }
{
    proof.text.len() < own.text.len() && proof.steps <= own.steps
}

impl<'c, 'a> Shortening<'c, 'a> {
    /// What is to be heeded in a database.
    pub fn new(alloc: Global, checked: &'c Checked<'a>) -> Result<Shortening<'c, 'a>, AskFault>
        ensures database { IfOk result (λ shortening. shortening.checked.now ≡ checked.now) }
        ensures known { IfOk result KnowsDatabase }
        ensures memory { IfErr result (λ fault. fault ≡ Memory) }
    {
        let remarks = remarks_of(alloc, checked)?;
        let tables = tables(alloc, &checked)?;
        Ok(Shortening {
            checked,
            remarks,
            tables,
        })
    }

    /// A search by what the database has before each theorem.
    pub fn search(&self, alloc: Global, reach: Reach) -> LibrarySearch<'_> {
        let checked = self.checked;
        LibrarySearch::new(alloc, &checked.book, &checked.kept, &self.remarks, reach)
    }

    /// The assertions that the proof of a theorem uses, in any order, each once or more; none for a
    /// number of which no proof is kept.
    fn uses_of(&self, theorem: LabelId) -> &'c [LabelId]
        ensures { (n : ℕ) → Contains (map (λ id. id.0) result.now) n
            ↔ UsedIn self.now.checked.now.uses theorem.0 n }
    {
        let checked = self.checked;
        checked.kept.used_by(theorem)
    }

    /// What is said of a labelled statement.
    fn remark(&self, id: LabelId) -> Remark
        requires known { KnowsDatabase self.now }
        requires within { id.0 < length (labelled_sentences self.now.checked.now.sentences) }
        ensures { (statements : List PlainStatement) → (index : ℕ) → (s : PlainStatement)
            → Reads self.now.checked.now.files statements None → IsAt statements id.0 index s
            → IsRemarkOf self.now.checked.now.files s result }
    {
        let checked = self.checked;
        let _files = checked.files;
        self.remarks[id.0 as usize]
    }

    /// Whether the proof of a theorem, which uses these, may use an assertion.
    fn is_allowed(&self, theorem: LabelId, uses: &[LabelId], used: LabelId) -> bool
        requires known { KnowsDatabase self.now }
        requires theorem { theorem.0
            < length (labelled_sentences self.now.checked.now.sentences) }
        requires uses { (n : ℕ) → Contains (map (λ id. id.0) uses.now) n
            ↔ UsedIn self.now.checked.now.uses theorem.0 n }
        requires used { used.0 < length (labelled_sentences self.now.checked.now.sentences) }
        ensures { IsTrue result → IsAllowedIn self.now.checked.now.files theorem.0 used.0 }
    {
        let checked = self.checked;
        let incomplete = &checked.incomplete;
        if is_among(uses, used) {
            return true;
        }
        if !is_founded(&self.tables, incomplete, theorem, used) {
            return false;
        }
        let own = self.remark(theorem);
        let other = self.remark(used);
        may_use(&own, &other)
    }

    /// Whether it may use all of these.
    fn are_allowed(&self, theorem: LabelId, used: &[LabelId]) -> bool
        requires known { KnowsDatabase self.now }
        requires theorem { theorem.0
            < length (labelled_sentences self.now.checked.now.sentences) }
        requires used { AllByRecursion
            (λ n. n < length (labelled_sentences self.now.checked.now.sentences))
            (map (λ id. id.0) used.now) }
        ensures { IsTrue result → (n : ℕ) → Contains (map (λ id. id.0) used.now) n
            → IsAllowedIn self.now.checked.now.files theorem.0 n }
    {
        let uses = self.uses_of(theorem);
        for id in used {
            if !self.is_allowed(theorem, uses, *id) {
                return false;
            }
        }
        true
    }

    /// The assertions among these, in their order, that the proof of a theorem doesn't use.
    pub(crate) fn newly_used(
        &self,
        alloc: Global,
        theorem: LabelId,
        used: &[LabelId],
    ) -> Result<Vec<LabelId>, AllocError>
        requires { AreRising (map (λ id. id.0) used.now) }
        ensures { IfOk result (λ newly. AreNewlyUsed self.now.checked.now.files theorem.0
            (map (λ id. id.0) used.now) (map (λ id. id.0) newly.items)) }
    {
        let checked = self.checked;
        let _files = checked.files;
        let uses = self.uses_of(theorem);
        let mut newly = Vec::new(alloc);
        for id in used {
            if !is_among(uses, *id) {
                newly.push(*id)?;
            }
        }
        Ok(newly)
    }

    /// Whether the proof of a theorem should stay as it is.
    fn is_settled(&self, theorem: LabelId) -> bool
        requires known { KnowsDatabase self.now }
        requires within { theorem.0
            < length (labelled_sentences self.now.checked.now.sentences) }
        ensures { (statements : List PlainStatement) → (index : ℕ) → (s : PlainStatement)
            → Reads self.now.checked.now.files statements None → IsAt statements theorem.0 index s
            → IsTrue result ↔ IsMarkedWith proof_mark self.now.checked.now.files s }
    {
        let remark = self.remark(theorem);
        remark.is_settled
    }

    /// A text as another proof of a theorem, where it is one and uses what it may use; else none.
    fn allowed_proof(
        &self,
        alloc: Global,
        id: LabelId,
        text: &[u8],
    ) -> Result<Option<Handed>, AllocError>
        requires known { KnowsDatabase self.now }
        requires proof { (index : ℕ) × (s : Sentence)
            × IsProofNumber self.now.checked.now.sentences id.0 index s }
        ensures { IfOk result (λ found. IfSome found
            (IsAllowedProof self.now.checked.now id.0)) }
    {
        let checked = self.checked;
        let Some(handed) = handed_proof(alloc, checked.profile, &checked.book, id, text)? else {
            return Ok(None);
        };
        if !self.are_allowed(id, handed.used.ids()) {
            return Ok(None);
        }
        Ok(Some(handed))
    }

    /// The proof of a theorem that a text is, where it may be put in place of its own and is
    /// shorter; else none.
    fn shorter(
        &self,
        alloc: Global,
        theorem: &Theorem,
        own: &OwnProof,
        text: &[u8],
    ) -> Result<Option<Shorter>, AllocError>
        requires known { KnowsDatabase self.now }
        requires theorem { IsWholeProof self.now.checked.now.sentences theorem.now.id.0
            theorem.now.steps }
        requires own { IsOwnProof self.now.checked.now.sentences theorem.now.id.0
            theorem.now.steps.moves own.now }
        requires unmarked { IsUnmarkedIn self.now.checked.now.files theorem.now.id.0 }
        ensures anew { IfOk result (λ found. IfSome found (IsProvedAnew
            self.now.checked.now.profile self.now.checked.now.sentences theorem.now)) }
        ensures found { IfOk result (λ found. IfSome found (λ new. (label : List ℕ)
            → (statements : List PlainStatement)
            → Reads self.now.checked.now.files statements None
            → AreStepsOf statements label theorem.now.id.0 theorem.now.steps.moves
            → IsFound self.now.checked.now.profile self.now.checked.now.files statements label
            theorem.now own.now new)) }
    {
        let checked = self.checked;
        let Some(handed) = self.allowed_proof(alloc, theorem.id, text)? else {
            return Ok(None);
        };
        let Handed { steps, used } = handed;
        let other = Theorem {
            id: theorem.id,
            steps,
            file: theorem.file,
            span: theorem.span,
        };
        let proof = own_proof(alloc, &checked.book, &other)?;
        if !is_shorter(&proof, own) {
            return Ok(None);
        }
        let is_duplicate = is_by_one_alone(&checked.book, other.id, used.ids());
        Ok(Some(Shorter {
            theorem: other,
            used,
            proof,
            is_duplicate,
        }))
    }

    /// The shorter proof of a theorem that a search finds, where it finds one.
    pub fn found<S: Search>(
        &self,
        alloc: Global,
        theorem: &Theorem,
        own: &OwnProof,
        search: &mut S,
    ) -> Result<Option<Shorter>, AllocError>
        requires known { KnowsDatabase self.now }
        requires theorem { IsWholeProof self.now.checked.now.sentences theorem.now.id.0
            theorem.now.steps }
        requires own { IsOwnProof self.now.checked.now.sentences theorem.now.id.0
            theorem.now.steps.moves own.now }
        ensures anew { IfOk result (λ found. IfSome found (IsProvedAnew
            self.now.checked.now.profile self.now.checked.now.sentences theorem.now)) }
        ensures found { IfOk result (λ found. IfSome found (λ new. (label : List ℕ)
            → (statements : List PlainStatement)
            → Reads self.now.checked.now.files statements None
            → AreStepsOf statements label theorem.now.id.0 theorem.now.steps.moves
            → IsFound self.now.checked.now.profile self.now.checked.now.files statements label
            theorem.now own.now new)) }
        ensures whole { S.is_whole search.old → OnOk result (S.is_whole search.new) }
    {
        if self.is_settled(theorem.id) {
            return Ok(None);
        }
        let size = OwnSize {
            letters: own.letters,
            steps: own.steps,
        };
        let checked = self.checked;
        let book = &checked.book;
        let Some(text) = search.candidate(alloc, book, theorem.id, &theorem.steps, size)? else {
            return Ok(None);
        };
        self.shorter(alloc, theorem, own, &text)
    }

    /// The shortest proof of a theorem that is known: its own, or one that a search finds.
    pub(crate) fn minimized<S: Search>(
        &self,
        alloc: Global,
        theorem: &Theorem,
        search: &mut S,
    ) -> Result<Minimized, AllocError>
        requires known { KnowsDatabase self.now }
        requires theorem { IsWholeProof self.now.checked.now.sentences theorem.now.id.0
            theorem.now.steps }
        ensures text { IfOk result (λ found. (label : List ℕ) → (statements : List PlainStatement)
            → Reads self.now.checked.now.files statements None
            → AreStepsOf statements label theorem.now.id.0 theorem.now.steps.moves
            → IsMinimized self.now.checked.now.profile self.now.checked.now.files statements
            label found.text.items) }
        ensures whole { S.is_whole search.old → OnOk result (S.is_whole search.new) }
    {
        let checked = self.checked;
        let own = own_proof(alloc, &checked.book, theorem)?;
        let found = self.found(alloc, theorem, &own, search)?;
        Ok(shortest(own, found))
    }
}
