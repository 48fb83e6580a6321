//! A database in which nothing is at fault.

ghost use Rattle.std.specs.Prelude.{◌≡◌, ◌<◌, ◌↔◌, List, [], map, length, slice_get};
ghost use Rattle.std.specs.Prelude.{true, Some, None, IsTrue, IfOk, IfErr, ℕ};
ghost use Rattle.mm_rules.specs.declared.ask.AskFault.TheVariants.{Memory};
ghost use Rattle.std.specs.List.{AllByRecursion};

use crate::reread::reread;
use crate::theorem::{Theorem, read_theorem};
use mm_base::{File, Statement};
use mm_frame::{Book, Found, LabelId, LabelKind};
use mm_proof::StepsReader;
use mm_rules::{AskFault, AskRule, Kept, Progress, is_among};
use mm_step::Profile;
use mm_text::Statements;
use std::alloc::Global;
use std::marker::Model;

/// A database in which nothing is at fault: each statement obeys the rules of a profile, and each
/// proof that isn't incomplete is accepted.
#[derive(Drop)]
pub struct Checked<'a> {
    pub profile: Profile,
    pub files: &'a [File<'a>],
    pub book: Book<'a>,
    statements: usize,
    proofs: usize,
    pub incomplete: Vec<LabelId>,
    pub kept: Kept,
}

impl<'a> Model for Checked<'a> {
    ghost use Rattle.std.specs.Prelude.{map};
    ghost use Rattle.mm_text.specs.Files.{plain_file};
    ghost use Rattle.mm_rules.specs.Conclusion.{Conclusion, labels_in};
    ghost use Rattle.mm_rules.specs.Mirror.Marks.{IsKeptWell};

    ghost Value = { Conclusion };

    ghost view = { λ c. record {
      profile = c.profile;
      files = map plain_file c.files.now;
      statements = c.statements;
      proofs = c.proofs;
      incomplete = map (λ id. id.0) c.incomplete.items;
      labels = labels_in c.book.statements;
      sentences = c.book.statements;
      uses = c.kept;
    } };

    // The statements of the files are accepted, and this is kept of them. Each number is that of a
    // label; what comes later in the database has a greater one.
    ghost invariant = { λ c. IsKeptWell c.profile (map plain_file c.files.now)
        c.book.statements (map (λ id. id.0) c.incomplete.items) c.kept };
}

impl<'a> Checked<'a> {
    ghost use Rattle.mm_base.specs.Statement.{PlainStatement};
    ghost use Rattle.mm_text.specs.Files.{plain_file};
    ghost use Rattle.mm_text.specs.Reading.{Reads};
    ghost use Rattle.mm_frame.specs.Numbers.{labelled_sentences};
    ghost use Rattle.mm_frame.specs.Form.{IsSound};
    ghost use Rattle.mm_rules.specs.Conclusion.{labels_in};
    ghost use Rattle.mm_rules.specs.Mirror.Marks.{IsKeptWell};
    ghost use Rattle.mm_rules.specs.Verdict.{is_proof, sentences};
    ghost use Rattle.mm_rules.specs.Rests.{IsNamed, IsAskFault};
    ghost use Rattle.mm_rules.specs.Rests.{IsNumberWhere};
    ghost use Rattle.mm_verdict.specs.Mirror.Theorems.{AreStepsOf, IsWholeProof};
    ghost use Rattle.mm_rules.specs.Answer.{IsKeptOf};
    ghost use Rattle.mm_verdict.specs.Stated.{IsStatementFault};
    ghost use Rattle.mm_verdict.specs.Mirror.Rewriting.{IsHomeOf};
    ghost use Rattle.mm_verdict.specs.Mirror.Rereading.{IsTheoremIn, label_count};
    ghost use Rattle.mm_text.specs.Remaining.{IsUnread};
    ghost use Rattle.mm_base.specs.Statement.{plain_statement};
    ghost use Rattle.mm_frame.specs.Sentence.{sentence_in, IsLabelled};

    /// What the progress over the files has come to in the profile, once nothing is left.
    pub fn new(profile: Profile, files: &'a [File<'a>], progress: Progress<'a>) -> Checked<'a>
        requires { IsKeptWell profile (map plain_file files.now)
            progress.prover.book.statements (map (λ id. id.0) progress.incomplete.items)
            progress.kept }
        ensures profile { result.profile ≡ profile }
        ensures files { result.files ≡ map plain_file files.now }
        ensures statements { result.statements ≡ progress.entry.count }
        ensures proofs { result.proofs ≡ progress.entry.proofs }
        ensures incomplete { result.incomplete ≡ map (λ id. id.0) progress.entry.incomplete.items }
        ensures labels { result.labels ≡ labels_in progress.entry.prover.book.statements }
        ensures sentences { result.sentences ≡ progress.entry.prover.book.statements }
        ensures uses { result.uses ≡ progress.entry.kept }
    {
        Checked {
            profile,
            files,
            book: progress.prover.into_book(),
            statements: progress.count,
            proofs: progress.proofs,
            incomplete: progress.incomplete,
            kept: progress.kept,
        }
    }

    /// Whether no proof is incomplete, so that the answer is yes.
    pub fn is_complete(&self) -> bool
        ensures { IsTrue result ↔ (self.now.incomplete ≡ []) }
    {
        self.incomplete.is_empty()
    }

    /// The incomplete `$p`, in database order.
    pub fn incomplete(&self) -> &[LabelId]
        ensures numbers { map (λ id. id.0) result.now ≡ self.now.incomplete }
        ensures in_range { AllByRecursion (λ n. n < length self.now.labels) self.now.incomplete }
    {
        &self.incomplete
    }

    /// How many statements the database has, `${` and `$}` counted.
    pub fn statements(&self) -> usize
        ensures { result ≡ self.now.statements }
    {
        self.statements
    }

    /// How many of its `$p` are accepted.
    pub fn proofs(&self) -> usize
        ensures { result ≡ self.now.proofs }
    {
        self.proofs
    }

    /// The label of a labelled statement, for a number that this value gave.
    pub fn name(&self, id: LabelId) -> &'a [u8]
        requires { id.0 < length self.now.labels }
        ensures { slice_get self.now.labels id.0 ≡ Some result.now }
    {
        self.book.label(id)
    }

    /// The number of the `$p` with a complete proof that has this label.
    pub fn theorem(&self, label: &[u8]) -> Result<LabelId, AskFault>
        ensures within { IfOk result (λ id. id.0 < length (labelled_sentences self.now.sentences)) }
        ensures found { IfOk result (λ id. (statements : List PlainStatement)
            → IsKeptOf statements self.now
            → IsNamed statements label.now (λ s. is_proof s ≡ true) id.0) }
        ensures fault { IfErr result (λ fault. (statements : List PlainStatement)
            → IsKeptOf statements self.now → IsAskFault statements label.now fault) }
        ensures sound { IsSound self.now.sentences }
    {
        match self.book.find(label) {
            Found::None => Err(AskFault::Rule(AskRule::A1)),
            Found::Hypothesis { .. } => Err(AskFault::Rule(AskRule::A2)),
            Found::Assertion(id) => match self.book.kind(id) {
                LabelKind::Proof if is_among(&self.incomplete, id) => Err(AskFault::Rule(
                    AskRule::A3,
                )),
                LabelKind::Proof => Ok(id),
                _ => Err(AskFault::Rule(AskRule::A2)),
            },
        }
    }

    /// The number of the statement that has this label.
    pub fn labelled(&self, label: &[u8]) -> Result<LabelId, AskFault>
        ensures within { IfOk result (λ id. id.0 < length (labelled_sentences self.now.sentences)) }
        ensures found { IfOk result (λ id. (statements : List PlainStatement)
            → IsKeptOf statements self.now
            → IsNamed statements label.now (λ s. Unit {0}) id.0) }
        ensures fault { IfErr result (λ fault. (statements : List PlainStatement)
            → IsKeptOf statements self.now → IsStatementFault statements label.now fault) }
        ensures sound { IsSound self.now.sentences }
    {
        let id = match self.book.find(label) {
            Found::Assertion(id) => id,
            Found::Hypothesis { id, .. } => id,
            Found::None => return Err(AskFault::Rule(AskRule::A1)),
        };
        Ok(id)
    }

    /// The `$p` with this label, and the steps of its proof. No proof is kept by `check`, so the
    /// files are read again up to the `$p`.
    pub fn read_theorem(&self, alloc: Global, label: &[u8]) -> Result<Theorem, AskFault>
        ensures theorem { IfOk result (λ theorem.
            IsWholeProof self.now.sentences theorem.id.0 theorem.steps) }
        ensures read { IfOk result (λ theorem. (statements : List PlainStatement)
            → Reads self.now.files statements None
            → (self.now.sentences ≡ sentences statements)
            × AreStepsOf statements label.now theorem.id.0 theorem.steps.moves) }
        ensures home { IfOk result (λ theorem. (statements : List PlainStatement)
            → Reads self.now.files statements None
            → IsHomeOf statements label.now theorem.file theorem.span) }
        ensures fault { IfErr result (λ fault. (statements : List PlainStatement)
            → Reads self.now.files statements None → IsAskFault statements label.now fault) }
    {
        let files = self.files;
        let id = self.theorem(label)?;
        let statement = reread(alloc, self.book.seed(), files, label)?;
        let mut steps = StepsReader::new(alloc);
        read_theorem(&mut steps, alloc, self.profile, &self.book, id, &statement)
    }

    /// A reader of its files.
    pub fn reader(&self, alloc: Global) -> Result<Statements<'a>, AskFault>
        ensures unread { IfOk result (IsUnread self.now.files) }
        ensures faultless { IfOk result (λ statements. statements.ending ≡ None) }
        ensures few { IfOk result (λ statements. label_count statements.statements < 4294967295) }
        ensures memory { IfErr result (λ fault. fault ≡ Memory) }
    {
        let files = self.files;
        let statements = Statements::of_readable(alloc, self.book.seed(), files)?;
        Ok(statements)
    }

    /// Whether the statement with a number is a `$p` with a complete proof.
    pub(crate) fn is_theorem(&self, id: LabelId) -> bool
        ensures { (statements : List PlainStatement) → Reads self.now.files statements None
            → IsTrue result ↔ IsNumberWhere statements (λ s. is_proof s ≡ true) id.0 }
    {
        self.kept.index_of(id).is_some()
    }

    /// The theorem with a number, whose statement this is, as it was read again, by a reader of one
    /// proof after the other.
    pub fn theorem_at(
        &self,
        steps: &mut StepsReader<'a>,
        alloc: Global,
        statement: &Statement<'a>,
        id: LabelId,
    ) -> Result<Theorem, AskFault>
        requires { IsTheoremIn self.now.files id.0 (plain_statement statement.now) }
        ensures id { IfOk result (λ theorem. theorem.id.0 ≡ id.0) }
        ensures theorem { IfOk result (λ theorem.
            IsWholeProof self.now.sentences theorem.id.0 theorem.steps) }
        ensures told { IfOk result (λ theorem. (statements : List PlainStatement)
            → Reads self.now.files statements None → self.now.sentences ≡ sentences statements) }
        ensures read { IfOk result (λ theorem. (label : List ℕ)
            → IsLabelled label (sentence_in statement.now)
            → (statements : List PlainStatement) → Reads self.now.files statements None
            → AreStepsOf statements label theorem.id.0 theorem.steps.moves) }
        ensures home { IfOk result (λ theorem.
            theorem.span ≡ (plain_statement statement.now).span) }
        ensures memory { IfErr result (λ fault. fault ≡ Memory) }
    {
        read_theorem(steps, alloc, self.profile, &self.book, id, statement)
    }
}
