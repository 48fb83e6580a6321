//! All faults of a database in one run, each with what explains it.

ghost use Rattle.std.specs.Prelude.{◌≡◌, ◌<◌, ◌++◌, List, ℕ, [], ◌∷◌, map, length, true};
ghost use Rattle.std.specs.List.{flat_map};
ghost use Rattle.std.specs.Prelude.{OnOk, IfOk, IfErr, take, option_map};
ghost use Rattle.mm_base.specs.declared.statement.Kind.TheVariants.{Provable};
ghost use Rattle.mm_base.specs.Statement.{plain_statement, HasForm};
ghost use Rattle.mm_text.specs.Files.{plain_file};
ghost use Rattle.mm_frame.specs.Sentence.{Sentence, sentence_of};
ghost use Rattle.mm_step.specs.declared.profile.Profile.{Profile};
ghost use Rattle.mm_step.specs.Steps.{IsProofNumber};
ghost use Rattle.mm_rules.specs.Verdict.{CanBeRead, HasVerdict, PlainRefusal};
ghost use Rattle.mm_rules.specs.Answer.{plain_refusal, verdict_of_conclusion};
ghost use Rattle.mm_rules.specs.Status.{number_of};
ghost use Rattle.mm_explain.specs.Why.{owner_words as owner_words_of, owner_text, step_text};
ghost use Rattle.mm_explain.specs.Why.{head_at, head_lines, head_text, IsExplanation};
ghost use Rattle.mm_explain.specs.Why.{IsLastExplanation};
ghost use Rattle.mm_verdict.specs.Why.{is_of_proofs};
ghost use Rattle.mm_explain.specs.Why.{TellsProofs, most_explained as most_explained_of};
ghost use Rattle.mm_explain.specs.Why.{more_text, count_text};
ghost use Rattle.mm_explain.specs.Why.{listing_words as listing_words_of};
ghost use Rattle.mm_verdict.specs.Reply.{refusal_status};
ghost use Rattle.mm_explain.specs.Later.{IsUnknownIn};
ghost use Rattle.mm_facts.specs.Mirror.Explaining.{IsCauseOf};
ghost use Rattle.mm_explain.specs.Mirror.Last.{EndsRun};
ghost use Rattle.mm_explain.specs.Mirror.Outlined.{IsKeptOutline};
ghost use Rattle.mm_explain.specs.Mirror.Reasons.{IsRefusedLast, Explains, Notes, TellsWhy};
ghost use Rattle.mm_explain.specs.Mirror.Reasons.{AreExplained, AreNoted, TellsLast, texts_in};
ghost use Rattle.mm_rules.specs.declared.fault.Refusal.{Refusal};
ghost use Rattle.mm_explain.specs.declared.why.Unaccepted.TheVariants.{Memory};
ghost use Rattle.mm_rules.specs.declared.rule.Rule.TheVariants.{Proof};

use crate::forward_reference::push_later;
use crate::hypothesis_places::push_hypothesis_places;
use crate::last::last_facts;
use crate::outline::Outline;
use crate::source::push_source;
use crate::unused::push_unused;
use mm_base::{File, Seed, Statement};
use mm_facts::{Cause, cause_of, fault_place, push_cause};
use mm_frame::{Book, Found, LabelId};
use mm_groups::{Shared, shared_line};
use mm_rules::{
    CheckFault, Judged, Refusal, Rule, Status, Stop, Visitor, meaning, place_of, push_decimal,
    push_place,
};
use mm_step::{Profile, ProofRule};
use mm_verdict::{Checked, conclude, first_status, judge_files};
use std::alloc::{AllocError, Global};

/// How many faults of proofs are explained.
const MOST_EXPLAINED: usize = 10;

/// How many where it is told what all of them share.
const MOST_OF_GROUP: usize = 3;

/// Why a database isn't accepted.
#[derive(Drop)]
pub enum Unaccepted {
    /// The handed files break F1, F2 or F3 as a whole.
    Load(Rule),
    /// Statements are at fault: what tells all faults, and the status of the first.
    Refused { text: Vec<u8>, status: Status },
    /// A growth was refused.
    Memory,
}

impl From<AllocError> for Unaccepted {
    ghost from_gives = { λ _ e. e ≡ Memory };

    fn from(_e: AllocError) -> Unaccepted {
        Unaccepted::Memory
    }
}

/// In what a fault is: in a proof, or in another part of a statement.
fn owner_words(rule: Rule) -> &'static [u8]
    ensures { result.now ≡ owner_words_of rule }
{
    match rule {
        Rule::Proof(_) => b", in the proof of ",
        _ => b", in ",
    }
}

/// Appends what a fault is in, with the statement's label; nothing where there is none.
fn push_owner(out: &mut Vec<u8>, rule: Rule, label: Option<&[u8]>) -> Result<(), AllocError>
    ensures { OnOk result (out.new.items ≡ out.old.items
        ++ owner_text rule (option_map (λ l. l.now) label.entry)) }
{
    match label {
        Some(label) => {
            out.extend_from_slice(owner_words(rule))?;
            out.extend_from_slice(label)
        }
        None => Ok(()),
    }
}

/// Appends the step of a fault; nothing where it is at none.
fn push_step(out: &mut Vec<u8>, step: usize) -> Result<(), AllocError>
    ensures { OnOk result (out.new.items ≡ out.old.items ++ step_text step) }
{
    if step == 0 {
        return Ok(());
    }
    out.extend_from_slice(b", at step ")?;
    push_decimal(out, step)
}

/// Appends the first line of an explanation, with the place of a position in a file, and
/// with the rule and the step of the fault.
#[tactic(auto, using(crate::proofs::Explanations::eight_parts))]
pub(crate) fn push_head_at(
    out: &mut Vec<u8>,
    files: &[File],
    position: (usize, usize),
    fault: (Rule, usize),
    label: Option<&[u8]>,
) -> Result<(), AllocError>
    ensures { OnOk result (out.new.items ≡ out.old.items
        ++ head_at (map plain_file files.now) position.0 position.1 fault.0
        (option_map (λ l. l.now) label.entry) fault.1) }
{
    push_place(out, files, place_of(files, position.0, position.1))?;
    out.extend_from_slice(b": ")?;
    out.extend_from_slice(fault.0.code())?;
    out.extend_from_slice(b": ")?;
    out.extend_from_slice(meaning(fault.0))?;
    push_owner(out, fault.0, label)?;
    push_step(out, fault.1)?;
    out.push(b'\n')?;
    Ok(())
}

/// Appends that of a refusal, with the place of a position in its file.
pub fn push_head(
    out: &mut Vec<u8>,
    files: &[File],
    at: usize,
    refusal: &Refusal,
) -> Result<(), AllocError>
    ensures { OnOk result (out.new.items ≡ out.old.items
        ++ head_text (map plain_file files.now) at (plain_refusal refusal.now)) }
{
    let position = (refusal.file, at);
    let fault = (refusal.rule, refusal.step);
    push_head_at(out, files, position, fault, refusal.label)
}

/// Appends that, and where it is asked for the line of the file.
fn push_head_lines(
    out: &mut Vec<u8>,
    files: &[File],
    at: usize,
    refusal: &Refusal,
    source: bool,
) -> Result<(), AllocError>
    ensures { OnOk result (out.new.items ≡ out.old.items
        ++ head_lines source (map plain_file files.now) at (plain_refusal refusal.now)) }
{
    push_head(out, files, at, refusal)?;
    push_source(out, files, (refusal.file, at), source)
}

/// The question that lists all faults of proofs under the profile.
fn listing_words(profile: Profile) -> &'static [u8]
    ensures { result.now ≡ listing_words_of profile }
{
    match profile {
        Profile::Strict => b" more, which mm faults --strict lists\n",
        Profile::Lenient => b" more, which mm faults lists\n",
    }
}

/// Appends how many faults of proofs aren't explained under the profile, if there are such.
#[tactic(auto, using(mm_facts::proofs::DetailTexts::three_parts))]
fn push_more(out: &mut Vec<u8>, profile: Profile, count: usize) -> Result<(), AllocError>
    ensures { OnOk result (out.new.items ≡ out.old.items ++ more_text profile count) }
{
    if count == 0 {
        return Ok(());
    }
    out.extend_from_slice(b"and ")?;
    push_decimal(out, count)?;
    out.extend_from_slice(listing_words(profile))?;
    Ok(())
}

/// Appends how many faults there are.
fn push_count(out: &mut Vec<u8>, count: usize) -> Result<(), AllocError>
    ensures { OnOk result (out.new.items ≡ out.old.items ++ count_text count) }
{
    if count == 1 {
        return out.extend_from_slice(b"1 fault\n");
    }
    push_decimal(out, count)?;
    out.extend_from_slice(b" faults\n")
}

/// The number of the `$p` that a book took last.
fn last_number(book: &Book, statement: &Statement) -> LabelId
    requires formed { HasForm (plain_statement statement.now) }
    requires provable { statement.now.kind ≡ Provable }
    requires last { (before : List Sentence)
        × (book.now.statements ≡ before ++ sentence_of (plain_statement statement.now) ∷ []) }
    ensures { (before : List Sentence)
        → book.now.statements ≡ before ++ sentence_of (plain_statement statement.now) ∷ []
        → IsProofNumber book.now.statements result.0 (length before)
        (sentence_of (plain_statement statement.now)) }
{
    match &statement.label {
        Some(label) => match book.find(label.text) {
            Found::Assertion(id) => id,
            // No other statement has its label.
            Found::None | Found::Hypothesis { .. } => unreachable!(),
        },
        // Each `$p` has a label.
        None => unreachable!(),
    }
}

/// The rule and the step of a proof's refusal.
fn fault_in(refusal: &Refusal) -> (ProofRule, usize)
    requires { is_of_proofs refusal.now.rule ≡ true }
    ensures rule { Proof result.0 ≡ refusal.now.rule }
    ensures step { result.1 ≡ refusal.now.step }
{
    match refusal.rule {
        Rule::Proof(rule) => (rule, refusal.step),
        _ => unreachable!(),
    }
}

/// The label at which a proof breaks P2, by the cause of its fault; none where that is by another
/// rule.
fn unknown_label<'t>(cause: &Cause<'t>, rule: ProofRule) -> Option<&'t [u8]>
    requires { (profile : Profile) × (statements : List Sentence) × (id : ℕ) × (index : ℕ)
        × (s : Sentence) × (tokens : List (List ℕ)) × (step : ℕ)
        × IsProofNumber statements id index s
        × IsCauseOf profile statements id tokens rule step cause.now }
    ensures { (profile : Profile) (statements : List Sentence) (id : ℕ) (index : ℕ)
        (s : Sentence) (tokens : List (List ℕ)) (step : ℕ)
        → IsProofNumber statements id index s
        → IsCauseOf profile statements id tokens rule step cause.now
        → IsUnknownIn (take index statements) tokens rule (option_map (λ l. l.now) result) }
{
    match rule {
        ProofRule::P2 => match cause {
            Cause::Token { text, .. } => Some(*text),
            // P2 is broken over the whole of a proof.
            Cause::Moves { .. } => unreachable!(),
        },
        _ => None,
    }
}

/// How faults are explained.
#[derive(Clone, Copy)]
struct Manner {
    /// The profile under which proofs are judged.
    profile: Profile,
    /// Whether the line of the file stands behind each head.
    source: bool,
}

/// Explains the refusal of the `$p` that the book took last, for the fault of its proof.
fn push_explanation(
    out: &mut Vec<u8>,
    alloc: Global,
    manner: Manner,
    outline: &mut Outline,
    book: &Book,
    statement: &Statement,
    refusal: &Refusal,
) -> Result<(), AllocError>
    requires formed { HasForm (plain_statement statement.now) }
    requires refused { IsRefusedLast manner.profile (map plain_file outline.old.files.now)
        book.now.statements (plain_statement statement.now) (plain_refusal refusal.now) }
    requires outline { IsKeptOutline (map plain_file outline.old.files.now) outline.old }
    ensures told { OnOk result ((text : List ℕ)
        × IsExplanation manner.profile manner.source (map plain_file outline.old.files.now)
        (plain_refusal refusal.now) text
        × (out.new.items ≡ out.old.items ++ text)) }
    ensures kept { OnOk result
        (IsKeptOutline (map plain_file outline.old.files.now) outline.new) }
{
    let files = outline.files;
    let fault = fault_in(refusal);
    let id = last_number(book, statement);
    let cause = cause_of(
        alloc,
        files,
        manner.profile,
        book,
        id,
        &statement.proof,
        fault,
    )?;
    let at = fault_place(statement, &cause);
    push_head_lines(out, files, at, refusal, manner.source)?;
    push_cause(out, alloc, manner.profile, book, id, &cause, fault.0)?;
    let place = (id, refusal.statement - 1);
    push_hypothesis_places(out, outline, book, place, &cause, fault.0)?;
    push_unused(out, alloc, book, &statement.proof, &cause)?;
    let unknown = unknown_label(&cause, fault.0);
    push_later(out, outline, unknown, refusal.statement)
}

/// What explains the refusal for the fault that ended the run.
fn last_explanation<'a>(
    alloc: Global,
    seed: Seed,
    files: &'a [File<'a>],
    refusal: &Refusal<'a>,
    source: bool,
) -> Result<Vec<u8>, AllocError>
    requires { EndsRun (map plain_file files.now) (plain_refusal refusal.now) }
    ensures { IfOk result (λ text. IsLastExplanation source (map plain_file files.now)
        (plain_refusal refusal.now) text.items) }
{
    let mut text = Vec::new(alloc);
    let (at, facts) = last_facts(alloc, seed, files, refusal, source)?;
    push_head_lines(&mut text, files, at, refusal, source)?;
    text.extend_from_slice(&facts)?;
    Ok(text)
}

/// Appends each of the explanations.
fn push_explanations(out: &mut Vec<u8>, explanations: &[Vec<u8>]) -> Result<(), AllocError>
    ensures { OnOk result (out.new.items ≡ out.old.items
        ++ flat_map (λ t. t) (texts_in explanations.now)) }
{
    for text in explanations {
        out.extend_from_slice(text)?;
    }
    Ok(())
}

/// How many faults of proofs are explained, below this line of what they share, if it is told.
fn most_explained(line: &[u8]) -> usize
    ensures { result ≡ most_explained_of line.now }
{
    if line.is_empty() {
        MOST_EXPLAINED
    } else {
        MOST_OF_GROUP
    }
}

/// A visitor that keeps the refusals of all proofs that are at fault and what they share, and
/// explains the first of them.
#[derive(Drop)]
struct Reasons<'a> {
    alloc: Global,
    seed: Seed,
    profile: Profile,
    /// Whether the line of the file stands behind each head.
    source: bool,
    files: &'a [File<'a>],
    refusals: Vec<Refusal<'a>>,
    /// What all of them share.
    shared: Shared<'a>,
    explanations: Vec<Vec<u8>>,
    /// The statements of the files, once an explanation asked for them.
    outline: Outline<'a>,
}

impl<'a> Reasons<'a> {
    /// Keeps one more refusal.
    fn keep(&mut self, refusal: Refusal<'a>) -> Result<(), AllocError>
        ensures kept { OnOk result (self.new.refusals.items
            ≡ self.old.refusals.items ++ refusal.entry ∷ []) }
        ensures shared { self.new.shared ≡ self.old.shared }
        ensures explanations { self.new.explanations ≡ self.old.explanations }
        ensures outline { self.new.outline ≡ self.old.outline }
        ensures profile { self.new.profile ≡ self.old.profile }
        ensures source { self.new.source ≡ self.old.source }
        ensures files { self.new.files ≡ self.old.files }
    {
        self.refusals.push(refusal)?;
        Ok(())
    }

    /// Explains the refusal of the `$p` that the book took last, unless enough are.
    fn explain(
        &mut self,
        book: &Book<'a>,
        statement: &Statement<'a>,
        refusal: &Refusal<'a>,
    ) -> Result<(), AllocError>
        requires formed { HasForm (plain_statement statement.now) }
        requires refused { IsRefusedLast self.old.profile (map plain_file self.old.files.now)
            book.now.statements (plain_statement statement.now) (plain_refusal refusal.now) }
        requires outline { IsKeptOutline (map plain_file self.old.files.now) self.old.outline }
        ensures explains { OnOk result
            (Explains self.old (plain_refusal refusal.now) self.new) }
        ensures outline { OnOk result
            (IsKeptOutline (map plain_file self.old.files.now) self.new.outline) }
        ensures kept { self.new.refusals ≡ self.old.refusals }
        ensures shared { self.new.shared ≡ self.old.shared }
        ensures profile { self.new.profile ≡ self.old.profile }
        ensures source { self.new.source ≡ self.old.source }
        ensures files { self.new.files ≡ self.old.files }
    {
        if self.refusals.len() >= MOST_EXPLAINED {
            return Ok(());
        }
        let mut text = Vec::new(self.alloc);
        let manner = Manner {
            profile: self.profile,
            source: self.source,
        };
        push_explanation(
            &mut text,
            self.alloc,
            manner,
            &mut self.outline,
            book,
            statement,
            refusal,
        )?;
        self.explanations.push(text)?;
        Ok(())
    }

    /// Keeps the refusal of the `$p` that the book took last, with what it shares with the others,
    /// and explains it unless enough are.
    fn note(
        &mut self,
        book: &Book<'a>,
        statement: &Statement<'a>,
        refusal: Refusal<'a>,
    ) -> Result<(), AllocError>
        requires formed { HasForm (plain_statement statement.now) }
        requires refused { IsRefusedLast self.old.profile (map plain_file self.old.files.now)
            book.now.statements (plain_statement statement.now) (plain_refusal refusal) }
        requires outline { IsKeptOutline (map plain_file self.old.files.now) self.old.outline }
        ensures { OnOk result (Notes self.old refusal.entry self.new) }
    {
        self.explain(book, statement, &refusal)?;
        let id = last_number(book, statement);
        self.shared.note(book, id, statement)?;
        self.keep(refusal)
    }

    /// Tells the faults of proofs: what they share, the first of them explained, and how many more
    /// there are.
    fn proofs_told(&self) -> Result<Vec<u8>, AllocError>
        requires { CanBeRead (map plain_file self.now.files.now) }
        ensures { IfOk result (λ text. (listed : List PlainRefusal)
            → map plain_refusal self.now.refusals.items ≡ listed
            → AreNoted (map plain_file self.now.files.now) listed self.now.shared
            → AreExplained self.now.profile self.now.source (map plain_file self.now.files.now) listed
            (texts_in self.now.explanations.items)
            → TellsProofs self.now.profile self.now.source (map plain_file self.now.files.now) listed
            text.items) }
    {
        let mut text = shared_line(
            self.alloc,
            self.seed,
            self.files,
            &self.shared,
            &self.refusals,
        )?;
        let most = most_explained(&text);
        let told = most.min(self.explanations.len());
        push_explanations(&mut text, &self.explanations[..told])?;
        let more = self.refusals.len().saturating_sub(most);
        push_more(&mut text, self.profile, more)?;
        Ok(text)
    }

    /// Explains the fault that ended the run and keeps it, and tells those of proofs.
    fn told_with_last(&mut self, last: Refusal<'a>) -> Result<Vec<u8>, AllocError>
        requires readable { CanBeRead (map plain_file self.old.files.now) }
        requires ends { EndsRun (map plain_file self.old.files.now) (plain_refusal last) }
        ensures told { IfOk result (λ text. (listed : List PlainRefusal)
            → map plain_refusal self.old.refusals.items ≡ listed
            → AreNoted (map plain_file self.old.files.now) listed self.old.shared
            → AreExplained self.old.profile self.old.source (map plain_file self.old.files.now) listed
            (texts_in self.old.explanations.items)
            → TellsLast self.old.profile self.old.source (map plain_file self.old.files.now) listed
            (plain_refusal last.entry) text.items) }
        ensures kept { OnOk result (self.new.refusals.items
            ≡ self.old.refusals.items ++ last.entry ∷ []) }
    {
        let mut text = last_explanation(self.alloc, self.seed, self.files, &last, self.source)?;
        let proofs = self.proofs_told()?;
        text.extend_from_slice(&proofs)?;
        self.keep(last)?;
        Ok(text)
    }
}

impl<'a> Visitor<'a> for Reasons<'a> {
    ghost use Rattle.mm_explain.specs.Mirror.Reasons.{HasExplained};

    ghost has_seen = { HasExplained };

    ghost may_stop = { ⊥ };

    fn see(
        &mut self,
        book: &Book<'a>,
        statement: &Statement<'a>,
        judged: Judged<'a>,
    ) -> Result<(), Stop<'a>> {
        match judged {
            Judged::Faulty(refusal) => Ok(self.note(book, statement, refusal)?),
            _ => Ok(()),
        }
    }
}

/// Counts all faults behind what is told of them, of which there is one: the whole text, and the
/// status of the first.
fn finish(text: Vec<u8>, refusals: &[Refusal]) -> Result<(Vec<u8>, Status), AllocError>
    requires { 0 < length refusals.now }
    ensures text { IfOk result (λ told. told.0.items
        ≡ text.items ++ count_text (length refusals.now)) }
    ensures status { IfOk result (λ told. (first : Refusal) (others : List Refusal)
        → refusals.now ≡ first ∷ others → number_of told.1 ≡ refusal_status first.rule) }
{
    let mut text = text;
    push_count(&mut text, refusals.len())?;
    Ok((text, first_status(refusals)))
}

/// Checks in a profile the database that the files hold, as `all_faults` does, and tells all faults
/// in one run, each with what explains it, and where it is asked for with its line of the file.
///
/// # Errors
///
/// `Load` where the files can't be taken as a whole, else `Refused` with what tells all faults;
/// `Memory` where a growth was refused, and nothing is said of the files then.
#[tactic(auto, using(crate::proofs::Explanations::nothing_noted))]
pub fn explained<'a>(
    alloc: Global,
    seed: Seed,
    profile: Profile,
    files: &'a [File<'a>],
    source: bool,
) -> Result<Checked<'a>, Unaccepted>
    ensures verdict { IfOk result (λ checked. HasVerdict profile (map plain_file files.now)
        (verdict_of_conclusion checked)) }
    ensures why { IfErr result (TellsWhy profile source (map plain_file files.now)) }
{
    let mut reasons = Reasons {
        alloc,
        seed,
        profile,
        source,
        files,
        refusals: Vec::new(alloc),
        shared: Shared::new(alloc, seed),
        explanations: Vec::new(alloc),
        outline: Outline::new(alloc, seed, files),
    };
    match judge_files(alloc, seed, profile, files, &mut reasons) {
        Ok(progress) => {
            if reasons.refusals.is_empty() {
                return Ok(conclude(profile, files, progress));
            }
            drop(progress);
            let told = reasons.proofs_told()?;
            let (text, status) = finish(told, &reasons.refusals)?;
            Err(Unaccepted::Refused { text, status })
        }
        Err(CheckFault::Refused(last)) => {
            let told = reasons.told_with_last(last)?;
            let (text, status) = finish(told, &reasons.refusals)?;
            Err(Unaccepted::Refused { text, status })
        }
        Err(CheckFault::Load(rule)) => Err(Unaccepted::Load(rule)),
        Err(CheckFault::Memory) => Err(Unaccepted::Memory),
    }
}
