//! The listing of a proof: its steps, one a line (the Metamath book, section 4.3 and appendix B).

ghost use Rattle.std.specs.Prelude.{◌≡◌, ◌-◌, ◌<◌, ◌≤◌, ◌^◌, ℕ, List, [], All, length, take};
ghost use Rattle.std.specs.Prelude.{slice_get, slice_index_or, Some, Err, false};
ghost use Rattle.std.specs.Prelude.{IfOk, IfErr, IsOkUnless};
ghost use Rattle.std.specs.List.{AllByRecursion};
ghost use Rattle.mm_code.specs.Letters.{HasSpelling};
ghost use Rattle.mm_frame.specs.Form.{IsSound};
ghost use Rattle.mm_step.specs.declared.fault.ProofRule.{ProofRule};
ghost use Rattle.mm_proof.specs.Answer.{IsUnlessMemory};
ghost use Rattle.mm_step.specs.Stores.{numbers_in};
ghost use Rattle.mm_step.specs.Moves.{Move};
ghost use Rattle.mm_proof.specs.Proof.{Prove, IsMovesFault};
ghost use Rattle.mm_step.specs.Proof.{IsWithin};
ghost use Rattle.mm_step.specs.Profiles.{limit_of};
ghost use Rattle.mm_step.specs.Steps.{AreNumberedMoves, AreSteps};
ghost use Rattle.mm_listing.specs.Listing.{AreLinesOf, AreLinesWith};
ghost use Rattle.mm_proof.specs.Verified.{OfMoves};
ghost use Rattle.mm_proof.specs.CheckedPrefix.{Pass};
ghost use Rattle.mm_proof.specs.Mirror.CodeSteps.{code_moves, moves_of};
ghost use Rattle.mm_step.specs.Mirror.CodeRun.{MayBeMade, HasRun};
ghost use Rattle.mm_step.specs.Mirror.Sites.{IsSite};
ghost use Rattle.mm_listing.specs.Mirror.CodeLines.{AreLinesAt, BreaksAt, ListsProof, FaultsProof};
ghost use Rattle.mm_listing.specs.Mirror.CodeLines.{expresses, IsLastWhere};

use mm_code::Code;
use mm_frame::{Book, LabelId, Sym, one_number};
use mm_proof::machine::run;
use mm_proof::{Judge, Machine, Steps, calls_of, ending};
use mm_step::{CallTable, Flat, Profile, ProofFault, Site, Store, unmark};
use std::alloc::{AllocError, Global};

/// What a line calls its step.
#[derive(Clone, Copy, PartialEq, Eq, Debug)]
pub enum Name {
    /// The label of the hypothesis or of the assertion.
    Label(LabelId),
    /// The number, from 1 on, of the step that the tag stands after.
    Step(u32),
}

/// A step of a proof.
#[derive(Drop)]
pub struct Line {
    /// What the step is called.
    pub name: Name,
    /// The expression that it puts on the stack; empty where it is left out.
    pub expression: Vec<Sym>,
}

/// Which steps are listed with their expressions.
#[derive(Clone, Copy)]
pub(crate) struct Expressed<'t> {
    /// Whether all are.
    pub(crate) all: bool,
    /// Else those are whose flags are set, by the order of the steps.
    pub(crate) flags: &'t [bool],
}

// Whether the step at an index is listed with its expression.
fn is_expressed(expressed: Expressed, index: usize) -> bool
    ensures { result ≡ expresses expressed.entry index }
{
    if expressed.all {
        return true;
    }
    match expressed.flags.get(index) {
        Some(flag) => *flag,
        None => false,
    }
}

// The expression of the step that was made last.
fn last_expression<S: Store>(alloc: Global, judge: &Judge<S>) -> Result<Vec<Sym>, AllocError>
    requires { 0 < length (S.stack judge.now.store.now) }
    ensures { let stack = S.stack judge.now.store.now in
        IfOk result (λ expression. slice_get stack (length stack - 1)
        ≡ Some (numbers_in expression.items)) }
{
    let last = judge.store.at(judge.store.len() - 1);
    Vec::from_slice(alloc, last)
}

// The line of the step that was made last, with its expression or without.
fn last_line<S: Store>(
    alloc: Global,
    judge: &Judge<S>,
    name: Name,
    expressed: bool,
) -> Result<Line, AllocError>
    requires { 0 < length (S.stack judge.now.store.now) }
    ensures name { IfOk result (λ line. line.name ≡ name) }
    ensures expression { IfOk result (λ line.
        IsLastWhere expressed (S.stack judge.now.store.now) line.expression.items) }
{
    let expression = if expressed {
        last_expression(alloc, judge)?
    } else {
        Vec::new(alloc)
    };
    Ok(Line { name, expression })
}

/// What lists moves while it judges them: the lines of the steps so far, and for each mark the
/// number of the step before it. Both are lent to it, as the store is to the judge, since nothing
/// is known of what was lent to a struct that owns memory.
#[derive(Drop)]
pub(crate) struct Lister<'s, 'e, 'b, 'a, S> {
    pub(crate) alloc: Global,
    pub(crate) judge: Judge<'s, 'e, 'b, 'a, S>,
    pub(crate) expressed: Expressed<'s>,
    pub(crate) lines: &'s mut Vec<Line>,
    pub tags: &'s mut Vec<u32>,
}

impl<'s, 'e, 'b, 'a, S: Store> Lister<'s, 'e, 'b, 'a, S> {
    ghost use Rattle.std.specs.Prelude.{◌≡◌, length};

    // Whether the next step is listed with its expression.
    fn expresses_next(&self) -> bool
        ensures { result ≡ expresses self.now.expressed (length self.now.lines.now.items) }
    {
        is_expressed(self.expressed, self.lines.len())
    }
}

// It stops where the judge does.
impl<'s, 'e, 'b, 'a, S: Store> Machine for Lister<'s, 'e, 'b, 'a, S> {
    ghost use Rattle.mm_proof.specs.Answer.{OnRule};
    ghost use Rattle.mm_proof.specs.Mirror.Judges.{BreaksRun};
    ghost use Rattle.mm_listing.specs.Mirror.CodeLines.{HasListed, MayBeListed};

    type Fault = ProofFault;

    ghost entries = { λ first. first.judge.table.now.ids };

    ghost has_run = { HasListed S.stack S.kept };

    ghost may_take = { λ first prefix move. MayBeListed first.judge.table.now.site prefix move };

    ghost stops = { λ first prefix move fault.
        OnRule fault (BreaksRun first.judge.table.now.site prefix move) };

    fn step(&mut self, index: usize) -> Result<(), ProofFault> {
        let table = self.judge.table;
        let id = table.label(index);
        let expressed = self.expresses_next();
        self.judge.step(index)?;
        let line = last_line(self.alloc, &self.judge, Name::Label(id), expressed)?;
        self.lines.push(line)?;
        Ok(())
    }

    fn step_again(&mut self, tag: usize) -> Result<(), ProofFault> {
        let expressed = self.expresses_next();
        self.judge.step_again(tag)?;
        let after = self.tags[tag];
        let line = last_line(self.alloc, &self.judge, Name::Step(after), expressed)?;
        self.lines.push(line)?;
        Ok(())
    }

    fn mark(&mut self) -> Result<(), ProofFault> {
        self.judge.mark()?;
        let number = self.lines.len() as u32;
        self.tags.push(number)?;
        Ok(())
    }
}

// The lines of all steps, one after the other.
fn lines_of<S: Store>(
    alloc: Global,
    store: &mut S,
    table: &CallTable,
    codes: &[Code],
    expressed: Expressed,
) -> Result<Vec<Line>, ProofFault>
    requires spelled { All HasSpelling codes.now }
    requires usable { let site = table.now.site in
        AllByRecursion (MayBeMade site.statements site.index)
        (code_moves table.now.ids codes.now) }
    requires names { (names : List (Move (List ℕ)))
        × AreNumberedMoves table.now.site.statements (code_moves table.now.ids codes.now) names }
    requires room { length codes.now < 2 ^ 32 }
    requires stack { S.stack store.old ≡ [] }
    requires kept { S.kept store.old ≡ [] }
    ensures run { let site = table.now.site in
        IfOk result (λ lines. HasRun site.limit site.statements site.index
        (code_moves table.now.ids codes.now) (S.stack store.new) (S.kept store.new)
        (length lines.items)) }
    ensures lines { let site = table.now.site in
        IfOk result (λ lines. AreLinesAt site.statements (expresses expressed.entry) site.index
        (code_moves table.now.ids codes.now) lines.items) }
    ensures fault { let site = table.now.site in
        (rule : ProofRule) → (at : ℕ) → result ≡ Err (ProofFault.Rule rule at)
        → BreaksAt site.limit site.statements site.index (code_moves table.now.ids codes.now)
        rule at }
{
    let count = table.entries.len();
    let mut marks = Vec::new(alloc);
    unmark(&mut marks, count)?;
    let mut lines = Vec::new(alloc);
    let mut tags = Vec::new(alloc);
    let judge = Judge {
        store,
        marks: &mut marks,
        table,
        steps: 0,
        kept: 0,
    };
    let mut lister = Lister {
        alloc,
        judge,
        expressed,
        lines: &mut lines,
        tags: &mut tags,
    };
    run(&mut lister, count, codes)?;
    Ok(lines)
}

// The lines of the moves, or their first fault.
fn lines_in_frame<S: Store>(
    alloc: Global,
    store: &mut S,
    table: &CallTable,
    codes: &[Code],
    expressed: Expressed,
) -> Result<Vec<Line>, ProofFault>
    requires spelled { All HasSpelling codes.now }
    requires room { length codes.now < 2 ^ 32 }
    requires stack { S.stack store.old ≡ [] }
    requires kept { S.kept store.old ≡ [] }
    requires steps { let site = table.now.site in
        AreSteps site.statements site.number (code_moves table.now.ids codes.now) }
    ensures listed { let site = table.now.site in
        IfOk result (λ lines. ListsProof site.limit site.statements site.number
        (code_moves table.now.ids codes.now) (expresses expressed.entry) lines.items) }
    ensures fault { let site = table.now.site in
        IfErr result (FaultsProof site.limit site.statements site.number
        (code_moves table.now.ids codes.now)) }
{
    one_number();
    let expression = table.site.expression();
    let lines = lines_of(alloc, store, table, codes, expressed)?;
    ending(store, expression, lines.len() + 1)?;
    Ok(lines)
}

// The lines of the moves, or their first fault.
fn lines_of_proof(
    alloc: Global,
    book: &Book,
    id: LabelId,
    entries: &[LabelId],
    codes: &[Code],
    profile: Profile,
    expressed: Expressed,
) -> Result<Vec<Line>, ProofFault>
    requires spelled { All HasSpelling codes.now }
    requires room { length codes.now < 2 ^ 32 }
    requires steps { AreSteps book.now.statements id.0 (moves_of entries.now codes.now) }
    ensures listed { IfOk result (λ lines. ListsProof (limit_of profile) book.now.statements id.0
        (moves_of entries.now codes.now) (expresses expressed.entry) lines.items) }
    ensures fault { IfErr result (FaultsProof (limit_of profile) book.now.statements id.0
        (moves_of entries.now codes.now)) }
    ensures sound { IsSound book.now.statements }
{
    let site = Site::new(book, id, profile);
    let calls = calls_of(alloc, book, entries)?;
    let table = CallTable {
        site,
        entries,
        calls: &calls,
    };
    let mut store = Flat::new(alloc);
    lines_in_frame(alloc, &mut store, &table, codes, expressed)
}

// The lines of the steps, those with their expressions that are listed so, or the first fault.
fn lines_of_steps(
    alloc: Global,
    book: &Book,
    id: LabelId,
    steps: &Steps,
    expressed: Expressed,
) -> Result<Vec<Line>, ProofFault>
    requires steps { AreSteps book.now.statements id.0 steps.now.moves }
    ensures listed { IfOk result (λ lines. OfMoves book.now.statements id.0 steps.now.moves
        (λ index s moves. AreLinesWith book.now.statements (take index book.now.statements) moves
        (expresses expressed.entry) lines.items)) }
    ensures fault { (rule : ProofRule) → (step : ℕ) → result ≡ Err (ProofFault.Rule rule step)
        → OfMoves book.now.statements id.0 steps.now.moves
        (λ index s moves. IsMovesFault (IsWithin (limit_of steps.now.profile))
        (take index book.now.statements) s moves rule step) }
    ensures accepts { OfMoves book.now.statements id.0 steps.now.moves
        (λ index s moves.
        Prove (IsWithin (limit_of steps.now.profile)) (take index book.now.statements) s moves
        → IsOkUnless result ProofFault.Memory) }
    ensures refuses { OfMoves book.now.statements id.0 steps.now.moves
        (λ index s moves. (rule : ProofRule) → (step : ℕ) → IsMovesFault
        (IsWithin (limit_of steps.now.profile)) (take index book.now.statements) s moves rule step
        → IsUnlessMemory result (Err (ProofFault.Rule rule step))) }
{
    lines_of_proof(
        alloc,
        book,
        id,
        &steps.entries,
        &steps.codes,
        steps.profile,
        expressed,
    )
}

/// The steps of the `$p` with this number, which these moves prove, in order: what each is called,
/// and the expression that it puts on the stack. A step by a tag is called by the number of the
/// step that the tag stands after; where that one is by a tag too, by that one's own number.
///
/// # Errors
///
/// `Memory` where a growth was refused. Moves, not of a prefix, that don't prove the `$p` are
/// answered with their first fault, as `verify` does.
pub fn listing(
    alloc: Global,
    book: &Book,
    id: LabelId,
    steps: &Steps,
) -> Result<Vec<Line>, ProofFault>
    requires steps { AreSteps book.now.statements id.0 steps.now.moves }
    requires whole { steps.now.prefix ≡ false }
    // The lines are those of the steps: each with its name, and the expression that its tree
    // derives.
    ensures listed { IfOk result (λ lines. OfMoves book.now.statements id.0 steps.now.moves
        (λ index s moves. AreLinesOf book.now.statements (take index book.now.statements) moves
        lines.items)) }

    // The rule and the step are those of the first fault.
    ensures fault { (rule : ProofRule) → (step : ℕ) → result ≡ Err (ProofFault.Rule rule step)
        → OfMoves book.now.statements id.0 steps.now.moves
        (λ index s moves. IsMovesFault (IsWithin (limit_of steps.now.profile))
        (take index book.now.statements) s moves rule step) }

    // What is proved is listed, unless memory is refused.
    ensures accepts { OfMoves book.now.statements id.0 steps.now.moves
        (λ index s moves.
        Prove (IsWithin (limit_of steps.now.profile)) (take index book.now.statements) s moves
        → IsOkUnless result ProofFault.Memory) }

    // What has a fault is answered with it, unless memory is refused.
    ensures refuses { OfMoves book.now.statements id.0 steps.now.moves
        (λ index s moves. (rule : ProofRule) → (step : ℕ) → IsMovesFault
        (IsWithin (limit_of steps.now.profile)) (take index book.now.statements) s moves rule step
        → IsUnlessMemory result (Err (ProofFault.Rule rule step))) }
{
    let expressed = Expressed {
        all: true,
        flags: &[],
    };
    lines_of_steps(alloc, book, id, steps, expressed)
}

// The lines of the steps among so many first moves, which pass, those with their expressions that
// are listed so.
fn lines_of_front(
    alloc: Global,
    table: &CallTable,
    codes: &[Code],
    passed: usize,
    expressed: Expressed,
) -> Result<Vec<Line>, AllocError>
    requires site { IsSite table.now.site }
    requires spelled { All HasSpelling codes.now }
    requires room { length codes.now < 2 ^ 32 }
    requires within { passed ≤ length codes.now }
    requires steps { let site = table.now.site in
        AreSteps site.statements site.number (code_moves table.now.ids codes.now) }
    requires pass { let site = table.now.site in
        OfMoves site.statements site.number (code_moves table.now.ids codes.now)
        (λ index s moves.
        Pass (IsWithin site.limit) (take index site.statements) (take passed moves)) }
    ensures { let site = table.now.site in IfOk result (λ lines.
        OfMoves site.statements site.number (code_moves table.now.ids codes.now)
        (λ index s moves. AreLinesWith site.statements (take index site.statements)
        (take passed moves) (expresses expressed.entry) lines.items)) }
{
    let mut store = Flat::new(alloc);
    match lines_of(alloc, &mut store, table, &codes[..passed], expressed) {
        Ok(lines) => Ok(lines),
        Err(ProofFault::Memory) => Err(AllocError),
        // These moves pass.
        Err(ProofFault::Rule { .. }) => unreachable!(),
    }
}

// The lines of the steps among so many first moves that the codes say, those with their expressions
// that are listed so.
fn lines_of_first_codes(
    alloc: Global,
    book: &Book,
    id: LabelId,
    entries: &[LabelId],
    codes: &[Code],
    profile: Profile,
    front: (usize, Expressed),
) -> Result<Vec<Line>, AllocError>
    requires spelled { All HasSpelling codes.now }
    requires room { length codes.now < 2 ^ 32 }
    requires within { front.0 ≤ length codes.now }
    requires steps { AreSteps book.now.statements id.0 (moves_of entries.now codes.now) }
    requires pass { OfMoves book.now.statements id.0 (moves_of entries.now codes.now)
        (λ index s moves. Pass (IsWithin (limit_of profile)) (take index book.now.statements)
        (take front.0 moves)) }
    ensures { IfOk result (λ lines.
        OfMoves book.now.statements id.0 (moves_of entries.now codes.now)
        (λ index s moves. AreLinesWith book.now.statements (take index book.now.statements)
        (take front.entry.0 moves) (expresses front.entry.1) lines.items)) }
{
    let site = Site::new(book, id, profile);
    let calls = calls_of(alloc, book, entries)?;
    let table = CallTable {
        site,
        entries,
        calls: &calls,
    };
    lines_of_front(alloc, &table, codes, front.0, front.1)
}

/// The steps among so many first moves of the `$p` with this number, which pass, in order, as
/// `listing` tells them.
///
/// # Errors
///
/// Where a growth was refused.
pub fn lines_before(
    alloc: Global,
    book: &Book,
    id: LabelId,
    steps: &Steps,
    passed: usize,
) -> Result<Vec<Line>, AllocError>
    requires steps { AreSteps book.now.statements id.0 steps.now.moves }
    requires within { passed ≤ length steps.now.moves }
    requires pass { OfMoves book.now.statements id.0 steps.now.moves
        (λ index s moves. Pass (IsWithin (limit_of steps.now.profile))
        (take index book.now.statements) (take passed moves)) }
    ensures listed { IfOk result (λ lines. OfMoves book.now.statements id.0 steps.now.moves
        (λ index s moves. AreLinesOf book.now.statements (take index book.now.statements)
        (take passed moves) lines.items)) }
{
    let expressed = Expressed {
        all: true,
        flags: &[],
    };
    lines_of_first_codes(
        alloc,
        book,
        id,
        &steps.entries,
        &steps.codes,
        steps.profile,
        (passed, expressed),
    )
}

/// The same lines, in which the expressions of those steps are left out whose flags aren't set, by
/// the order of the steps: so it takes memory for what is told.
///
/// # Errors
///
/// Where a growth was refused.
pub fn partial_lines_before(
    alloc: Global,
    book: &Book,
    id: LabelId,
    steps: &Steps,
    passed: usize,
    told: &[bool],
) -> Result<Vec<Line>, AllocError>
    requires steps { AreSteps book.now.statements id.0 steps.now.moves }
    requires within { passed ≤ length steps.now.moves }
    requires pass { OfMoves book.now.statements id.0 steps.now.moves
        (λ index s moves. Pass (IsWithin (limit_of steps.now.profile))
        (take index book.now.statements) (take passed moves)) }
    // Where a step is told it has the expression that its tree derives, and none where it isn't.
    ensures listed { IfOk result (λ lines. OfMoves book.now.statements id.0 steps.now.moves
        (λ index s moves. AreLinesWith book.now.statements (take index book.now.statements)
        (take passed moves) (λ index. slice_index_or told.now index false) lines.items)) }
{
    let expressed = Expressed {
        all: false,
        flags: told,
    };
    lines_of_first_codes(
        alloc,
        book,
        id,
        &steps.entries,
        &steps.codes,
        steps.profile,
        (passed, expressed),
    )
}

/// What the steps among so many first moves of the `$p` with this number, which pass, are called, in
/// order: the same lines, without their expressions.
///
/// # Errors
///
/// Where a growth was refused.
pub fn names_before(
    alloc: Global,
    book: &Book,
    id: LabelId,
    steps: &Steps,
    passed: usize,
) -> Result<Vec<Line>, AllocError>
    requires steps { AreSteps book.now.statements id.0 steps.now.moves }
    requires within { passed ≤ length steps.now.moves }
    requires pass { OfMoves book.now.statements id.0 steps.now.moves
        (λ index s moves. Pass (IsWithin (limit_of steps.now.profile))
        (take index book.now.statements) (take passed moves)) }
    ensures listed { IfOk result (λ lines. OfMoves book.now.statements id.0 steps.now.moves
        (λ index s moves. AreLinesWith book.now.statements (take index book.now.statements)
        (take passed moves) (λ index. false) lines.items)) }
{
    let expressed = Expressed {
        all: false,
        flags: &[],
    };
    lines_of_first_codes(
        alloc,
        book,
        id,
        &steps.entries,
        &steps.codes,
        steps.profile,
        (passed, expressed),
    )
}
