//! Small proofs: the labels by how often they are used, and few letters.

ghost use Rattle.std.specs.Prelude.{All, IfOk, OnOk};
ghost use Rattle.mm_code.specs.Letters.{HasSpelling};

use crate::tree::{MOST_STEPS, Tree};
use indexmap::IndexMap;
use mm_base::Seed;
use mm_code::{Code, letter_count, write_codes};
use mm_terms::next_number;
use std::alloc::{AllocError, Global};

/// A small proof: what its labels are of, and its letters.
#[derive(Drop)]
pub struct Small {
    pub listed: Vec<u32>,
    pub letters: Vec<u8>,
}

// What is written of a tree.
#[derive(Clone, Copy)]
enum Mark {
    /// A step by a name.
    Step(u32),
    /// The step before it is tagged.
    Tag,
    /// The step with this tag, from 0 on, is used again.
    Again(u32),
}

// What is written next: a subtree, or its last step when all below it is written.
#[derive(Clone, Copy)]
enum Visit {
    Subtree(u32),
    Step(u32),
}

// A tree as it is written.
#[derive(Drop)]
struct Writer<'t> {
    tree: &'t Tree,
    /// How often each subtree stands in the tree.
    uses: &'t [u32],
    /// Subtrees of so many steps are tagged.
    least: usize,
    /// The tag of each subtree, from 1 on.
    tags: Vec<u32>,
    /// How many were tagged.
    tagged: u32,
    visits: Vec<Visit>,
    marks: Vec<Mark>,
}

// A label that is listed, and how many steps are by it. Those with more come first.
#[derive(Clone, Copy, PartialEq, Eq, PartialOrd, Ord)]
struct LabelUse {
    missing: u32,
    index: u32,
    name: u32,
}

// How labels and tags are numbered.
#[derive(Drop)]
struct Numbering {
    /// The number of each name, from 0 on.
    numbers: IndexMap<u32, u32, Seed>,
    /// How many hypotheses and listed labels there are.
    names: u32,
}

// A proof with its labels listed.
#[derive(Drop)]
struct Coded {
    listed: Vec<u32>,
    codes: Vec<Code>,
}

impl<'t> Writer<'t> {
    // Writes a subtree: by its tag, or all below it and then its step.
    fn write_subtree(&mut self, subtree: u32) -> Result<(), AllocError> {
        let tag = self.tags.get(subtree as usize).copied().unwrap_or(0);
        if tag > 0 {
            self.marks.push(Mark::Again(tag - 1))?;
            return Ok(());
        }
        self.visits.push(Visit::Step(subtree))?;
        for below in self.tree.below(subtree).iter().rev() {
            self.visits.push(Visit::Subtree(*below))?;
        }
        Ok(())
    }

    // Writes the last step of a subtree, and tags it where it is used again.
    fn write_step(&mut self, subtree: u32) -> Result<(), AllocError> {
        self.marks.push(Mark::Step(self.tree.name(subtree)))?;
        let uses = self.uses.get(subtree as usize).copied().unwrap_or(0);
        if uses > 1 && self.tree.has_steps(subtree, self.least) {
            self.tagged = self.tagged.saturating_add(1);
            if let Some(tag) = self.tags.get_mut(subtree as usize) {
                *tag = self.tagged;
            }
            self.marks.push(Mark::Tag)?;
        }
        Ok(())
    }

    // Writes the whole tree.
    fn write(&mut self) -> Result<(), AllocError> {
        self.visits.push(Visit::Subtree(self.tree.root))?;
        for _ in 0..MOST_STEPS {
            let Some(visit) = self.visits.pop() else {
                break;
            };
            match visit {
                Visit::Subtree(subtree) => self.write_subtree(subtree)?,
                Visit::Step(subtree) => self.write_step(subtree)?,
            }
        }
        Ok(())
    }
}

// What is written of a tree, where subtrees of so many steps are tagged.
fn marks_of(
    alloc: Global,
    tree: &Tree,
    uses: &[u32],
    least: usize,
) -> Result<Vec<Mark>, AllocError> {
    let mut writer = Writer {
        tree,
        uses,
        least,
        tags: vec![in alloc; 0u32; tree.len()]?,
        tagged: 0,
        visits: Vec::new(alloc),
        marks: Vec::new(alloc),
    };
    writer.write()?;
    Ok(writer.marks)
}

// Each name without a number, and how many steps are by it, in the order of the first steps.
fn label_uses(
    alloc: Global,
    seed: Seed,
    numbering: &Numbering,
    marks: &[Mark],
) -> Result<Vec<LabelUse>, AllocError> {
    let mut places: IndexMap<u32, u32, Seed> = IndexMap::with_hasher(alloc, seed);
    let mut uses = Vec::new(alloc);
    for mark in marks {
        if let Mark::Step(name) = mark {
            count_label(&mut places, &mut uses, numbering, *name)?;
        }
    }
    Ok(uses)
}

// Counts a step by a name, if that has no number.
fn count_label(
    places: &mut IndexMap<u32, u32, Seed>,
    uses: &mut Vec<LabelUse>,
    numbering: &Numbering,
    name: u32,
) -> Result<(), AllocError> {
    if let Some(place) = places.get(&name).copied() {
        if let Some(label) = uses.get_mut(place as usize) {
            label.missing = label.missing.saturating_sub(1);
        }
    } else if numbering.numbers.get(&name).is_none() {
        let index = next_number(uses.len());
        places.insert(name, index)?;
        uses.push(LabelUse {
            missing: u32::MAX - 1,
            index,
            name,
        })?;
    }
    Ok(())
}

impl Numbering {
    // Nothing is numbered.
    fn new(alloc: Global, seed: Seed) -> Numbering {
        Numbering {
            numbers: IndexMap::with_hasher(alloc, seed),
            names: 0,
        }
    }

    // Gives the next numbers to these.
    fn take(&mut self, names: &[u32]) -> Result<(), AllocError> {
        for name in names {
            self.numbers.insert(*name, self.names)?;
            self.names = self.names.saturating_add(1);
        }
        Ok(())
    }

    // The number of what a mark is of.
    fn number(&self, mark: Mark) -> Option<u32> {
        match mark {
            Mark::Step(name) => self.numbers.get(&name).copied(),
            Mark::Again(tag) => Some(self.names.saturating_add(tag)),
            Mark::Tag => None,
        }
    }

    // The code for a mark.
    fn code(&self, mark: Mark) -> Code
        ensures { HasSpelling result }
    {
        match self.number(mark) {
            Some(number) => Code::Number(number.saturating_add(1)),
            None => Code::Tag,
        }
    }

    // The codes for some marks.
    fn codes(&self, alloc: Global, marks: &[Mark]) -> Result<Vec<Code>, AllocError>
        ensures { IfOk result (λ codes. All HasSpelling codes.items) }
    {
        let mut codes = Vec::with_capacity(alloc, marks.len())?;
        for mark in marks {
            push_code(&mut codes, self.code(*mark))?;
        }
        Ok(codes)
    }
}

// Appends a code that can be written in letters to others.
fn push_code(codes: &mut Vec<Code>, code: Code) -> Result<(), AllocError>
    requires { HasSpelling code }
    ensures { OnOk result (All HasSpelling codes.old.items → All HasSpelling codes.new.items) }
{
    codes.push(code)?;
    Ok(())
}

// The names of labels in this order.
fn names_in(alloc: Global, uses: &[LabelUse]) -> Result<Vec<u32>, AllocError> {
    let mut names = Vec::with_capacity(alloc, uses.len())?;
    for label in uses {
        names.push(label.name)?;
    }
    Ok(names)
}

// The names without a number of what steps are by, those with more steps first.
fn listed_by_use(
    alloc: Global,
    seed: Seed,
    numbering: &Numbering,
    marks: &[Mark],
) -> Result<Vec<u32>, AllocError> {
    let mut labels = label_uses(alloc, seed, numbering, marks)?;
    labels.sort_unstable();
    names_in(alloc, &labels)
}

// The proof that these marks write.
fn coded_by(
    alloc: Global,
    seed: Seed,
    hypotheses: &[u32],
    marks: &[Mark],
) -> Result<Coded, AllocError>
    ensures { IfOk result (λ coded. All HasSpelling coded.codes.items) }
{
    let mut numbering = Numbering::new(alloc, seed);
    numbering.take(hypotheses)?;
    let listed = listed_by_use(alloc, seed, &numbering, marks)?;
    numbering.take(&listed)?;
    let codes = numbering.codes(alloc, marks)?;
    Ok(Coded { listed, codes })
}

// The proof of a tree, where subtrees of so many steps are tagged.
fn coded_with(
    alloc: Global,
    seed: Seed,
    tree: &Tree,
    uses: &[u32],
    hypotheses: &[u32],
    least: usize,
) -> Result<Coded, AllocError>
    ensures { IfOk result (λ coded. All HasSpelling coded.codes.items) }
{
    let marks = marks_of(alloc, tree, uses, least)?;
    let coded = coded_by(alloc, seed, hypotheses, &marks);
    drop(marks);
    coded
}

// Of two proofs the one that has fewer letters, or else the first.
fn fewer_letters(full: Coded, chosen: Coded) -> Coded
    requires full { All HasSpelling full.codes.items }
    requires chosen { All HasSpelling chosen.codes.items }
    ensures { All HasSpelling result.codes.items }
{
    if letter_count(&chosen.codes) < letter_count(&full.codes) {
        chosen
    } else {
        full
    }
}

// The smaller one of the proofs in which subtrees of two steps are tagged, or of three.
fn smaller(
    alloc: Global,
    seed: Seed,
    tree: &Tree,
    uses: &[u32],
    hypotheses: &[u32],
) -> Result<Coded, AllocError>
    ensures { IfOk result (λ coded. All HasSpelling coded.codes.items) }
{
    let full = coded_with(alloc, seed, tree, uses, hypotheses, 2)?;
    let chosen = coded_with(alloc, seed, tree, uses, hypotheses, 3)?;
    Ok(fewer_letters(full, chosen))
}

/// The small proof of a tree, whose theorem has these mandatory hypotheses: subtrees of three steps
/// are tagged, or of two, whichever has fewer letters.
pub fn small_of(
    alloc: Global,
    seed: Seed,
    tree: &Tree,
    hypotheses: &[u32],
) -> Result<Small, AllocError> {
    let uses = tree.uses(alloc)?;
    let Coded { listed, codes } = smaller(alloc, seed, tree, &uses, hypotheses)?;
    let letters = write_codes(alloc, &codes)?;
    Ok(Small { listed, letters })
}
