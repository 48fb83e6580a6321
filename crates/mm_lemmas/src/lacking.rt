//! The lemmas that a database lacks, as a list.

ghost use Rattle.std.specs.Prelude.{◌≡◌, List, None, IfOk, IfErr};
ghost use Rattle.mm_base.specs.Statement.{PlainStatement};
ghost use Rattle.mm_text.specs.Reading.{Reads};
ghost use Rattle.mm_rules.specs.declared.ask.AskFault.TheVariants.{Memory};
ghost use Rattle.mm_lemmas.specs.Told.{ListsLemmas};

use crate::listing::listed;
use mm_frame::{Book, LabelId, LabelKind, Sym};
use mm_lemma_search::{
    LEMMA_STEPS, Lemma, Proved, Remark, Remarks, Search, Wanted, Words, remarks_of,
};
use mm_patterns::Library;
use mm_proof::StepsReader;
use mm_rules::AskFault;
use mm_terms::{Budget, next_number};
use mm_verdict::{Checked, Rereading, Watch};
use std::alloc::{AllocError, Global};

/// Which lemmas are listed.
#[derive(Clone, Copy, PartialEq, Eq, Debug)]
pub struct Selection {
    /// So many at most.
    pub most: usize,
    /// Those that save so many bytes or more.
    pub least: usize,
}

/// A list of lemmas.
#[derive(Drop)]
pub struct LemmaList {
    /// Their lines, and the sums.
    pub text: Vec<u8>,
    /// Whether the search was broken off, as it took too long.
    pub is_cut: bool,
}

/// What a search found, and whether it was broken off.
#[derive(Drop)]
pub struct FoundLemmas {
    pub lemmas: Vec<Lemma>,
    pub is_cut: bool,
}

/// A search, and what it found.
#[derive(Drop)]
pub struct Searched {
    /// The library and its proofs, as they are with the lemmas.
    pub search: Search,
    pub found: FoundLemmas,
}

/// About how many bytes the label and the comment of a lemma have.
#[derive(Clone, Copy)]
pub struct Wording {
    pub label: u64,
    pub comment: u64,
}

// Those of lemmas as keepers write them.
const USUAL: Wording = Wording {
    label: 6,
    comment: 58,
};

impl Wording {
    /// By what lists of lemmas measure them.
    pub fn usual() -> Wording {
        USUAL
    }
}

// The type code of the variable of a `$f`.
fn floating_code(book: &Book, id: LabelId) -> Option<Sym> {
    if book.kind(id) == LabelKind::Floating {
        book.expression(id).first().copied()
    } else {
        None
    }
}

// The type codes of variables.
fn variable_codes(alloc: Global, book: &Book, count: u32) -> Result<Vec<Sym>, AllocError> {
    let mut codes = Vec::new(alloc);
    for number in 0..count {
        if let Some(code) = floating_code(book, LabelId(number)) {
            if !codes.contains(&code) {
                codes.push(code)?;
            }
        }
    }
    Ok(codes)
}

// The type code of the first `$e` that isn't among these.
fn other_code(book: &Book, count: u32, codes: &[Sym]) -> Option<Sym> {
    for number in 0..count {
        let id = LabelId(number);
        if book.kind(id) == LabelKind::Essential {
            if let Some(code) = book.expression(id).first().copied() {
                if !codes.contains(&code) {
                    return Some(code);
                }
            }
        }
    }
    None
}

// The type code of what is provable: that of the first `$e` whose code no variable has.
fn provable_code(alloc: Global, book: &Book, count: u32) -> Result<Option<Sym>, AllocError> {
    let codes = variable_codes(alloc, book, count)?;
    Ok(other_code(book, count, &codes))
}

// Enters the labelled statements of a database of which this is said.
fn enter_each(library: &mut Library, book: &Book, remarks: &[Remark]) -> Result<(), AllocError> {
    let mut number = 0u32;
    for remark in remarks {
        library.enter(book, LabelId(number), remark.standing)?;
        number = number.saturating_add(1);
    }
    Ok(())
}

// The library of a database of which this is said.
fn library_of(
    alloc: Global,
    book: &Book,
    remarks: &[Remark],
    provable: Sym,
) -> Result<Library, AllocError> {
    let mut library = Library::new(alloc, book.seed(), provable);
    match enter_each(&mut library, book, remarks) {
        Ok(()) => Ok(library),
        Err(error) => {
            drop(library);
            Err(error)
        }
    }
}

// The theorem with a number, if its proof may be rewritten.
fn proved_at(remarks: &[Remark], id: LabelId) -> Option<Proved> {
    let remark = remarks.get(id.0 as usize)?;
    if remark.is_settled {
        return None;
    }
    Some(Proved {
        id,
        block: remark.standing.block,
        mathbox: remark.standing.mathbox,
    })
}

// Takes the theorems with complete proofs into a search.
fn take_each<'a>(
    search: &mut Search,
    alloc: Global,
    checked: &Checked<'a>,
    remarks: &[Remark],
) -> Result<(), AskFault>
    ensures memory { IfErr result (λ fault. fault ≡ Memory) }
{
    let mut reading = Rereading::new(alloc, checked)?;
    let mut steps = StepsReader::new(alloc);
    for _ in 0..checked.proofs() {
        let Some(id) = reading.next_theorem(checked)? else {
            return Ok(());
        };
        if let Some(proved) = proved_at(remarks, id) {
            let theorem = checked.theorem_at(&mut steps, alloc, &reading.statement, id)?;
            search.take(&checked.book, proved, &theorem.steps)?;
        }
    }
    Ok(())
}

/// The search for the lemmas of a database of which this is said; none where nothing is provable. It
/// rewrites no settled proof.
pub fn lemma_search<W: Watch>(
    alloc: Global,
    checked: &Checked,
    remarks: &Remarks,
    selection: Selection,
    wording: Wording,
    watch: &mut W,
) -> Result<Option<Searched>, AskFault>
    ensures memory { IfErr result (λ fault. fault ≡ Memory) }
{
    let count = next_number(remarks.remarks.len());
    let Some(provable) = provable_code(alloc, &checked.book, count)? else {
        return Ok(None);
    };
    let library = library_of(alloc, &checked.book, &remarks.remarks, provable)?;
    let mut search = Search::new(library, remarks.first_mathbox);
    let wanted = wanted_by(selection, wording, words_of(remarks));
    match search_for(&mut search, alloc, checked, &remarks.remarks, wanted, watch) {
        Ok(found) => Ok(Some(Searched { search, found })),
        Err(fault) => {
            drop(search);
            Err(fault)
        }
    }
}

// The lemmas of a database of which this is said.
fn found<W: Watch>(
    alloc: Global,
    checked: &Checked,
    remarks: &Remarks,
    selection: Selection,
    watch: &mut W,
) -> Result<FoundLemmas, AskFault>
    ensures memory { IfErr result (λ fault. fault ≡ Memory) }
{
    match lemma_search(alloc, checked, remarks, selection, USUAL, watch)? {
        Some(Searched { search, found }) => {
            drop(search);
            Ok(found)
        }
        None => Ok(FoundLemmas {
            lemmas: Vec::new(alloc),
            is_cut: false,
        }),
    }
}

// The lemmas that a search finds.
fn search_for<W: Watch>(
    search: &mut Search,
    alloc: Global,
    checked: &Checked,
    remarks: &[Remark],
    wanted: Wanted,
    watch: &mut W,
) -> Result<FoundLemmas, AskFault>
    ensures memory { IfErr result (λ fault. fault ≡ Memory) }
{
    take_each(search, alloc, checked, remarks)?;
    let mut budget = Budget::new(LEMMA_STEPS);
    let lemmas = search.lemmas(wanted, &mut budget, watch)?;
    Ok(FoundLemmas {
        lemmas,
        is_cut: budget.is_used_up(),
    })
}

/// By what the lemmas of a database are written of which this is said.
pub(crate) fn words_of<'w, 'a>(remarks: &'w Remarks<'a>) -> Words<'w, 'a> {
    Words {
        names: &remarks.names,
        variables: &remarks.variables,
    }
}

// What is wanted of the lemmas that are asked for.
fn wanted_by<'w, 'a>(
    selection: Selection,
    wording: Wording,
    words: Words<'w, 'a>,
) -> Wanted<'w, 'a> {
    Wanted {
        most: selection.most,
        least: selection.least as u64,
        label: wording.label,
        comment: wording.comment,
        words,
    }
}

/// A line for each theorem that the database lacks, as a search finds them, and their sums. That they
/// are the best, that they follow and what they save is up to the search. The watch is told how far
/// it has come.
pub fn lemma_list<W: Watch>(
    alloc: Global,
    checked: &Checked,
    selection: Selection,
    watch: &mut W,
) -> Result<LemmaList, AskFault>
    ensures list { IfOk result (λ list. (statements : List PlainStatement)
        → Reads checked.now.files statements None
        → ListsLemmas selection.most selection.least statements list.text.items) }
    ensures memory { IfErr result (λ fault. fault ≡ Memory) }
{
    let remarks = remarks_of(alloc, checked)?;
    let found = found(alloc, checked, &remarks, selection, watch)?;
    let text = listed(
        alloc,
        checked,
        words_of(&remarks),
        &found.lemmas,
        selection.most,
        selection.least,
    )?;
    Ok(LemmaList {
        text,
        is_cut: found.is_cut,
    })
}
