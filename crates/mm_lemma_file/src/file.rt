//! A file with lemmas.

ghost use Rattle.std.specs.Prelude.{◌≡◌, IfErr};
ghost use Rattle.mm_rules.specs.declared.ask.AskFault.TheVariants.{Memory};

use crate::drafts::Drafts;
use crate::edits::{Edit, Written};
use crate::labels::labels_of;
use crate::page::Page;
use crate::sites::{Sites, sites_of};
use mm_lemma_search::{Lemma, Remarks, Search, remarks_of};
use mm_lemmas::{FoundLemmas, Searched, Selection, Wording, chosen_lemmas, lemma_search};
use mm_rules::{AskFault, bytes_of};
use mm_verdict::{Checked, Watch};
use std::alloc::{AllocError, Global};

/// Which lemmas are put into which file, and how.
#[derive(Clone, Copy)]
pub struct LemmaWish<'w> {
    /// The number of the file.
    pub number: usize,
    /// Which lemmas.
    pub selection: Selection,
    /// Where it isn't empty, those alone that are told on the lines with these numbers, from 1 on, of
    /// the list of such lemmas, and those of which they are made.
    pub chosen: &'w [usize],
    /// With what their labels begin: of what labels may have.
    pub prefix: &'w [u8],
    /// What their comments say; what each is made of where there is none.
    pub comment: Option<&'w [u8]>,
}

/// A file with lemmas.
#[derive(Drop)]
pub struct LemmaFile {
    /// What changes, in the order of the places.
    pub edits: Vec<Edit>,
    /// The bytes of the file with that.
    pub bytes: Vec<u8>,
    /// Whether the search was broken off, as it took too long.
    pub is_cut: bool,
}

// How many digits the number in a lemma's label has, about.
const DIGITS: usize = 2;

// By what a search measures lemmas: too small rather than too large, since those that don't pay in
// the end are left out again; but where lines of a list are chosen, as for that list.
fn wording_of(wish: LemmaWish) -> Wording {
    if !wish.chosen.is_empty() {
        return Wording::usual();
    }
    Wording {
        label: wish.prefix.len().saturating_add(DIGITS) as u64,
        comment: 0,
    }
}

// A file as it is.
fn as_it_is(alloc: Global, bytes: &[u8], is_cut: bool) -> Result<LemmaFile, AllocError> {
    Ok(LemmaFile {
        edits: Vec::new(alloc),
        bytes: Vec::from_slice(alloc, bytes)?,
        is_cut,
    })
}

// A file that was written, unless it is longer than it was.
fn if_no_longer(
    alloc: Global,
    old: &[u8],
    written: Written,
    is_cut: bool,
) -> Result<LemmaFile, AllocError> {
    let Written { edits, bytes, .. } = written;
    if bytes.len() <= old.len() {
        return Ok(LemmaFile {
            edits,
            bytes,
            is_cut,
        });
    }
    drop(edits);
    drop(bytes);
    as_it_is(alloc, old, is_cut)
}

// The lemmas of a search that are chosen and pay, put into a file.
fn drafted(
    alloc: Global,
    page: Page,
    search: Search,
    is_chosen: Result<Vec<bool>, AllocError>,
) -> Result<Written, AllocError> {
    match is_chosen {
        Ok(is_chosen) => {
            let mut drafts = Drafts::new(alloc, page, search, is_chosen);
            let written = drafts.write();
            drop(drafts);
            written
        }
        Err(error) => {
            drop(search);
            Err(error)
        }
    }
}

// Lemmas that were found for a file, put into it.
fn with_lemmas(
    alloc: Global,
    checked: &Checked,
    wish: LemmaWish,
    remarks: &Remarks,
    sites: &Sites,
    search: Search,
    lemmas: &[Lemma],
) -> Result<Written, AllocError> {
    match labels_of(alloc, wish.prefix, &sites.taken, lemmas.len()) {
        Ok(labels) => {
            let page = Page {
                checked,
                book: &checked.book,
                bytes: bytes_of(checked.files, wish.number),
                remarks,
                sites,
                lemmas,
                labels: &labels,
                comment: wish.comment,
            };
            let (selection, chosen) = (wish.selection, wish.chosen);
            let is_chosen = chosen_lemmas(alloc, checked, remarks, selection, lemmas, chosen);
            let written = drafted(alloc, page, search, is_chosen);
            drop(labels);
            written
        }
        Err(error) => {
            drop(search);
            Err(error)
        }
    }
}

// A file with the lemmas of a search.
fn file_of(
    alloc: Global,
    checked: &Checked,
    wish: LemmaWish,
    remarks: &Remarks,
    sites: &Sites,
    searched: Searched,
) -> Result<LemmaFile, AllocError> {
    let Searched { search, found } = searched;
    let FoundLemmas { lemmas, is_cut } = found;
    let written = with_lemmas(alloc, checked, wish, remarks, sites, search, &lemmas);
    drop(lemmas);
    let old = bytes_of(checked.files, wish.number);
    if_no_longer(alloc, old, written?, is_cut)
}

// A file with lemmas, of which this is said and read.
fn file_with<W: Watch>(
    alloc: Global,
    checked: &Checked,
    wish: LemmaWish,
    remarks: &Remarks,
    sites: &Sites,
    watch: &mut W,
) -> Result<LemmaFile, AskFault>
    ensures memory { IfErr result (λ fault. fault ≡ Memory) }
{
    let wording = wording_of(wish);
    match lemma_search(alloc, checked, remarks, wish.selection, wording, watch)? {
        Some(searched) => Ok(file_of(alloc, checked, wish, remarks, sites, searched)?),
        None => Ok(as_it_is(alloc, bytes_of(checked.files, wish.number), false)?),
    }
}

// A file with lemmas, of whose database this is said. Where lines of a list are chosen, they are
// sought as for that list: also by the proofs of other files.
fn file_by<W: Watch>(
    alloc: Global,
    checked: &Checked,
    wish: LemmaWish,
    remarks: &mut Remarks,
    watch: &mut W,
) -> Result<LemmaFile, AskFault>
    ensures memory { IfErr result (λ fault. fault ≡ Memory) }
{
    let sites = sites_of(alloc, checked, wish.number, wish.prefix)?;
    if wish.chosen.is_empty() {
        sites.bound(remarks);
    }
    let file = file_with(alloc, checked, wish, remarks, &sites, watch);
    drop(sites);
    file
}

/// A file of a database with the lemmas put in that a search finds, as far as they are chosen and
/// pay, and with the proofs that become shorter by them. Only proofs of this file are written anew.
/// The watch is told how far the search has come.
///
/// # Errors
///
/// Only where a growth was refused.
pub fn lemma_file<W: Watch>(
    alloc: Global,
    checked: &Checked,
    wish: LemmaWish,
    watch: &mut W,
) -> Result<LemmaFile, AskFault>
    ensures memory { IfErr result (λ fault. fault ≡ Memory) }
{
    let mut remarks = remarks_of(alloc, checked)?;
    let file = file_by(alloc, checked, wish, &mut remarks, watch);
    drop(remarks);
    file
}
