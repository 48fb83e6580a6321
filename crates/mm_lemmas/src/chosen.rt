//! Lemmas that are chosen by the numbers of the lines that tell them.

use crate::lacking::{Selection, words_of};
use crate::listing::lines_of;
use mm_lemma_search::{Lemma, Part, Remarks};
use mm_verdict::Checked;
use std::alloc::{AllocError, Global};

// For each of these lines whether it is chosen, and for each further lemma that it isn't.
fn on_lines(
    alloc: Global,
    lines: &[usize],
    chosen: &[usize],
    count: usize,
) -> Result<Vec<bool>, AllocError> {
    let mut is_chosen = vec![in alloc; false; count]?;
    for (is, line) in is_chosen.iter_mut().zip(lines) {
        *is = *line > 0 && chosen.contains(line);
    }
    Ok(is_chosen)
}

// Chooses what a step is by, if that is a lemma.
fn choose_part(is_chosen: &mut [bool], part: Part) {
    if let Part::Lemma(lemma) = part {
        if let Some(is) = is_chosen.get_mut(lemma as usize) {
            *is = true;
        }
    }
}

// Chooses also what the chosen ones are made of, which are found before them.
fn choose_parts(is_chosen: &mut [bool], lemmas: &[Lemma]) {
    for behind in 0..lemmas.len() {
        let index = lemmas.len() - 1 - behind;
        if is_chosen.get(index).copied() == Some(true) {
            choose_part(is_chosen, lemmas[index].upper);
            choose_part(is_chosen, lemmas[index].lower);
        }
    }
}

/// For each of these lemmas whether it is chosen: where no line is, all are; else those that the
/// lines with these numbers tell, from 1 on, in the list of such lemmas, and those of which they are
/// made. A number that no line has chooses nothing.
pub fn chosen_lemmas(
    alloc: Global,
    checked: &Checked,
    remarks: &Remarks,
    selection: Selection,
    lemmas: &[Lemma],
    chosen: &[usize],
) -> Result<Vec<bool>, AllocError> {
    if chosen.is_empty() {
        return vec![in alloc; true; lemmas.len()];
    }
    let Selection { most, least } = selection;
    let lines = lines_of(alloc, checked, words_of(remarks), lemmas, most, least)?;
    let mut is_chosen = on_lines(alloc, &lines, chosen, lemmas.len())?;
    choose_parts(&mut is_chosen, lemmas);
    Ok(is_chosen)
}
