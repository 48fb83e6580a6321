//! Laws of verdicts and of reports. The functions do nothing: their contracts are the laws.

ghost use Rattle.mm_laws.specs.AllSavedLaws.{SavingAllChangesNoAnswer, AllSavedProofsAreStrict};
ghost use Rattle.mm_laws.specs.AllSavedLaws.{OneAllSaved, SavingAllAgainChangesNothing};
ghost use Rattle.mm_laws.specs.AllSavedLaws.{AllSmallFilesDoNotGrow};
ghost use Rattle.mm_laws.specs.AllShorterLaws.{ShorteningChangesNoVerdict};
ghost use Rattle.mm_laws.specs.AllShorterLaws.{ShortenedFilesDoNotGrow};
ghost use Rattle.mm_verdict.specs.FaultLaws.{FirstFaultIsTold};
ghost use Rattle.mm_laws.specs.FormLaws.{PackedTextsTell};
ghost use Rattle.mm_verdict.specs.Laws.{OneVerdict, SomeVerdict, BetweenProfiles, OneReport};
ghost use Rattle.mm_laws.specs.SavedLaws.{SavingChangesNoAnswer, SavedProofIsStrict, OneSaved};
ghost use Rattle.mm_laws.specs.SavedLaws.{SavingAgainChangesNothing, SmallFilesDoNotGrow};
ghost use Rattle.mm_axioms.specs.Users.{ReportsTellUsers};

/// Files have at most one verdict: it can't be said of them both that they obey the rules and that
/// a statement is at fault, nor that two statements are, nor that one is in two ways.
pub fn one_verdict()
    ensures { OneVerdict }
{}

/// Files of every kind have a verdict: the rules leave no case out.
pub fn some_verdict()
    ensures { SomeVerdict }
{}

/// Files that get yes under one profile get yes under the other, with the same numbers of
/// statements and of proofs, or are refused by a rule that is the other's own: under the strict
/// profile `P15`, the form of a proof; under the lenient one `L1`, the length of an expression.
pub fn between_profiles()
    ensures { BetweenProfiles }
{}

/// The first of all faults of files is the one that the verdict tells; there is no fault exactly
/// where the verdict tells none, so where it is yes, or that proofs are incomplete.
pub fn first_fault_is_told()
    ensures { FirstFaultIsTold }
{}

/// What a theorem rests on is told in one way: two reports over statements that obey the rules,
/// for one label, have the same axioms and the same unproved theorems, in the same order.
pub fn one_report()
    ensures { OneReport }
{}

/// An axiom is in the report of a theorem exactly if the theorem is among all users of the axiom;
/// so is an unproved theorem.
pub fn reports_tell_users()
    ensures { ReportsTellUsers }
{}

/// Two proofs of a statement are the same, in that they make one tree, exactly if the texts of
/// their packed proofs are equal. This holds in files in which nothing is at fault.
pub fn packed_texts_tell()
    ensures { PackedTextsTell }
{}

/// Saving changes nothing that is answered: where a profile accepts the files, then with the new
/// bytes in place of the old they have the same verdict under it, each complete proof has the same
/// tree, and each theorem depends on the same axioms and unproved theorems.
pub fn saving_changes_no_answer()
    ensures { SavingChangesNoAnswer }
{}

/// The proof that stands in the file after saving has the strict form, whatever the profile is in
/// which the files are accepted; or it is the one that stood there, which small form keeps.
pub fn saved_proof_is_strict()
    ensures { SavedProofIsStrict }
{}

/// What is saved of a theorem in a form is one: one number of a file, and its bytes.
pub fn one_saved()
    ensures { OneSaved }
{}

/// A theorem that was saved is saved again in the same form, as the same bytes and no others.
pub fn saving_again_changes_nothing()
    ensures { SavingAgainChangesNothing }
{}

/// Saving all proofs of a file changes nothing that is answered: where a profile accepts the files,
/// then with the new bytes in place of the old they have the same verdict under it, each complete
/// proof has the same tree, and each theorem depends on the same axioms and unproved theorems.
pub fn saving_all_changes_no_answer()
    ensures { SavingAllChangesNoAnswer }
{}

/// Each complete proof that stands in a file after all its complete proofs were saved has the
/// strict form, whatever the profile is in which the files are accepted; or it is the one that
/// stood there, which small form keeps.
pub fn all_saved_proofs_are_strict()
    ensures { AllSavedProofsAreStrict }
{}

/// What is saved of all proofs of a file in a form is one: its bytes.
pub fn one_all_saved()
    ensures { OneAllSaved }
{}

/// A file all of whose proofs were saved is saved again in the same form, as the same bytes and no
/// others.
pub fn saving_all_again_changes_nothing()
    ensures { SavingAllAgainChangesNothing }
{}

/// In small form no file grows: its new bytes are at most as many as before, whether the proof of
/// one theorem is saved or all of its proofs.
pub fn small_files_do_not_grow()
    ensures one { SmallFilesDoNotGrow }
    ensures all { AllSmallFilesDoNotGrow }
{}

/// Putting shorter proofs into a file changes no verdict under the profile that accepts the files and
/// by which the proofs were found: with the new bytes in place of the old, the files say the same and
/// have the same verdicts under it. Of the other profile nothing is said. Each proof is as it was, or
/// stands in that file, has the strict form and spells a shorter tree of its theorem. No theorem
/// depends on an axiom or an unproved theorem on which it didn't rest before.
pub fn shortening_changes_no_verdict()
    ensures { ShorteningChangesNoVerdict }
{}

/// A file into which shorter proofs are put doesn't grow: its new bytes are at most as many as
/// before.
pub fn shortened_files_do_not_grow()
    ensures { ShortenedFilesDoNotGrow }
{}
