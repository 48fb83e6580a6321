//! What holds of the tokens and of the readings of all files. A law is the contract of a function
//! that does nothing: what it ensures is proved, and there is no need to call it.

ghost use Rattle.mm_text.specs.Alike.{AlikeFilesAreReadAlike};
ghost use Rattle.mm_text.specs.Included.{AlikeFilesLeaveOutTheSame};
ghost use Rattle.mm_text.specs.Laws.{BeginningsBeginStatements, EachHasOneReading};
ghost use Rattle.mm_text.specs.Laws.{FaultsEndLongestPrefixes, InclusionsEnd};
ghost use Rattle.mm_text.specs.Replaced.{ProofSpansFollow, ProofsStandInSpans};
ghost use Rattle.mm_text.specs.Replaced.{ReplacedProofsAreRead};

/// Any files have exactly one reading (the Metamath book, sections 4.1 and 4.2): there are
/// statements and an ending, or none, that the grammar allows as their reading, and whatever else
/// the grammar allows as their reading is the same statements and the same ending.
#[tactic(auto, using(crate::proofs::Reader::WholeReadings::each_has_one_reading))]
pub fn one_reading()
    ensures { EachHasOneReading }
{}

/// The beginnings of statements, of which the grammar speaks apart from whole statements, are
/// exactly the prefixes of whole statements: tokens are a beginning if some more tokens make a
/// whole statement of them, and only then.
pub fn beginnings_begin_statements()
    ensures { BeginningsBeginStatements }
{}

/// A fault that ends a reading comes after the longest prefix of the files' items that is whole
/// statements and at most a beginning of one, with no `$}` that lacks its `${`, no inclusion in a
/// block or in a statement, no file that ends in a statement and no top file that ends in a block:
/// no longer prefix of the items is.
pub fn faults_end_longest_prefixes()
    ensures { FaultsEndLongestPrefixes }
{}

/// The definition of the items puts in at most as many files as there are beside the top file. That
/// more could be put in would change nothing, so this bound keeps no file out.
#[tactic(auto, using(crate::proofs::Inclusions::EachOnce::inclusions_end))]
pub fn inclusions_end()
    ensures { InclusionsEnd }
{}

/// What comments say has no effect (the Metamath book, section 4.1.2): files with the same names
/// that show the same outside comments have the same readings, but for the positions of their
/// tokens. They show the same if they have the same tokens there on the same lines and, where a
/// comment of the one is at fault, the other has a fault of that rule on that line.
#[tactic(auto, using(crate::proofs::Alike::AlikeItems::alike_files_are_read_alike))]
pub fn alike_files_are_read_alike()
    ensures { AlikeFilesAreReadAlike }
{}

/// What comments say includes no file: of files with the same names that show the same outside
/// comments the same are left out.
#[tactic(auto, using(crate::proofs::Inclusions::FilesLeftOut::alike_files_leave_out_the_same))]
pub fn alike_files_leave_out_the_same()
    ensures { AlikeFilesLeaveOutTheSame }
{}

/// In the reading of files, also one that a fault ends, the bytes of a proof stand in the file of
/// its statement's first token, where the statement's span says: the tokens in them, outside
/// comments, are exactly those of the proof, each at its position in the file.
#[tactic(auto, using(crate::proofs::Replaced::ProofSpans::proofs_stand_in_spans_holds))]
pub fn proofs_stand_in_spans()
    ensures { ProofsStandInSpans }
{}

/// In the reading of files, also one that a fault ends, the proofs of one file stand in the order
/// of their statements, without overlap: the proof of a later `$p` stands behind that of an earlier
/// one.
#[tactic(auto, using(crate::proofs::Replaced::ProofSpans::proof_spans_follow_holds))]
pub fn proof_spans_follow()
    ensures { ProofSpansFollow }
{}

/// A proof may be replaced in the bytes of its file: with other tokens of a proof between its `$=`
/// and its `$.`, files without a fault are read as the same statements, but for that proof, and but
/// for the positions of what comes after it. Later proofs of that file stand as far behind it as
/// they did, those of other files where they did.
#[tactic(auto, using(crate::proofs::Replaced::ReplacedFiles::replaced_proofs_are_read_holds))]
pub fn replaced_proofs_are_read()
    ensures { ReplacedProofsAreRead }
{}
