//! Laws of replies that are alike: what comments say changes no reply to `check`, and a theorem's own
//! proof is told as a text with its tokens is. The functions do nothing: their contracts are the laws.

ghost use Rattle.mm_check.specs.Alike.{AlikeFilesHaveOneReply};
ghost use Rattle.mm_check.specs.AloneLaws.{OwnProofIsTriedAlike};

/// What comments say changes no reply to `check` (the Metamath book, section 4.1.2): files with the
/// same names that show the same outside comments (the same tokens on the same lines, and the same
/// fault of a comment, if there is one) have the same reply to `check`, as long as neither has more
/// bytes than files may have.
pub fn alike_files_have_one_reply()
    ensures { AlikeFilesHaveOneReply }
{}

/// What is told of a theorem's own proof, and what is told of a text with the same tokens, agree:
/// that it is a proof; that it is incomplete, and breaks no rule as far as it is known; or its
/// first fault, at its step.
pub fn own_proof_is_tried_alike()
    ensures { OwnProofIsTriedAlike }
{}
