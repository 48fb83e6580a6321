//! Laws of verdicts on proofs. The functions do nothing: their contracts are the laws.

ghost use Rattle.mm_proof.specs.Laws.{OneFit, OneTree, MadeByWord, ByWord, BySpelling};
ghost use Rattle.mm_proof.specs.Laws.{LimitsAside};
ghost use Rattle.mm_proof.specs.UnderProfile.{OneVerdictUnder, OnePrefixVerdictUnder};
ghost use Rattle.mm_forms.specs.SharingLaws.{OnePacked, SomePacked};
ghost use Rattle.mm_forms.specs.SharingLaws.{StepsMakeChildren, FewestSteps, ToldByPacked};
ghost use Rattle.mm_forms.specs.SmallLaws.{OneSmall, NoBetterOrder};
ghost use Rattle.mm_forms.specs.SmallLaws.{SmallIsNoLarger, SomeSmall};

/// A spelling spells one tree.
///
/// After statements that break no rule of meaning, trees that fit (each leaf names an active
/// hypothesis, each node an earlier assertion, with as many trees below as it has mandatory
/// hypotheses) and have equal spellings are equal, whether they derive anything or not.
#[tactic(auto, using(mm_step::proofs::ProofSteps::Derivations::one_fit_holds))]
pub fn one_fit()
    ensures { OneFit }
{}

/// A proof spells one tree.
///
/// After statements that break no rule of meaning, trees that derive expressions and have equal
/// spellings are equal, and derive the same expressions. So the tree of a proof that is proved is
/// one, and what each of its steps makes is determined.
#[tactic(auto, using(mm_proof::proofs::ProofVerdicts::FirstFault::one_tree_holds))]
pub fn one_tree()
    ensures { OneTree }
{}

/// What moves make is given by their word.
///
/// The moves of a proof that make trees have a word, the labels that these trees spell, and each
/// kept tree spells the word that stands in place of its tag. After statements that break no rule
/// of meaning, trees that fit and that the word spells are those that the moves make, and they make
/// no others. So the tree of a compressed proof is that of its labels with each tag written out
/// (the Metamath book, section 4.4.3 and appendix B).
pub fn made_by_word()
    ensures { MadeByWord }
{}

/// What is proved is given by a word.
///
/// After statements that break no rule of meaning, the moves of a proof make a tree that derives
/// the statement's expression exactly if their word spells a tree that does. So sharing steps by
/// tags proves what the proof with each tag written out proves, and nothing else.
#[tactic(auto, using(mm_forms::proofs::TreeBuilding::TreeWords::by_word_holds))]
pub fn by_word()
    ensures { ByWord }
{}

/// A normal proof is given by its labels.
///
/// After statements that break no rule of meaning, a normal proof that breaks no rule over the
/// whole of it proves its statement exactly if its labels spell a tree that derives the statement's
/// expression (the Metamath book, section 4.3).
#[tactic(auto, using(mm_forms::proofs::TreeBuilding::TreeWords::by_spelling_holds))]
pub fn by_spelling()
    ensures { BySpelling }
{}

/// Each proof has one verdict under a profile.
///
/// After statements that are in form and break no rule of meaning, the tokens of a proof prove
/// their statement under the profile, or they have a fault: a rule, or the form that the profile
/// demands of a compressed proof (the Metamath book, appendix B). No proof is told to be proved and
/// at fault, or to be at fault in two ways.
pub fn one_verdict_under()
    ensures { OneVerdictUnder }
{}

/// Each checked prefix has one verdict under a profile.
///
/// The same as of a whole proof holds of the known prefix of an incomplete one (the Metamath book,
/// section 4.4.4).
pub fn one_prefix_verdict_under()
    ensures { OnePrefixVerdictUnder }
{}

/// What the limit on an expression's length changes, and that it changes nothing else.
///
/// After statements that break no rule of meaning, a proof that makes a derivation of its
/// statement's expression (the Metamath book, section 4.3) either does so within the limit, or its
/// fault is `L1`, at the first step that passes the limit. No other fault is one of such a proof:
/// where another rule is named, no derivation is made, however long expressions may be.
pub fn limits_aside()
    ensures { LimitsAside }
{}

/// A tree has one fully shared proof at most.
///
/// After statements that break no rule of meaning, two fully shared proofs of one tree have the
/// same listed labels and the same codes.
pub fn one_packed()
    ensures { OnePacked }
{}

/// What a proof of a tree has at least.
///
/// A compressed proof that makes a tree has one step, and one more for each child of each tree that
/// its steps by labels make; a hypothesis has no children. Each subtree is among these trees.
pub fn steps_make_children()
    ensures { StepsMakeChildren }
{}

/// A fully shared proof has the fewest steps.
///
/// It makes each subtree of two or more nodes once, so that it has one step, and one more for each
/// child of each of these subtrees. No compressed proof that makes the same tree has fewer steps.
pub fn fewest_steps()
    ensures { FewestSteps }
{}

/// Two trees are equal exactly if their fully shared proofs are.
///
/// After statements that break no rule of meaning, the listed labels and the codes of the fully
/// shared proofs of two trees are the same exactly if the trees are.
pub fn told_by_packed()
    ensures { ToldByPacked }
{}

/// A tree that fits has a fully shared proof.
///
/// After statements in form each tree that fits (each leaf names an active hypothesis, each node an
/// earlier assertion, with as many trees below as it has mandatory hypotheses) has one, whether it
/// derives anything or not.
#[tactic(auto, using(mm_forms::proofs::FullSharing::OneSharedProof::some_packed_holds))]
pub fn some_packed()
    ensures { SomePacked }
{}

/// A tree has one small proof at most.
///
/// After statements that break no rule of meaning, two small proofs of one tree have the same
/// listed labels and the same codes.
pub fn one_small()
    ensures { OneSmall }
{}

/// No list gives fewer letters than the one by use.
///
/// After statements that break no rule of meaning, where the labels are listed by use, the codes
/// that say the moves of a proof have at most as many letters as any codes that say these moves,
/// whatever labels are listed for them and in whatever order (the Metamath book, appendix B).
pub fn no_better_order()
    ensures { NoBetterOrder }
{}

/// A small proof is no larger than the fully shared one.
///
/// After statements that break no rule of meaning, the codes of the small proof of a tree have at
/// most as many letters as those of its fully shared proof.
pub fn small_is_no_larger()
    ensures { SmallIsNoLarger }
{}

/// A tree that fits has a small proof.
///
/// After statements in form that break no rule of meaning, each tree that fits (each leaf names an
/// active hypothesis, each node an earlier assertion, with as many trees below as it has mandatory
/// hypotheses) has one, whether it derives anything or not.
pub fn some_small()
    ensures { SomeSmall }
{}
