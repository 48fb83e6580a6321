//! What can be asked: the commands, and their questions about the database, about a theorem, and
//! about a theorem alone. The crates above answer them.

use crate::form::Form;
use mm_step::Profile;

/// What the program is asked.
#[derive(Clone, Copy, PartialEq, Eq, Debug)]
pub enum Command<'a> {
    /// A question about the whole database under this profile. The other commands ask under the
    /// lenient one.
    Whole {
        profile: Profile,
        question: WholeQuestion,
    },
    /// A question about the theorem with this label.
    About {
        label: &'a [u8],
        question: Question<'a>,
    },
    /// A question about the theorem with this label alone, over the statements before it.
    Lone {
        label: &'a [u8],
        question: LoneQuestion<'a>,
    },
    /// Of the statement with this label, whatever its kind: where it stands, its frame and what it
    /// says; if `comment`, first the comment right before it. What stands after it isn't read, and
    /// no proof is judged.
    Statement {
        label: &'a [u8],
        comment: bool,
    },
    /// For the bytes of the handed file with this number, which is below the count of files, with
    /// each complete proof in this form.
    File {
        form: Form,
        file: usize,
    },
    /// For the bytes of the handed file with this number, which is below the count of files, with
    /// each proof replaced that becomes shorter by what the library has; if `duplicates`, also by one
    /// that uses one assertion alone besides those of syntax.
    Shorter {
        file: usize,
        duplicates: bool,
    },
    /// For a line for each lemma that the library lacks, as a search finds them: so many at most,
    /// each of which saves so many bytes or more.
    Lemmas {
        most: usize,
        least: usize,
    },
    /// For a line for each assertion with each of these patterns, whatever the proofs; if `whole`,
    /// as whole expressions; if `shape`, with each variable for one of its type, one for one; if
    /// `hypotheses`, also in essential hypotheses. A pattern has at most 1,073,741,824 bytes, and its
    /// tokens stand between white space. Where there is none, for each assertion.
    Find {
        patterns: &'a [&'a [u8]],
        whole: bool,
        shape: bool,
        hypotheses: bool,
    },
}

/// A question about the whole database.
#[derive(Clone, Copy, PartialEq, Eq, Debug)]
pub enum WholeQuestion {
    /// Whether it is accepted.
    Check,
    /// For all its faults, in one run.
    Faults,
    /// For an explanation of each of them; if `source`, with the line of the file in which it is.
    Why { source: bool },
    /// What each theorem depends on; if `essential`, of the axioms those alone that have its type
    /// code.
    Axioms { essential: bool },
    /// Which proofs become shorter by what the library has.
    Shorter,
}

/// A question about the theorem with a label, or about the assertion.
#[derive(Clone, Copy, PartialEq, Eq, Debug)]
pub enum Question<'a> {
    /// What it depends on; if `essential`, of the axioms those alone that have its type code.
    Axioms { essential: bool },
    /// Why it depends on the assertion with this label: for a shortest chain of uses.
    Chain(&'a [u8]),
    /// How it is proved, step by step.
    Show,
    /// The same, with the place and the letters of each step.
    Letters,
    /// What each step of its proof uses; if `essential`, of the steps alone that are reached from
    /// the last one through `$e`.
    Uses { essential: bool },
    /// For its proof in this form; if `whole`, for the bytes of its file, with this proof in place of
    /// its own.
    Form { form: Form, whole: bool },
    /// Whether this text is the same proof.
    Same(&'a [u8]),
    /// Of the assertion with the label: for the theorems whose proofs use it; if `all`, for those
    /// that depend on it.
    Users { all: bool },
    /// For the small text of its shortest proof by what the library has; if `whole`, for the bytes
    /// of its file, with this proof in place of its own, where it becomes shorter.
    Minimized { whole: bool },
}

/// What is told of each step of a proof, besides what it is called and its expression.
#[derive(Clone, Copy, PartialEq, Eq, Debug)]
pub enum Telling {
    /// Nothing.
    Steps,
    /// Where it stands, and its letters.
    Letters,
    /// What it uses; if `essential`, of the steps alone that are reached, through `$e`, from those
    /// that made what is left on the stack.
    Uses { essential: bool },
}

/// A question about the theorem with a label alone, over the statements before it, whatever their
/// proofs. What stands after it isn't read.
#[derive(Clone, Copy, PartialEq, Eq, Debug)]
pub enum LoneQuestion<'a> {
    /// How it is proved, step by step, as far as that is known.
    Known(Telling),
    /// For its normal proof, as far as that is known.
    KnownNormal,
    /// Whether this text is a proof of it, whatever stands in the file as its proof. Its name is
    /// that of the file that holds it: the place of a fault is reported in that file.
    Try { name: &'a [u8], text: &'a [u8] },
}
