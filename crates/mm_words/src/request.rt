//! What the program is asked: what `request_of` makes of its words.

/// What is asked about a proof's text and a theorem.
#[derive(Clone, Copy, PartialEq, Eq, Debug)]
pub enum TextQuestion {
    /// Whether the text is the same proof as the theorem's own.
    Same,
    /// Whether it is a proof of the theorem.
    Try,
}

/// A question about the text in the file `proof` and the theorem with a label, in the database in
/// the files with these names.
#[derive(Drop)]
pub struct AskedText<'a> {
    pub question: TextQuestion,
    pub label: &'a str,
    pub proof: &'a str,
    pub names: Vec<&'a str>,
}

/// A question which changes mend the proof of the theorem with a label, in the database in the files
/// with these names.
#[derive(Drop)]
pub struct AskedMend<'a> {
    pub label: &'a str,
    pub names: Vec<&'a str>,
}

/// A question for the assertions that have these patterns, in the database in the files with these
/// names.
#[derive(Drop)]
pub struct AskedPatterns<'a> {
    pub patterns: Vec<&'a str>,
    pub whole: bool,
    pub shape: bool,
    pub hypotheses: bool,
    pub names: Vec<&'a str>,
}

/// A wish for the file with this number among `names`, with lemmas that the database in the files
/// with these names lacks: those on the lines with the numbers `chosen` of a list of so many lemmas
/// at most, `most`, of which each saves so many bytes or more, `least`; or, where no line is chosen,
/// as many of them as make the file smaller. Their labels begin with `prefix`, and the comment before
/// each says `comment`, where that is given.
#[derive(Drop)]
pub struct AskedLemmas<'a> {
    pub file: usize,
    pub most: usize,
    pub least: usize,
    pub chosen: Vec<usize>,
    pub prefix: &'a str,
    pub comment: Option<&'a str>,
    pub names: Vec<&'a str>,
}

/// A question what changed from the database in the files with the names `old` to the one in those
/// with the names `new`.
#[derive(Clone, Copy)]
pub struct AskedVersions<'a> {
    pub old: &'a [&'a str],
    pub new: &'a [&'a str],
}

/// What the program is asked.
#[derive(Drop)]
pub enum Request<'a> {
    /// To print the page of the command with this name, or without one the whole help.
    Help(Option<&'a str>),
    /// To print the version.
    Version,
    /// To explain the rule that these words name, or without any to list all codes.
    Explain(Vec<&'a str>),
    /// To run this command over the database in the files with these names, the top file first.
    Run {
        command: mm_verdict::Command<'a>,
        names: Vec<&'a str>,
    },
    /// To list the assertions that have these patterns.
    Find(AskedPatterns<'a>),
    /// To read a proof's text, and to say what it is to a theorem.
    Text(AskedText<'a>),
    /// To write a file with lemmas that the database lacks, and with its proofs by them.
    LemmaFile(AskedLemmas<'a>),
    /// To tell which changes mend a proof.
    Mend(AskedMend<'a>),
    /// To tell what changed between two versions of a database.
    Diff(AskedVersions<'a>),
}
