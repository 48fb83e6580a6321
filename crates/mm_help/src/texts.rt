//! The texts that the program prints as they stand.

ghost use Rattle.std.specs.Prelude.{◌≡◌};

use crate::code_lines::CODES;
use crate::pages::Page;
use crate::rule_text::RuleText;

/// The texts, each of which ends with a line feed.
#[derive(Clone, Copy)]
pub struct Texts<'t> {
    pub help: &'t str,
    /// A page for each command.
    pub pages: &'t [Page<'t>],
    pub version: &'t str,
    /// A line for each code.
    pub codes: &'t str,
    /// The rules, chapter after chapter.
    pub chapters: &'t [&'t [RuleText<'t>]],
}

const HELP: &str = "Verifies databases of the Metamath language.

Usage: mm <COMMAND>

Commands:
  check [--strict] FILES..
                         checks each statement and each proof of a database; the top file comes
                         first, then the files that are included, each under the very name that
                         stands in its `$[ NAME $]`. With --strict compressed proofs must have the
                         strict form (`mm explain P15`), and expressions may be longer. Where a file
                         was handed in and not included, a note on standard error says so: nothing
                         in it was checked
  faults [--strict] FILES..
                         checks the database as check does, and lists all its faults in one run
  why [--strict] [--source] FILES..
                         checks the database as faults does, and explains what it lists: where each
                         fault stands, its rule, and what was asked and found; with --source also
                         its line of the file, and a `^` below the column
  axioms [--essential | --to AXIOM] LABEL FILES..
                         checks the database, and lists the axioms that the theorem with this
                         label rests on; with --essential those that have its type code; with --to
                         why it rests on this one, a chain of uses
  axioms --all [--essential] FILES..
                         likewise of each theorem, a line for each
  users [--all] LABEL FILES..
                         checks the database, and lists the theorems whose proofs use the assertion
                         with this label; with --all those that rest on it
  statement [--comment] LABEL FILES..
                         tells what stands at this label, a statement of any kind: where it begins,
                         its frame, and what it says, whatever the proofs; with --comment first the
                         comment right before it
  statement --all FILES..
                         lists each axiom and each theorem in a line, whatever their proofs
  find PATTERN [--and PATTERN].. [--whole] [--shape] [--hypotheses] FILES..
                         lists the axioms and theorems that have this pattern, whatever their
                         proofs: tokens, `$?` for one symbol, `$*` for any number of them; with
                         --and this one too, with --whole as a whole expression, with --shape
                         with other variables of the same types, with --hypotheses also in
                         hypotheses
  show [--known] [--letters | --essential | --uses] LABEL FILES..
                         checks the database, and lists the steps of the proof of the theorem with
                         this label; with --known the steps that pass, of an unfinished proof or of
                         one at fault, and what is on the stack there; with --letters where each
                         step stands, and its letters; with --uses which steps gave each step its
                         hypotheses; with --essential those steps alone that the last one, or with
                         --known what is on the stack, is reached from through `$e` hypotheses
  normal [--file | --known] LABEL FILES..
                         checks the database, and writes the normal proof of the theorem with this
                         label; with --file the whole file in which the theorem stands, with that
                         proof in place of its own; with --known what is known of an unfinished
                         proof or of one at fault, and then a `?`: a text for try
  packed [--file] LABEL FILES..
                         likewise with the one compressed proof of the theorem with this label that
                         makes each part of two or more steps once
  small [--file] LABEL FILES..
                         likewise with a compressed proof whose labels stand by how often they are
                         used; with --file only where it has fewer bytes than the one in its place
  normal --all NAME FILES..
  packed --all NAME FILES..
  small --all NAME FILES..
                         checks the database, and writes the file NAME, which is one of FILES, with
                         each complete proof in that form
  minimize [--file] LABEL FILES..
                         checks the database, and writes a shorter proof of the theorem with this
                         label, by what the library has before it; the small one where none is
                         found; with --file the whole file in which the theorem stands, with the
                         shorter proof in place of its own
  minimize --all [--duplicates] NAME FILES..
                         checks the database, and writes the file NAME, which is one of FILES, with
                         each proof replaced that becomes shorter so; with --duplicates also where
                         the new proof uses one assertion alone
  minimize --list FILES..
                         checks the database, and lists the proofs that become shorter so
  lemmas --list [--most N] [--least BYTES] FILES..
                         checks the database, and lists lemmas that the library lacks, by which its
                         proofs would have fewer bytes; with --most so many at most, with --least
                         those alone that save so many bytes
  lemmas [NUMBER..] --all [--most N] [--least BYTES] [--prefix P] [--comment TEXT] NAME FILES..
                         checks the database, and writes the file NAME, which is one of FILES, with
                         those lemmas that make it smaller, and with its proofs by them; with
                         numbers those alone on these lines of the list; with --prefix labels begin
                         so, in place of lem, with --comment comments say so
  same LABEL PROOF FILES..
                         checks the database, and tells whether the text in the file PROOF is the
                         same proof as that of the theorem with this label
  try LABEL PROOF FILES..
                         tells whether the text in the file PROOF is a proof of the theorem with
                         this label, whatever stands in FILES as its proof
  mend LABEL FILES..     tells which changes of one byte, or of two neighbours, make the faulty
                         proof of the theorem with this label a proof of it
  diff OLD NEW
  diff OLD.. -- NEW..
                         checks two versions of a database, each in one file or in several, and
                         lists the axioms and theorems that are gone, were added, say something
                         else or have another proof
  explain [CODE]         says what the rule with this code is, its usual cause and the remedy; a
                         reply line that names one, pasted, does as well; without a code, lists all
                         codes
  help [COMMAND]         prints this help, as does --help; or the page of that command, as does
                         --help after it
  version                prints the version, as does --version

Options:
  -h, --help       prints this help, or after a command the page of that command
  -V, --version    prints the version, and the kit that the program is proved with

A word that begins with - and is no option stands after --, as in `mm check -- -x.mm`. The name of
standard input is /dev/stdin.

Replies of check, on standard output:
  yes N statements M proofs
      Each statement obeys the rules of the language, and each proof derives what its statement
      says. N counts all statements, `${` and `$}` too, and M the proofs. Status 0.
  incomplete N, and then a label on each of N lines
      Nothing is at fault, but the proofs of these statements hold a `?`. Their known parts are
      checked. Status 3.
  no FILE LINE LABEL RULE STEP
      The first statement at fault: the file and the line on which it begins, or for a code X or S
      those of the token at fault; its label, or - where it has none; the code of the rule that it
      breaks, which `mm explain RULE` explains; and the step of its proof, from 1, or 0 where no
      step is at fault. Status 1.
  limit FILE LINE LABEL L1 STEP
      A step of a proof made an expression of more than 1,048,576 symbols, with --strict of
      more than 16,777,216. Status 4.
  load F2
      Two of the files have the same name. Status 4.
  load F3
      The files hold more than 1,073,741,824 bytes in all. Status 4.

Replies of faults, on standard output:
  no FILE LINE LABEL RULE STEP, or limit FILE LINE LABEL L1 STEP, one on each line
      The statements at fault, in the order of the database, each as check tells it. A theorem
      whose proof is at fault stands all the same; any other fault is the last. Status 1; 4 where
      the first line is a limit.
  Where nothing is at fault: the reply of check, with its status.

Replies of why, on standard output:
  FILE:LINE:COLUMN: RULE: MEANING, in the proof of LABEL, at step STEP
      A fault that faults tells: first the one that ended the run, if one did, and then the others
      in their order. Its facts follow, in lines that begin with spaces. At most ten faults of
      proofs are explained; the last line counts all. The status is that of faults.
  all N faulty proofs have the hypothesis LABEL, or: name LABEL
      What they share, before the first of them, of which three are explained then.
  Where nothing is at fault: the reply of check, with its status.

Replies of axioms, on standard output:
  LABEL, one on each line
      The axioms that the theorem rests on, in the order of the database. Status 0.
  ? LABEL, one on each line, after the axioms
      The theorems that it rests on and whose proofs hold a `?`. Status 3.
  With --to: LABEL, one on each line, a shortest chain from the theorem to AXIOM, in which each uses
  the next. Status 0.
  ask A4 LABEL, with --to
      The theorem does not rest on AXIOM. Status 1.
  With --all, one on each line: LABEL of a theorem, and then its axioms, and ?LABEL for each of
  those theorems; or ? LABEL of a theorem whose own proof holds a `?`. Status 0, or 3 if there is
  one.

Reply of users, on standard output:
  LABEL, one on each line
      The theorems, in the order of the database, by proofs that are accepted. Status 0.

Reply of statement, on standard output:
  FILE:LINE:COLUMN, and then lines as they stand in the file, without their ends
      Where the statement begins. Of an axiom or a theorem a line follows for each mandatory
      hypothesis, `$d X Y` for each mandatory distinct pair, and of a theorem `also $d X Y ..` for
      each `$d` that says more, which holds in its proof. The last line is the statement. Status 0.

Reply of statement --all and of find, on standard output:
  LABEL KIND : HYPOTHESIS & .. => EXPRESSION, one on each line
      An axiom, `$a`, or a theorem, `$p`: its `$e` hypotheses, where it has any, and what it states.
      Status 0, also where nothing is found. Where a statement breaks a rule of the text or of
      meaning: the reply of check that says so.

Reply of show, on standard output:
  STEP NAME EXPRESSION, one on each line
      A step of the proof: its number, from 1; the label that it names, or @N where it repeats the
      expression of step N; and the symbols of its expression. Status 0.
  With --letters: STEP LINE:COLUMN LETTERS NAME EXPRESSION, with the place of its label, or of the
  last letter of its number; LETTERS is that number and each `Z` behind it, - in a normal proof.
  With --uses and --essential: STEP USES NAME EXPRESSION, where USES is the numbers of the steps
  that gave the step its hypotheses, or its `$e` alone, with commas between them, or -.
  With --known, after the steps that pass: the entries of the stack, status 3; or the refusal of the
  proof and the facts that explain it, status 1, or 4 for a limit.

Replies of normal, packed and small, on standard output:
  the proof, in lines; with --file or --all the bytes of the file, and nothing else
      Status 0. With --known, status 3 where it holds a `?`, 1 where it is at fault, 4 for a limit.
  ask L2 LABEL
      The normal proof has more than 16,777,216 labels. With --all it is that of the first theorem
      of the file of which this is so. Status 4.
  ask F3 LABEL, with --all ask F3 NAME
      The files would then hold more than 1,073,741,824 bytes in all. Status 4.

Replies of minimize, on standard output:
  the proof, in lines; with --file or --all the bytes of the file, and nothing else
      Status 0.
  With --list, one on each line: LABEL BYTES NEW-BYTES STEPS NEW-STEPS ASSERTIONS.. of a theorem
  whose proof becomes shorter, with the bytes of its small text, its steps where each part is made
  once, and what it newly uses; `duplicate: ` stands before LABEL where the new proof uses one
  assertion alone. At the end N proofs BYTES NEW-BYTES STEPS NEW-STEPS, their sums. Status 0, or 3
  where a proof of the database holds a `?`.

Replies of lemmas, on standard output:
  SAVED USES PROOFS UPPER PLACE LOWER : HYPOTHESIS & .. => EXPRESSION, one on each line
      A lemma: the bytes that it saves, the steps and proofs that would use it, and what it is made
      of, a step by LOWER for the hypothesis of UPPER with that number: each a label, or #N for the
      lemma on line N. ` is NAME` stands before the colon where that says it already. At the end
      N lemmas SAVED USES, their sums. Status 0, or 3 where a proof of the database holds a `?`.
  With --all the bytes of the file, and nothing else. Status 0 or 3 likewise; 4 and nothing where
  what was made isn't known to be such a file.

Replies of same, on standard output:
  same, or different
      Both proofs make the same tree, or two. Status 0, or 1.
  text RULE STEP
      The text is no proof of the theorem: the code of the rule that it breaks, and the step.
      Status 1; 3 for A3, a `?` in the text; 4 for L1 and F3.

Replies of try, on standard output:
  proof
      The text is a proof of the theorem. Status 0.
  text RULE STEP
      It is none, as for same; or, with A3, its known part breaks no rule. The place in PROOF with
      what explains it, or what is on the stack, follows. Status 1; 3 for A3; 4 for L1 and F3.

Replies of mend, on standard output:
  exchanged FILE:LINE:COLUMN X Y, removed FILE:LINE:COLUMN X, replaced FILE:LINE:COLUMN X Y, or
  put FILE:LINE:COLUMN X, one on each line
      What changes, where it stands, and what is put in its place: ten at most, those near the fault
      first. Status 0; 1 and no line where no change is accepted, as standard error says.
  proof
      The proof is right as it stands. Status 0.

Replies of diff, on standard output:
  G LABEL, A LABEL, C LABEL or P LABEL, one on each line
      The axioms and theorems that are gone, then those that were added, then those that say
      something else, then those that have another proof.
  R OLD NEW or M LABEL, one on each line
      Then those that are renamed, and those that were moved.
  F LABEL AXIOM.. or L LABEL AXIOM.., one on each line
      Then the theorems that depend further on these axioms, and those that depend on these no
      longer. At the end the sums: differ N gone N added N changed N reproved N renamed N moved
      N further N less. Status 0 where nothing differs, else 1.
  Where a version doesn't get yes: the reply of check, with its status; the old one comes first.

Other replies to a LABEL: that of check, where it is no, limit or load; and
  ask A1 LABEL
      No statement has this label. Status 1.
  ask A2 LABEL
      It is the label of a hypothesis or of an axiom. Status 1.
  ask A3 LABEL
      The proof of this theorem holds a `?`. Status 3.

Statuses:
  0  yes, same or proof; or axioms, steps, a statement or a proof; or help, the version or an
     explanation was asked for
  1  no: a statement is at fault; or the label is not that of a theorem; or different, or a text is
     no proof of the theorem; or two versions differ
  2  the words are not understood
  3  incomplete: a proof is unfinished, in the database or among those that are asked about
  4  a file, a device, a limit or memory stood in the way

Where there is no reply, standard error says why: which word is not understood, or which file cannot
be read. Where a word may stand in the wrong place, it says what that word was taken for. After the
reply of minimize it says by how much a proof became shorter, or how many theorems were left as they
are, as their proofs are too long to search; after that of lemmas, if no lemma makes the file
smaller, and if the search was broken off.

Examples:
  mm check set.mm
  mm check --strict set.mm
  mm axioms id set.mm
  mm axioms --all set.mm
  mm axioms --to ax-ext 2p2e4 set.mm
  mm statement ax-mp set.mm
  mm find '( $* -> ph )' set.mm
  mm show id set.mm
  mm show --essential id set.mm
  mm packed id set.mm
  mm packed --all set.mm set.mm
  mm small --all set.mm set.mm
  mm minimize id set.mm
  mm minimize --list set.mm
  mm lemmas --list set.mm
  mm lemmas --all set.mm set.mm
  mm same id proof.txt set.mm
  mm try id proof.txt set.mm
  mm diff old.mm set.mm
  mm explain P8
  mm help check
";

const VERSION: &str = "mm 0.1.0, proved with Rattle logic dac8208d650f15bf\n";

// Each long text comes from a call, so that what is proved of a caller doesn't hold its bytes.
fn help() -> &'static str {
    HELP
}

fn codes() -> &'static str {
    CODES
}

/// The texts of the program, with these pages and these chapters of rules.
pub fn program_texts<'t>(pages: &'t [Page<'t>], chapters: &'t [&'t [RuleText<'t>]]) -> Texts<'t>
    ensures pages { result.pages ≡ pages.entry }
    ensures chapters { result.chapters ≡ chapters.entry }
{
    Texts {
        help: help(),
        pages,
        version: VERSION,
        codes: codes(),
        chapters,
    }
}
