//! The page of each command, as `mm help COMMAND` tells it: at most 80 columns.

ghost use Rattle.std.specs.Prelude.{◌≡◌, codes, map, IsTrue};
ghost use Rattle.std.specs.List.{AllByRecursion};
ghost use Rattle.mm_help.specs.Pages.{is_page_of};
ghost use Rattle.mm_words.specs.CommandLine.{command_names};

/// A command by its name, and what is told of it.
#[derive(Clone, Copy)]
pub struct Page<'t> {
    pub command: &'t str,
    /// How it is used, what it does, its options, its replies with their statuses, an example.
    pub text: &'t str,
}

const CHECK: &str = "Usage: mm check [--strict] FILES..

Checks each statement and each proof of a database. The top file comes first,
then the files that are included, each under the very name that stands in its
`$[ NAME $]`. Where a file was handed in and not included, a note on standard
error says so: nothing in it was checked.

Options:
  --strict   compressed proofs must have the strict form (`mm explain P15`),
             and expressions may have 16,777,216 symbols in place of 1,048,576

Replies:
  yes N statements M proofs                                         status 0
      Each statement obeys the rules of the language, and each proof derives
      what its statement says.
  incomplete N, and then N labels, one on each line                 status 3
      Nothing is at fault, but these proofs hold a `?`.
  no FILE LINE LABEL RULE STEP                                      status 1
      The first statement at fault; `mm explain RULE` explains the rule. LABEL
      is - where it has none, and STEP is 0 where no step is at fault.
  limit FILE LINE LABEL L1 STEP                                     status 4
      This step of a proof made an expression of too many symbols.
  load F2, or load F3                                               status 4
      Two files have the same name; or all hold more than 1,073,741,824 bytes.

Example:
  mm check set.mm
";

const FAULTS: &str = "Usage: mm faults [--strict] FILES..

Checks a database as `mm check` does, and lists all its faults in one run. A
theorem whose proof is at fault stands all the same, so that later proofs may
use it. Where a statement has another fault than that of its proof, it is the
last one that is listed.

Options:
  --strict   as for `mm check`

Replies:
  no FILE LINE LABEL RULE STEP, one on each line                    status 1
  limit FILE LINE LABEL L1 STEP, among them                         status 1
      A statement at fault, in the order of the database, each as `mm check`
      tells it; status 4 where the first line is a limit.
  yes, incomplete or load                                        status 0, 3, 4
      The reply of `mm check`, where it tells no statement at fault.

Example:
  mm faults set.mm
";

const WHY: &str = "Usage: mm why [--strict] [--source] FILES..

Checks a database as `mm faults` does, and explains the faults that it lists:
where each stands, the rule and its meaning, and the facts that show it, as what
a step's hypotheses ask and what its entries give. A fault that ended the run is
explained first. Of faults of proofs the first ten are explained, or three
behind a line that says what all share: a hypothesis, or a label that they name.

Options:
  --strict   as for check: `mm help check`
  --source   behind each place its line of the file, and a `^` below the column

Replies:
  FILE:LINE:COLUMN: RULE: MEANING, and what it is a fault of        status 1, 4
      An explanation. Lines that begin with spaces follow: its facts. At the end
      stands how many faults there are. The status is that of faults.
  Where nothing is at fault: the reply of check, with its status.

Example:
  mm why set.mm
";

const AXIOMS: &str = "Usage: mm axioms [--essential | --to AXIOM] LABEL FILES..
       mm axioms --all [--essential] FILES..

Checks the database, and lists the axioms that the theorem with this label
rests on, in the order of the database. Those are all `$a` statements: in set.mm
syntax and definitions too. No name tells an axiom from a definition: set.mm
itself calls `df-clab`, `df-cleq` and `df-clel` axioms.

Options:
  --essential   of the axioms those alone that have the type code of the
                theorem, as `|-`, so that those of syntax are left out
  --all         what each theorem rests on, a line for each
  --to AXIOM    why the theorem rests on the assertion with the label AXIOM: a
                shortest chain of labels, each of which uses the next; with
                none of the others

Replies:
  LABEL, one on each line                                           status 0
      The axioms; with --to the chain, from the theorem to AXIOM.
  ? LABEL, one on each line, after the axioms                       status 3
      The theorems that it rests on and whose proofs hold a `?`.
  ask A1 LABEL                                                      status 1
      No statement has this label.
  ask A2 LABEL                                                      status 1
      It is the label of a hypothesis or of an axiom; as AXIOM, that of a
      hypothesis.
  ask A3 LABEL                                                      status 3
      The proof of this theorem holds a `?`.
  ask A4 LABEL, with --to                                           status 1
      The theorem doesn't rest on AXIOM.
  no, limit or load                                                 status 1, 4
      The database is refused: `mm help check`.
  with --all, one on each line, in the order of the database:
  LABEL, and then the axioms, and ?LABEL for each unproved theorem  status 0, 3
  ? LABEL                                                           status 3
      The proof of this theorem holds a `?`. Status 0 where there is none.

Examples:
  mm axioms id set.mm
  mm axioms --essential 2p2e4 set.mm
  mm axioms --to ax-ext 2p2e4 set.mm
  mm axioms --all --essential set.mm
";

const USERS: &str = "Usage: mm users [--all] LABEL FILES..

Checks the database, and lists the theorems whose proofs use the assertion with
this label. A proof that is unfinished or at fault uses nothing: standard error
then has a note on that.

Options:
  --all   the theorems that rest on it: by their own proofs, or by those of
          theorems that they use

Replies:
  LABEL, one on each line                                           status 0
      A theorem, in the order of the database.
  ask A1 LABEL                                                      status 1
      No statement has this label.
  ask A2 LABEL                                                      status 1
      It is the label of a hypothesis.
  no, limit or load                                                 status 1, 4
      A statement breaks a rule of the text or of meaning: `mm help check`.

Example:
  mm users ax-mp set.mm
";

const STATEMENT: &str = "Usage: mm statement [--comment] LABEL FILES..
       mm statement --all FILES..

Tells what stands at this label: a statement of any kind, and of an axiom or a
theorem its frame. No proof is judged, and nothing behind the statement is read:
so it answers where a proof, or what stands further down, is at fault.

Options:
  --comment   first the comment right before the statement, as it stands in the
              file; nothing where something else stands between
  --all       a line for each axiom and each theorem, as `mm find` prints it

Replies:
  FILE:LINE:COLUMN, and then lines as in the file, with no end      status 0
      Where the statement begins. Of an axiom or a theorem these lines follow:
      each mandatory hypothesis, in the order of the database; `$d X Y` for each
      mandatory distinct pair; of a theorem `also $d X Y ..` for each `$d` that
      says more, which holds in its proof. At the end the statement itself.
  LABEL KIND : HYPOTHESIS & .. => EXPRESSION, with --all            status 0
  ask A1 LABEL                                                      status 1
      No statement has this label.
  no or load                                                        status 1, 4
      A statement breaks a rule of the text or of meaning before this is known:
      `mm help check`.

Examples:
  mm statement ax-mp set.mm
  mm statement --comment ax-mp set.mm
  mm statement --all set.mm
";

const FIND: &str = "Usage: mm find PATTERN [--and PATTERN].. [--whole] [--shape]
               [--hypotheses] FILES..

Lists the axioms and theorems whose expressions have this pattern, in the order
of the database, a line for each. No proof is judged, so that it answers where
proofs are at fault or unfinished.

PATTERN is one word of the command line: tokens with spaces between them. `$?`
stands for one symbol, `$*` for any number of them, none too, and another token
for itself. The pattern may stand anywhere in an expression.

Options:
  --and PATTERN   this pattern must be met too; it may be given again
  --whole         a pattern is that of a whole expression, with its type code
                  or without
  --shape         the variables of a pattern stand for variables of their types,
                  the same for the same and different ones for different ones;
                  a pattern has no `$*`
  --hypotheses    a pattern may be that of a `$e` hypothesis too

Replies:
  LABEL KIND : HYPOTHESIS & .. => EXPRESSION, one on each line      status 0
      An axiom, `$a`, or a theorem, `$p`: its `$e` hypotheses with `&` between
      them and `=>` behind them, where it has any, and what it states. Nothing
      at all where no assertion has the pattern.
  no or load                                                        status 1, 4
      A statement breaks a rule of the text or of meaning: `mm help check`.

Examples:
  mm find '( $* -> ph )' set.mm
  mm find '( $? + $? ) = $*' --whole set.mm
  mm find '( ps -> ps )' --shape set.mm
";

const SHOW: &str = "Usage: mm show [--known] [--letters | --essential | --uses] LABEL FILES..

Checks the database, and lists the steps of the proof of the theorem with this
label.

Options:
  --known       the steps that pass, whatever the other proofs: of a proof with
                a `?` those before it, and what is on the stack there; of a
                proof at fault those before the fault, and why it stops there
  --letters     each step, with its place and its letters
  --uses        each step, with the steps that gave it its hypotheses
  --essential   the steps that the last one is reached from through `$e`
                hypotheses, each with the steps that gave it these; with
                --known, that anything on the stack is reached from

Replies:
  STEP NAME EXPRESSION, one on each line                            status 0
      A step: its number, from 1; the label that it names, or @N where it
      repeats the expression of step N; and the symbols of its expression.
  STEP LINE:COLUMN LETTERS NAME EXPRESSION, with --letters          status 0
      The place is that of its label, or of the last letter of its number.
      LETTERS is that number and each `Z` behind it; - in a normal proof.
  STEP USES NAME EXPRESSION, with --uses and --essential            status 0
      USES is the numbers of those steps with commas between them, or -.
  ask A1 LABEL                                                      status 1
      No statement has this label.
  ask A2 LABEL                                                      status 1
      It is the label of a hypothesis or of an axiom.
  ask A3 LABEL                                                      status 3
      The proof of this theorem holds a `?`.
  no, limit or load                                                 status 1, 4
      The database is refused: `mm help check`.
  with --known, after the steps:
  the entries of the stack, and what the theorem states             status 3
  no or limit, and then the facts that explain it                   status 1, 4

Examples:
  mm show id set.mm
  mm show --known --letters id set.mm
  mm show --known --uses id set.mm
  mm show --essential id set.mm
";

const NORMAL: &str = "Usage: mm normal [--file | --known] LABEL FILES..
       mm normal --all NAME FILES..

Checks the database, and writes the normal proof of the theorem with this label:
each step as a label.

Options:
  --file   the whole file in which the theorem stands, with that proof in place
           of its own
  --known  the proof as far as it is known, whatever the other proofs: of one
           with a `?` the steps before it, and of one at fault those before the
           fault; and then a `?`. It is a text for `mm try`: to be mended
  --all    the file NAME, which is one of FILES, with each complete proof so

Replies:
  the proof, in lines; with --file or --all the file, nothing else  status 0
      With --known, status 3 where the proof holds a `?`; 1 where it is at
      fault, and 4 where it passes a limit, which `mm show --known` explains.
  ask L2 LABEL                                                      status 4
      The normal proof has more than 16,777,216 labels; with --all, that of the
      first such theorem of the file.
  ask F3 LABEL, with --all ask F3 NAME                              status 4
      The files would then hold more than 1,073,741,824 bytes.
  ask A1 LABEL                                                      status 1
      No statement has this label.
  ask A2 LABEL                                                      status 1
      It is the label of a hypothesis or of an axiom.
  ask A3 LABEL                                                      status 3
      The proof of this theorem holds a `?`.
  no, limit or load                                                 status 1, 4
      The database is refused: `mm help check`; with --known what stands
      before the theorem is, whatever its proofs.

Examples:
  mm normal id set.mm
  mm normal --known id set.mm
  mm normal --all set.mm set.mm
";

const PACKED: &str = "Usage: mm packed [--file] LABEL FILES..
       mm packed --all NAME FILES..

Checks the database, and writes the packed proof of the theorem with this label:
the one compressed proof that makes each part of two or more steps once. So it
has the fewest steps, and proofs are the same exactly if their packed texts are;
but it hasn't the fewest bytes: for these ask `mm small`.

Options:
  --file   the whole file in which the theorem stands, with that proof in place
           of its own
  --all    the file NAME, which is one of FILES, with each complete proof so

Replies:
  the proof, in lines; with --file or --all the file, nothing else  status 0
  ask F3 LABEL, with --all ask F3 NAME                              status 4
      The files would then hold more than 1,073,741,824 bytes.
  ask A1 LABEL                                                      status 1
      No statement has this label.
  ask A2 LABEL                                                      status 1
      It is the label of a hypothesis or of an axiom.
  ask A3 LABEL                                                      status 3
      The proof of this theorem holds a `?`.
  no, limit or load                                                 status 1, 4
      The database is refused: `mm help check`.

Examples:
  mm packed id set.mm
  mm packed --all set.mm set.mm
";

const SMALL: &str = "Usage: mm small [--file] LABEL FILES..
       mm small --all NAME FILES..

Checks the database, and writes the small proof of the theorem with this label:
a compressed one whose labels stand by how often they are used, so that it has
few letters.

Options:
  --file   the whole file in which the theorem stands, with that proof in place
           of its own where it has fewer bytes, and behind the indent of its own
  --all    the file NAME, which is one of FILES, with each complete proof so;
           it is never longer than it was

Replies:
  the proof, in lines; with --file or --all the file, nothing else  status 0
  ask A1 LABEL                                                      status 1
      No statement has this label.
  ask A2 LABEL                                                      status 1
      It is the label of a hypothesis or of an axiom.
  ask A3 LABEL                                                      status 3
      The proof of this theorem holds a `?`.
  no, limit or load                                                 status 1, 4
      The database is refused: `mm help check`.

Examples:
  mm small id set.mm
  mm small --all set.mm set.mm
";

const MINIMIZE: &str = "Usage: mm minimize [--file] LABEL FILES..
       mm minimize --all [--duplicates] NAME FILES..
       mm minimize --list FILES..

Checks the database, and looks for a shorter proof of the theorem with this
label by what the library has before it: its small text has fewer bytes, it has
no more steps, and it rests on no further axiom or unproved theorem. It is
judged as any proof is.
That no shorter one is found doesn't say that there is none.
Standard error gets the bytes and steps before and after; with --all and --list
how many theorems are left as they are, as their proofs are too long to search,
and on a terminal how far the search has come.

Marks in the comment right before a statement are heeded. A theorem marked
`(Proof modification is discouraged.)` keeps its proof; an assertion marked
`(New usage is discouraged.)` isn't newly used, nor is one of another mathbox.

Options:
  --file         the whole file in which the theorem stands, with the shorter
                 proof in place of its own, all else as it was
  --all          the file NAME, which is one of FILES, with each proof replaced
                 that becomes shorter, all else as it was; of a library as
                 large as set.mm this takes some ten minutes
  --duplicates   with --all also where the new proof uses one assertion alone,
                 besides syntax, as where the theorem is an instance of it
  --list         a line for each proof of FILES that becomes shorter; --all
                 replaces those of NAME whose lines in it become shorter too

Replies:
  the proof, in lines; with --file or --all the file, nothing else  status 0
      Where no shorter one is found: that of `mm small`; with --file or --all
      the old one stays, as it also does where its lines have no more bytes.
  ask A1 LABEL                                                      status 1
      No statement has this label.
  ask A2 LABEL                                                      status 1
      It is the label of a hypothesis or of an axiom.
  ask A3 LABEL                                                      status 3
      The proof of this theorem holds a `?`.
  no, limit or load                                                 status 1, 4
      The database is refused: `mm help check`.
  with --list, one on each line, in the order of the database:
  LABEL BYTES NEW-BYTES STEPS NEW-STEPS ASSERTIONS..                status 0, 3
      The bytes of the small proof and the steps of the packed one, before and
      after, and what is newly used. `duplicate: ` stands before the label where
      the new proof uses one assertion alone. Status 3 where a proof of the
      database holds a `?`.
  N proofs BYTES NEW-BYTES STEPS NEW-STEPS
      The last line: how many there are, and their sums.

Examples:
  mm minimize id set.mm
  mm minimize --file id set.mm
  mm minimize --list set.mm
  mm minimize --all set.mm set.mm
";

const LEMMAS: &str = "Usage: mm lemmas --list [--most N] [--least BYTES] FILES..
       mm lemmas [NUMBER..] --all [--most N] [--least BYTES]
           [--prefix P] [--comment TEXT] NAME FILES..

Checks the database, and lists lemmas that the library lacks: theorems of two
steps, of which one proves a hypothesis of the other, that would stand in place
of both and so save bytes. They come as a search finds them, about the best one
first; what each saves is told without its own text, and after those before it.
That they follow isn't judged: they are to choose from.
With --all it writes a file with them instead, and with its proofs by them.
Standard error says if the search was broken off, with --all if no lemma makes
the file smaller, and on a terminal how far the search has come. Marks and
mathboxes are heeded as by `mm minimize`.

A file with lemmas is judged before it is written. With it the database is
accepted; each statement that was there says what it said, and new ones are
lemmas alone. A proof that was complete may be another, which newly uses lemmas
alone; no theorem rests on a further axiom or unproved theorem. All other bytes
are kept, and the file isn't longer.

Options, whose numbers are decimal, from 1 to 4294967295:
  --list           a line for each lemma
  --all            the file NAME, which is one of FILES, with the lemmas that
                   make it smaller; with NUMBER.., decimal numbers before NAME,
                   those alone on these lines of what --list with the same
                   --most and --least prints, and those of which they are made
  --most N         so many lemmas at most; 100 where it isn't given
  --least BYTES    those alone that save so many bytes or more; 1 where it isn't
                   given
  --prefix P       what labels of lemmas begin with, beside --all, before a
                   number: 1 to 100 letters, digits, -, _ and .; lem where it
                   isn't given
  --comment TEXT   what the comments of lemmas say, beside --all, without $( and
                   $); of what each is made where it isn't given

Replies, one on each line:
  SAVED USES PROOFS UPPER PLACE LOWER : HYPOTHESIS & .. => EXPRESSION
      The bytes that the lemma saves; the steps that would be by it, and in how
      many proofs; the two assertions of which it is made, where LOWER proves
      the `$e` of UPPER with the number PLACE, from 1 on; and what it says. They
      are labels, or #N, the lemma on line N. ` is NAME` before the colon: NAME
      says it already, but further down or in another mathbox.
  N lemmas SAVED USES                                               status 0, 3
      The last line: how many there are, and their sums. Status 3 where a proof
      of the database holds a `?`.
  with --all the file, nothing else                                 status 0, 3
      Likewise. Where nothing pays, the file is as it was.
  no, limit or load                                                 status 1, 4
      The database is refused: `mm help check`.
  nothing, with --all                                               status 4
      Standard error says that the file that was made may not stand for NAME.

Examples:
  mm lemmas --list set.mm
  mm lemmas --list --most 10 --least 1000 set.mm
  mm lemmas --all set.mm set.mm
  mm lemmas 1 4 --all --prefix mylem set.mm set.mm
";

const SAME: &str = "Usage: mm same LABEL PROOF FILES..

Checks the database, and tells whether the text in the file PROOF is the same
proof as that of the theorem with this label: only what stands between `$=` and
`$.`, in any form.

Replies:
  same                                                              status 0
      Both proofs make the same tree.
  different                                                         status 1
      They make two.
  text RULE STEP                                                    status 1
      The text is no proof of the theorem: the rule that it breaks, and the
      step. Status 3 for A3, a `?` in the text; status 4 for L1 and F3.
  ask A1 LABEL                                                      status 1
      No statement has this label.
  ask A2 LABEL                                                      status 1
      It is the label of a hypothesis or of an axiom.
  ask A3 LABEL                                                      status 3
      The proof of this theorem holds a `?`.
  no, limit or load                                                 status 1, 4
      The database is refused: `mm help check`.

Example:
  mm same id proof.txt set.mm
";

const TRY: &str = "Usage: mm try LABEL PROOF FILES..

Tells whether the text in the file PROOF is a proof of the theorem with this
label, whatever stands in the files as its proof. No other proof is judged, and
nothing after the theorem is read.

The text is what stands between `$=` and `$.`, in any form. These two may stand
there too, and comments. PROOF comes before FILES: where they are exchanged, the
reply is about the text, taken for a database, as `no proof.txt 1 - S2 0`.

Replies:
  proof                                                             status 0
      The text is a proof of the theorem.
  text RULE STEP                                                    status 1, 4
      It is none: the rule that it breaks, and the step; and then, but for F3,
      the first line of `mm why`, with the place in PROOF, and the facts that
      explain it. Status 4 for L1 and F3.
  text A3 0                                                         status 3
      The text holds a `?`, and its known part breaks no rule. What this leaves
      on the stack follows.
  ask A1 LABEL                                                      status 1
      No statement has this label.
  ask A2 LABEL                                                      status 1
      It is the label of a hypothesis or of an axiom.
  no or load                                                        status 1, 4
      What stands before the theorem is refused: `mm help check`.

Example:
  mm try id proof.txt set.mm
";

const MEND: &str = "Usage: mm mend LABEL FILES..

Tells which small changes make the faulty proof of the theorem with this label a
proof of it, where a slip of an editor is at fault. Each is tried, and judged by
the prover; the files stay as they are. No other proof is judged, and nothing
after the theorem is read.

Tried are: each two neighbouring words of the proof exchanged; then, from the
word at fault back to the first, each byte removed, exchanged with the next, or
replaced by another one, and another one put before it. Of a long proof only the
last places are tried. Often several changes are accepted: choose.

Replies, a line for each change, ten at most, in the order above:
  exchanged FILE:LINE:COLUMN X Y                                    status 0
      The word or byte X that stands there, and the next one, Y.
  removed FILE:LINE:COLUMN X                                        status 0
      The byte X that stands there.
  replaced FILE:LINE:COLUMN X Y                                     status 0
      The byte X that stands there, by Y.
  put FILE:LINE:COLUMN X                                            status 0
      The byte X, before what stands there.
  Nothing, where no change is accepted; a note says so.             status 1
  proof                                                             status 0
      The proof is right as it stands.
  ask A1 LABEL                                                      status 1
      No statement has this label.
  ask A2 LABEL                                                      status 1
      It is the label of a hypothesis or of an axiom.
  ask A3 LABEL                                                      status 3
      The proof of this theorem holds a `?`.
  no or load                                                        status 1, 4
      What stands before the theorem is refused: `mm help check`.

Example:
  mm mend id set.mm
";

const DIFF: &str = "Usage: mm diff OLD NEW
       mm diff OLD.. -- NEW..

Checks two versions of a database, the old one first, and tells by label what
changed: which axioms and theorems, `$a` and `$p`, are gone, were added, say
something else, have another proof, got another label, or were moved; and which
theorems depend on further axioms, or on fewer. Each version is a file, or
several, its top file first.

Two say the same if both are axioms or both theorems, and have the same
expression, the same mandatory hypotheses in the same order, whatever their
labels, and the same mandatory distinct pairs. Two proofs are the same if they
make the same tree, whatever their form. Comments don't count.

One that is gone and one that was added are told as renamed where each of them
alone says the same as the other. One was moved where it passed another that is
no further from its place than it is itself. What is renamed, theorem or axiom,
is compared under both labels.

Replies:
  G LABEL, A LABEL, C LABEL or P LABEL, one on each line            status 1
      Gone, in the order of the old version; then added, then changed, and then
      unchanged with another proof, each in the order of the new one.
  R OLD NEW or M LABEL, one on each line                            status 1
      Then renamed, and then moved, in the order of the new version.
  F LABEL AXIOM.. or L LABEL AXIOM.., one on each line              status 1
      Then the theorems of both versions that depend further on these axioms of
      the new one, and those that depend no longer on these of the old one.
  differ N gone N added N changed N reproved N renamed N moved
  N further N less                                                  status 0, 1
      The last line, with the sums: status 0 where nothing differs.
  no, incomplete, limit or load                                  status 1, 3, 4
      A version doesn't get yes, and this is what `mm check` replies to it: to
      the old one, or where that gets yes to the new one.

Example:
  mm diff old.mm set.mm
";

const EXPLAIN: &str = "Usage: mm explain [CODE]

Says what the rule with this code is, its usual cause and the remedy; a reply
line that names one, pasted, does as well. Without a code, lists all codes.

Replies:
  the rule, or the codes, one on each line                          status 0
  Where no rule has the code, standard error says so.               status 2

Example:
  mm explain P8
";

const HELP: &str = "Usage: mm help [COMMAND]

Prints the help, as does `mm --help`; or the page of the command with this name,
as does `mm COMMAND --help`.

Replies:
  the help, or the page                                             status 0
  Where no command has the name, standard error says which do.      status 2

Example:
  mm help check
";

const VERSION: &str = "Usage: mm version

Prints the version, and the logic that the program is proved with, as does
`mm --version`. Of a program that isn't proved it says so.

Reply:
  mm VERSION, proved with Rattle logic HASH                         status 0

Example:
  mm version
";

// Each text comes from a call, so that what is proved of a caller doesn't hold its bytes.
fn check_page() -> &'static str
    ensures { IsTrue (is_page_of (codes "check") result.now) }
{
    CHECK
}

fn faults_page() -> &'static str
    ensures { IsTrue (is_page_of (codes "faults") result.now) }
{
    FAULTS
}

fn why_page() -> &'static str
    ensures { IsTrue (is_page_of (codes "why") result.now) }
{
    WHY
}

fn axioms_page() -> &'static str
    ensures { IsTrue (is_page_of (codes "axioms") result.now) }
{
    AXIOMS
}

fn users_page() -> &'static str
    ensures { IsTrue (is_page_of (codes "users") result.now) }
{
    USERS
}

fn statement_page() -> &'static str
    ensures { IsTrue (is_page_of (codes "statement") result.now) }
{
    STATEMENT
}

fn find_page() -> &'static str
    ensures { IsTrue (is_page_of (codes "find") result.now) }
{
    FIND
}

fn show_page() -> &'static str
    ensures { IsTrue (is_page_of (codes "show") result.now) }
{
    SHOW
}

fn normal_page() -> &'static str
    ensures { IsTrue (is_page_of (codes "normal") result.now) }
{
    NORMAL
}

fn packed_page() -> &'static str
    ensures { IsTrue (is_page_of (codes "packed") result.now) }
{
    PACKED
}

fn small_page() -> &'static str
    ensures { IsTrue (is_page_of (codes "small") result.now) }
{
    SMALL
}

fn minimize_page() -> &'static str
    ensures { IsTrue (is_page_of (codes "minimize") result.now) }
{
    MINIMIZE
}

fn lemmas_page() -> &'static str
    ensures { IsTrue (is_page_of (codes "lemmas") result.now) }
{
    LEMMAS
}

fn same_page() -> &'static str
    ensures { IsTrue (is_page_of (codes "same") result.now) }
{
    SAME
}

fn try_page() -> &'static str
    ensures { IsTrue (is_page_of (codes "try") result.now) }
{
    TRY
}

fn mend_page() -> &'static str
    ensures { IsTrue (is_page_of (codes "mend") result.now) }
{
    MEND
}

fn diff_page() -> &'static str
    ensures { IsTrue (is_page_of (codes "diff") result.now) }
{
    DIFF
}

fn explain_page() -> &'static str
    ensures { IsTrue (is_page_of (codes "explain") result.now) }
{
    EXPLAIN
}

fn help_page() -> &'static str
    ensures { IsTrue (is_page_of (codes "help") result.now) }
{
    HELP
}

fn version_page() -> &'static str
    ensures { IsTrue (is_page_of (codes "version") result.now) }
{
    VERSION
}

/// The page of a command, with this text.
fn page_of<'t>(command: &'t str, text: &'t str) -> Page<'t>
    requires { IsTrue (is_page_of command.now text.now) }
    ensures command { result.command.now ≡ command.entry.now }
    ensures usage { IsTrue (is_page_of result.command.now result.text.now) }
    ensures text { result.text.now ≡ text.entry.now }
{
    Page { command, text }
}

/// A page for each command, in the order of the command line.
pub fn program_pages() -> [Page<'static>; 20]
    ensures commands { map (λ page. page.command.now) result ≡ command_names }
    ensures usage { AllByRecursion (λ page. IsTrue (is_page_of page.command.now page.text.now))
        result }
{
    [
        page_of("check", check_page()),
        page_of("faults", faults_page()),
        page_of("why", why_page()),
        page_of("axioms", axioms_page()),
        page_of("users", users_page()),
        page_of("statement", statement_page()),
        page_of("find", find_page()),
        page_of("show", show_page()),
        page_of("normal", normal_page()),
        page_of("packed", packed_page()),
        page_of("small", small_page()),
        page_of("minimize", minimize_page()),
        page_of("lemmas", lemmas_page()),
        page_of("same", same_page()),
        page_of("try", try_page()),
        page_of("mend", mend_page()),
        page_of("diff", diff_page()),
        page_of("explain", explain_page()),
        page_of("help", help_page()),
        page_of("version", version_page()),
    ]
}
