//! The acceptance cases of shorter proofs by what a database has: of one theorem, of the theorems of
//! a file, and listed.

use crate::Asked;
use crate::Part::Text;
use crate::tests::{contents_of, expect_reply, files_of, joined};
use mm_check::Command::{About, Shorter, Whole};
use mm_check::{Question, WholeQuestion};
use mm_step::Profile;
use std::alloc::Global;
use std::process::Abort;
use std::test::Fail;

/// The syntax, `mp` and `k`.
const HEAD: &[u8] = b"\
$c wff |- ( -> ) $.
$v P Q R $.
wp $f wff P $.
wq $f wff Q $.
wr $f wff R $.
wim $a wff ( P -> Q ) $.
${
  min $e |- P $.
  maj $e |- ( P -> Q ) $.
  mp $a |- Q $.
$}
k $a |- ( P -> ( Q -> P ) ) $.
";

/// What `k` and `mp` prove, which shortens what comes later.
const ADD: &[u8] = b"\
${
  add.1 $e |- P $.
  add $p |- ( Q -> P ) $= wp wq wp wim add.1 wp wq k mp $.
$}
";

/// The same, of which new uses are discouraged.
const MARKED: &[u8] = b"\
${
  add.1 $e |- P $.
  $( What is proved follows.  (New usage is discouraged.) $)
  add $p |- ( Q -> P ) $= wp wq wp wim add.1 wp wq k mp $.
$}
";

/// The same, as an axiom.
const AXIOM: &[u8] = b"\
${
  add.1 $e |- P $.
  add $a |- ( Q -> P ) $.
$}
";

/// A theorem that `add` proves from `k`.
const LONG: &[u8] = b"\
kk $p |- ( R -> ( P -> ( Q -> P ) ) ) $=
  ( wim k mp ) ABADDZCGDABEGCEF $.
";

/// With its shorter proof.
const SHORT: &[u8] = b"\
kk $p |- ( R -> ( P -> ( Q -> P ) ) ) $=
  ( wim k add ) ABADDCABEF $.
";

/// Marks a theorem whose proof is to stay.
const SETTLED: &[u8] = b"$( (Proof modification is discouraged.) $)\n";

/// Marks a theorem that no further proof should use.
const DISCOURAGED: &[u8] = b"$( (New usage is discouraged.) $)\n";

/// A theorem that says what `add` says.
const TWIN: &[u8] = b"\
${
  th.1 $e |- P $.
  th $p |- ( Q -> P ) $= wp wq wp wim th.1 wp wq k mp $.
$}
";

/// With its proof by `add` alone.
const TWIN_SHORT: &[u8] = b"\
${
  th.1 $e |- P $.
  th $p |- ( Q -> P ) $=
    ( add ) ABCD $.
$}
";

/// An incomplete proof.
const UNPROVED: &[u8] = b"u $p |- ( P -> P ) $= ? $.\n";

/// A proof that ends too soon.
const BROKEN: &[u8] = b"u $p |- ( P -> P ) $= wp $.\n";

/// The headings of two mathboxes.
const ANN: &[u8] = b"$( #*#*# Mathbox for Ann $)\n";

const BOB: &[u8] = b"$( #*#*# Mathbox for Bob $)\n";

/// The shortest proof of one theorem.
const MINIMIZED: [Asked; 16] = [
    Asked {
        name: "a shorter proof by an earlier theorem",
        command: About {
            label: b"kk",
            question: Question::Minimized { whole: false },
        },
        files: &[(b"a.mm", &[Text(HEAD), Text(ADD), Text(LONG)])],
        reply: &[Text(b"      ( wim k add )\n"), Text(b"      ABADDCABEF\n")],
        status: 0,
    },
    Asked {
        name: "a proof by one theorem alone",
        command: About {
            label: b"th",
            question: Question::Minimized { whole: false },
        },
        files: &[(b"a.mm", &[Text(HEAD), Text(ADD), Text(TWIN)])],
        reply: &[Text(b"      ( add )\n"), Text(b"      ABCD\n")],
        status: 0,
    },
    Asked {
        name: "no proof by a theorem that comes later",
        command: About {
            label: b"kk",
            question: Question::Minimized { whole: false },
        },
        files: &[(b"a.mm", &[Text(HEAD), Text(LONG), Text(ADD)])],
        reply: &[
            Text(b"      ( wim k mp )\n"),
            Text(b"      ABADDZCGDABEGCEF\n"),
        ],
        status: 0,
    },
    Asked {
        name: "no proof by a theorem of which new uses are discouraged",
        command: About {
            label: b"kk",
            question: Question::Minimized { whole: false },
        },
        files: &[(b"a.mm", &[Text(HEAD), Text(MARKED), Text(LONG)])],
        reply: &[
            Text(b"      ( wim k mp )\n"),
            Text(b"      ABADDZCGDABEGCEF\n"),
        ],
        status: 0,
    },
    Asked {
        name: "no shorter proof of a theorem whose proof is to stay",
        command: About {
            label: b"kk",
            question: Question::Minimized { whole: false },
        },
        files: &[(b"a.mm", &[Text(HEAD), Text(ADD), Text(SETTLED), Text(LONG)])],
        reply: &[
            Text(b"      ( wim k mp )\n"),
            Text(b"      ABADDZCGDABEGCEF\n"),
        ],
        status: 0,
    },
    Asked {
        name: "no proof by a theorem of another mathbox",
        command: About {
            label: b"kk",
            question: Question::Minimized { whole: false },
        },
        files: &[(
            b"a.mm",
            &[Text(HEAD), Text(ANN), Text(ADD), Text(BOB), Text(LONG)],
        )],
        reply: &[
            Text(b"      ( wim k mp )\n"),
            Text(b"      ABADDZCGDABEGCEF\n"),
        ],
        status: 0,
    },
    Asked {
        name: "a proof by a theorem of the same mathbox",
        command: About {
            label: b"kk",
            question: Question::Minimized { whole: false },
        },
        files: &[(b"a.mm", &[Text(HEAD), Text(ANN), Text(ADD), Text(LONG)])],
        reply: &[Text(b"      ( wim k add )\n"), Text(b"      ABADDCABEF\n")],
        status: 0,
    },
    Asked {
        name: "a proof in a mathbox by a theorem that stands in none",
        command: About {
            label: b"kk",
            question: Question::Minimized { whole: false },
        },
        files: &[(b"a.mm", &[Text(HEAD), Text(ADD), Text(ANN), Text(LONG)])],
        reply: &[Text(b"      ( wim k add )\n"), Text(b"      ABADDCABEF\n")],
        status: 0,
    },
    Asked {
        name: "a shorter proof of a theorem of which new uses are discouraged",
        command: About {
            label: b"kk",
            question: Question::Minimized { whole: false },
        },
        files: &[(
            b"a.mm",
            &[Text(HEAD), Text(ADD), Text(DISCOURAGED), Text(LONG)],
        )],
        reply: &[Text(b"      ( wim k add )\n"), Text(b"      ABADDCABEF\n")],
        status: 0,
    },
    Asked {
        name: "no proof by an axiom on which the theorem does not rest",
        command: About {
            label: b"th",
            question: Question::Minimized { whole: false },
        },
        files: &[(b"a.mm", &[Text(HEAD), Text(AXIOM), Text(TWIN)])],
        reply: &[Text(b"      ( wim k mp )\n"), Text(b"      ABADCABEF\n")],
        status: 0,
    },
    Asked {
        name: "no proof is shortened where there is none",
        command: About {
            label: b"u",
            question: Question::Minimized { whole: false },
        },
        files: &[(b"a.mm", &[Text(HEAD), Text(ADD), Text(UNPROVED)])],
        reply: &[Text(b"ask A3 u\n")],
        status: 3,
    },
    Asked {
        name: "no proof is shortened of an axiom",
        command: About {
            label: b"k",
            question: Question::Minimized { whole: false },
        },
        files: &[(b"a.mm", &[Text(HEAD), Text(ADD)])],
        reply: &[Text(b"ask A2 k\n")],
        status: 1,
    },
    Asked {
        name: "the file of a theorem, with its proof by one theorem alone",
        command: About {
            label: b"th",
            question: Question::Minimized { whole: true },
        },
        files: &[(b"a.mm", &[Text(HEAD), Text(ADD), Text(TWIN), Text(LONG)])],
        reply: &[Text(HEAD), Text(ADD), Text(TWIN_SHORT), Text(LONG)],
        status: 0,
    },
    Asked {
        name: "the included file of a theorem, with its shorter proof",
        command: About {
            label: b"kk",
            question: Question::Minimized { whole: true },
        },
        files: &[
            (b"top.mm", &[Text(b"$[ a.mm $]\n"), Text(TWIN)]),
            (b"a.mm", &[Text(HEAD), Text(ADD), Text(LONG)]),
        ],
        reply: &[Text(HEAD), Text(ADD), Text(SHORT)],
        status: 0,
    },
    Asked {
        name: "the file of a theorem as it is, where no shorter proof is found",
        command: About {
            label: b"kk",
            question: Question::Minimized { whole: true },
        },
        files: &[(b"a.mm", &[Text(HEAD), Text(LONG), Text(ADD)])],
        reply: &[Text(HEAD), Text(LONG), Text(ADD)],
        status: 0,
    },
    Asked {
        name: "no file of a theorem whose proof is incomplete",
        command: About {
            label: b"u",
            question: Question::Minimized { whole: true },
        },
        files: &[(b"a.mm", &[Text(HEAD), Text(ADD), Text(UNPROVED)])],
        reply: &[Text(b"ask A3 u\n")],
        status: 3,
    },
];

/// The proofs of a file that become shorter.
const SHORTENED: [Asked; 8] = [
    Asked {
        name: "one proof of a file is replaced, and a duplicate is kept",
        command: Shorter {
            file: 0,
            duplicates: false,
        },
        files: &[(b"a.mm", &[Text(HEAD), Text(ADD), Text(LONG), Text(TWIN)])],
        reply: &[Text(HEAD), Text(ADD), Text(SHORT), Text(TWIN)],
        status: 0,
    },
    Asked {
        name: "a duplicate is replaced too where that is asked for",
        command: Shorter {
            file: 0,
            duplicates: true,
        },
        files: &[(b"a.mm", &[Text(HEAD), Text(ADD), Text(LONG), Text(TWIN)])],
        reply: &[Text(HEAD), Text(ADD), Text(SHORT), Text(TWIN_SHORT)],
        status: 0,
    },
    Asked {
        name: "what stands after the last proof that is replaced is kept",
        command: Shorter {
            file: 0,
            duplicates: false,
        },
        files: &[(
            b"a.mm",
            &[
                Text(HEAD),
                Text(ADD),
                Text(LONG),
                Text(TWIN),
                Text(b"$( the end $)"),
            ],
        )],
        reply: &[
            Text(HEAD),
            Text(ADD),
            Text(SHORT),
            Text(TWIN),
            Text(b"$( the end $)"),
        ],
        status: 0,
    },
    Asked {
        name: "a file with shorter proofs is kept",
        command: Shorter {
            file: 0,
            duplicates: true,
        },
        files: &[(
            b"a.mm",
            &[Text(HEAD), Text(ADD), Text(SHORT), Text(TWIN_SHORT)],
        )],
        reply: &[Text(HEAD), Text(ADD), Text(SHORT), Text(TWIN_SHORT)],
        status: 0,
    },
    Asked {
        name: "marks and an incomplete proof are heeded in a file",
        command: Shorter {
            file: 0,
            duplicates: false,
        },
        files: &[(
            b"a.mm",
            &[
                Text(HEAD),
                Text(ADD),
                Text(SETTLED),
                Text(LONG),
                Text(UNPROVED),
            ],
        )],
        reply: &[
            Text(HEAD),
            Text(ADD),
            Text(SETTLED),
            Text(LONG),
            Text(UNPROVED),
        ],
        status: 0,
    },
    Asked {
        name: "proofs of an included file are replaced, and none of the top file",
        command: Shorter {
            file: 1,
            duplicates: true,
        },
        files: &[
            (b"top.mm", &[Text(b"$[ a.mm $]\n"), Text(TWIN)]),
            (b"a.mm", &[Text(HEAD), Text(ADD), Text(LONG)]),
        ],
        reply: &[Text(HEAD), Text(ADD), Text(SHORT)],
        status: 0,
    },
    Asked {
        name: "proofs of the top file are replaced, and none of an included one",
        command: Shorter {
            file: 0,
            duplicates: true,
        },
        files: &[
            (b"top.mm", &[Text(b"$[ a.mm $]\n"), Text(TWIN)]),
            (b"a.mm", &[Text(HEAD), Text(ADD), Text(LONG)]),
        ],
        reply: &[Text(b"$[ a.mm $]\n"), Text(TWIN_SHORT)],
        status: 0,
    },
    Asked {
        name: "no file of a refused database is written",
        command: Shorter {
            file: 0,
            duplicates: false,
        },
        files: &[(b"a.mm", &[Text(HEAD), Text(ADD), Text(LONG), Text(BROKEN)])],
        reply: &[Text(b"no a.mm 19 u P14 2\n")],
        status: 1,
    },
];

/// The list of proofs that become shorter.
const LISTED: [Asked; 9] = [
    Asked {
        name: "a shorter proof and a duplicate",
        command: Whole {
            profile: Profile::Lenient,
            question: WholeQuestion::Shorter,
        },
        files: &[(b"a.mm", &[Text(HEAD), Text(ADD), Text(LONG), Text(TWIN)])],
        reply: &[
            Text(b"kk 42 37 15 10 add\n"),
            Text(b"duplicate: th 35 25 9 4 add\n"),
            Text(b"2 proofs 77 62 24 14\n"),
        ],
        status: 0,
    },
    Asked {
        name: "no shorter proof",
        command: Whole {
            profile: Profile::Lenient,
            question: WholeQuestion::Shorter,
        },
        files: &[(b"a.mm", &[Text(HEAD), Text(ADD)])],
        reply: &[Text(b"0 proofs 0 0 0 0\n")],
        status: 0,
    },
    Asked {
        name: "an assertion of which new uses are discouraged",
        command: Whole {
            profile: Profile::Lenient,
            question: WholeQuestion::Shorter,
        },
        files: &[(b"a.mm", &[Text(HEAD), Text(MARKED), Text(LONG), Text(TWIN)])],
        reply: &[Text(b"0 proofs 0 0 0 0\n")],
        status: 0,
    },
    Asked {
        name: "a theorem whose proof is to stay",
        command: Whole {
            profile: Profile::Lenient,
            question: WholeQuestion::Shorter,
        },
        files: &[(
            b"a.mm",
            &[Text(HEAD), Text(ADD), Text(SETTLED), Text(LONG), Text(TWIN)],
        )],
        reply: &[
            Text(b"duplicate: th 35 25 9 4 add\n"),
            Text(b"1 proofs 35 25 9 4\n"),
        ],
        status: 0,
    },
    Asked {
        name: "two mathboxes",
        command: Whole {
            profile: Profile::Lenient,
            question: WholeQuestion::Shorter,
        },
        files: &[(
            b"a.mm",
            &[Text(HEAD), Text(ANN), Text(ADD), Text(BOB), Text(LONG)],
        )],
        reply: &[Text(b"0 proofs 0 0 0 0\n")],
        status: 0,
    },
    Asked {
        name: "an axiom that would be gained",
        command: Whole {
            profile: Profile::Lenient,
            question: WholeQuestion::Shorter,
        },
        files: &[(b"a.mm", &[Text(HEAD), Text(AXIOM), Text(LONG), Text(TWIN)])],
        reply: &[Text(b"0 proofs 0 0 0 0\n")],
        status: 0,
    },
    Asked {
        name: "two files",
        command: Whole {
            profile: Profile::Lenient,
            question: WholeQuestion::Shorter,
        },
        files: &[
            (b"top.mm", &[Text(b"$[ a.mm $]\n"), Text(TWIN)]),
            (b"a.mm", &[Text(HEAD), Text(ADD), Text(LONG)]),
        ],
        reply: &[
            Text(b"kk 42 37 15 10 add\n"),
            Text(b"duplicate: th 35 25 9 4 add\n"),
            Text(b"2 proofs 77 62 24 14\n"),
        ],
        status: 0,
    },
    Asked {
        name: "an incomplete proof beside a shorter one",
        command: Whole {
            profile: Profile::Lenient,
            question: WholeQuestion::Shorter,
        },
        files: &[(
            b"a.mm",
            &[Text(HEAD), Text(ADD), Text(LONG), Text(UNPROVED)],
        )],
        reply: &[
            Text(b"kk 42 37 15 10 add\n"),
            Text(b"1 proofs 42 37 15 10\n"),
        ],
        status: 3,
    },
    Asked {
        name: "a refused database",
        command: Whole {
            profile: Profile::Lenient,
            question: WholeQuestion::Shorter,
        },
        files: &[(b"a.mm", &[Text(HEAD), Text(ADD), Text(LONG), Text(BROKEN)])],
        reply: &[Text(b"no a.mm 19 u P14 2\n")],
        status: 1,
    },
];

/// Runs the cases of a table, and compares the replies byte for byte.
fn compare(rt: &impl Abort, alloc: Global, cases: &[Asked]) -> Result<(), Fail> {
    for case in cases {
        let contents = contents_of(alloc, case.files)?;
        let files = files_of(alloc, case.files, &contents)?;
        let reply = joined(alloc, case.reply)?;
        expect_reply(
            rt,
            alloc,
            &case.command,
            &files,
            (&reply, case.status),
            case.name,
        )?;
    }
    Ok(())
}

#[test]
fn shortest_proofs(rt: HostRuntime) -> Result<(), Fail> {
    compare(&rt, rt.alloc(), &MINIMIZED)
}

#[test]
fn files_with_shorter_proofs(rt: HostRuntime) -> Result<(), Fail> {
    compare(&rt, rt.alloc(), &SHORTENED)
}

#[test]
fn lists_of_shorter_proofs(rt: HostRuntime) -> Result<(), Fail> {
    compare(&rt, rt.alloc(), &LISTED)
}
