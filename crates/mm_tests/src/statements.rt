//! The acceptance cases of the question what stands at a label.

use crate::Case;
use crate::Part::Text;
use mm_check::Command::{self, Statement};

/// Hypotheses in blocks, and `$d` that are mandatory, that say more, and that aren't active.
const LOGIC: &[u8] = b"\
$c |- wff ( -> ) $.
$v ph ps ch x y z $.
wph $f wff ph $.
wps $f wff ps $.
wch $f wff ch $.
wx $f wff x $.
wy $f wff y $.
wz $f wff z $.
wi $a wff ( ph -> ps ) $.
${
  min $e |- ph $.
  maj $e |- ( ph -> ps ) $.
  ax-mp $a |- ps $.
$}
${
  $d x y z $.
  ${
    $d ph ps $.
    $d x ph $.
    h1 $e |- ph $.
    ax-d $a |- ( ph -> x ) $.
  $}
$}
";

/// Theorems in blocks; one of them is unproved, which makes no difference.
const BLOCKS: &[u8] = b"\
$c |- wff $.
$v ph ps x y z $.
wph $f wff ph $.
wps $f wff ps $.
wx $f wff x $.
wy $f wff y $.
wz $f wff z $.
ax $a |- ph $.
${
  $d x y z $.
  ${
    $d y z $.
    $d ph ps $.
  $}
  $d ph
     x $.
  $d ph x $.
  ${
    $d x ph y $.
    e $e |- x $.
    $d ps z $. th $p |- ph $= wph ax $.
    q $p |- ps $= ? $.
    $d ph z $.
  $}
  u $p |- ph $= wph ax $.
$}
";

/// What stands at a label.
pub(crate) const STATEMENTS: [(Command<'static>, Case); 17] = [
    (
        Statement {
            label: b"wph",
            comment: false,
        },
        Case {
            name: "a hypothesis that types a variable",
            files: &[(b"l.mm", &[Text(LOGIC)])],
            reply: b"l.mm:3:1\nwph $f wff ph\n",
            status: 0,
        },
    ),
    (
        Statement {
            label: b"maj",
            comment: false,
        },
        Case {
            name: "an essential hypothesis in a block",
            files: &[(b"l.mm", &[Text(LOGIC)])],
            reply: b"l.mm:12:3\nmaj $e |- ( ph -> ps )\n",
            status: 0,
        },
    ),
    (
        Statement {
            label: b"wi",
            comment: false,
        },
        Case {
            name: "an axiom of syntax",
            files: &[(b"l.mm", &[Text(LOGIC)])],
            reply: b"l.mm:9:1\nwph $f wff ph\nwps $f wff ps\nwi $a wff ( ph -> ps )\n",
            status: 0,
        },
    ),
    (
        Statement {
            label: b"ax-mp",
            comment: false,
        },
        Case {
            name: "hypotheses in the order of the database",
            files: &[(b"l.mm", &[Text(LOGIC)])],
            reply: b"l.mm:13:3\nwph $f wff ph\nwps $f wff ps\nmin $e |- ph\nmaj $e |- ( ph -> ps )\nax-mp $a |- ps\n",
            status: 0,
        },
    ),
    (
        Statement {
            label: b"ax-d",
            comment: false,
        },
        Case {
            name: "a mandatory pair, and nothing more of an axiom",
            files: &[(b"l.mm", &[Text(LOGIC)])],
            reply: b"l.mm:21:5\nwph $f wff ph\nwx $f wff x\nh1 $e |- ph\n$d ph x\nax-d $a |- ( ph -> x )\n",
            status: 0,
        },
    ),
    (
        Statement {
            label: b"none",
            comment: false,
        },
        Case {
            name: "no statement",
            files: &[(b"l.mm", &[Text(LOGIC)])],
            reply: b"ask A1 none\n",
            status: 1,
        },
    ),
    (
        Statement {
            label: b"th",
            comment: false,
        },
        Case {
            name: "what says more than the mandatory pairs of a theorem",
            files: &[(b"l.mm", &[Text(BLOCKS)])],
            reply: b"l.mm:21:16\nwph $f wff ph\nwx $f wff x\ne $e |- x\n$d ph x\nalso $d x y z\nalso $d x ph y\nalso $d ps z\nth $p |- ph\n",
            status: 0,
        },
    ),
    (
        Statement {
            label: b"u",
            comment: false,
        },
        Case {
            name: "no hypothesis of a block that is closed",
            files: &[(b"l.mm", &[Text(BLOCKS)])],
            reply: b"l.mm:25:3\nwph $f wff ph\nalso $d x y z\nalso $d ph x\nalso $d ph x\nu $p |- ph\n",
            status: 0,
        },
    ),
    (
        Statement {
            label: b"q",
            comment: false,
        },
        Case {
            name: "an unproved theorem",
            files: &[(b"l.mm", &[Text(BLOCKS)])],
            reply: b"l.mm:22:5\nwps $f wff ps\nwx $f wff x\ne $e |- x\nalso $d x y z\nalso $d ph x\nalso $d ph x\nalso $d x ph y\nalso $d ps z\nq $p |- ps\n",
            status: 0,
        },
    ),
    (
        Statement {
            label: b"a",
            comment: false,
        },
        Case {
            name: "a statement in an included file",
            files: &[
                (b"top.mm", &[Text(b"$c x $. $[ in.mm $]\n")]),
                (b"in.mm", &[Text(b"\n a\n$a x x $.\n")]),
            ],
            reply: b"in.mm:2:2\na $a x x\n",
            status: 0,
        },
    ),
    (
        Statement {
            label: b"a",
            comment: false,
        },
        Case {
            name: "a statement before a fault of meaning",
            files: &[(b"l.mm", &[Text(b"$c x $. a $a x $. $c x $.\n")])],
            reply: b"l.mm:1:9\na $a x\n",
            status: 0,
        },
    ),
    (
        Statement {
            label: b"a",
            comment: false,
        },
        Case {
            name: "a statement before a fault of the text",
            files: &[(b"l.mm", &[Text(b"$c x $. a $a x $. b $a x\n")])],
            reply: b"l.mm:1:9\na $a x\n",
            status: 0,
        },
    ),
    (
        Statement {
            label: b"b",
            comment: false,
        },
        Case {
            name: "a statement behind a fault of meaning",
            files: &[(b"l.mm", &[Text(b"$c x $. a $a x $. $c x $. b $a x $.\n")])],
            reply: b"no l.mm 1 - M2 0\n",
            status: 1,
        },
    ),
    (
        Statement {
            label: b"b",
            comment: false,
        },
        Case {
            name: "a statement that breaks a rule of meaning",
            files: &[(b"l.mm", &[Text(b"$c x $.\nb $a y $.\n")])],
            reply: b"no l.mm 2 b M7 0\n",
            status: 1,
        },
    ),
    (
        Statement {
            label: b"c",
            comment: false,
        },
        Case {
            name: "no statement, where one behind breaks a rule of meaning",
            files: &[(b"l.mm", &[Text(b"$c x $. a $a x $. $c x $.\n")])],
            reply: b"no l.mm 1 - M2 0\n",
            status: 1,
        },
    ),
    (
        Statement {
            label: b"q",
            comment: false,
        },
        Case {
            name: "a theorem with a faulty proof, behind another",
            files: &[(
                b"l.mm",
                &[Text(b"$c x y $. a $a x $.\np $p y $= a $.\nq $p y $= nope $.\n")],
            )],
            reply: b"l.mm:3:1\nq $p y\n",
            status: 0,
        },
    ),
    (
        Statement {
            label: b"a",
            comment: false,
        },
        Case {
            name: "two files with one name",
            files: &[(b"l.mm", &[Text(b"$c x $.\n")]), (b"l.mm", &[Text(b"")])],
            reply: b"load F2\n",
            status: 4,
        },
    ),
];

/// Statements with comments right before them, and elsewhere.
const COMMENTS: &[u8] = b"$c a $. $( One. $) one $a a $. two $a a $.
$( Of the block. $) ${ $( First. $) $( Of h. $)
h $e a $. in $a a $. $}
$( Cut $v x $. $) $v x $. $( Last.\r\n\t\x0c ~ one  $)\r\n\r\n\t last $p a $= one $.
$( Behind. $)
";

/// Statements that are told with the comments right before them.
pub(crate) const COMMENTED: [(Command<'static>, Case); 5] = [
    (
        Statement {
            label: b"one",
            comment: true,
        },
        Case {
            name: "the comment right before a statement",
            files: &[(b"c.mm", &[Text(COMMENTS)])],
            reply: b"$( One. $)\nc.mm:1:20\none $a a\n",
            status: 0,
        },
    ),
    (
        Statement {
            label: b"h",
            comment: true,
        },
        Case {
            name: "the last comment before a hypothesis",
            files: &[(b"c.mm", &[Text(COMMENTS)])],
            reply: b"$( Of h. $)\nc.mm:3:1\nh $e a\n",
            status: 0,
        },
    ),
    (
        Statement {
            label: b"last",
            comment: true,
        },
        Case {
            name: "a comment with its bytes, carriage returns too",
            files: &[(b"c.mm", &[Text(COMMENTS)])],
            reply: b"$( Last.\r\n\t\x0c ~ one  $)\nc.mm:7:3\nlast $p a\n",
            status: 0,
        },
    ),
    (
        Statement {
            label: b"in",
            comment: true,
        },
        Case {
            name: "a comment of an included file",
            files: &[
                (b"t.mm", &[Text(b"$( Top. $) $[ i.mm $] out $a a $.")]),
                (b"i.mm", &[Text(b"$c a $. $( In. $) in $a a $. $( Out. $)")]),
            ],
            reply: b"$( In. $)\ni.mm:1:19\nin $a a\n",
            status: 0,
        },
    ),
    (
        Statement {
            label: b"th",
            comment: true,
        },
        Case {
            name: "a comment without text",
            files: &[(b"t.mm", &[Text(b"$c a $. $( $)\tth $a a $. nothing $.")])],
            reply: b"$( $)\nt.mm:1:15\nth $a a\n",
            status: 0,
        },
    ),
];

/// Statements that are told without a comment.
pub(crate) const UNCOMMENTED: [(Command<'static>, Case); 6] = [
    (
        Statement {
            label: b"one",
            comment: false,
        },
        Case {
            name: "a comment isn't told unasked",
            files: &[(b"c.mm", &[Text(COMMENTS)])],
            reply: b"c.mm:1:20\none $a a\n",
            status: 0,
        },
    ),
    (
        Statement {
            label: b"two",
            comment: true,
        },
        Case {
            name: "the comment before the statement before",
            files: &[(b"c.mm", &[Text(COMMENTS)])],
            reply: b"c.mm:1:32\ntwo $a a\n",
            status: 0,
        },
    ),
    (
        Statement {
            label: b"in",
            comment: true,
        },
        Case {
            name: "a comment before the block, and one of a hypothesis",
            files: &[(b"c.mm", &[Text(COMMENTS)])],
            reply: b"c.mm:3:11\nh $e a\nin $a a\n",
            status: 0,
        },
    ),
    (
        Statement {
            label: b"th",
            comment: true,
        },
        Case {
            name: "another token stands between",
            files: &[(b"t.mm", &[Text(b"$c a $. $( It. $) $v x $. th $a a $.")])],
            reply: b"t.mm:1:27\nth $a a\n",
            status: 0,
        },
    ),
    (
        Statement {
            label: b"out",
            comment: true,
        },
        Case {
            name: "an inclusion stands between",
            files: &[
                (b"t.mm", &[Text(b"$( Top. $) $[ i.mm $] out $a a $.")]),
                (b"i.mm", &[Text(b"$c a $. $( In. $)")]),
            ],
            reply: b"t.mm:1:23\nout $a a\n",
            status: 0,
        },
    ),
    (
        Statement {
            label: b"first",
            comment: true,
        },
        Case {
            name: "nothing stands before",
            files: &[
                (b"t.mm", &[Text(b"$c a $. $[ i.mm $]")]),
                (b"i.mm", &[Text(b"first $a a $. $( Behind. $)")]),
            ],
            reply: b"i.mm:1:1\nfirst $a a\n",
            status: 0,
        },
    ),
];
