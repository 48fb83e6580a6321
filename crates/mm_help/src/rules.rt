//! The rules, as `mm explain` tells them. Made by scripts/rules.sh from docs/RULES.md: edit that.

use crate::rule_text::RuleText;

// What is proved of a function that names a constant holds each byte of it. So each
// chapter is a constant of its own, and comes from a call.

const FILES: &[RuleText<'static>] = &[
    RuleText {
        code: "F1",
        text: "F1: no file was handed in, which only the library can answer: the program asks
for a file.
It has no place. Reply: `load F1`
Usual cause: a caller of the library handed in an empty list.
Remedy: hand in the top file at least.
",
    },
    RuleText {
        code: "F2",
        text: "F2: two handed names are equal, as in `mm check f.mm f.mm`.
It has no place. Reply: `load F2`
Usual cause: a file is named twice, as by itself and by a pattern of the shell.
Remedy: name each file once.
",
    },
    RuleText {
        code: "F3",
        text: "F3: the files hold more than 1,073,741,824 bytes in all.
It has no place. Reply: `load F3`
Usual cause: several databases were handed in, or a file that is no database.
Remedy: hand in the files of one database alone.
",
    },
];

fn files() -> &'static [RuleText<'static>] {
    FILES
}

const TEXT: &[RuleText<'static>] = &[
    RuleText {
        code: "X1",
        text: "X1: a token, in a comment too, holds a byte outside 0x21 to 0x7E. Place: that
token.
Usual cause: an accented letter, a typographic quote or a dash was typed or
pasted.
Remedy: write the token with ASCII characters alone; such bytes are found by
`LC_ALL=C grep -anP '[^\\t\\r\\f -~]' FILE`.

This file breaks it:
    $c é $.

The reply:
    no f.mm 1 - X1 0
",
    },
    RuleText {
        code: "X2",
        text: "X2: a file ends in a comment. Place: the `$(`.
Usual cause: the `$)` of the file's last comment is missing.
Remedy: end the comment with `$)`, with white space before it.

This file breaks it:
    $c a $.
    $( open

The reply:
    no f.mm 2 - X2 0
",
    },
    RuleText {
        code: "X3",
        text: "X3: in a comment, a token other than `$)` holds `$(` or `$)`. Place: that token.
Usual cause: the comment before isn't closed, or its `$)` touches a word.
Remedy: close the comment before with `$)`, with white space on both sides.

This file breaks it:
    $( a$) $)

The reply:
    no f.mm 1 - X3 0
",
    },
    RuleText {
        code: "X4",
        text: "X4: `$)` stands outside a comment, or `$]` outside an inclusion. Place: that
token.
Usual cause: a comment or an inclusion was closed twice, or its `$(` or `$[` is
missing or touches a word.
Remedy: delete the token, or write the missing `$(` or `$[` with white space on
both sides.

This file breaks it:
    p $a $) $.

The reply:
    no f.mm 1 p X4 0
",
    },
    RuleText {
        code: "X5",
        text: "X5: after `$[` comes a token with `$` where the name should stand, or after the
name a token other than `$]`. Place: that token.
Usual cause: the name or the `$]` of the inclusion is missing, or the name has
white space in it.
Remedy: write `$[ NAME $]`, with one word for the name and white space around
it.

This file breaks it:
    $[ $]

The reply:
    no f.mm 1 - X5 0
",
    },
    RuleText {
        code: "X6",
        text: "X6: `$[` stands in a block or in a statement. Place: the `$[`. The inclusion
need not be whole, nor its file be handed in.
Usual cause: a statement or a block before the inclusion isn't closed.
Remedy: close it, or move the inclusion to where none is open.

This file breaks it:
    ${ $[ a.mm $] $}

The reply:
    no f.mm 1 - X6 0
",
    },
    RuleText {
        code: "X7",
        text: "X7: the name of a whole inclusion was not handed in. Place: the name.
Usual cause: the included file wasn't handed in, or was under another name, as
with a folder before it.
Remedy: hand the file in under the very name that stands in `$[ $]`, or write
there the name under which it is handed in: no path is resolved.

This file breaks it:
    $[
    a.mm $]

The reply:
    no f.mm 2 - X7 0
",
    },
    RuleText {
        code: "X8",
        text: "X8: a file ends in a statement. Place: the statement's first token, here the
label in line 1.
Usual cause: the `$.` of the file's last statement is missing.
Remedy: end the statement with `$.` in the file in which it begins.

This file breaks it:
    p $a
    x

The reply:
    no f.mm 1 p X8 0
",
    },
    RuleText {
        code: "X9",
        text: "X9: a token outside comments and inclusions holds `$` and is no keyword. Place:
that token.
Usual cause: a keyword is misspelled or touches a word, as in `b$.`.
Remedy: write white space around each keyword; in a text for `mm try`, write
`$=` only as the first token and `$.` only as the last; in one for `mm same`,
neither.

This file breaks it:
    $c a $.
    $c b$.

The reply:
    no f.mm 2 - X9 0
",
    },
];

fn text() -> &'static [RuleText<'static>] {
    TEXT
}

const STATEMENTS: &[RuleText<'static>] = &[
    RuleText {
        code: "S1",
        text: "S1: `$f`, `$e`, `$a`, `$p`, `$.` or `$=` stands where a statement should begin.
Place: that token.
Usual cause: the label is missing, or a `$.` too many ended the statement
before.
Remedy: write a label before the keyword, or delete the `$.` that is too many.

This file breaks it:
    $a x $.

The reply:
    no f.mm 1 - S1 0
",
    },
    RuleText {
        code: "S2",
        text: "S2: a token that is no keyword stands where a statement should begin, and holds
a byte that a label may not hold. Place: that token.
Usual cause: the label holds a character that labels can't have, or text stands
outside a comment.
Remedy: spell the label with letters, digits, `.`, `-` and `_` alone, or put the
text into a comment.

This file breaks it:
    a+ $a x $.

The reply:
    no f.mm 1 - S2 0
",
    },
    RuleText {
        code: "S3",
        text: "S3: a label isn't followed by `$f`, `$e`, `$a` or `$p`. Place: the token that
follows it.
Usual cause: the keyword after the label is missing or misspelled, or text
stands outside a comment.
Remedy: write `$f`, `$e`, `$a` or `$p` after the label, or put the text into a
comment.

This file breaks it:
    p
    q $a x $.

The reply:
    no f.mm 2 p S3 0
",
    },
    RuleText {
        code: "S4",
        text: "S4: a statement holds a keyword that can't stand in that place: `$.` before the
`$=` of a `$p`, `$=` in any other place, or any other keyword. Place: that
token.
Usual cause: a `$.` is missing, that of the statement whose label the reply has,
or of the one before where it has none; or a `$p` has no `$=`.
Remedy: end the statement before this keyword with `$.`, or give the `$p` a `$=`
and a proof, `?` as long as there is none.

This file breaks it:
    p $p x $.

The reply:
    no f.mm 1 p S4 0
",
    },
    RuleText {
        code: "S5",
        text: "S5: `$.` or `$=` ends the symbols after too few of them, or a `$f` has a third
symbol. Place: that token. A `$d` needs two symbols, a `$f` exactly two, the
others one.
Usual cause: a symbol is left out, or a `$f` gives more than a type code and a
variable.
Remedy: write the missing symbols, or delete those that are too many.

This file breaks it:
    $c $.

The reply:
    no f.mm 1 - S5 0
",
    },
    RuleText {
        code: "S6",
        text: "S6: `$}` stands where a statement may begin, and no block is open. Place: that
token.
Usual cause: the `${` of the block is missing, or the block was closed before.
Remedy: delete the `$}`, or write the `${` where the block begins.

This file breaks it:
    $}

The reply:
    no f.mm 1 - S6 0
",
    },
    RuleText {
        code: "S7",
        text: "S7: the top file ends and a block is open. Place: the innermost open `${`,
perhaps in an included file.
Usual cause: the `$}` of the block is missing.
Remedy: write the `$}` where the block ends.

This file breaks it:
    $c a $.
    ${
    ${
    $}

The reply:
    no f.mm 2 - S7 0
",
    },
];

fn statements() -> &'static [RuleText<'static>] {
    STATEMENTS
}

const MEANING: &[RuleText<'static>] = &[
    RuleText {
        code: "M1",
        text: "M1: a `$c` stands in a block.
Line: that where the statement begins; `mm why` tells the place in it.
Usual cause: the `$}` of a block before is missing, or a constant was declared
in the block that uses it.
Remedy: close the block before the `$c`, or move the `$c` out of it.

This file breaks it:
    ${
    $c a $.
    $}

The reply:
    no f.mm 2 - M1 0
",
    },
    RuleText {
        code: "M2",
        text: "M2: a symbol of a `$c` was declared before, as a constant or a variable, active
or not; or it stands twice in the `$c`.
Line: that where the statement begins; `mm why` tells the place in it.
Usual cause: two places of the database declare the same symbol.
Remedy: delete one of the two declarations, or rename one of the symbols.

This file breaks it:
    $c a $. $v x $.
    $c x $.

The reply:
    no f.mm 2 - M2 0
",
    },
    RuleText {
        code: "M3",
        text: "M3: a symbol of a `$v` is an active variable, was declared a constant, or stands
twice in the `$v`.
Line: that where the statement begins; `mm why` tells the place in it.
Usual cause: the variable is declared in the same block before, or in one around
it.
Remedy: delete the second declaration, or rename the variable.

This file breaks it:
    $v x x $.

The reply:
    no f.mm 1 - M3 0
",
    },
    RuleText {
        code: "M4",
        text: "M4: a symbol of a `$c` or `$v` equals an earlier label.
Line: that where the statement begins; `mm why` tells the place in it.
Usual cause: a statement has the name of a symbol that is declared further down.
Remedy: rename the symbol or the statement.

This file breaks it:
    $c a $. p $a a $.
    $v p $.

The reply:
    no f.mm 2 - M4 0
",
    },
    RuleText {
        code: "M5",
        text: "M5: the label equals an earlier label, also one in a closed block.
Line: that where the statement begins; `mm why` tells the place in it.
Usual cause: a statement was copied without changing its label, or another label
was written over its own.
Remedy: give the statement a label that no other has in the whole database.

This file breaks it:
    $c a $. ${ p $e a $. $}
    p $a a a $.

The reply:
    no f.mm 2 p M5 0
",
    },
    RuleText {
        code: "M6",
        text: "M6: the label equals a symbol that was declared before, active or not.
Line: that where the statement begins; `mm why` tells the place in it.
Usual cause: a statement has the name of a symbol.
Remedy: give the statement another label.

This file breaks it:
    $c a $. a $a a $.

The reply:
    no f.mm 1 a M6 0
",
    },
    RuleText {
        code: "M7",
        text: "M7: a symbol of a `$d`, `$f`, `$e`, `$a` or `$p` isn't active: it was never
declared, or only in a block that is closed.
Line: that where the statement begins; `mm why` tells the place in it.
Usual cause: the symbol is misspelled, touches another as in `(x`, or was
declared in a block that is closed.
Remedy: spell the symbol as its declaration does, with white space around it, or
declare it before.

This file breaks it:
    $c a $. p $a a z $.

The reply:
    no f.mm 1 p M7 0
",
    },
    RuleText {
        code: "M8",
        text: "M8: a member of a `$d` is a constant.
Line: that where the statement begins; `mm why` tells the place in it.
Usual cause: a constant has a name like that of the variable that was meant.
Remedy: name variables alone in a `$d`.

This file breaks it:
    $c a $. $v x $.
    $d a x $.

The reply:
    no f.mm 2 - M8 0
",
    },
    RuleText {
        code: "M9",
        text: "M9: a member stands twice in a `$d`.
Line: that where the statement begins; `mm why` tells the place in it.
Usual cause: a variable was meant to be another one.
Remedy: name each variable of a `$d` once.

This file breaks it:
    $v x $.
    $d x x $.

The reply:
    no f.mm 2 - M9 0
",
    },
    RuleText {
        code: "M10",
        text: "M10: the type code of a `$f` is a variable.
Line: that where the statement begins; `mm why` tells the place in it.
Usual cause: the type code and the variable are swapped.
Remedy: write the type code first, a constant, and then the variable.

This file breaks it:
    $v x y $. p $f x y $.

The reply:
    no f.mm 1 p M10 0
",
    },
    RuleText {
        code: "M11",
        text: "M11: the second symbol of a `$f` is a constant.
Line: that where the statement begins; `mm why` tells the place in it.
Usual cause: a symbol that was meant to be a variable is declared by `$c`.
Remedy: declare the symbol by `$v`, or name a variable in its place.

This file breaks it:
    $c a b $. p $f a b $.

The reply:
    no f.mm 1 p M11 0
",
    },
    RuleText {
        code: "M12",
        text: "M12: the variable of a `$f` has an active `$f`.
Line: that where the statement begins; `mm why` tells the place in it.
Usual cause: the variable was given a type code before, in this block or in one
around it.
Remedy: delete the second `$f`, or use another variable.

This file breaks it:
    $c a b $. $v x $. fx $f a x $.
    gx $f b x $.

The reply:
    no f.mm 2 gx M12 0
",
    },
    RuleText {
        code: "M13",
        text: "M13: an earlier `$f`, active or not, gave the variable of that name another type
code.
Line: that where the statement begins; `mm why` tells the place in it.
Usual cause: a variable's name is used in two blocks for two types.
Remedy: use a variable of another name for the other type.

This file breaks it:
    $c a b $.
    ${ $v x $. fx $f a x $. $}
    ${ $v x $. gx $f b x $. $}

The reply:
    no f.mm 3 gx M13 0
",
    },
    RuleText {
        code: "M14",
        text: "M14: the first symbol of an `$e`, `$a` or `$p` is a variable.
Line: that where the statement begins; `mm why` tells the place in it.
Usual cause: the type code before the expression, as `|-`, is missing.
Remedy: begin the expression with a constant.

This file breaks it:
    $v x $. p $a x $.

The reply:
    no f.mm 1 p M14 0
",
    },
    RuleText {
        code: "M15",
        text: "M15: a variable in an `$e`, `$a` or `$p` has no active `$f`.
Line: that where the statement begins; `mm why` tells the place in it.
Usual cause: the `$f` of the variable is missing, or stands in a block that is
closed.
Remedy: give the variable a type code by a `$f` before the statement.

This file breaks it:
    $c a $. $v x $. p $a a x $.

The reply:
    no f.mm 1 p M15 0
",
    },
];

fn meaning() -> &'static [RuleText<'static>] {
    MEANING
}

const PROOFS: &[RuleText<'static>] = &[
    RuleText {
        code: "P1",
        text: "P1: the first token of a complete proof is `(`, and there is no `)` among the
others.
Line: that where the statement begins; `mm why` tells the place in the proof.
Usual cause: the `)` after the listed labels is missing, or touches a word.
Remedy: write the `)` between the labels and the letters, with white space on
both sides.

This file breaks it:
    $c a $. one $a a $.
    p $p a $= ( one A $.

The reply:
    no f.mm 2 p P1 0
",
    },
    RuleText {
        code: "P2",
        text: "P2: the proof names a label, in a normal proof or in the list of a compressed
one, that isn't that of a statement before this `$p`. Listed labels that no step
uses count too.
Line: that where the statement begins; `mm why` tells the place in the proof.
Usual cause: a label is misspelled, or is that of a statement further down.
Remedy: `mm why` reports where the label stands, and those that are near: spell
the label as its statement does, or move the theorem below that.

This file breaks it:
    $c a $. p $p a $= p $.

The reply:
    no f.mm 1 p P2 0
",
    },
    RuleText {
        code: "P3",
        text: "P3: a label is that of a hypothesis that isn't active.
Line: that where the statement begins; `mm why` tells the place in the proof.
Usual cause: the proof uses a hypothesis of another theorem, whose block is
closed.
Remedy: use the hypotheses of the theorem's own block, or state the hypothesis
there.

This file breaks it:
    $c a $.
    ${ h $e a $. $}
    p $p a $= h $.

The reply:
    no f.mm 3 p P3 0
",
    },
    RuleText {
        code: "P4",
        text: "P4: a byte of the letters isn't one of `A` to `Z`.
Line: that where the statement begins; `mm why` tells the place in the proof.
Usual cause: a label stands after the `)`, or a small letter or another
character came among the letters.
Remedy: write labels before the `)` and capitals alone after it.

This file breaks it:
    $c a $. one $a a $.
    p $p a $= ( one ) Aa $.

The reply:
    no f.mm 2 p P4 0
",
    },
    RuleText {
        code: "P5",
        text: "P5: leading digits are followed by `Z`, by the end of the letters, or by a `?`.
White space may cut a number.
Line: that where the statement begins; `mm why` tells the place in the proof.
Usual cause: letters were lost as the proof was copied.
Remedy: copy the letters again, or replace the proof.

This file breaks it:
    $c a $. one $a a $.
    p $p a $= ( one ) UZ $.

The reply:
    no f.mm 2 p P5 0
",
    },
    RuleText {
        code: "P15",
        text: "P15: under the strict profile, the list of a compressed proof names a mandatory
hypothesis, or a label twice; or a `Z` doesn't stand directly after a number of
a listed label that is an assertion's.
Line: that where the statement begins; `mm why` tells the place in the proof.
Usual cause: the program that wrote the proof tags hypotheses, or lists a label
that has a number already.
Remedy: rewrite the proof by `mm packed --file`, or each complete proof of a
file by `mm packed --all`. An incomplete proof, and one whose expressions pass
the lenient limit, has to be mended by hand.

This file breaks it:
    $c a $. one $a a $.
    p $p a $= ( one one ) B $.
Here the list names `one` twice.

The reply to `mm check --strict f.mm`:
    no f.mm 2 p P15 0
",
    },
    RuleText {
        code: "P6",
        text: "P6: a number in the letters exceeds m + n + t, with m mandatory hypotheses, n
listed labels and t tags so far.
Line: that where the statement begins; `mm why` tells the place in the proof.
Usual cause: a label is missing in the list, or a `Z` in the letters, or
hypotheses of the theorem were removed.
Remedy: restore the labels and hypotheses that the letters number, or replace
the proof.

This file breaks it:
    $c a $. one $a a $.
    p $p a $= ( one ) B $.
Here m and t are 0, n is 1, and the number is 2.

The reply:
    no f.mm 2 p P6 1
",
    },
    RuleText {
        code: "P7",
        text: "P7: a `Z` comes before any step. Under the strict profile it is P15.
Line: that where the statement begins; `mm why` tells the place in the proof.
Usual cause: letters were lost at the beginning as the proof was copied.
Remedy: copy the letters again, or delete the `Z`.

This file breaks it:
    $c a $. one $a a $.
    p $p a $= ( one ) ZT $.

The reply:
    no f.mm 2 p P7 1
",
    },
    RuleText {
        code: "P8",
        text: "P8: the step's assertion has more mandatory hypotheses than the stack holds
entries.
Line: that where the statement begins; `mm why` tells the place in the proof.
Usual cause: a step, a letter or a listed label is missing, too many or swapped,
perhaps many steps before; or hypotheses of the theorem were removed.
Remedy: write the steps for all mandatory hypotheses of the assertion, in their
order, before the step.

This file breaks it:
    $c a b $. $v x $. fx $f a x $. one $a a b $. two $a a x x $.
    p $p a b b $= two one $.

The reply:
    no f.mm 2 p P8 1
",
    },
    RuleText {
        code: "P9",
        text: "P9: the entry that the step takes for a `$f` doesn't begin with the type code of
that `$f`.
Line: that where the statement begins; `mm why` tells the place in the proof.
Usual cause: a step, a letter or a listed label is missing, too many or swapped,
perhaps many steps before; or the theorem's hypotheses were changed, as where a
`$}` before it is missing.
Remedy: `mm why` shows what each hypothesis asks beside the entry that it gets,
`mm show --known` the steps up to there: change the step that gives another
type, or write the one that is missing.

This file breaks it:
    $c a b $. $v x $. fx $f a x $. one $a b $. two $a a x x $.
    p $p a $= one two $.

The reply:
    no f.mm 2 p P9 2
",
    },
    RuleText {
        code: "P10",
        text: "P10: the entry that the step takes for an `$e` isn't that `$e` with its
variables replaced.
Line: that where the statement begins; `mm why` tells the place in the proof.
Usual cause: a wrong theorem or replacement of a variable; a step, a letter or a
listed label that is missing, too many or swapped, perhaps many steps before; or
a changed `$e`, of the theorem or of the assertion.
Remedy: `mm why` shows what each hypothesis asks beside the entry that it gets,
and from which symbol on they differ: change the step that proves the
hypothesis, or the step that replaces the variable.

This file breaks it:
    $c a b |- $. $v x $. fx $f a x $.
    one $a a b $. bb $a |- b b $.
    ${ h $e |- x $. two $a |- x x $. $}
    p $p |- b b $= one bb two $.
Here the entry of `fx` replaces `x` by `b`, so that `h` becomes `|- b`, and its
entry is `|- b b`.

The reply:
    no f.mm 4 p P10 3
",
    },
    RuleText {
        code: "P11",
        text: "P11: the step replaces two disjoint variables of its assertion by expressions
that share a variable.
Line: that where the statement begins; `mm why` tells the place in the proof.
Usual cause: the proof puts a variable into two places that the assertion's `$d`
keeps disjoint.
Remedy: put another variable into one of the two places, or use an assertion
without the `$d`.

This file breaks it:
    $c a |- $. $v x y $. fx $f a x $. fy $f a y $.
    ${ $d x y $. ax $a |- x y $. $}
    p $p |- x x $= fx fx ax $.
Here both are `x`.

The reply:
    no f.mm 3 p P11 3
",
    },
    RuleText {
        code: "P12",
        text: "P12: the step replaces two disjoint variables of its assertion, and a variable
of the one replacement and a variable of the other aren't an active disjoint
pair where the `$p` stands.
Line: that where the statement begins; `mm why` tells the place in the proof.
Usual cause: a `$d x y $.` is missing, or several are.
Remedy: add the `$d` statements that `mm why` lists before the theorem, in its
block: all that the proof lacks up to the first step that breaks another rule.

This file breaks it:
    $c a |- $. $v x y $. fx $f a x $. fy $f a y $.
    ${ $d x y $. ax $a |- x y $. $}
    p $p |- y x $= fy fx ax $.
Here the pair is `y`, `x`, and the `$d` of line 2 is no longer active.

The reply:
    no f.mm 3 p P12 3
",
    },
    RuleText {
        code: "L1",
        text: "L1: a step, also one by a hypothesis, pushes an expression of more than
1,048,576 symbols, its type code counted; under the strict profile, of more than
16,777,216.
Line: that where the statement begins; `mm why` tells the place in the proof.
Usual cause: each of many steps repeats the expression of the step before.
Remedy: prove the theorem by lemmas with shorter expressions.

This file breaks it:
    $c a b $. $v x $. fx $f a x $. one $a a b $. two $a a x x b $.
    p $p a $= one two two two two two two two two two two two two two two two two two two two two $.
Here step 1 pushes 2 symbols, and each further step twice as many as the one
before: step 20 pushes 1,048,576.

The reply:
    limit f.mm 2 p L1 21
",
    },
    RuleText {
        code: "P13",
        text: "P13: at the end of a complete proof the stack doesn't hold exactly one entry. An
empty proof leaves none, and its step is 1.
Line: that where the statement begins; `mm why` tells the place in the proof.
Usual cause: a step at the end is missing, one before is too many, a letter is
wrong, or a block before the theorem isn't closed, so that it has one more
hypothesis.
Remedy: `mm why` lists the entries that are left, each with the step that made
it: write the step that joins them, delete the step that is too many, or close
the block with `$}`.

This file breaks it:
    $c a b $. one $a a b $.
    p $p a b $= one one $.

The reply:
    no f.mm 2 p P13 3
",
    },
    RuleText {
        code: "P14",
        text: "P14: the one entry at the end of a complete proof isn't the expression of the
`$p`.
Line: that where the statement begins; `mm why` tells the place in the proof.
Usual cause: the proof proves something else than the statement says, as where
one of the two was changed.
Remedy: `mm why` shows both, and from which symbol on they differ: change the
statement, or the steps that lead to another expression.

This file breaks it:
    $c a b $. one $a a b $.
    p $p a b b $= one $.

The reply:
    no f.mm 2 p P14 2
",
    },
];

fn proofs() -> &'static [RuleText<'static>] {
    PROOFS
}

const QUESTIONS: &[RuleText<'static>] = &[
    RuleText {
        code: "A1",
        text: "A1: no statement has the asked label. Symbols aren't labels.
Usual cause: the label is misspelled, or LABEL and a file are swapped.
Remedy: give the label first, spelled as in the database, and then the files.

A file:
    $c a b $. one $a a $.
    p $p a $= one $.

The reply to `mm axioms b f.mm`:
    ask A1 b
",
    },
    RuleText {
        code: "A2",
        text: "A2: the asked label isn't that of a `$p`, but of an axiom or a hypothesis.
Usual cause: the label of an axiom or a hypothesis was taken for that of a
theorem.
Remedy: ask about a statement with a `$p`.

A file:
    $c a b $. one $a a $.
    p $p a $= one $.

The reply to `mm axioms one f.mm`:
    ask A2 one
",
    },
    RuleText {
        code: "A3",
        text: "A3: the proof of the asked `$p` is incomplete.
Usual cause: the proof has a `?` where a part of it is still to be found.
Remedy: write the missing part of the proof; `mm check` lists all theorems whose
proofs are incomplete.

A file:
    $c a b $. one $a a $.
    p $p a $= one ? $.

The reply to `mm show p f.mm`:
    ask A3 p
",
    },
    RuleText {
        code: "A4",
        text: "A4: the asked `$p` doesn't depend on the assertion with the label behind `--to`.
Only `mm axioms --to` judges it, after A1 to A3 of the `$p`, and A1 and A2 of
the assertion.
Usual cause: the proof uses the assertion nowhere, and nothing that it uses
does.
Remedy: `mm axioms` lists what the theorem depends on.

A file:
    $c a b $. one $a a $. two $a a $.
    p $p a $= one $.

The reply to `mm axioms --to two p f.mm`:
    ask A4 p
",
    },
    RuleText {
        code: "L2",
        text: "L2: the normal proof of the asked `$p` has more than 16,777,216 labels. Only `mm
normal` judges it.
Usual cause: the compressed proof shares parts that the normal one has to
repeat.
Remedy: ask for the packed proof, by `mm packed`.

A file:
    $c e $. $v x y $. fx $f e x $. fy $f e y $. nil $a e $. cat $a e x y $.
    p $p e $= ( nil cat )
      AABZCBZDBZEBZFBZGBZHBZIBZJBZKBZLBZMB
      ZNBZOBZPBZQBZRBZSBZTBZUABZUBBZUCBZUDBZUEB $.
Here each use of `cat` but the first takes the expression before it twice, so
that there are 33,554,431 labels.

The reply to `mm normal p f.mm`:
    ask L2 p
",
    },
];

fn questions() -> &'static [RuleText<'static>] {
    QUESTIONS
}

/// The chapters, in the order of their rules.
pub fn rule_chapters() -> [&'static [RuleText<'static>]; 6] {
    [
        files(),
        text(),
        statements(),
        meaning(),
        proofs(),
        questions(),
    ]
}
