//! The codes of the rules. Made by scripts/rules.sh from docs/RULES.md: edit that.

/// A line for each code.
pub(crate) const CODES: &str =
    "F1: no file was handed in, which only the library can answer: the program asks for a file.
F2: two handed names are equal, as in `mm check f.mm f.mm`.
F3: the files hold more than 1,073,741,824 bytes in all.
X1: a token, in a comment too, holds a byte outside 0x21 to 0x7E.
X2: a file ends in a comment.
X3: in a comment, a token other than `$)` holds `$(` or `$)`.
X4: `$)` stands outside a comment, or `$]` outside an inclusion.
X5: after `$[` comes a token with `$` where the name should stand, or after the name a token \
     other than `$]`.
X6: `$[` stands in a block or in a statement.
X7: the name of a whole inclusion was not handed in.
X8: a file ends in a statement.
X9: a token outside comments and inclusions holds `$` and is no keyword.
S1: `$f`, `$e`, `$a`, `$p`, `$.` or `$=` stands where a statement should begin.
S2: a token that is no keyword stands where a statement should begin, and holds a byte that a \
     label may not hold.
S3: a label isn't followed by `$f`, `$e`, `$a` or `$p`.
S4: a statement holds a keyword that can't stand in that place: `$.` before the `$=` of a \
     `$p`, `$=` in any other place, or any other keyword.
S5: `$.` or `$=` ends the symbols after too few of them, or a `$f` has a third symbol.
S6: `$}` stands where a statement may begin, and no block is open.
S7: the top file ends and a block is open.
M1: a `$c` stands in a block.
M2: a symbol of a `$c` was declared before, as a constant or a variable, active or not; or it \
     stands twice in the `$c`.
M3: a symbol of a `$v` is an active variable, was declared a constant, or stands twice in the \
     `$v`.
M4: a symbol of a `$c` or `$v` equals an earlier label.
M5: the label equals an earlier label, also one in a closed block.
M6: the label equals a symbol that was declared before, active or not.
M7: a symbol of a `$d`, `$f`, `$e`, `$a` or `$p` isn't active: it was never declared, or only \
     in a block that is closed.
M8: a member of a `$d` is a constant.
M9: a member stands twice in a `$d`.
M10: the type code of a `$f` is a variable.
M11: the second symbol of a `$f` is a constant.
M12: the variable of a `$f` has an active `$f`.
M13: an earlier `$f`, active or not, gave the variable of that name another type code.
M14: the first symbol of an `$e`, `$a` or `$p` is a variable.
M15: a variable in an `$e`, `$a` or `$p` has no active `$f`.
P1: the first token of a complete proof is `(`, and there is no `)` among the others.
P2: the proof names a label, in a normal proof or in the list of a compressed one, that isn't \
     that of a statement before this `$p`.
P3: a label is that of a hypothesis that isn't active.
P4: a byte of the letters isn't one of `A` to `Z`.
P5: leading digits are followed by `Z`, by the end of the letters, or by a `?`.
P15: under the strict profile, the list of a compressed proof names a mandatory hypothesis, or \
     a label twice; or a `Z` doesn't stand directly after a number of a listed label that is an \
     assertion's.
P6: a number in the letters exceeds m + n + t, with m mandatory hypotheses, n listed labels \
     and t tags so far.
P7: a `Z` comes before any step.
P8: the step's assertion has more mandatory hypotheses than the stack holds entries.
P9: the entry that the step takes for a `$f` doesn't begin with the type code of that `$f`.
P10: the entry that the step takes for an `$e` isn't that `$e` with its variables replaced.
P11: the step replaces two disjoint variables of its assertion by expressions that share a \
     variable.
P12: the step replaces two disjoint variables of its assertion, and a variable of the one \
     replacement and a variable of the other aren't an active disjoint pair where the `$p` stands.
L1: a step, also one by a hypothesis, pushes an expression of more than 1,048,576 symbols, its \
     type code counted; under the strict profile, of more than 16,777,216.
P13: at the end of a complete proof the stack doesn't hold exactly one entry.
P14: the one entry at the end of a complete proof isn't the expression of the `$p`.
A1: no statement has the asked label.
A2: the asked label isn't that of a `$p`, but of an axiom or a hypothesis.
A3: the proof of the asked `$p` is incomplete.
A4: the asked `$p` doesn't depend on the assertion with the label behind `--to`.
L2: the normal proof of the asked `$p` has more than 16,777,216 labels.
";
