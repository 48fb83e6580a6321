//! The databases that the cases build on, each the bytes of a whole file.

/// Terms with one sum, and a theorem: `first.mm`.
pub const FIRST: &[u8] = b"\
$c 0 + ( ) term $.
$v t r $.
tt $f term t $.
tr $f term r $.
tze $a term 0 $.
tpl $a term ( t + r ) $.
th $p term ( 0 + 0 ) $= tze tze tpl $.
";

/// The same without its theorem.
pub const FIRST_HEAD: &[u8] = b"\
$c 0 + ( ) term $.
$v t r $.
tt $f term t $.
tr $f term r $.
tze $a term 0 $.
tpl $a term ( t + r ) $.
";

/// Strings, and the joining of two of them: `cat.mm`.
pub const CAT: &[u8] = b"\
$c e $.
$v x y $.
fx $f e x $.
fy $f e y $.
nil $a e $.
cat $a e x y $.
";

/// An axiom with a distinct pair, and one with a hypothesis: `dist.mm`.
pub const DIST: &[u8] = b"\
$c |- set R $.
$v x y z $.
vx $f set x $.
vy $f set y $.
vz $f set z $.
${
$d x y $.
ax $a |- x R y $.
$}
${
h $e |- x R y $.
fin $a |- x $.
$}
";

/// Statements that make long expressions, and an assertion with distinct variables.
pub const LONG: &[u8] = b"\
$c a $. $v x y z $. fx $f a x $. fy $f a y $. fz $f a z $.
two $a a x x $. cat $a a x y $.
${ e $e a x $. cut $a a z $. $}
${ $d x y $. dxy $a a x y $. $}
";

/// An axiom that doubles an expression: `limit.mm`.
pub const LIMIT: &[u8] = b"\
$c e f | $.
$v x $.
fx $f e x $.
one $a e | $.
odd $a e x x | $.
${
h $e e x $.
end $a f $.
$}
";

/// The demonstration database without its theorem: 19 lines and 18 statements.
pub const HEAD: &[u8] = b"\
$( The demo0 database $)
$c 0 + = -> ( ) term wff |- $.
$v t r s P Q $.
tt $f term t $.
tr $f term r $.
ts $f term s $.
wp $f wff P $.
wq $f wff Q $.
tze $a term 0 $.
tpl $a term ( t + r ) $.
weq $a wff t = r $.
wim $a wff ( P -> Q ) $.
a1 $a |- ( t = r -> ( t = s -> r = s ) ) $.
a2 $a |- ( t + 0 ) = t $.
${
  min $e |- P $.
  maj $e |- ( P -> Q ) $.
  mp $a |- Q $.
$}
";

/// The demonstration database with its theorem in a normal proof: `demo0.mm`.
pub const DEMO: &[u8] = b"\
$( The demo0 database $)
$c 0 + = -> ( ) term wff |- $.
$v t r s P Q $.
tt $f term t $.
tr $f term r $.
ts $f term s $.
wp $f wff P $.
wq $f wff Q $.
tze $a term 0 $.
tpl $a term ( t + r ) $.
weq $a wff t = r $.
wim $a wff ( P -> Q ) $.
a1 $a |- ( t = r -> ( t = s -> r = s ) ) $.
a2 $a |- ( t + 0 ) = t $.
${
  min $e |- P $.
  maj $e |- ( P -> Q ) $.
  mp $a |- Q $.
$}
th1 $p |- t = t $=
      tt tze tpl tt weq tt tt weq tt a2 tt tze tpl tt weq tt tze tpl tt weq tt
      tt weq wim tt a2 tt tze tpl tt tt a1 mp mp
$.
";

/// What stands before its theorem.
pub const DEMO_HEAD: &[u8] = b"\
$( The demo0 database $)
$c 0 + = -> ( ) term wff |- $.
$v t r s P Q $.
tt $f term t $.
tr $f term r $.
ts $f term s $.
wp $f wff P $.
wq $f wff Q $.
tze $a term 0 $.
tpl $a term ( t + r ) $.
weq $a wff t = r $.
wim $a wff ( P -> Q ) $.
a1 $a |- ( t = r -> ( t = s -> r = s ) ) $.
a2 $a |- ( t + 0 ) = t $.
${
  min $e |- P $.
  maj $e |- ( P -> Q ) $.
  mp $a |- Q $.
$}
";

/// The demonstration database with its theorem in a small proof.
pub const DEMO_SMALL: &[u8] = b"\
$( The demo0 database $)
$c 0 + = -> ( ) term wff |- $.
$v t r s P Q $.
tt $f term t $.
tr $f term r $.
ts $f term s $.
wp $f wff P $.
wq $f wff Q $.
tze $a term 0 $.
tpl $a term ( t + r ) $.
weq $a wff t = r $.
wim $a wff ( P -> Q ) $.
a1 $a |- ( t = r -> ( t = s -> r = s ) ) $.
a2 $a |- ( t + 0 ) = t $.
${
  min $e |- P $.
  maj $e |- ( P -> Q ) $.
  mp $a |- Q $.
$}
th1 $p |- t = t $=
      ( weq mp tze tpl a2 wim a1 ) ADEZABZAABZAFZJJKGLIAAHCC $.
";

/// The demonstration database with its theorem in a compressed proof: `demo0c.mm`.
pub const DEMO_COMPRESSED: &[u8] = b"\
$( The demo0 database $)
$c 0 + = -> ( ) term wff |- $.
$v t r s P Q $.
tt $f term t $.
tr $f term r $.
ts $f term s $.
wp $f wff P $.
wq $f wff Q $.
tze $a term 0 $.
tpl $a term ( t + r ) $.
weq $a wff t = r $.
wim $a wff ( P -> Q ) $.
a1 $a |- ( t = r -> ( t = s -> r = s ) ) $.
a2 $a |- ( t + 0 ) = t $.
${
  min $e |- P $.
  maj $e |- ( P -> Q ) $.
  mp $a |- Q $.
$}
th1 $p |- t = t $=
      ( tze tpl weq a2 wim a1 mp )
      ABCZADZAADZAEZJJKFLIAAGHH
$.
";
