//! Lemmas that a library lacks.

use mm_base::{File, Seed};
use mm_check::{Command, reply_to};
use mm_lemma_file::{LemmaWish, lemma_file};
use mm_lemmas::{Selection, lemma_list};
use mm_minimize::{SearchWatch, Searched};
use mm_rules::Status;
use mm_verdict::{Reply, SoFar, Watch, check};
use mm_with_lemmas::{judged_lemma_file, lemma_file_reply};
use std::alloc::{AllocError, Global};
use std::test::Fail;

/// A database of which each theorem uses both rules, one after the other.
const LACKING: &[u8] = b"$c ( or ) wff |- a $. $v P Q $. wp $f wff P $. wq $f wff Q $.
wa $a wff a $. wor $a wff ( P or Q ) $. given $a |- a $.
${ weaker.1 $e |- P $. disjunction-is-weaker $a |- ( P or Q ) $. $}
${ commutes.1 $e |- ( P or Q ) $. disjunction-is-commutative $a |- ( Q or P ) $. $}
one $p |- ( a or a ) $=
( wa given disjunction-is-weaker disjunction-is-commutative ) AAAABCD $.
two $p |- ( ( a or a ) or a ) $=
( wa wor given disjunction-is-weaker disjunction-is-commutative ) AAABZAFCDE $.
three $p |- ( ( ( a or a ) or a ) or a ) $=
( wa wor given disjunction-is-weaker disjunction-is-commutative ) AAABABZAFCDE $.
four $p |- ( ( ( ( a or a ) or a ) or a ) or a ) $=
( wa wor given disjunction-is-weaker disjunction-is-commutative ) AAABABABZAFCDE $.
five $p |- ( ( ( ( ( a or a ) or a ) or a ) or a ) or a ) $=
( wa wor given disjunction-is-weaker disjunction-is-commutative ) AAABABABABZAFCDE $.
";

/// The two steps as a lemma. Its 27 bytes are those that five proofs save, without its own text.
const LEMMA: &[u8] =
    b"27 5 5 disjunction-is-commutative 1 disjunction-is-weaker : |- P => |- ( Q or P )
1 lemmas 27 5
";

const NONE: &[u8] = b"0 lemmas 0 0\n";

/// The file with that lemma, right before the first theorem that uses it.
const WITH_LEMMA: &[u8] = b"$c ( or ) wff |- a $. $v P Q $. wp $f wff P $. wq $f wff Q $.
wa $a wff a $. wor $a wff ( P or Q ) $. given $a |- a $.
${ weaker.1 $e |- P $. disjunction-is-weaker $a |- ( P or Q ) $. $}
${ commutes.1 $e |- ( P or Q ) $. disjunction-is-commutative $a |- ( Q or P ) $. $}
  ${
    new1.1 $e |- P $.
    $( Weaken and commute. $)
    new1 $p |- ( Q or P ) $=
      ( disjunction-is-weaker disjunction-is-commutative ) ABABCDE $.
  $}

one $p |- ( a or a ) $=
( wa given new1 ) AABC $.
two $p |- ( ( a or a ) or a ) $=
( wa wor given new1 ) AAABCD $.
three $p |- ( ( ( a or a ) or a ) or a ) $=
( wa wor given new1 ) AAABABCD $.
four $p |- ( ( ( ( a or a ) or a ) or a ) or a ) $=
( wa wor given new1 ) AAABABABCD $.
five $p |- ( ( ( ( ( a or a ) or a ) or a ) or a ) or a ) $=
( wa wor given new1 ) AAABABABABCD $.
";

const NO_SMALLER: &[u8] = b"mm: note: no lemma makes the file smaller\n";

/// Keeps what it was told last, and what the search came to.
#[derive(Clone, Copy)]
struct Listening {
    last: Option<SoFar>,
    searched: Option<Searched>,
}

impl Watch for Listening {
    fn told(&mut self, so_far: SoFar) {
        self.last = Some(so_far);
    }
}

impl SearchWatch for Listening {
    fn searched(&mut self, searched: Searched) {
        self.searched = Some(searched);
    }
}

/// A watch that was told nothing.
fn untold() -> Listening {
    Listening {
        last: None,
        searched: None,
    }
}

/// The reply to the question for lemmas.
fn replied(
    alloc: Global,
    bytes: &[u8],
    (most, least): (usize, usize),
    watch: &mut Listening,
) -> Result<Reply, AllocError> {
    let files = [File {
        name: b"a.mm",
        bytes,
    }];
    let command = Command::Lemmas { most, least };
    reply_to(alloc, Seed::known(), &command, &files, watch)
}

#[test]
fn tells_a_lemma(rt: HostRuntime) -> Result<(), Fail> {
    let files = [File {
        name: b"a.mm",
        bytes: LACKING,
    }];
    let checked = check(rt.alloc(), Seed::known(), &files)
        .ok()
        .ok_or("refused")?;
    let selection = Selection { most: 9, least: 27 };
    let mut watch = untold();
    let list = lemma_list(rt.alloc(), &checked, selection, &mut watch)
        .ok()
        .ok_or("no list")?;
    assert!(rt; list.text.as_slice() == LEMMA);
    assert!(rt; !list.is_cut);
    assert_eq!(rt;
        watch.last,
        Some(SoFar {
            theorems: 1,
            of: 1,
            bytes: 27,
        })
    );
    Ok(())
}

/// A wish for so many lemmas at most, or for those on these lines.
fn wish_for(most: usize, chosen: &[usize]) -> LemmaWish<'_> {
    LemmaWish {
        number: 0,
        selection: Selection { most, least: 1 },
        chosen,
        prefix: b"new",
        comment: Some(b"Weaken and commute."),
    }
}

#[test]
fn puts_a_lemma_in(rt: HostRuntime) -> Result<(), Fail> {
    let files = [File {
        name: b"a.mm",
        bytes: LACKING,
    }];
    let checked = check(rt.alloc(), Seed::known(), &files)
        .ok()
        .ok_or("refused")?;
    for (most, edits, bytes) in [(1, 6, WITH_LEMMA), (0, 0, LACKING)] {
        let wish = wish_for(most, &[]);
        let file = lemma_file(rt.alloc(), &checked, wish, &mut untold())
            .ok()
            .ok_or("no file")?;
        assert!(rt; file.bytes.as_slice() == bytes);
        assert_eq!(rt; file.edits.len(), edits);
        assert!(rt; !file.is_cut);
    }
    Ok(())
}

#[test]
fn gives_what_is_judged(rt: HostRuntime) -> Result<(), Fail> {
    let files = [File {
        name: b"a.mm",
        bytes: LACKING,
    }];
    let checked = check(rt.alloc(), Seed::known(), &files)
        .ok()
        .ok_or("refused")?;
    let wish = wish_for(1, &[]);
    let judged = judged_lemma_file(rt.alloc(), &checked, wish, &mut untold())?;
    assert!(rt; !judged.is_cut);
    let bytes = judged.bytes.ok_or("no such file")?;
    assert!(rt; bytes.as_slice() == WITH_LEMMA);
    Ok(())
}

/// Whether this is the reply for a file of these bytes with the lemmas on these lines, or with all.
fn is_replied(
    alloc: Global,
    bytes: &[u8],
    chosen: &[usize],
    text: &[u8],
    note: &[u8],
) -> Result<bool, AllocError> {
    let files = [File {
        name: b"a.mm",
        bytes,
    }];
    let wish = wish_for(9, chosen);
    let told = lemma_file_reply(alloc, Seed::known(), &files, wish, &mut untold())?;
    Ok(told.reply.text.as_slice() == text && told.note.as_slice() == note)
}

#[test]
fn replies_with_a_file(rt: HostRuntime) -> Result<(), Fail> {
    assert!(rt; is_replied(rt.alloc(), LACKING, &[], WITH_LEMMA, b"")?);
    assert!(rt; is_replied(rt.alloc(), LACKING, &[3, 1], WITH_LEMMA, b"")?);
    assert!(rt; is_replied(rt.alloc(), LACKING, &[2], LACKING, NO_SMALLER)?);
    assert!(rt; is_replied(rt.alloc(), b"$}", &[], b"no a.mm 1 - S6 0\n", b"")?);
    Ok(())
}

#[test]
fn replies_with_lemmas(rt: HostRuntime) -> Result<(), Fail> {
    for (selection, text) in [
        ((100, 1), LEMMA),
        ((1, 27), LEMMA),
        ((13, 1), LEMMA),
        ((100, 28), NONE),
    ] {
        let mut watch = untold();
        let reply = replied(rt.alloc(), LACKING, selection, &mut watch)?;
        assert!(rt; reply.text.as_slice() == text, "at {selection:?}");
        assert!(rt; reply.status == Status::Done);
        assert!(rt; watch.searched.is_none());
    }
    Ok(())
}

#[test]
fn tells_of_the_database(rt: HostRuntime) -> Result<(), Fail> {
    for (bytes, text, status) in [
        (
            b"$c a $. p $p a $= ? $.".as_slice(),
            NONE,
            Status::Incomplete,
        ),
        (
            b"$c a $. p $a a $. $}".as_slice(),
            b"no a.mm 1 - S6 0\n".as_slice(),
            Status::Refused,
        ),
        (b"".as_slice(), NONE, Status::Done),
    ] {
        let reply = replied(rt.alloc(), bytes, (100, 1), &mut untold())?;
        assert!(rt; reply.text.as_slice() == text, "at {bytes:?}");
        assert!(rt; reply.status == status);
    }
    Ok(())
}
