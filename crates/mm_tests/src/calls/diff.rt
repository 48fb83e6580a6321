//! What changed between two versions of a database. What is told of each was worked out by hand.

use mm_base::{File, Seed};
use mm_diff::{diff_reply, no_change};
use mm_rules::Status;
use mm_step::Profile;
use std::alloc::Global;
use std::test::Fail;

/// The old version.
const OLD: &[u8] = b"$c -> wff |- $. $v p q $. wp $f wff p $. wq $f wff q $.
wi $a wff p -> q $.
${ min $e |- p $. maj $e |- p -> q $. mp $a |- q $. $}
${ $d p q $. ax1 $a |- p -> q $. $}
ax2 $a |- p -> p $.
th1 $p |- p -> p $= wp ax2 $.
";

/// The reply to a database with the unknown label in its first proof, under the name old.mm.
const OLD_FAULT: &[u8] = b"no old.mm 1 p P2 0\n";

/// A theorem of two steps that share one, in the fewest letters.
const SHARED: &[u8] = b"$c c $. x $a c $. ${ f $e c $. a $a c $. $}
${ g $e c $. h $e c $. b $a c $. $}
th $p c $= ( x a b ) ABZDC $.
";

/// The reply where nothing changed.
const NONE: &[u8] =
    b"differ 0 gone 0 added 0 changed 0 reproved 0 renamed 0 moved 0 further 0 less\n";

/// Four axioms, none of which says what another says.
const FOUR: &[u8] = b"$c p q r s $. a $a p $. b $a q $. d $a r $. e $a s $.\n";

/// Two theorems, of which the second depends on the axioms `a` and `r`.
const DEPENDING: &[u8] = b"$c p q $. a $a p $. c $a p $. ${ e $e p $. r $a q $. $}
t $p p $= a $. u $p q $= t r $.
";

/// Two versions, what is told of them, and the status.
#[derive(Clone, Copy)]
struct Version {
    old: &'static [u8],
    new: &'static [u8],
    text: &'static [u8],
    status: Status,
}

/// Whether the version is told so.
fn is_told(alloc: Global, version: &Version) -> Result<bool, Fail> {
    let old = [File {
        name: b"old.mm",
        bytes: version.old,
    }];
    let new = [File {
        name: b"new.mm",
        bytes: version.new,
    }];
    let reply = diff_reply(alloc, Seed::known(), Profile::Lenient, &old, &new)?;
    Ok(reply.text.as_slice() == version.text && reply.status == version.status)
}

#[test]
fn tells_versions(rt: HostRuntime) -> Result<(), Fail> {
    for version in [
        Version {
            old: OLD,
            new: OLD,
            text: NONE,
            status: Status::Done,
        },
        // Neither a new label of a hypothesis nor the order of a pair counts, nor a new proof's text.
        Version {
            old: OLD,
            new: b"$c |- wff -> $. $v q p $. wp $f wff p $. vq $f wff q $.
wi $a wff p -> q $.
${ mi $e |- p $. ma $e |- p -> q $. mp $a |- q $. $}
${ $d q p $. ax1 $a |- p -> q $. $}
ax2 $a |- p -> p $.
th1 $p |- p -> p $= ( ax2 ) AB $.
",
            text: NONE,
            status: Status::Done,
        },
        // A version that isn't finished isn't compared.
        Version {
            old: OLD,
            new: b"$c -> wff |- $. $v p q $. wp $f wff p $. th1 $p |- p -> p $= ? $.\n",
            text: b"incomplete 1\nth1\n",
            status: Status::Incomplete,
        },
        Version {
            old: OLD,
            new: b"$c a $. th1 $p a $= no $.\n",
            text: b"no new.mm 1 th1 P2 0\n",
            status: Status::Refused,
        },
    ] {
        assert!(rt; is_told(rt.alloc(), &version)?);
    }
    no_change();
    Ok(())
}

#[test]
fn tells_changed_statements(rt: HostRuntime) -> Result<(), Fail> {
    for version in [
        // The order of `$f` is that of what a step asks for: so wi is another, and so are all.
        Version {
            old: OLD,
            new: b"$c -> wff |- $. $v p q $. wq $f wff q $. wp $f wff p $.
wi $a wff p -> q $.
${ min $e |- p $. maj $e |- p -> q $. mp $a |- q $. $}
${ $d p q $. ax1 $a |- p -> q $. $}
ax2 $a |- p -> p $.
th1 $p |- p -> p $= wp ax2 $.
",
            text: b"C wi\nC mp\nC ax1\ndiffer 0 gone 0 added 3 changed 0 reproved 0 renamed 0 moved 0 further 0 less\n",
            status: Status::Refused,
        },
        // One is gone, two are added, and each of the others is changed in another way.
        Version {
            old: OLD,
            new: b"$c -> wff |- $. $v p q $. wp $f wff p $. wq $f wff q $.
wj $a wff q -> p $.
${ min $e |- q $. maj $e |- p -> q $. mp $a |- q $. $}
ax1 $a |- p -> q $.
ax2 $a |- q -> q $.
th1 $a |- p -> p $.
th2 $p |- q -> q $= wq ax2 $.
",
            text: b"G wi\nA wj\nA th2\nC mp\nC ax1\nC ax2\nC th1\ndiffer 1 gone 2 added 4 changed 0 reproved 0 renamed 0 moved 0 further 0 less\n",
            status: Status::Refused,
        },
    ] {
        assert!(rt; is_told(rt.alloc(), &version)?);
    }
    Ok(())
}

#[test]
fn tells_other_proofs(rt: HostRuntime) -> Result<(), Fail> {
    for version in [
        // Another assertion proves it; and a hypothesis that its proof names has another label.
        Version {
            old: OLD,
            new: b"$c -> wff |- $. $v p q $. vp $f wff p $. wq $f wff q $.
wi $a wff p -> q $.
${ min $e |- p $. maj $e |- p -> q $. mp $a |- q $. $}
${ $d p q $. ax1 $a |- p -> q $. $}
ax2 $a |- p -> p $. ax3 $a |- p -> p $.
th1 $p |- p -> p $= vp ax3 $.
",
            text: b"A ax3\nP th1\nF th1 ax3\nL th1 ax2\ndiffer 0 gone 1 added 0 changed 1 reproved 0 renamed 0 moved 1 further 1 less\n",
            status: Status::Refused,
        },
        // Neither form nor sharing counts, nor comments in a proof, nor numbers of labels.
        Version {
            old: SHARED,
            new: b"$c c $. ${ z $e c $. $} x $a c $. ${ f $e c $. a $a c $. $}
${ g $e c $. h $e c $. b $a c $. $}
th $p c $= x $( a $) a x a b $.
",
            text: NONE,
            status: Status::Done,
        },
        // Another step is shared.
        Version {
            old: SHARED,
            new: b"$c c $. x $a c $. ${ f $e c $. a $a c $. $}
${ g $e c $. h $e c $. b $a c $. $}
th $p c $= ( x a b ) AZBDC $.
",
            text: b"P th\ndiffer 0 gone 0 added 0 changed 1 reproved 0 renamed 0 moved 0 further 0 less\n",
            status: Status::Refused,
        },
        // The same labels in the same order make another tree.
        Version {
            old: b"$c c $. x $a c $. ${ f $e c $. a $a c $. $}
${ g $e c $. h $e c $. b $a c $. $}
th $p c $= x x a b $.
",
            new: b"$c c $. x $a c $. ${ f $e c $. g $e c $. a $a c $. $}
${ h $e c $. b $a c $. $}
th $p c $= x x a b $.
",
            text: b"C a\nC b\nP th\ndiffer 0 gone 0 added 2 changed 1 reproved 0 renamed 0 moved 0 further 0 less\n",
            status: Status::Refused,
        },
    ] {
        assert!(rt; is_told(rt.alloc(), &version)?);
    }
    Ok(())
}

#[test]
fn tells_other_labels(rt: HostRuntime) -> Result<(), Fail> {
    for version in [
        // One is renamed, and another is gone beside one that says something else.
        Version {
            old: FOUR,
            new: b"$c p q r s $. a $a p $. c $a q $. d $a r $. f $a s s $.\n",
            text: b"G e\nA f\nR b c\ndiffer 1 gone 1 added 0 changed 0 reproved 1 renamed 0 moved 0 further 0 less\n",
            status: Status::Refused,
        },
        // Of two that say the same none is renamed.
        Version {
            old: FOUR,
            new: b"$c p q r s $. a $a p $. c $a q $. cc $a q $. d $a r $. e $a s $.\n",
            text: b"G b\nA c\nA cc\ndiffer 1 gone 2 added 0 changed 0 reproved 0 renamed 0 moved 0 further 0 less\n",
            status: Status::Refused,
        },
        // One that keeps its label isn't renamed, though a new one says the same.
        Version {
            old: FOUR,
            new: b"$c p q r s $. a $a p $. b $a q $. c $a q $. d $a r $. e $a s $.\n",
            text: b"A c\ndiffer 0 gone 1 added 0 changed 0 reproved 0 renamed 0 moved 0 further 0 less\n",
            status: Status::Refused,
        },
    ] {
        assert!(rt; is_told(rt.alloc(), &version)?);
    }
    Ok(())
}

#[test]
fn tells_other_places(rt: HostRuntime) -> Result<(), Fail> {
    for version in [
        // What moves over two is told, and these aren't.
        Version {
            old: FOUR,
            new: b"$c p q r s $. b $a q $. d $a r $. a $a p $. e $a s $.\n",
            text: b"M a\ndiffer 0 gone 0 added 0 changed 0 reproved 0 renamed 1 moved 0 further 0 less\n",
            status: Status::Refused,
        },
        Version {
            old: FOUR,
            new: b"$c p q r s $. e $a s $. a $a p $. b $a q $. d $a r $.\n",
            text: b"M e\ndiffer 0 gone 0 added 0 changed 0 reproved 0 renamed 1 moved 0 further 0 less\n",
            status: Status::Refused,
        },
        // Two that change places are both told; what is added between others moves none.
        Version {
            old: FOUR,
            new: b"$c p q r s $. b $a q $. a $a p $. n $a p p $. d $a r $. e $a s $.\n",
            text: b"A n\nM b\nM a\ndiffer 0 gone 1 added 0 changed 0 reproved 0 renamed 2 moved 0 further 0 less\n",
            status: Status::Refused,
        },
    ] {
        assert!(rt; is_told(rt.alloc(), &version)?);
    }
    Ok(())
}

#[test]
fn tells_other_axioms(rt: HostRuntime) -> Result<(), Fail> {
    for version in [
        // What depends on it through another theorem is told too.
        Version {
            old: DEPENDING,
            new: b"$c p q $. a $a p $. c $a p $. ${ e $e p $. r $a q $. $}
t $p p $= c $. u $p q $= t r $.
",
            text: b"P t\nF t c\nF u c\nL t a\nL u a\ndiffer 0 gone 0 added 0 changed 1 reproved 0 renamed 0 moved 2 further 2 less\n",
            status: Status::Refused,
        },
        // What is renamed is the same, be it a theorem or an axiom on which one depends.
        Version {
            old: DEPENDING,
            new: b"$c p q $. a $a p $. c $a p $. ${ e $e p $. s $a q $. $}
t $p p $= a $. v $p q $= t s $.
",
            text: b"R r s\nR u v\ndiffer 0 gone 0 added 0 changed 0 reproved 2 renamed 0 moved 0 further 0 less\n",
            status: Status::Refused,
        },
        // A theorem that is renamed is compared with the one that it was.
        Version {
            old: DEPENDING,
            new: b"$c p q $. a $a p $. c $a p $. ${ e $e p $. r $a q $. $}
t $p p $= a $. s $a q $. v $p q $= s $.
",
            text: b"A s\nR u v\nF v s\nL v a r\ndiffer 0 gone 1 added 0 changed 0 reproved 1 renamed 0 moved 1 further 1 less\n",
            status: Status::Refused,
        },
        // Nothing depends on an axiom that is a theorem now; what it depends on is further.
        Version {
            old: DEPENDING,
            new: b"$c p q $. c $a p $. a $p p $= c $. ${ e $e p $. r $a q $. $}
t $p p $= a $. u $p q $= t r $.
",
            text: b"C a\nM c\nM a\nF t c\nF u c\nL t a\nL u a\ndiffer 0 gone 0 added 1 changed 0 reproved 0 renamed 2 moved 2 further 2 less\n",
            status: Status::Refused,
        },
    ] {
        assert!(rt; is_told(rt.alloc(), &version)?);
    }
    Ok(())
}

#[test]
fn tells_the_old_fault_first(rt: HostRuntime) -> Result<(), Fail> {
    let old = [File {
        name: b"old.mm",
        bytes: b"$c a $. p $p a $= no $.",
    }];
    let new = [File {
        name: b"new.mm",
        bytes: b"$c a b $. $c",
    }];
    let reply = diff_reply(rt.alloc(), Seed::known(), Profile::Lenient, &old, &new)?;
    assert!(rt; reply.text.as_slice() == OLD_FAULT);
    assert!(rt; reply.status == Status::Refused);
    Ok(())
}
