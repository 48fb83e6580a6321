//! Assertions by their shape. Which of them have it was asked of metamath-exe: of its `search`, and
//! for hypotheses of its `search` with `/ALL`; it has no word for whole assertions.

use mm_base::{File, Seed};
use mm_find::{Matching, Query, Sought, find, find_reply, shape_of};
use mm_frame::MeaningRule;
use mm_rules::{CheckFault, Rule, Status};
use std::alloc::Global;
use std::test::Fail;

/// A database in which the proof of th1 is at fault.
const DATABASE: &[u8] = b"$c 0 + = -> ( ) term wff |- $.
$v t r s P Q $.
tt $f term t $. tr $f term r $. ts $f term s $. wp $f wff P $. wq $f wff Q $.
tze $a term 0 $.
tpl $a term ( t + r ) $.
weq $a wff t = r $.
wim $a wff ( P -> Q ) $.
a1 $a |- ( t = r -> ( t = s -> r = s ) ) $.
a2 $a |- ( t + 0 ) = t $.
${ min $e |- P $. maj $e |- ( P -> Q ) $. mp $a |- Q $. $}
th1 $p |- t = t $= tt $.
";

const TZE: &[u8] = b"tze $a : term 0\n";

const TPL: &[u8] = b"tpl $a : term ( t + r )\n";

const WEQ: &[u8] = b"weq $a : wff t = r\n";

const WIM: &[u8] = b"wim $a : wff ( P -> Q )\n";

const A1: &[u8] = b"a1 $a : |- ( t = r -> ( t = s -> r = s ) )\n";

const A2: &[u8] = b"a2 $a : |- ( t + 0 ) = t\n";

const MP: &[u8] = b"mp $a : |- P & |- ( P -> Q ) => |- Q\n";

const TH1: &[u8] = b"th1 $p : |- t = t\n";

/// Patterns, by their tokens, and the lines of what has them.
#[derive(Clone, Copy)]
struct Search {
    patterns: &'static [&'static [&'static [u8]]],
    whole: bool,
    hypotheses: bool,
    lines: &'static [&'static [u8]],
}

/// What is sought anywhere in assertions.
fn anywhere(
    patterns: &'static [&'static [&'static [u8]]],
    lines: &'static [&'static [u8]],
) -> Search {
    Search {
        patterns,
        whole: false,
        hypotheses: false,
        lines,
    }
}

/// What is sought as whole assertions.
fn whole(patterns: &'static [&'static [&'static [u8]]], lines: &'static [&'static [u8]]) -> Search {
    Search {
        patterns,
        whole: true,
        hypotheses: false,
        lines,
    }
}

/// What is sought in hypotheses too.
fn also_in_hypotheses(
    patterns: &'static [&'static [&'static [u8]]],
    lines: &'static [&'static [u8]],
) -> Search {
    Search {
        patterns,
        whole: false,
        hypotheses: true,
        lines,
    }
}

/// The query for these patterns.
fn query_of(alloc: Global, search: &Search) -> Result<Query<'static>, Fail> {
    let mut shapes = Vec::new(alloc);
    for pattern in search.patterns {
        shapes.push(shape_of(alloc, search.whole, pattern)?)?;
    }
    Ok(Query {
        patterns: shapes,
        matching: Matching::Shapes,
        hypotheses: search.hypotheses,
    })
}

/// Whether the lines that are found are these.
fn finds(alloc: Global, search: &Search) -> Result<bool, Fail> {
    let files = [File {
        name: b"a.mm",
        bytes: DATABASE,
    }];
    let query = query_of(alloc, search)?;
    let mut wanted = Vec::new(alloc);
    for line in search.lines {
        wanted.extend_from_slice(line)?;
    }
    match find(alloc, Seed::known(), &files, &query) {
        Ok(text) => Ok(text.as_slice() == wanted.as_slice()),
        Err(_) => Err(Fail::from("refused")),
    }
}

#[test]
fn finds_shapes(rt: HostRuntime) -> Result<(), Fail> {
    for search in [
        anywhere(&[], &[TZE, TPL, WEQ, WIM, A1, A2, MP, TH1]),
        anywhere(&[&[b"$*"]], &[TZE, TPL, WEQ, WIM, A1, A2, MP, TH1]),
        anywhere(&[&[b"|-", b"$?"]], &[A1, A2, MP, TH1]),
        anywhere(&[&[b"(", b"$*", b"->", b"$?", b")"]], &[WIM]),
        anywhere(&[&[b"(", b"$*", b")"]], &[TPL, WIM, A1, A2]),
        anywhere(&[&[b"t", b"=", b"$?"]], &[WEQ, A1, TH1]),
        anywhere(&[&[b"$?", b"=", b"t"]], &[A2, TH1]),
        anywhere(&[&[b"(", b"$?", b"+", b"$?", b")"]], &[TPL, A2]),
        anywhere(&[&[b"$*", b"=", b"$*", b"=", b"$*"]], &[A1]),
        anywhere(&[&[b"=", b"t"]], &[A2, TH1]),
        anywhere(&[&[b"unknown"]], &[]),
        anywhere(&[&[b"=", b"t"], &[b"+"]], &[A2]),
        anywhere(&[&[b"=", b"t"], &[b"unknown"]], &[]),
        whole(&[&[b"t", b"=", b"t"]], &[TH1]),
        whole(&[&[b"|-", b"t", b"=", b"t"]], &[TH1]),
        whole(&[&[b"=", b"t"]], &[]),
        whole(&[&[b"(", b"$*", b")"]], &[TPL, WIM, A1]),
        also_in_hypotheses(&[&[b"(", b"$*", b"->", b"$?", b")"]], &[WIM, MP]),
        also_in_hypotheses(&[&[b"|-", b"P"], &[b"|-", b"Q"]], &[MP]),
    ] {
        assert!(rt; finds(rt.alloc(), &search)?);
    }
    Ok(())
}

/// Patterns up to the names of variables, by their tokens, and the lines of what has them.
#[derive(Clone, Copy)]
struct VariantSearch {
    pattern: &'static [&'static [u8]],
    whole: bool,
    hypotheses: bool,
    lines: &'static [&'static [u8]],
}

/// A pattern that is sought up to the names of variables, and the lines of what has it.
fn variants(
    pattern: &'static [&'static [u8]],
    whole: bool,
    hypotheses: bool,
    lines: &'static [&'static [u8]],
) -> VariantSearch {
    VariantSearch {
        pattern,
        whole,
        hypotheses,
        lines,
    }
}

/// Whether the lines that are found are these.
fn finds_variants(alloc: Global, search: &VariantSearch) -> Result<bool, Fail> {
    let files = [File {
        name: b"a.mm",
        bytes: DATABASE,
    }];
    let mut patterns = Vec::new(alloc);
    patterns.push(search.pattern.to_vec(alloc)?)?;
    let query = Query {
        patterns,
        matching: Matching::Variants {
            whole: search.whole,
        },
        hypotheses: search.hypotheses,
    };
    let mut wanted = Vec::new(alloc);
    for line in search.lines {
        wanted.extend_from_slice(line)?;
    }
    match find(alloc, Seed::known(), &files, &query) {
        Ok(text) => Ok(text.as_slice() == wanted.as_slice()),
        Err(_) => Err(Fail::from("refused")),
    }
}

#[test]
fn finds_variants_by_types(rt: HostRuntime) -> Result<(), Fail> {
    for search in [
        variants(&[b"s", b"=", b"s"], true, false, &[TH1]),
        variants(&[b"|-", b"s", b"=", b"s"], true, false, &[TH1]),
        variants(&[b"s", b"=", b"r"], false, false, &[WEQ, A1]),
        variants(&[b"s", b"=", b"r"], true, false, &[WEQ]),
        variants(&[b"P", b"=", b"P"], false, false, &[]),
        variants(&[b"(", b"Q", b"->", b"P", b")"], false, true, &[WIM, MP]),
        variants(&[b"(", b"Q", b"->", b"P", b")"], false, false, &[WIM]),
        variants(&[b"(", b"$?", b"->", b"P", b")"], false, true, &[WIM, MP]),
        variants(&[b"r", b"$?", b"s", b"->"], false, false, &[A1]),
        variants(&[b"+", b"0", b")", b"=", b"r"], false, false, &[A2]),
        variants(&[b"$*"], false, false, &[]),
        variants(&[], false, false, &[TZE, TPL, WEQ, WIM, A1, A2, MP, TH1]),
    ] {
        assert!(rt; finds_variants(rt.alloc(), &search)?);
    }
    Ok(())
}

#[test]
fn refuses_meaning(rt: HostRuntime) -> Result<(), Fail> {
    let files = [File {
        name: b"a.mm",
        bytes: b"$c a $. p $p a $= no $. q $a b $.",
    }];
    let query = Query {
        patterns: Vec::new(rt.alloc()),
        matching: Matching::Shapes,
        hypotheses: false,
    };
    let is_refused = match find(rt.alloc(), Seed::known(), &files, &query) {
        Err(CheckFault::Refused(refusal)) => {
            refusal.statement == 3 && refusal.rule == Rule::Meaning(MeaningRule::M7)
        }
        _ => false,
    };
    assert!(rt; is_refused);
    Ok(())
}

#[test]
fn replies_to_words(rt: HostRuntime) -> Result<(), Fail> {
    let files = [File {
        name: b"a.mm",
        bytes: DATABASE,
    }];
    let sought = Sought {
        patterns: &[b" =  t ", b"( $? + $* )"],
        whole: false,
        shape: false,
        hypotheses: false,
    };
    let reply = find_reply(rt.alloc(), Seed::known(), &files, &sought)?;
    assert!(rt; reply.text.as_slice() == A2);
    assert!(rt; reply.status == Status::Done);
    Ok(())
}
