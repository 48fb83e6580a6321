//! What books answer: labels as a book grows, and frames.

use crate::frame::databases::{DEMO, DIST, LIMIT, TWICE, WIDE};
use crate::frame::questions::{Question, ask};
use mm_frame::LabelKind;
use std::test::Fail;

const BEFORE_TERMS: [Question; 2] = [Question::Nothing(b"tze"), Question::Nothing(b"wff")];

const WITH_TERM: [Question; 1] = [Question::Frame(b"tze", "", 0)];

const BLOCK_OPENED: [Question; 2] = [Question::Depth(1), Question::Nothing(b"min")];

const IN_BLOCK: [Question; 2] = [
    Question::Hypothesis(b"min", true),
    Question::Nothing(b"wff"),
];

const AFTER_BLOCK: [Question; 2] = [Question::Depth(0), Question::Hypothesis(b"min", false)];

const LABELS: [Question; 5] = [
    Question::Nothing(b"wff"),
    Question::Kind(b"tt", LabelKind::Floating),
    Question::Kind(b"min", LabelKind::Essential),
    Question::Kind(b"mp", LabelKind::Axiom),
    Question::Kind(b"th1", LabelKind::Proof),
];

const FRAMES: [Question; 8] = [
    Question::Frame(b"tze", "", 0),
    Question::Frame(b"tpl", "tt tr", 0),
    Question::Frame(b"weq", "tt tr", 0),
    Question::Frame(b"wim", "wp wq", 0),
    Question::Frame(b"a1", "tt tr ts", 0),
    Question::Frame(b"a2", "tt", 0),
    Question::Frame(b"mp", "wp wq min maj", 0),
    Question::Frame(b"th1", "tt", 0),
];

const ACTIVE: [Question; 5] = [
    Question::Active(b"mp", b"min", true),
    Question::Active(b"mp", b"tt", true),
    Question::Active(b"th1", b"min", false),
    Question::Active(b"th1", b"tt", true),
    Question::Active(b"th1", b"wq", true),
];

const PAIRS: [Question; 7] = [
    Question::Frame(b"ax", "vx vy", 1),
    Question::Pair(b"ax", b"vx", b"vy"),
    Question::Frame(b"fin", "vx vy h", 0),
    Question::Distinct(b"ax", b"vx", b"vy", true),
    Question::Distinct(b"ax", b"vy", b"vx", true),
    Question::Distinct(b"ax", b"vx", b"vz", false),
    Question::Distinct(b"fin", b"vx", b"vy", false),
];

const WIDE_PAIRS: [Question; 13] = [
    Question::Frame(b"before", "f0 f69", 0),
    Question::Distinct(b"before", b"f0", b"f69", false),
    Question::Frame(b"inside", "f0 f69", 1),
    Question::Pair(b"inside", b"f0", b"f69"),
    Question::Distinct(b"inside", b"f69", b"f0", true),
    Question::Distinct(b"inside", b"f0", b"f0", false),
    Question::Distinct(b"inside", b"f0", b"fz", false),
    Question::Frame(b"nested", "f0 fz", 0),
    Question::Distinct(b"nested", b"f1", b"f69", true),
    Question::Frame(b"still", "f0 f1", 1),
    Question::Distinct(b"still", b"f0", b"f69", true),
    Question::Frame(b"after", "f0 f69", 0),
    Question::Distinct(b"after", b"f0", b"f1", false),
];

const VARIABLE_OF_HYPOTHESIS: [Question; 1] = [Question::Frame(b"end", "fx h", 0)];

const TWO_BLOCKS: [Question; 1] = [Question::OneVariable(b"fx", b"fy", b"x")];

#[test]
fn label_not_taken_yet(rt: HostRuntime) -> Result<(), Fail> {
    ask(&rt, rt.alloc(), (&DEMO, 7), &BEFORE_TERMS)
}

#[test]
fn label_just_taken(rt: HostRuntime) -> Result<(), Fail> {
    ask(&rt, rt.alloc(), (&DEMO, 8), &WITH_TERM)
}

#[test]
fn block_opened(rt: HostRuntime) -> Result<(), Fail> {
    ask(&rt, rt.alloc(), (&DEMO, 14), &BLOCK_OPENED)
}

#[test]
fn in_block(rt: HostRuntime) -> Result<(), Fail> {
    ask(&rt, rt.alloc(), (&DEMO, 15), &IN_BLOCK)
}

#[test]
fn after_block(rt: HostRuntime) -> Result<(), Fail> {
    ask(&rt, rt.alloc(), (&DEMO, 18), &AFTER_BLOCK)
}

#[test]
fn labels(rt: HostRuntime) -> Result<(), Fail> {
    ask(&rt, rt.alloc(), (&DEMO, 19), &LABELS)
}

#[test]
fn frames(rt: HostRuntime) -> Result<(), Fail> {
    ask(&rt, rt.alloc(), (&DEMO, 19), &FRAMES)
}

#[test]
fn active(rt: HostRuntime) -> Result<(), Fail> {
    ask(&rt, rt.alloc(), (&DEMO, 19), &ACTIVE)
}

#[test]
fn pairs(rt: HostRuntime) -> Result<(), Fail> {
    ask(&rt, rt.alloc(), (&DIST, 13), &PAIRS)
}

#[test]
fn wide_pairs(rt: HostRuntime) -> Result<(), Fail> {
    ask(&rt, rt.alloc(), (&WIDE, 17), &WIDE_PAIRS)
}

#[test]
fn variable_of_hypothesis(rt: HostRuntime) -> Result<(), Fail> {
    ask(&rt, rt.alloc(), (&LIMIT, 9), &VARIABLE_OF_HYPOTHESIS)
}

#[test]
fn two_blocks(rt: HostRuntime) -> Result<(), Fail> {
    ask(&rt, rt.alloc(), (&TWICE, 9), &TWO_BLOCKS)
}
