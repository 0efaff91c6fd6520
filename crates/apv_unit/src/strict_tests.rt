ghost use Rattle.std.specs.Prelude.{◌≤◌, length};
ghost use Rattle.apv_base.specs.model.Run.{MAX_UNIT};

use crate::{strict, structure};
use apv_base::{Break, Place, Rule};
use std::process::Abort;

/// A PBU with a primary frame of group 1.
const FRAME: [u8; 50] = [
    0, 0, 0, 0x2e, 1, 0, 1, 0, 0x63, 0x7b, 0, 0, 0, 0x10, 0, 0, 0x10, 2, 0, 0, 0, 0, 0, 0x40, 0, 4,
    0, 0, 0, 0, 0, 0x12, 0, 0x0a, 0, 0, 0, 0, 0, 8, 0, 0, 0x81, 7, 0xd4, 0x1f, 0x50, 0x7d, 0x41,
    0xf0,
];

/// A PBU with access unit information that lists this frame.
const LIST: [u8; 27] = [
    0, 0, 0, 0x17, 0x41, 0, 1, 0, 0, 1, 1, 0, 1, 0, 0x63, 0x7b, 0, 0, 0, 0x10, 0, 0, 0x10, 2, 0, 0,
    0,
];

fn expect(rt: &impl Abort, unit: &[u8], found: Result<(), Break>)
    requires { length unit.now ≤ MAX_UNIT }
{
    let Ok(()) = structure(unit, 3) else {
        panic!(rt; "the structure isn't sound");
    };
    assert_eq!(rt; strict(unit, 3), found);
}

fn break_of(rule: Rule, pbu: u32) -> Result<(), Break> {
    let place = Place {
        unit: 3,
        pbu,
        tile: 0,
        comp: 0,
    };
    Err(Break { rule, place })
}

#[test]
fn judges_one_frame(rt: HostRuntime) {
    let mut unit = [0; 54];
    unit[..4].copy_from_slice(b"aPv1");
    unit[4..].copy_from_slice(&FRAME);
    expect(&rt, &unit, Ok(()));
    unit[8] = 2;
    expect(&rt, &unit, break_of(Rule::V32, 0));
    let unit = [
        0x61, 0x50, 0x76, 0x31, 0, 0, 0, 6, 0x43, 0, 1, 0, 0xff, 0xff, 0, 0, 0, 5, 0x50, 0, 1, 0,
        0xab,
    ];
    expect(&rt, &unit, break_of(Rule::V32, 0));
}

#[test]
fn judges_two_frames(rt: HostRuntime) {
    let mut unit = [0; 104];
    unit[..4].copy_from_slice(b"aPv1");
    unit[4..54].copy_from_slice(&FRAME);
    unit[54..].copy_from_slice(&FRAME);
    expect(&rt, &unit, break_of(Rule::V32, 1));
    unit[58] = 2;
    expect(&rt, &unit, break_of(Rule::V33, 1));
    unit[60] = 2;
    expect(&rt, &unit, Ok(()));
}

#[test]
fn judges_a_list(rt: HostRuntime) {
    let mut unit = [0; 81];
    unit[..4].copy_from_slice(b"aPv1");
    unit[4..31].copy_from_slice(&LIST);
    unit[31..].copy_from_slice(&FRAME);
    expect(&rt, &unit, Ok(()));
    unit[16] = 2;
    expect(&rt, &unit, break_of(Rule::V34, 0));
}

#[test]
fn judges_two_lists(rt: HostRuntime) {
    let mut unit = [0; 108];
    unit[..4].copy_from_slice(b"aPv1");
    unit[4..31].copy_from_slice(&LIST);
    unit[31..81].copy_from_slice(&FRAME);
    unit[81..].copy_from_slice(&LIST);
    expect(&rt, &unit, Ok(()));
    unit[101] = 0x20;
    expect(&rt, &unit, break_of(Rule::V34, 2));
}
