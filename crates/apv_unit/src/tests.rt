ghost use Rattle.std.specs.Prelude.{◌≤◌, length};
ghost use Rattle.apv_base.specs.model.Run.{MAX_UNIT};

use crate::au_info::au_info_break;
use crate::{AuEntry, au_count, au_entry, put_au_info, put_filler, put_pbu_header};
use apv_base::{HeadEnd, Rule};
use std::process::Abort;

/// A grey frame of 16x16 samples of 10 bits, as access unit information lists it.
const ENTRY: AuEntry = AuEntry {
    kind: 1,
    group: 1,
    info: [0x63, 0x7b, 0, 0, 0, 0x10, 0, 0, 0x10, 2, 0, 0],
};

/// Access unit information with one frame.
const BODY: [u8; 19] = [
    0, 1, 1, 0, 1, 0, 0x63, 0x7b, 0, 0, 0, 0x10, 0, 0, 0x10, 2, 0, 0, 0,
];

fn expect_break(rt: &impl Abort, body: &[u8], rule: Rule)
    requires { length body.now ≤ MAX_UNIT }
{
    assert_eq!(rt; au_info_break(body), Some(HeadEnd::Rule(rule)));
}

#[test]
fn names_its_frame(rt: HostRuntime) {
    let found = au_info_break(&BODY);
    assert!(rt; found.is_none());
    let count = au_count(&BODY);
    assert_eq!(rt; count, 1);
    assert_eq!(rt; au_entry(&BODY, 0), ENTRY);
}

#[test]
fn lists_frames(rt: HostRuntime) {
    let mut one = [0xff; 19];
    put_au_info(&[ENTRY], &mut one);
    assert_eq!(rt; one, BODY);
    let mut none = [0xff; 3];
    put_au_info(&[], &mut none);
    assert_eq!(rt; none, [0; 3]);
    let mut other = ENTRY;
    other.kind = 27;
    other.group = 258;
    let mut two = [0xff; 35];
    put_au_info(&[ENTRY, other], &mut two);
    let listed = [
        0, 2, 1, 0, 1, 0, 0x63, 0x7b, 0, 0, 0, 0x10, 0, 0, 0x10, 2, 0, 0, 27, 1, 2, 0, 0x63, 0x7b,
        0, 0, 0, 0x10, 0, 0, 0x10, 2, 0, 0, 0,
    ];
    assert_eq!(rt; two, listed);
}

#[test]
fn tests_the_filler(rt: HostRuntime) {
    let mut body = [0xff; 21];
    body[..19].copy_from_slice(&BODY);
    assert_eq!(rt; au_info_break(&body), None);
    body[20] = 0xfe;
    expect_break(&rt, &body, Rule::V23);
}

#[test]
fn ends_inside_a_field(rt: HostRuntime) {
    for len in 0..19 {
        expect_break(&rt, &BODY[..len], Rule::V8);
    }
}

#[test]
fn tests_reserved_fields(rt: HostRuntime) {
    for place in [5, 8, 17, 18] {
        let mut body = BODY;
        body[place] = 1;
        expect_break(&rt, &body, Rule::V14);
    }
    let mut body = BODY;
    body[5] = 1;
    expect_break(&rt, &body[..7], Rule::V14);
}

#[test]
fn writes_a_header_and_filler(rt: HostRuntime) {
    let mut out = [0; 8];
    put_pbu_header(66, 1, 14, &mut out);
    assert_eq!(rt; out, [0, 0, 0, 0x0e, 0x42, 0, 1, 0]);
    put_filler(&mut out);
    assert_eq!(rt; out, [0xff; 8]);
}
