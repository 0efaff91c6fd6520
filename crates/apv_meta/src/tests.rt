ghost use Rattle.std.specs.Prelude.{◌≤◌, length};
ghost use Rattle.apv_base.specs.model.Run.{MAX_UNIT};

use crate::{
    Cll, Mdcv, Payload, len_payload, next_payload, put_cll, put_mdcv, put_payload, read_cll,
    read_mdcv, read_t35, read_user,
};
use std::process::Abort;

/// Puts a payload, and expects that it is found again.
fn put_and_find(rt: &impl Abort, kind: u64, bytes: &[u8], out: &mut [u8])
    requires kind { kind ≤ 65535 }
    requires size { length bytes.now ≤ MAX_UNIT }
{
    let len = len_payload(kind, bytes.len() as u64);
    assert!(rt; out.len() as u64 == len);
    put_payload(kind, bytes, out);
    assert!(rt; 0 < out.len());
    assert!(rt; out.len() <= 600);
    let payload = next_payload(out, 0).expect(rt, "a payload");
    assert_eq!(rt; payload.kind, kind);
    assert!(rt; payload.bytes == bytes);
    assert_eq!(rt; payload.next, out.len());
}

#[test]
fn puts_payloads(rt: HostRuntime) {
    let mut out = [1; 514];
    put_and_find(&rt, 170, &[3; 510], &mut out);
    let head = [out[0], out[1], out[2], out[3]];
    assert_eq!(rt; head, [0xaa, 0xff, 0xff, 0]);
    let mut out = [0; 4];
    put_and_find(&rt, 300, &[7], &mut out);
    assert_eq!(rt; out, [0xff, 0x2d, 1, 7]);
    let mut out = [1; 2];
    put_and_find(&rt, 6, &[], &mut out);
    assert_eq!(rt; out, [6, 0]);
}

fn payload(kind: u64, bytes: &[u8]) -> Payload<'_> {
    Payload {
        kind,
        bytes,
        next: 0,
    }
}

#[test]
fn reads_registered_data(rt: HostRuntime) {
    assert!(rt; read_t35(&payload(4, &[])).is_none());
    assert!(rt; read_t35(&payload(4, &[0xff])).is_none());
    assert!(rt; read_t35(&payload(5, &[0xb5])).is_none());
    let found = read_t35(&payload(4, &[0xff, 1])).expect(&rt, "an extension");
    assert_eq!(rt; found.country, 255);
    assert_eq!(rt; found.extension, Some(1));
    assert!(rt; found.rest.is_empty());
    let found = read_t35(&payload(4, &[0xb5])).expect(&rt, "a country");
    assert_eq!(rt; found.country, 181);
    assert_eq!(rt; found.extension, None);
    assert!(rt; found.rest.is_empty());
}

#[test]
fn reads_user_data(rt: HostRuntime) {
    assert!(rt; read_user(&payload(170, &[9; 15])).is_none());
    let found = read_user(&payload(170, &[9; 17])).expect(&rt, "a UUID");
    assert_eq!(rt; found.uuid, [9; 16]);
    assert_eq!(rt; found.rest.len(), 1);
}

#[test]
fn reads_and_puts_light_levels(rt: HostRuntime) {
    let bytes = [0x03, 0xe8, 0x01, 0x90];
    let value = Cll {
        cll: 1000,
        fall: 400,
    };
    assert_eq!(rt; read_cll(&payload(6, &bytes)), Some(value));
    assert_eq!(rt; read_cll(&payload(5, &bytes)), None);
    assert_eq!(rt; read_cll(&payload(6, &bytes[..3])), None);
    let mut out = [0; 4];
    put_cll(&value, &mut out);
    assert_eq!(rt; out, bytes);
}

#[test]
fn reads_and_puts_a_colour_volume(rt: HostRuntime) {
    let bytes = [
        0, 1, 0, 2, 0, 3, 0, 4, 0, 5, 0, 6, 0, 7, 0, 8, 0, 0, 0, 9, 0, 0, 0, 10,
    ];
    let value = Mdcv {
        primaries: [(1, 2), (3, 4), (5, 6)],
        white: (7, 8),
        greatest: 9,
        least: 10,
    };
    assert_eq!(rt; read_mdcv(&payload(5, &bytes)), Some(value));
    assert_eq!(rt; read_mdcv(&payload(6, &bytes)), None);
    let mut out = [0; 24];
    put_mdcv(&value, &mut out);
    assert_eq!(rt; out, bytes);
}
