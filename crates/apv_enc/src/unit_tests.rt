//! Access units of frames of 16x16 samples.
ghost use Rattle.std.specs.Prelude.{◌≡◌, ℕ, ◌<◌, ◌≤◌, ◌^◌, length, slice_index, if◌then◌else◌};
ghost use Rattle.std.specs.Prelude.{IfOk, IfSome, Some, None, is_some, not, true, false};
ghost use Rattle.apv_enc.specs.Coding.{HasFrameToCode};
ghost use Rattle.apv_tracks.specs.Kinds.{kinds_of};
ghost use Rattle.apv_words.specs.Encoder.{HasEncBounds, HasEncFiles};

use crate::{UnitFault, encode_unit};
use apv_base::{Form, Name};
use apv_grid::{Frame, Pieces};
use apv_header::read_frame_header;
use apv_search::Chosen;
use apv_words::EncSettings;
use apv_workers::{Crew, Gate, NoGate, Track};
use std::alloc::{AllocError, Global};
use std::test::Fail;
use std::thread::Threads;

/// The header of a 4:0:0 frame of 16x16 samples of 10 bits.
const HEADER: [u8; 20] = [
    0x63, 0x7b, 0, 0, 0, 0x10, 0, 0, 0x10, 2, 0, 0, 0, 0, 0, 0x40, 0, 4, 0, 0,
];

/// The access unit of samples of 512 at QP 0.
const GREY: &[u8] =
    b"\x61\x50\x76\x31\x00\x00\x00\x2E\x01\x00\x01\x00\x63\x7B\x00\x00\x00\x10\x00\x00\x10\x02\x00\x00\
    \x00\x00\x00\x40\x00\x04\x00\x00\x00\x00\x00\x12\x00\x0A\x00\x00\x00\x00\x00\x08\x00\x00\x81\x07\
    \xD4\x1F\x50\x7D\x41\xF0";

/// The access unit of samples of 612 at QP 22.
const LIGHT: &[u8] =
    b"\x61\x50\x76\x31\x00\x00\x00\x2F\x01\x00\x01\x00\x63\x7B\x00\x00\x00\x10\x00\x00\x10\x02\x00\x00\
    \x00\x00\x00\x40\x00\x04\x00\x00\x00\x00\x00\x13\x00\x0A\x00\x00\x00\x00\x00\x09\x16\x00\x51\x08\
    \x3E\x81\x07\xD4\x1F\x50\x7C";

/// One payload, of the type 4 and the size 1.
const PAYLOAD: [u8; 3] = [0x04, 0x01, 0xaa];

/// The metadata PBU of that payload.
const PAYLOAD_PBU: [u8; 15] = [0, 0, 0, 0x0b, 0x42, 0, 1, 0, 0, 0, 0, 3, 0x04, 0x01, 0xaa];

/// The filler PBU with a body of three bytes.
const FILLER_PBU: [u8; 11] = [0, 0, 0, 7, 0x43, 0, 1, 0, 0xff, 0xff, 0xff];

/// The first bytes of the PBU of an alpha frame of samples of 512 at QP 0: its size, type and group.
const ALPHA_HEADER: [u8; 8] = [0, 0, 0, 0x2e, 0x1b, 0, 1, 0];

/// What an access unit is asked for, beside a primary frame.
#[derive(Clone, Copy)]
struct Asked {
    qp: Option<u32>,
    limit: Option<u32>,
    filler: Option<u32>,
    alpha: bool,
}

/// A QP alone.
fn at_qp(qp: u32) -> Asked
    ensures { result ≡ record { qp = Some qp; limit = None; filler = None; alpha = false } }
{
    Asked {
        qp: Some(qp),
        limit: None,
        filler: None,
        alpha: false,
    }
}

/// The name of the file of alpha frames, where they are asked for.
fn alpha_where(alloc: Global, asked: bool) -> Result<Option<Name>, AllocError>
    ensures { IfOk result (λ name. is_some name ≡ asked) }
{
    if !asked {
        return Ok(None);
    }
    Ok(Some(Name::of(alloc, "alpha")?))
}

/// The settings of a run without further options.
fn without_options(input: Name, output: Name, alpha: Option<Name>) -> EncSettings
    ensures bounds { HasEncBounds result }
    ensures input { is_some result.input ≡ true }
    ensures output { is_some result.output ≡ true }
    ensures form { result.form ≡ Form.Planar }
    ensures generate { result.generate ≡ None }
    ensures alpha { result.alpha ≡ alpha }
    ensures preview { result.preview ≡ None }
    ensures preview_width { result.preview_width ≡ None }
    ensures preview_height { result.preview_height ≡ None }
    ensures depth { result.depth_map ≡ None }
    ensures first { result.qp_min ≡ None }
    ensures last { result.qp_max ≡ None }
{
    EncSettings {
        input: Some(input),
        output: Some(output),
        form: Form::Planar,
        width: None,
        height: None,
        chroma: None,
        depth: None,
        profile: None,
        level: 123,
        band: 0,
        qp: None,
        limit: None,
        qp_min: None,
        qp_max: None,
        qp_offset_1: 0,
        qp_offset_2: 0,
        qp_offset_3: 0,
        matrix_0: None,
        matrix_1: None,
        matrix_2: None,
        matrix_3: None,
        colour: None,
        tile_width: None,
        tile_height: None,
        tile_sizes: false,
        preview: None,
        depth_map: None,
        alpha,
        preview_width: None,
        preview_height: None,
        metadata: None,
        au_info: false,
        filler: None,
        recon: None,
        tile_qp: None,
        generate: None,
        threads: 1,
    }
}

/// The settings of a run that asks for that.
fn settings_of(alloc: Global, asked: Asked) -> Result<EncSettings, AllocError>
    requires either { is_some asked.qp ≡ not (is_some asked.limit) }
    requires qp { IfSome asked.qp (λ qp. qp ≤ 51) }
    requires limit { IfSome asked.limit (λ n. (1 ≤ n) × (n ≤ 536870912)) }
    requires filler { IfSome asked.filler (λ n. n ≤ 16777216) }
    ensures bounds { IfOk result (λ settings. HasEncBounds settings) }
    ensures files { IfOk result (λ settings. HasEncFiles settings) }
    ensures count { IfOk result (λ settings.
        length (kinds_of settings) ≡ (if asked.alpha then 2 else 1)) }
    ensures qp { IfOk result (λ settings. IfSome settings.qp (λ qp. qp ≤ 51)) }
    ensures first { IfOk result (λ settings. settings.qp_min ≡ None) }
    ensures last { IfOk result (λ settings. settings.qp_max ≡ None) }
{
    let input = Name::of(alloc, "input")?;
    let output = Name::of(alloc, "output")?;
    let mut settings = without_options(input, output, alpha_where(alloc, asked.alpha)?);
    settings.qp = asked.qp;
    settings.limit = asked.limit;
    settings.filler = asked.filler;
    Ok(settings)
}

/// Sets all values to one.
fn fill(values: &mut [u16], value: u16)
    requires { value < 1024 }
    ensures { (place : ℕ) → place < length values.old → slice_index values.new place < 1024 }
{
    for place in 0..values.len() {
        values[place] = value;
    }
}

/// Sets all samples of a frame to one value.
fn fill_frame(frame: &mut Frame, value: u16)
    requires { value < 1024 }
    ensures grid { frame.new.grid ≡ frame.old.grid }
    ensures below { (place : ℕ) → slice_index frame.new.values place < 1024 }
{
    let Pieces { values, .. } = frame.pieces();
    fill(values, value);
}

/// A track whose frame has samples of one value, or nothing where its header isn't read.
fn track_of(alloc: Global, value: u16) -> Result<Option<Track>, AllocError>
    requires { value < 1024 }
    ensures { IfOk result (λ found. IfSome found (λ track. HasFrameToCode track)) }
{
    let Ok(head) = read_frame_header(&HEADER) else {
        return Ok(None);
    };
    let mut track = Track::new(alloc, &head.header, [0; 4])?;
    fill_frame(track.frame_mut(), value);
    Ok(Some(track))
}

/// What is made of frames of samples of one value, in a vector that held other bytes.
fn unit_of<R: Threads + Sync, G: Gate>(
    crew: &Crew<'_, R, G>,
    alloc: Global,
    value: u16,
    asked: Asked,
    payloads: &[u8],
) -> Result<Option<(Vec<u8>, Result<Chosen, UnitFault>)>, AllocError>
    requires value { value < 1024 }
    requires either { is_some asked.qp ≡ not (is_some asked.limit) }
    requires qp { IfSome asked.qp (λ qp. qp ≤ 51) }
    requires limit { IfSome asked.limit (λ n. (1 ≤ n) × (n ≤ 536870912)) }
    requires filler { IfSome asked.filler (λ n. n ≤ 16777216) }
    requires payloads { length payloads.now ≤ 2 ^ 30 }
{
    let settings = settings_of(alloc, asked)?;
    let Some(first) = track_of(alloc, value)? else {
        return Ok(None);
    };
    let Some(second) = track_of(alloc, value)? else {
        return Ok(None);
    };
    let mut tracks = [first, second];
    let count = if asked.alpha { 2 } else { 1 };
    let (used, _) = tracks.split_at_mut(count);
    let mut unit = Vec::new(alloc);
    unit.extend_from_slice(&[0xaa; 100])?;
    let chosen = encode_unit(crew, &settings, used, payloads, &mut unit);
    Ok(Some((unit, chosen)))
}

#[test]
fn units_of_one_value(rt: HostRuntime) -> Result<(), Fail> {
    for (value, qp, bytes) in [(512, 0u8, GREY), (612, 22, LIGHT)] {
        for workers in [1u8, 2, 3, 8] {
            let crew = Crew::new(&rt, &NoGate, workers);
            let found = unit_of(&crew, rt.alloc(), value, at_qp(u32::from(qp)), &[])?;
            let (unit, chosen) = found.ok_or("a track")?;
            assert_eq!(rt; unit.as_slice(), bytes);
            let size = bytes.len() as u64;
            assert!(rt; chosen == Ok(Chosen { qp, size }));
        }
    }
    Ok(())
}

#[test]
fn payloads_follow_the_frame(rt: HostRuntime) -> Result<(), Fail> {
    let crew = Crew::new(&rt, &NoGate, 1);
    let found = unit_of(&crew, rt.alloc(), 512, at_qp(0), &PAYLOAD)?;
    let (unit, chosen) = found.ok_or("a track")?;
    assert!(rt; chosen == Ok(Chosen { qp: 0, size: 69 }));
    let (frame, metadata) = unit.as_slice().split_at(usize::min(54, unit.len()));
    assert_eq!(rt; frame, GREY);
    assert_eq!(rt; metadata, PAYLOAD_PBU.as_slice());
    Ok(())
}

#[test]
fn filler_follows_the_payloads(rt: HostRuntime) -> Result<(), Fail> {
    let crew = Crew::new(&rt, &NoGate, 1);
    let asked = Asked {
        filler: Some(3),
        ..at_qp(0)
    };
    let found = unit_of(&crew, rt.alloc(), 512, asked, &PAYLOAD)?;
    let (unit, chosen) = found.ok_or("a track")?;
    assert!(rt; chosen == Ok(Chosen { qp: 0, size: 80 }));
    let (_, filler) = unit.as_slice().split_at(usize::min(69, unit.len()));
    assert_eq!(rt; filler, FILLER_PBU.as_slice());
    Ok(())
}

#[test]
fn an_alpha_frame_follows_the_primary_one(rt: HostRuntime) -> Result<(), Fail> {
    let crew = Crew::new(&rt, &NoGate, 1);
    let asked = Asked {
        alpha: true,
        ..at_qp(0)
    };
    let found = unit_of(&crew, rt.alloc(), 512, asked, &[])?;
    let (unit, chosen) = found.ok_or("a track")?;
    assert!(rt; chosen == Ok(Chosen { qp: 0, size: 104 }));
    let (primary, alpha) = unit.as_slice().split_at(usize::min(54, unit.len()));
    assert_eq!(rt; primary, GREY);
    let (header, _) = alpha.split_at(usize::min(8, alpha.len()));
    assert_eq!(rt; header, ALPHA_HEADER.as_slice());
    Ok(())
}

#[test]
fn a_limit_counts_the_bytes_of_the_unit(rt: HostRuntime) -> Result<(), Fail> {
    let crew = Crew::new(&rt, &NoGate, 1);
    for (limit, expected) in [
        (54, Ok(Chosen { qp: 0, size: 54 })),
        (53, Err(UnitFault::TooLarge(54))),
    ] {
        let asked = Asked {
            qp: None,
            limit: Some(limit),
            filler: None,
            alpha: false,
        };
        let found = unit_of(&crew, rt.alloc(), 512, asked, &[])?;
        let (_, chosen) = found.ok_or("a track")?;
        assert!(rt; chosen == expected);
    }
    Ok(())
}
