mod encode;

use crate::{ContentBreak, FrameFault, FramesFault, UnitFrames, decode_frame};
use apv_base::Rule;
use apv_grid::Frame;
use apv_unit::{Pbus, is_frame, structure};
use apv_workers::{Crew, Gate, NoGate};
use std::alloc::Global;
use std::process::Abort;
use std::test::Fail;
use std::thread::Threads;

/// Samples of a decoded frame: an access unit, and samples by component, x and y.
struct Row {
    unit: &'static [u8],
    samples: &'static [(u8, u32, u32, u16)],
}

/// Frames of one tile, unless it is said.
const ROWS: [Row; 7] = [
    // Levels of 0: all samples are in the middle of the range.
    Row {
        unit: b"\x61\x50\x76\x31\x00\x00\x00\x2E\x01\x00\x01\x00\x63\x7B\x00\x00\x00\x10\x00\x00\x10\x02\x00\x00\
        \x00\x00\x00\x40\x00\x04\x00\x00\x00\x00\x00\x12\x00\x0A\x00\x00\x00\x00\x00\x08\x00\x00\x81\x07\
        \xD4\x1F\x50\x7D\x41\xF0",
        samples: &[(0, 0, 0, 512), (0, 15, 15, 512)],
    },
    // DC levels of 100 at QP 22.
    Row {
        unit: b"\x61\x50\x76\x31\x00\x00\x00\x2F\x01\x00\x01\x00\x63\x7B\x00\x00\x00\x10\x00\x00\x10\x02\x00\x00\
        \x00\x00\x00\x40\x00\x04\x00\x00\x00\x00\x00\x13\x00\x0A\x00\x00\x00\x00\x00\x09\x16\x00\x51\x08\
        \x3E\x81\x07\xD4\x1F\x50\x7C",
        samples: &[(0, 0, 0, 612), (0, 15, 0, 612), (0, 7, 15, 612)],
    },
    // Levels of 1000 and -900 in the first block, at QP 22.
    Row {
        unit: b"\x61\x50\x76\x31\x00\x00\x00\x3B\x01\x00\x01\x00\x63\x7B\x00\x00\x00\x10\x00\x00\x10\x02\x00\x00\
        \x00\x00\x00\x40\x00\x04\x00\x00\x00\x00\x00\x1F\x00\x0A\x00\x00\x00\x00\x00\x15\x16\x00\x43\xC8\
        \x08\x03\xE6\x22\x90\x6E\x7A\x83\x73\xA0\xB9\x0F\x22\x83\xE8\x10\x7D\x41\xF0",
        samples: &[
            (0, 0, 0, 751),
            (0, 1, 0, 1023),
            (0, 0, 7, 473),
            (0, 8, 0, 512),
        ],
    },
    // A matrix value of 32 at the one level, 1, of each block.
    Row {
        unit: b"\x61\x50\x76\x31\x00\x00\x00\x70\x01\x00\x01\x00\x63\x7B\x00\x00\x00\x10\x00\x00\x10\x02\x00\x00\
        \x00\x44\x08\x04\x04\x04\x04\x04\x04\x04\x04\x04\x04\x04\x04\x04\x04\x04\x04\x04\x04\x04\x04\x04\
        \x04\x04\x04\x04\x04\x04\x04\x04\x04\x04\x04\x04\x04\x04\x04\x04\x04\x04\x04\x04\x04\x04\x04\x04\
        \x04\x04\x04\x04\x04\x04\x04\x04\x04\x04\x04\x04\x04\x04\x04\x04\x04\x00\x00\x40\x00\x04\x00\x00\
        \x00\x00\x00\x14\x00\x0A\x00\x00\x00\x00\x00\x0A\x16\x00\x83\x20\xF7\x90\x7B\xC8\x3D\xE4\x1E\x80",
        samples: &[
            (0, 0, 0, 515),
            (0, 1, 0, 514),
            (0, 2, 0, 514),
            (0, 3, 0, 513),
            (0, 4, 0, 511),
            (0, 5, 0, 510),
            (0, 6, 0, 510),
            (0, 7, 0, 509),
            (0, 8, 9, 515),
            (0, 15, 15, 509),
        ],
    },
    // 12 bits, 4:2:2: the maximum sample at QP 0.
    Row {
        unit: b"\x61\x50\x76\x31\x00\x00\x00\x4B\x01\x00\x01\x00\x2C\x7B\x00\x00\x00\x10\x00\x00\x10\x24\x00\x00\
        \x00\x00\x00\x40\x00\x04\x00\x00\x00\x00\x00\x2F\x00\x14\x00\x00\x00\x00\x00\x0B\x00\x00\x00\x08\
        \x00\x00\x00\x08\x00\x00\x00\x00\x40\x19\x8E\x88\x3E\x81\x07\xD4\x1F\x50\x7C\x40\x19\x8E\x88\x3E\
        \x81\x07\xC0\x40\x19\x8E\x88\x3E\x81\x07\xC0",
        samples: &[(0, 15, 15, 4095), (1, 0, 0, 4095), (2, 7, 15, 4095)],
    },
    // A matrix of ones: the maximum level at QP 0.
    Row {
        unit: b"\x61\x50\x76\x31\x00\x00\x00\x71\x01\x00\x01\x00\x63\x7B\x00\x00\x00\x10\x00\x00\x10\x02\x00\x00\
        \x00\x40\x40\x40\x40\x40\x40\x40\x40\x40\x40\x40\x40\x40\x40\x40\x40\x40\x40\x40\x40\x40\x40\x40\
        \x40\x40\x40\x40\x40\x40\x40\x40\x40\x40\x40\x40\x40\x40\x40\x40\x40\x40\x40\x40\x40\x40\x40\x40\
        \x40\x40\x40\x40\x40\x40\x40\x40\x40\x40\x40\x40\x40\x40\x40\x40\x40\x40\x00\x40\x00\x04\x00\x00\
        \x00\x00\x00\x15\x00\x0A\x00\x00\x00\x00\x00\x0B\x00\x00\x40\x1F\xF7\xC8\x3E\x81\x07\xD4\x1F\x50\
        \x7C",
        samples: &[(0, 0, 0, 672), (0, 15, 15, 672)],
    },
    // 18x18 samples, 4:2:2, the last macroblocks cut: block b of the component c has the DC level 40 c + b at QP 22.
    Row {
        unit: b"\x61\x50\x76\x31\x00\x00\x00\x75\x01\x00\x01\x00\x21\x7B\x00\x00\x00\x12\x00\x00\x12\x22\x00\x00\
        \x00\x00\x00\x40\x00\x02\x00\x00\x00\x00\x00\x59\x00\x14\x00\x00\x00\x00\x00\x21\x00\x00\x00\x12\
        \x00\x00\x00\x12\x16\x16\x16\x00\x81\x07\xC1\x07\xC1\x07\xC1\x07\xC1\x07\xC1\x07\xC1\x07\xC1\x07\
        \xC1\x07\xC1\x07\xC1\x07\xC1\x07\xC1\x07\xC1\x07\xC1\x07\xC1\x07\xC0\x10\x41\xF4\x24\x1F\x04\x1F\
        \x04\x1F\x04\x1F\x04\x1F\x04\x1F\x04\x1F\x00\x70\x20\xFA\x12\x0F\x82\x0F\x82\x0F\x82\x0F\x82\x0F\
        \x82\x0F\x82\x0F\x80",
        samples: &[
            (0, 0, 0, 512),
            (0, 8, 7, 513),
            (0, 0, 8, 514),
            (0, 15, 15, 515),
            (0, 17, 0, 516),
            (0, 0, 17, 520),
            (0, 17, 17, 524),
            (1, 0, 0, 552),
            (1, 7, 8, 553),
            (1, 8, 0, 554),
            (1, 8, 17, 558),
            (2, 8, 17, 598),
        ],
    },
];

/// A run of zeros past the end of a block.
const LONG_RUN: &[u8] =
    b"\x61\x50\x76\x31\x00\x00\x00\x2E\x01\x00\x01\x00\x63\x7B\x00\x00\x00\x10\x00\x00\x10\x02\x00\x00\
        \x00\x00\x00\x40\x00\x04\x00\x00\x00\x00\x00\x12\x00\x0A\x00\x00\x00\x00\x00\x08\x00\x00\x83\x20\
        \xF8\x00\x00\x00\x00\x00";

/// A primary frame, and an alpha frame whose data end inside a code word.
const SECOND_BROKEN: &[u8] =
    b"\x61\x50\x76\x31\x00\x00\x00\x2E\x01\x00\x01\x00\x63\x7B\x00\x00\x00\x10\x00\x00\x10\x02\x00\x00\
        \x00\x00\x00\x40\x00\x04\x00\x00\x00\x00\x00\x12\x00\x0A\x00\x00\x00\x00\x00\x08\x00\x00\x81\x07\
        \xD4\x1F\x50\x7D\x41\xF0\x00\x00\x00\x27\x1B\x00\x01\x00\x63\x7B\x00\x00\x00\x10\x00\x00\x10\x02\
        \x00\x00\x00\x00\x00\x40\x00\x04\x00\x00\x00\x00\x00\x0B\x00\x0A\x00\x00\x00\x00\x00\x01\x00\x00\
        \x40";

/// The sample x, y of a component of a frame, where it is visible.
fn sample(frame: &Frame, comp: u8, x: u32, y: u32) -> Option<u16> {
    let format = frame.grid().format();
    if comp >= format.chroma.comps() || y >= format.height || x >= frame.width(comp) {
        return None;
    }
    let mut row = [0];
    frame.row_into(comp, x, y, &mut row);
    Some(row[0])
}

/// Decodes the frames of an access unit, where its structure is sound.
fn decode<R: Threads + Sync, G: Gate>(
    crew: &Crew<'_, R, G>,
    frames: &mut UnitFrames,
    unit: &[u8],
) -> Option<Result<(), FramesFault>> {
    if unit.len() > 1024 || structure(unit, 0).is_err() {
        return None;
    }
    Some(frames.decode(crew, unit))
}

/// The first frame of an access unit, decoded, where the structure is sound and there is one.
fn first<R: Threads + Sync, G: Gate>(
    alloc: Global,
    crew: &Crew<'_, R, G>,
    unit: &[u8],
) -> Option<Result<Frame, FrameFault>> {
    if unit.len() > 1024 || structure(unit, 0).is_err() {
        return None;
    }
    for pbu in Pbus::of(unit) {
        if is_frame(pbu.kind) {
            return Some(decode_frame(alloc, crew, pbu.body));
        }
    }
    None
}

fn expect_samples(rt: &impl Abort, frame: &Frame, samples: &[(u8, u32, u32, u16)]) {
    for (comp, x, y, value) in samples {
        let found = sample(frame, *comp, *x, *y);
        assert_eq!(rt; found, Some(*value), "component {comp}, {x}, {y}");
    }
}

#[test]
fn decodes_samples(rt: HostRuntime) -> Result<(), Fail> {
    let crew = Crew::new(&rt, &NoGate, 2);
    let mut frames = UnitFrames::new(rt.alloc());
    for (number, row) in ROWS.iter().enumerate() {
        assert_eq!(rt;
            decode(&crew, &mut frames, row.unit),
            Some(Ok(())),
            "row {number}"
        );
        let frame = frames.frames().first().ok_or("a frame")?;
        expect_samples(&rt, frame, row.samples);
    }
    Ok(())
}

#[test]
fn names_the_first_break(rt: HostRuntime) -> Result<(), Fail> {
    let crew = Crew::new(&rt, &NoGate, 1);
    let mut frames = UnitFrames::new(rt.alloc());
    for (unit, pbu, rule) in [(LONG_RUN, 0, Rule::V29), (SECOND_BROKEN, 1, Rule::V27)] {
        let (tile, comp) = (0, 0);
        let at = ContentBreak { tile, comp, rule };
        let answer = decode(&crew, &mut frames, unit);
        assert_eq!(rt; answer, Some(Err(FramesFault::Broken { pbu, at })));
    }
    Ok(())
}

#[test]
fn decodes_into_a_new_frame(rt: HostRuntime) -> Result<(), Fail> {
    let crew = Crew::new(&rt, &NoGate, 1);
    let frame = first(rt.alloc(), &crew, SECOND_BROKEN)
        .ok_or("a frame")?
        .ok()
        .ok_or("samples")?;
    assert_eq!(rt; sample(&frame, 0, 15, 15), Some(512));
    let rule = Rule::V29;
    let (tile, comp) = (0, 0);
    let answer = first(rt.alloc(), &crew, LONG_RUN).ok_or("a frame")?;
    let fault = FrameFault::Broken(ContentBreak { tile, comp, rule });
    assert_eq!(rt; answer.err(), Some(fault));
    Ok(())
}
