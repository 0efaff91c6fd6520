//! Runs of the encoder under a limit on the bytes of an access unit.
use crate::runs::{Encoded, GREY, both_words, copies, decoded, encode, samples, words_of};
use crate::units::GREY_UNIT;
use apv_base::{Exit, Opt, UsageKind};
use std::alloc::{AllocError, Global};
use std::test::Fail;
use std::thread::Threads;

/// A picture of one sample, the words of the limit, the bytes of the file of one access unit, its QP, and the sample
/// that it decodes to.
const KEPT: [(u16, &[&str], usize, u8, u16); 5] = [
    (512, &["--limit=54"], 58, 0, 512),
    (612, &["--limit=54"], 58, 48, 612),
    (612, &["--limit=55"], 59, 19, 612),
    (
        612,
        &["--limit=54", "--qp-min=48", "--qp-max=48"],
        58,
        48,
        612,
    ),
    (512, &["--limit=536870912", "--qp-min=7"], 58, 7, 512),
];

/// A run over one picture of 16x16 samples that are one number.
fn one_picture<R: Threads + Sync>(
    alloc: Global,
    rt: &R,
    sample: u16,
    words: &[&str],
) -> Result<Encoded, AllocError> {
    let words = both_words(alloc, GREY, words)?;
    let picture = samples(alloc, &[(256, sample)])?;
    encode(alloc, rt, &words, &picture, &[])
}

#[test]
fn takes_the_least_qp(rt: HostRuntime) -> Result<(), Fail> {
    for (sample, words, len, qp, made) in KEPT {
        let run = one_picture(rt.alloc(), &rt, sample, words)?;
        assert_eq!(rt; run.exit, Exit::Done);
        assert_eq!(rt; run.units.len(), len);
        assert_eq!(rt; run.units.get(48).copied(), Some(qp));
        let pictures = decoded(rt.alloc(), &rt, &run.units)?.ok_or("pictures")?;
        let wanted = samples(rt.alloc(), &[(256, made)])?;
        assert_eq!(rt; pictures.as_slice(), wanted.as_slice());
    }
    Ok(())
}

#[test]
fn writes_what_a_constant_qp_does(rt: HostRuntime) -> Result<(), Fail> {
    let run = one_picture(rt.alloc(), &rt, 512, &["--limit=54"])?;
    assert_eq!(rt; run.units.as_slice(), GREY_UNIT);
    let run = one_picture(rt.alloc(), &rt, 612, &["--limit=54"])?;
    let data = b"\x94\x83\xE8\x83\xEA\x0F\xA8\x3E";
    assert_eq!(rt; run.units.get(50..), Some(data.as_slice()));
    Ok(())
}

/// A picture of one sample, the words of a limit that it keeps at no permitted QP, the least of its sizes, the limit, and
/// the line.
const TOO_LARGE: [(u16, &[&str], u64, u64, &str); 2] = [
    (
        512,
        &["--limit=53"],
        54,
        53,
        "frame 0 too large: 54 over 53\n",
    ),
    (
        612,
        &["--limit=54", "--qp-max=47"],
        55,
        54,
        "frame 0 too large: 55 over 54\n",
    ),
];

#[test]
fn refuses_what_keeps_no_limit(rt: HostRuntime) -> Result<(), Fail> {
    for (sample, words, smallest, limit, line) in TOO_LARGE {
        let run = one_picture(rt.alloc(), &rt, sample, words)?;
        let exit = Exit::TooLarge {
            frame: 0,
            smallest,
            limit,
        };
        assert_eq!(rt; run.exit, exit);
        assert_eq!(rt; run.exit.status(), 8);
        assert!(rt; run.units.is_empty());
        assert_eq!(rt; run.line.as_slice(), line.as_bytes());
    }
    Ok(())
}

/// A picture whose sizes rise and fall with the QP: 519 on the left and 520 on the right.
fn two_halves(alloc: Global) -> Result<Vec<u8>, AllocError> {
    let row = samples(alloc, &[(8, 519), (8, 520)])?;
    copies(alloc, &row, 16)
}

/// The words of a limit for that picture, and the answer with the QP.
const RISING: [(&[&str], Exit, u8); 4] = [
    (&["--limit=54"], Exit::Done, 27),
    (&["--limit=54", "--qp-min=28"], Exit::Done, 30),
    (
        &["--limit=54", "--qp-min=28", "--qp-max=29"],
        Exit::TooLarge {
            frame: 0,
            smallest: 55,
            limit: 54,
        },
        0,
    ),
    (
        &["--limit=53", "--qp-min=30", "--qp-max=31"],
        Exit::TooLarge {
            frame: 0,
            smallest: 54,
            limit: 53,
        },
        0,
    ),
];

#[test]
fn sizes_may_rise_with_the_qp(rt: HostRuntime) -> Result<(), Fail> {
    let picture = two_halves(rt.alloc())?;
    for (limit, exit, qp) in RISING {
        let words = words_of(rt.alloc(), &[GREY, limit])?;
        let run = encode(rt.alloc(), &rt, &words, &picture, &[])?;
        assert_eq!(rt; run.exit, exit);
        assert_eq!(rt; run.units.get(48).copied().unwrap_or(0), qp);
    }
    Ok(())
}

#[test]
fn all_levels_are_4_at_the_least_qp(rt: HostRuntime) -> Result<(), Fail> {
    let picture = two_halves(rt.alloc())?;
    let words = words_of(rt.alloc(), &[GREY, &["--limit=54"]])?;
    let run = encode(rt.alloc(), &rt, &words, &picture, &[])?;
    let made = decoded(rt.alloc(), &rt, &run.units)?.ok_or("pictures")?;
    let wanted = samples(rt.alloc(), &[(256, 519)])?;
    assert_eq!(rt; made.as_slice(), wanted.as_slice());
    Ok(())
}

/// The words of a limit on an access unit with an alpha frame, and the bytes of the file.
const OF_TWO: [(&[&str], usize); 2] = [
    (&["--alpha=other", "--limit=104"], 108),
    (&["--alpha=other", "--limit=106"], 110),
];

#[test]
fn counts_all_frames(rt: HostRuntime) -> Result<(), Fail> {
    let picture = samples(rt.alloc(), &[(256, 612)])?;
    for (limit, len) in OF_TWO {
        let words = words_of(rt.alloc(), &[GREY, limit])?;
        let run = encode(rt.alloc(), &rt, &words, &picture, &picture)?;
        assert_eq!(rt; run.exit, Exit::Done);
        assert_eq!(rt; run.units.len(), len);
    }
    Ok(())
}

/// Words that are refused.
const REFUSED: [(&[&str], UsageKind); 5] = [
    (&["--limit=54", "--qp=1"], UsageKind::Clash(Opt::Qp)),
    (&[], UsageKind::Missing(Opt::Qp)),
    (&["--qp=1", "--qp-min=1"], UsageKind::Clash(Opt::QpMin)),
    (
        &["--limit=54", "--qp-min=2", "--qp-max=1"],
        UsageKind::Clash(Opt::QpMax),
    ),
    (&["--limit=0"], UsageKind::Value(Opt::Limit)),
];

#[test]
fn refuses_words(rt: HostRuntime) -> Result<(), Fail> {
    for (words, kind) in REFUSED {
        let run = one_picture(rt.alloc(), &rt, 512, words)?;
        assert_eq!(rt; run.exit, Exit::Usage(kind));
    }
    Ok(())
}
