//! A frame of several tiles that break rules: the decoder names the first of them.
use crate::runs::{BOTH, broken, decode_with};
use apv_base::{Break, Exit, Place, Rule};
use std::alloc::{AllocError, Global};
use std::test::Fail;
use std::thread::Threads;

/// A frame of 768x256 samples, 4:0:0 and 10 bits, in tiles of 16 by 8 macroblocks: a file up to the first tile.
const START: &[u8] =
    b"\x00\x00\x00\x74aPv1\x00\x00\x00\x6C\x01\x00\x01\x00\x63\x7B\x00\x00\x03\x00\x00\x01\x00\x02\
    \x00\x00\x00\x00\x00\x40\x00\x02\x00\x00";

/// The file with its six tiles, which have no data.
fn six_tiles(alloc: Global) -> Result<Vec<u8>, AllocError> {
    let mut tile = *b"\x00\x00\x00\x0A\x00\x0A\x00\x00\x00\x00\x00\x00\x00\x00";
    let mut file = START.to_vec(alloc)?;
    for index in 0..6 {
        tile[7] = index;
        file.extend_from_slice(&tile)?;
    }
    Ok(file)
}

/// The answer to a file, and whether nothing is written.
fn answer_to<R: Threads + Sync>(
    alloc: Global,
    rt: &R,
    file: &[u8],
    threads: &str,
) -> Result<(Exit, bool), AllocError> {
    let run = decode_with(alloc, rt, BOTH, threads, file)?;
    Ok((run.exit, run.pictures.is_empty() && run.payloads.is_empty()))
}

#[test]
fn names_the_tile(rt: HostRuntime) -> Result<(), Fail> {
    let mut file = six_tiles(rt.alloc())?;
    for threads in ["--threads=1", "--threads=2", "--threads=3"] {
        let answer = answer_to(rt.alloc(), &rt, &file, threads)?;
        assert_eq!(rt; answer, (broken(Rule::V27, 0, 0), true), "{threads}");
    }
    // The fourth tile has the number of the fifth.
    if let Some(cell) = file.get_mut(36 + 3 * 14 + 7) {
        *cell = 4;
    }
    let place = Place {
        unit: 0,
        pbu: 0,
        tile: 3,
        comp: 0,
    };
    let rule = Rule::V21;
    assert_eq!(rt;
        answer_to(rt.alloc(), &rt, &file, "--threads=1")?,
        (Exit::Broken(Break { rule, place }), true)
    );
    Ok(())
}
