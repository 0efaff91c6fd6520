//! Settings, formats and answers for tests.
ghost use Rattle.std.specs.Prelude.{◌≡◌, IfOk};
ghost use Rattle.apv_words.specs.Encoder.{HasEncBounds, HasEncFiles};

use apv_base::{Chroma, Exit, Form, Format, Name, Slot, VideoBreak, VideoRule};
use apv_words::EncSettings;
use std::alloc::{AllocError, Global};

/// The format with these fields.
pub(crate) const fn format(width: u32, height: u32, chroma: Chroma, depth: u8) -> Format {
    Format {
        width,
        height,
        chroma,
        depth,
    }
}

/// The answer where a slot breaks a rule at the frame of that number.
pub(crate) const fn bad(slot: Slot, rule: VideoRule, frame: u32) -> Exit {
    Exit::BadVideo(VideoBreak { slot, rule, frame })
}

/// The settings for a planar file of 16 by 16 samples, 4:0:0 with 10 bits, at the QP 20 without a limit, and for no
/// further file.
pub(crate) fn settings(alloc: Global) -> Result<EncSettings, AllocError>
    ensures bounds { IfOk result (λ settings. HasEncBounds settings) }
    ensures files { IfOk result (λ settings. HasEncFiles settings) }
    ensures limit { IfOk result (λ settings. settings.limit ≡ None) }
    ensures generate { IfOk result (λ settings. settings.generate ≡ None) }
{
    Ok(EncSettings {
        input: Some(Name::of(alloc, "in")?),
        output: Some(Name::of(alloc, "out")?),
        form: Form::Planar,
        width: Some(16),
        height: Some(16),
        chroma: Some(Chroma::C400),
        depth: Some(10),
        profile: None,
        level: 123,
        band: 0,
        qp: Some(20),
        limit: None,
        qp_min: None,
        qp_max: None,
        qp_offset_1: 0,
        qp_offset_2: 0,
        qp_offset_3: 0,
        matrix_0: None,
        matrix_1: None,
        matrix_2: None,
        matrix_3: None,
        colour: None,
        tile_width: None,
        tile_height: None,
        tile_sizes: false,
        preview: None,
        depth_map: None,
        alpha: None,
        preview_width: None,
        preview_height: None,
        metadata: None,
        au_info: false,
        filler: None,
        recon: None,
        tile_qp: None,
        generate: None,
        threads: 1,
    })
}
