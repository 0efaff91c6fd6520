//! Command lines of the decoder and the encoder, each with its answer.
ghost use Rattle.std.specs.Prelude.{◌≡◌, true};
ghost use Rattle.apv_words.specs.Table.{is_table};
ghost use Rattle.apv_words.specs.View.{table_view};

use super::*;
use apv_base::{Chroma, Colour, Form, Matrix, Opt, Select, UsageKind, WordsEnd};
use std::alloc::{AllocError, Global};
use std::test::Fail;

fn words_of(alloc: Global, words: &[&str]) -> Result<Vec<String>, AllocError> {
    let mut owned = Vec::new(alloc);
    for word in words {
        owned.push(String::from_str(alloc, word)?)?;
    }
    Ok(owned)
}

/// Why the words are refused, if they are.
fn end_of(alloc: Global, words: &[&str]) -> Result<Option<WordsEnd>, AllocError> {
    let words = words_of(alloc, words)?;
    Ok(settings_dec(alloc, &words).err())
}

#[test]
fn refuses_words(rt: HostRuntime) -> Result<(), Fail> {
    let table: [(&[&str], UsageKind); 34] = [
        (&[], UsageKind::Missing(Opt::Input)),
        (&["--input", "a", "--input", "b"], UsageKind::Words),
        (&["--input", "a", "--input=a"], UsageKind::Words),
        (&["--strict", "--input", "a", "--strict"], UsageKind::Words),
        (&["--input", "a", "--"], UsageKind::Words),
        (&["--"], UsageKind::Words),
        (&["--=a"], UsageKind::Words),
        (&["--input", "--output"], UsageKind::Words),
        (&["--input", "-a"], UsageKind::Words),
        (&["--input", "--"], UsageKind::Words),
        (&["--input"], UsageKind::Words),
        (&["--input", "a", "stray"], UsageKind::Words),
        (&["stray"], UsageKind::Words),
        (&["-"], UsageKind::Words),
        (&[""], UsageKind::Words),
        (&["--input", "a", "--strict=x"], UsageKind::Words),
        (&["--input", "a", "--strict="], UsageKind::Words),
        (&["--input", "a", "--strict", "x"], UsageKind::Words),
        (&["-i", "a"], UsageKind::Words),
        (&["--help"], UsageKind::Words),
        (&["--version"], UsageKind::Words),
        (&["--inp", "a"], UsageKind::Words),
        (&["--input", "a", "--group="], UsageKind::Value(Opt::Group)),
        (&["--input", ""], UsageKind::Value(Opt::Input)),
        (
            &["--input", "a", "--metadata", "-"],
            UsageKind::Value(Opt::Metadata),
        ),
        (
            &["--input", "a", "--group", "00000000001"],
            UsageKind::Value(Opt::Group),
        ),
        (
            &["--input", "a", "--group", "65536"],
            UsageKind::Value(Opt::Group),
        ),
        (
            &["--input", "a", "--threads", "0"],
            UsageKind::Value(Opt::Threads),
        ),
        (
            &["--input", "a", "--threads=-1"],
            UsageKind::Value(Opt::Threads),
        ),
        (
            &["--threads", "65", "--group", "x"],
            UsageKind::Value(Opt::Group),
        ),
        (&["--rate", "30"], UsageKind::Value(Opt::Rate)),
        (
            &["--rate", "30:1:1", "--select", "Primary"],
            UsageKind::Value(Opt::Select),
        ),
        (&["--output", "a"], UsageKind::Missing(Opt::Input)),
        (&["--input", "a", "--output", "a"], UsageKind::SameName),
    ];
    for (words, kind) in table {
        assert!(rt; end_of(rt.alloc(), words)? == Some(WordsEnd::Usage(kind)));
    }
    Ok(())
}

#[test]
fn accepts_words(rt: HostRuntime) -> Result<(), Fail> {
    let table: [&[&str]; 7] = [
        &["--input", "a"],
        &["--input=--"],
        &["--input", "-", "--output", "-"],
        &["--metadata=-a", "--input=--output"],
        &["--input", "a", "--output", "b", "--metadata", "c"],
        &["--strict", "--input=a=b"],
        &["--input", "a", "--group", "0000065535", "--threads", "064"],
    ];
    for words in table {
        assert!(rt; end_of(rt.alloc(), words)?.is_none());
    }
    Ok(())
}

fn text(name: &Option<apv_base::Name>) -> Option<&str> {
    match name {
        Some(name) => Some(name.text()),
        None => None,
    }
}

#[test]
fn gives_settings(rt: HostRuntime) -> Result<(), Fail> {
    let alloc = rt.alloc();
    let words = words_of(alloc, &["--input", "in.apv"])?;
    let settings = settings_dec(alloc, &words).ok().ok_or("settings")?;
    assert!(rt; text(&settings.input) == Some("in.apv"));
    assert!(rt; settings.output.is_none() && settings.metadata.is_none());
    assert!(rt; settings.select == Select::Primary && settings.group.is_none());
    assert!(rt; settings.form == Form::Planar && settings.rate == (30, 1));
    assert!(rt; settings.threads == 1 && !settings.strict);

    let words = words_of(
        alloc,
        &[
            "--strict",
            "--rate=30000:001001",
            "--select",
            "depth",
            "--threads=064",
            "--form=y4m",
            "--group",
            "7",
            "--metadata=m",
            "--output",
            "-",
            "--input=-",
        ],
    )?;
    let settings = settings_dec(alloc, &words).ok().ok_or("settings")?;
    assert!(rt; text(&settings.input) == Some("-") && text(&settings.output) == Some("-"));
    assert!(rt; text(&settings.metadata) == Some("m"));
    assert!(rt; settings.select == Select::Depth && settings.group == Some(7));
    assert!(rt; settings.form == Form::Y4m && settings.rate == (30_000, 1_001));
    assert!(rt; settings.threads == 64 && settings.strict);
    Ok(())
}

static TABLE: [OptRow; 5] = [
    OptRow {
        opt: Opt::Qp,
        name: "qp",
        kind: Kind::Number(Bounds {
            minimum: 0,
            maximum: 75,
        }),
        requirement: Requirement::Optional,
        clashes: &[],
    },
    OptRow {
        opt: Opt::Limit,
        name: "limit",
        kind: Kind::Number(Bounds {
            minimum: 1,
            maximum: 9,
        }),
        requirement: Requirement::Optional,
        clashes: &[Condition::With("qp"), Condition::With("au-info")],
    },
    OptRow {
        opt: Opt::QpOffset1,
        name: "qp-offset-1",
        kind: Kind::Signed(75),
        requirement: Requirement::Optional,
        clashes: &[],
    },
    OptRow {
        opt: Opt::Colour,
        name: "colour",
        kind: Kind::List(&[
            Bounds {
                minimum: 0,
                maximum: 255,
            },
            Bounds {
                minimum: 0,
                maximum: 1,
            },
        ]),
        requirement: Requirement::Optional,
        clashes: &[],
    },
    OptRow {
        opt: Opt::AuInfo,
        name: "au-info",
        kind: Kind::Flag,
        requirement: Requirement::Optional,
        clashes: &[],
    },
];

/// Why options of the table are refused, if they are.
fn fault_of(alloc: Global, table: &[OptRow], words: &[&str]) -> Result<Option<UsageKind>, Fail>
    requires { is_table (table_view table.now) ≡ true }
{
    let words = words_of(alloc, words)?;
    let texts = after_program(alloc, &words)?;
    let options = match read(alloc, table, &texts) {
        Ok(options) => options,
        Err(_) => return Err("words".into()),
    };
    Ok(options.fault())
}

#[test]
fn reads_by_a_table(rt: HostRuntime) -> Result<(), Fail> {
    let table: [(&[&str], Option<UsageKind>); 13] = [
        (&[], None),
        (&["--qp", "20"], None),
        (
            &["--limit", "5", "--qp", "20"],
            Some(UsageKind::Clash(Opt::Limit)),
        ),
        (
            &["--au-info", "--limit=5"],
            Some(UsageKind::Clash(Opt::Limit)),
        ),
        (&["--au-info", "--qp=5"], None),
        (&["--qp-offset-1=-75"], None),
        (&["--qp-offset-1=-0"], None),
        (
            &["--qp-offset-1", "075"],
            Some(UsageKind::Value(Opt::QpOffset1)),
        ),
        (
            &["--qp-offset-1=-76"],
            Some(UsageKind::Value(Opt::QpOffset1)),
        ),
        (&["--colour", "001,1"], None),
        (&["--colour", "1"], Some(UsageKind::Value(Opt::Colour))),
        (&["--colour", "1,1,0"], Some(UsageKind::Value(Opt::Colour))),
        (&["--colour", "1,2"], Some(UsageKind::Value(Opt::Colour))),
    ];
    for (words, fault) in table {
        assert!(rt; fault_of(rt.alloc(), &TABLE, words)? == fault);
    }
    Ok(())
}

#[test]
fn asks_for_the_format_of_a_planar_input(rt: HostRuntime) -> Result<(), Fail> {
    let table: [(&[&str], Option<UsageKind>); 4] = [
        (
            &["--qp=1", "--input=a", "--output=b"],
            Some(UsageKind::Missing(Opt::Width)),
        ),
        (
            &[
                "--qp=1",
                "--input=a",
                "--output=b",
                "--form=planar",
                "--width=16",
                "--height=16",
            ],
            Some(UsageKind::Missing(Opt::Chroma)),
        ),
        (
            &["--qp=1", "--input=a"],
            Some(UsageKind::Missing(Opt::Output)),
        ),
        (
            &[
                "--limit=9",
                "--input=a",
                "--output=b",
                "--width=16",
                "--height=16",
                "--chroma=400",
                "--depth=10",
            ],
            None,
        ),
    ];
    for (words, fault) in table {
        assert!(rt; fault_of(rt.alloc(), enc_options(), words)? == fault);
    }
    Ok(())
}

#[test]
fn asks_for_the_files_of_the_editor(rt: HostRuntime) -> Result<(), Fail> {
    let alloc = rt.alloc();
    let missing = Some(UsageKind::Missing(Opt::Output));
    assert!(rt; fault_of(alloc, edit_list_options(), &["--input=a"])? == missing);
    assert!(rt; fault_of(alloc, edit_cut_options(), &["--input=a"])? == missing);
    assert!(rt; fault_of(alloc, edit_join_options(), &["--input=a", "--second=b"])? == missing);
    assert!(rt; fault_of(alloc, edit_meta_options(), &["--input=a"])? == missing);
    Ok(())
}

/// A Y4M input and an output.
const Y4M: [&str; 6] = ["--form", "y4m", "--input", "a", "--output", "b"];

/// A planar input and an output.
const PLANAR: [&str; 12] = [
    "--input", "a", "--output", "b", "--width", "16", "--height", "16", "--chroma", "400",
    "--depth", "10",
];

/// The words of the input and the output, and more.
fn enc_words(alloc: Global, video: &[&str], more: &[&str]) -> Result<Vec<String>, AllocError> {
    let mut words = Vec::new(alloc);
    words.extend_from_slice(video)?;
    words.extend_from_slice(more)?;
    words_of(alloc, &words)
}

/// Why the encoder refuses these words, if it does.
fn enc_end_of(
    alloc: Global,
    video: &[&str],
    more: &[&str],
) -> Result<Option<WordsEnd>, AllocError> {
    let words = enc_words(alloc, video, more)?;
    Ok(settings_enc(alloc, &words).err())
}

/// The settings of a planar input and more words.
fn planar_settings(alloc: Global, more: &[&str]) -> Result<EncSettings, Fail> {
    let words = enc_words(alloc, &PLANAR, more)?;
    Ok(settings_enc(alloc, &words).ok().ok_or("settings")?)
}

#[test]
fn gives_the_settings_of_the_encoder(rt: HostRuntime) -> Result<(), Fail> {
    let alloc = rt.alloc();
    let words = words_of(
        alloc,
        &[
            "--input=in.yuv",
            "--output",
            "out.apv",
            "--form=planar",
            "--width",
            "1920",
            "--height=1080",
            "--chroma",
            "444",
            "--depth=012",
            "--profile",
            "4444-12",
            "--level=5.1",
            "--band=2",
            "--qp",
            "33",
            "--qp-offset-1=-12",
            "--qp-offset-2=7",
            "--qp-offset-3=-75",
            "--tile-width=16",
            "--tile-height=8",
            "--recon=r",
            "--tile-qp=t",
            "--threads=4",
        ],
    )?;
    let settings = settings_enc(alloc, &words).ok().ok_or("settings")?;
    assert!(rt; text(&settings.input) == Some("in.yuv"));
    assert!(rt; text(&settings.output) == Some("out.apv") && settings.form == Form::Planar);
    assert!(rt; settings.width == Some(1920) && settings.height == Some(1080));
    assert!(rt; settings.chroma == Some(Chroma::C444) && settings.depth == Some(12));
    assert!(rt; settings.profile == Some(88) && settings.level == 153 && settings.band == 2);
    assert!(rt; settings.qp == Some(33) && settings.qp_offset_1 == -12);
    assert!(rt; settings.qp_offset_2 == 7 && settings.qp_offset_3 == -75);
    assert!(rt; settings.tile_width == Some(16) && settings.tile_height == Some(8));
    assert!(rt; text(&settings.recon) == Some("r") && text(&settings.tile_qp) == Some("t"));
    assert!(rt; settings.threads == 4);
    Ok(())
}

#[test]
fn gives_the_limit_and_the_files_of_the_encoder(rt: HostRuntime) -> Result<(), Fail> {
    let more = [
        "--limit=536870912",
        "--qp-min=3",
        "--qp-max=75",
        "--colour=1,2,003,1",
        "--tile-sizes",
        "--preview=p",
        "--depth-map=d",
        "--alpha=e",
        "--preview-width=32",
        "--preview-height=48",
        "--metadata=m",
        "--au-info",
        "--filler=0",
    ];
    let settings = planar_settings(rt.alloc(), &more)?;
    assert!(rt; settings.qp.is_none() && settings.limit == Some(536_870_912));
    assert!(rt; settings.qp_min == Some(3) && settings.qp_max == Some(75));
    let colour = Colour {
        primaries: 1,
        transfer: 2,
        matrix: 3,
        full_range: true,
    };
    assert!(rt; settings.colour == Some(colour));
    assert!(rt; settings.tile_sizes && settings.au_info && settings.filler == Some(0));
    assert!(rt; text(&settings.preview) == Some("p") && text(&settings.depth_map) == Some("d"));
    assert!(rt; text(&settings.alpha) == Some("e") && text(&settings.metadata) == Some("m"));
    assert!(rt; settings.preview_width == Some(32) && settings.preview_height == Some(48));
    Ok(())
}

/// The word of an option whose value is this number and ones, with commas between them.
fn ones_after(alloc: Global, option: &str, first: &str, ones: usize) -> Result<String, AllocError> {
    let mut word = String::from_str(alloc, option)?;
    word.push_str(first)?;
    for _ in 0..ones {
        word.push_str(",1")?;
    }
    Ok(word)
}

/// The quantisation matrix whose first entry is this one, and each other one is 1.
fn matrix_after(first: u8) -> Option<Matrix> {
    let mut values = [1; 64];
    values[0] = first;
    Matrix::of(values)
}

#[test]
fn gives_each_matrix(rt: HostRuntime) -> Result<(), Fail> {
    let alloc = rt.alloc();
    let first = ones_after(alloc, "--matrix-0=", "2", 63)?;
    let second = ones_after(alloc, "--matrix-1=", "03", 63)?;
    let third = ones_after(alloc, "--matrix-2=", "4", 63)?;
    let fourth = ones_after(alloc, "--matrix-3=", "255", 63)?;
    let more = [
        "--qp=1",
        first.as_str(),
        second.as_str(),
        third.as_str(),
        fourth.as_str(),
    ];
    let settings = planar_settings(alloc, &more)?;
    assert!(rt; settings.matrix_0 == matrix_after(2) && settings.matrix_1 == matrix_after(3));
    assert!(rt; settings.matrix_2 == matrix_after(4) && settings.matrix_3 == matrix_after(255));
    Ok(())
}

#[test]
fn keeps_the_order_of_a_matrix(rt: HostRuntime) -> Result<(), Fail> {
    let alloc = rt.alloc();
    let mut word = String::from_str(alloc, "--matrix-0=1")?;
    let mut values = [1; 64];
    for place in 1..64 {
        values[place] = place as u8 + 1;
        word.push_str(format!(in alloc; ",{}", place + 1)?.as_str())?;
    }
    let settings = planar_settings(alloc, &["--qp=1", word.as_str()])?;
    assert!(rt; settings.matrix_0.is_some() && settings.matrix_0 == Matrix::of(values));
    assert!(rt; settings.matrix_1.is_none());
    Ok(())
}

#[test]
fn judges_a_matrix(rt: HostRuntime) -> Result<(), Fail> {
    let alloc = rt.alloc();
    let table = [
        ("1", 63, true),
        ("1", 62, false),
        ("1", 64, false),
        ("0", 63, false),
        ("256", 63, false),
        ("", 63, false),
    ];
    for (first, ones, is_good) in table {
        let word = ones_after(alloc, "--matrix-0=", first, ones)?;
        let fault = if is_good {
            None
        } else {
            Some(WordsEnd::Usage(UsageKind::Value(Opt::Matrix0)))
        };
        assert!(rt; enc_end_of(alloc, &PLANAR, &["--qp=1", word.as_str()])? == fault);
    }
    Ok(())
}

#[test]
fn gives_the_defaults_of_the_encoder(rt: HostRuntime) -> Result<(), Fail> {
    let alloc = rt.alloc();
    let words = words_of(alloc, &["--form=y4m", "--input=-", "--output=-", "--qp=0"])?;
    let settings = settings_enc(alloc, &words).ok().ok_or("settings")?;
    assert!(rt; text(&settings.input) == Some("-") && text(&settings.output) == Some("-"));
    assert!(rt; settings.form == Form::Y4m && settings.qp == Some(0));
    assert!(rt; settings.width.is_none() && settings.height.is_none());
    assert!(rt; settings.chroma.is_none() && settings.depth.is_none());
    assert!(rt; settings.profile.is_none() && settings.level == 123 && settings.band == 0);
    assert!(rt; settings.qp_offset_1 == 0 && settings.qp_offset_2 == 0);
    assert!(rt; settings.qp_offset_3 == 0 && settings.threads == 1);
    assert!(rt; settings.tile_width.is_none() && settings.tile_height.is_none());
    assert!(rt; settings.recon.is_none() && settings.tile_qp.is_none());
    assert!(rt; settings.limit.is_none() && settings.qp_min.is_none() && settings.qp_max.is_none());
    assert!(rt; settings.matrix_0.is_none() && settings.matrix_1.is_none());
    assert!(rt; settings.matrix_2.is_none() && settings.matrix_3.is_none());
    assert!(rt; settings.colour.is_none() && settings.filler.is_none());
    assert!(rt; settings.preview.is_none() && settings.depth_map.is_none());
    assert!(rt; settings.preview_width.is_none() && settings.preview_height.is_none());
    assert!(rt; settings.alpha.is_none() && settings.metadata.is_none());
    assert!(rt; !settings.tile_sizes && !settings.au_info);
    Ok(())
}

#[test]
fn refuses_words_of_the_encoder(rt: HostRuntime) -> Result<(), Fail> {
    let table: [(&[&str], Option<UsageKind>); 19] = [
        (&["--qp=75"], None),
        (&["--qp=1", "--qp=1"], Some(UsageKind::Words)),
        (&["--qp=1", "--digest"], Some(UsageKind::Words)),
        (
            &["--qp=1", "--generate=7"],
            Some(UsageKind::Clash(Opt::Input)),
        ),
        (&["--qp=1", "--au-info=1"], Some(UsageKind::Words)),
        (
            &["--qp=1", "--chroma=422"],
            Some(UsageKind::Clash(Opt::Chroma)),
        ),
        (&["--qp=1", "--width=0"], Some(UsageKind::Value(Opt::Width))),
        (&["--qp=1", "--depth=9"], Some(UsageKind::Value(Opt::Depth))),
        (
            &["--qp=1", "--chroma=420"],
            Some(UsageKind::Value(Opt::Chroma)),
        ),
        (
            &["--qp=1", "--profile=400-12"],
            Some(UsageKind::Value(Opt::Profile)),
        ),
        (
            &["--qp=1", "--level=1.0"],
            Some(UsageKind::Value(Opt::Level)),
        ),
        (&["--qp=1", "--level=8"], Some(UsageKind::Value(Opt::Level))),
        (
            &["--qp=1", "--qp-offset-1=-76"],
            Some(UsageKind::Value(Opt::QpOffset1)),
        ),
        (
            &["--qp=1", "--threads=65"],
            Some(UsageKind::Value(Opt::Threads)),
        ),
        (
            &["--qp=1", "--colour=1,2,3,2"],
            Some(UsageKind::Value(Opt::Colour)),
        ),
        (
            &["--qp=1", "--colour=256,2,3,1"],
            Some(UsageKind::Value(Opt::Colour)),
        ),
        (
            &["--qp=1", "--colour=1,2,3"],
            Some(UsageKind::Value(Opt::Colour)),
        ),
        (&["--qp=1", "--filler=16777216"], None),
        (
            &["--qp=1", "--filler=16777217"],
            Some(UsageKind::Value(Opt::Filler)),
        ),
    ];
    for (more, fault) in table {
        assert!(rt; enc_end_of(rt.alloc(), &Y4M, more)? == fault.map(WordsEnd::Usage));
    }
    Ok(())
}

#[test]
fn judges_the_rate_of_the_encoder(rt: HostRuntime) -> Result<(), Fail> {
    let table: [(&[&str], Option<UsageKind>); 14] = [
        (&[], Some(UsageKind::Missing(Opt::Qp))),
        (&["--qp", "1"], None),
        (&["--qp=76"], Some(UsageKind::Value(Opt::Qp))),
        (&["--limit", "54"], None),
        (&["--limit", "0"], Some(UsageKind::Value(Opt::Limit))),
        (
            &["--limit", "536870913"],
            Some(UsageKind::Value(Opt::Limit)),
        ),
        (
            &["--qp", "1", "--limit", "54"],
            Some(UsageKind::Clash(Opt::Qp)),
        ),
        (
            &["--qp", "1", "--qp-min", "0"],
            Some(UsageKind::Clash(Opt::QpMin)),
        ),
        (
            &["--qp", "1", "--qp-max", "9"],
            Some(UsageKind::Clash(Opt::QpMax)),
        ),
        (
            &["--limit=5", "--qp-min=76"],
            Some(UsageKind::Value(Opt::QpMin)),
        ),
        (&["--limit=5", "--qp-max=0"], None),
        (&["--limit=5", "--qp-min=9", "--qp-max=9"], None),
        (
            &["--limit=5", "--qp-min=9", "--qp-max=8"],
            Some(UsageKind::Clash(Opt::QpMax)),
        ),
        (
            &["--limit=5", "--qp-min=004", "--qp-max=003"],
            Some(UsageKind::Clash(Opt::QpMax)),
        ),
    ];
    for (more, fault) in table {
        assert!(rt; enc_end_of(rt.alloc(), &PLANAR, more)? == fault.map(WordsEnd::Usage));
    }
    Ok(())
}

#[test]
fn judges_the_files_of_the_encoder(rt: HostRuntime) -> Result<(), Fail> {
    let table: [(&[&str], Option<UsageKind>); 10] = [
        (
            &["--qp=1", "--preview=p"],
            Some(UsageKind::Missing(Opt::PreviewWidth)),
        ),
        (
            &["--qp=1", "--preview=p", "--preview-width=16"],
            Some(UsageKind::Missing(Opt::PreviewHeight)),
        ),
        (
            &["--qp=1", "--preview-width=16"],
            Some(UsageKind::Clash(Opt::PreviewWidth)),
        ),
        (
            &["--qp=1", "--preview-height=16"],
            Some(UsageKind::Clash(Opt::PreviewHeight)),
        ),
        (
            &["--qp=1", "--preview-width=0"],
            Some(UsageKind::Value(Opt::PreviewWidth)),
        ),
        (&["--qp=1", "--recon=-"], Some(UsageKind::Value(Opt::Recon))),
        (
            &["--qp=1", "--metadata", "-"],
            Some(UsageKind::Value(Opt::Metadata)),
        ),
        (&["--qp=1", "--alpha=a"], Some(UsageKind::SameName)),
        (&["--qp=1", "--recon=b"], Some(UsageKind::SameName)),
        (
            &["--qp=1", "--alpha=c", "--depth-map=c"],
            Some(UsageKind::SameName),
        ),
    ];
    for (more, fault) in table {
        assert!(rt; enc_end_of(rt.alloc(), &PLANAR, more)? == fault.map(WordsEnd::Usage));
    }
    Ok(())
}

#[test]
fn gives_each_chroma_profile_and_level(rt: HostRuntime) -> Result<(), Fail> {
    let alloc = rt.alloc();
    let table: [(&str, Chroma, &str, u8, &str, u8); 7] = [
        (
            "--chroma=400",
            Chroma::C400,
            "--profile=400-10",
            99,
            "--level=1",
            30,
        ),
        (
            "--chroma=422",
            Chroma::C422,
            "--profile=422-10",
            33,
            "--level=1.1",
            33,
        ),
        (
            "--chroma=422",
            Chroma::C422,
            "--profile=422-12",
            44,
            "--level=2.1",
            63,
        ),
        (
            "--chroma=444",
            Chroma::C444,
            "--profile=444-10",
            55,
            "--level=3",
            90,
        ),
        (
            "--chroma=444",
            Chroma::C444,
            "--profile=444-12",
            66,
            "--level=4.1",
            123,
        ),
        (
            "--chroma=4444",
            Chroma::C4444,
            "--profile=4444-10",
            77,
            "--level=7",
            210,
        ),
        (
            "--chroma=4444",
            Chroma::C4444,
            "--profile=4444-12",
            88,
            "--level=7.1",
            213,
        ),
    ];
    for (chroma, chroma_is, profile, profile_is, level, level_is) in table {
        let video = [
            "--input=a",
            "--output=b",
            "--width=1",
            "--height=1",
            "--depth=10",
            "--qp=1",
        ];
        let mut words = Vec::new(alloc);
        words.extend_from_slice(&video)?;
        words.extend_from_slice(&[chroma, profile, level])?;
        let words = words_of(alloc, &words)?;
        let settings = settings_enc(alloc, &words).ok().ok_or("settings")?;
        assert!(rt; settings.chroma == Some(chroma_is) && settings.profile == Some(profile_is));
        assert!(rt; settings.level == level_is);
    }
    Ok(())
}

#[test]
fn takes_a_generated_video(rt: HostRuntime) -> Result<(), Fail> {
    let table: [(&[&str], Option<UsageKind>); 9] = [
        (&["--qp=20"], None),
        (&["--qp=20", "--output=out"], None),
        (&["--limit=100000"], None),
        (&[], Some(UsageKind::Missing(Opt::Qp))),
        (
            &["--qp=20", "--input=in"],
            Some(UsageKind::Clash(Opt::Input)),
        ),
        (
            &["--qp=20", "--form=planar"],
            Some(UsageKind::Clash(Opt::Form)),
        ),
        (
            &["--qp=20", "--width=16"],
            Some(UsageKind::Clash(Opt::Width)),
        ),
        (
            &["--qp=20", "--chroma=422"],
            Some(UsageKind::Clash(Opt::Chroma)),
        ),
        (
            &["--qp=20", "--depth=10"],
            Some(UsageKind::Clash(Opt::Depth)),
        ),
    ];
    for (more, fault) in table {
        assert!(rt; enc_end_of(rt.alloc(), &["--generate=7"], more)? == fault.map(WordsEnd::Usage));
    }
    let seed = ["--generate=4294967296", "--qp=20"];
    let large = enc_end_of(rt.alloc(), &seed, &[])?;
    assert!(rt; large == Some(WordsEnd::Usage(UsageKind::Value(Opt::Generate))));
    Ok(())
}
