//! The format of a frame.
ghost use Rattle.std.specs.Prelude.{◌≡◌};
ghost use Rattle.apv_base.specs.model.Format.{idc_of, chroma_of, comps_of};
ghost use Rattle.apv_base.specs.model.Format.{macroblock_columns, macroblock_rows, macroblocks};

/// How the components of a frame are sampled: `chroma_format_idc`.
///
/// - `C400`: 4:0:0: one component.
/// - `C422`: 4:2:2: three components, the second and third of half the width.
/// - `C444`: 4:4:4: three components of one size.
/// - `C4444`: 4:4:4:4: four components of one size.
#[derive(Clone, Copy, Debug, PartialEq, Eq)]
pub enum Chroma {
    C400,
    C422,
    C444,
    C4444,
}

impl Chroma {
    /// The code of the chroma format in a frame header, `chroma_format_idc`.
    pub fn idc(self) -> u8
        ensures { result ≡ idc_of self }
    {
        match self {
            Chroma::C400 => 0,
            Chroma::C422 => 2,
            Chroma::C444 => 3,
            Chroma::C4444 => 4,
        }
    }

    /// The chroma format of a `chroma_format_idc`, and none for the codes that have none.
    pub fn of_idc(idc: u8) -> Option<Chroma>
        ensures { result ≡ chroma_of idc }
    {
        match idc {
            0 => Some(Chroma::C400),
            2 => Some(Chroma::C422),
            3 => Some(Chroma::C444),
            4 => Some(Chroma::C4444),
            _ => None,
        }
    }

    /// The number of components, 1, 3 or 4.
    pub fn comps(self) -> u8
        ensures { result ≡ comps_of self }
    {
        match self {
            Chroma::C400 => 1,
            Chroma::C422 | Chroma::C444 => 3,
            Chroma::C4444 => 4,
        }
    }
}

/// What decides how a frame's samples are laid out.
#[derive(Clone, Copy, Debug, PartialEq, Eq)]
pub struct Format {
    /// The width in samples of the first component.
    pub width: u32,
    /// The height in samples.
    pub height: u32,
    /// The chroma format, `chroma_format_idc`.
    pub chroma: Chroma,
    /// The bits of a sample, 10 to 12 in a sound format.
    pub depth: u8,
}

impl Format {
    /// The columns of macroblocks of 16x16 samples of the first component, the last one cut or whole.
    pub fn macroblock_columns(&self) -> u32
        ensures { result ≡ macroblock_columns self.now }
    {
        self.width.div_ceil(16)
    }

    /// The rows of macroblocks, the last one cut or whole.
    pub fn macroblock_rows(&self) -> u32
        ensures { result ≡ macroblock_rows self.now }
    {
        self.height.div_ceil(16)
    }

    /// The number of macroblocks, which is at most the limit L2 in a frame.
    pub fn macroblocks(&self) -> u64
        ensures { result ≡ macroblocks self.now }
    {
        u64::from(self.macroblock_columns()) * u64::from(self.macroblock_rows())
    }
}

/// The values of `frame_info`.
#[derive(Clone, Copy, Debug, PartialEq, Eq)]
pub struct FrameInfo {
    /// `profile_idc`.
    pub profile: u8,
    /// `level_idc`.
    pub level: u8,
    /// `band_idc`, 0 to 7.
    pub band: u8,
    /// `frame_width`, in samples.
    pub width: u32,
    /// `frame_height`, in samples.
    pub height: u32,
    /// `chroma_format_idc`.
    pub chroma: Chroma,
    /// `bit_depth_minus8` and 8.
    pub depth: u8,
    /// `capture_time_distance`.
    pub capture: u8,
}

impl FrameInfo {
    /// The width, height, chroma format and bit depth.
    pub fn format(&self) -> Format
        ensures { result ≡ record {
          width = self.now.width;
          height = self.now.height;
          chroma = self.now.chroma;
          depth = self.now.depth;
        } }
    {
        Format {
            width: self.width,
            height: self.height,
            chroma: self.chroma,
            depth: self.depth,
        }
    }
}

/// The colour description of a frame header.
#[derive(Clone, Copy, Debug, PartialEq, Eq)]
pub struct Colour {
    /// `color_primaries`.
    pub primaries: u8,
    /// `transfer_characteristics`.
    pub transfer: u8,
    /// `matrix_coefficients`.
    pub matrix: u8,
    /// `full_range_flag`.
    pub full_range: bool,
}
