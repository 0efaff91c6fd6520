//! The samples of generated pictures.
ghost use Rattle.std.specs.Prelude.{◌≡◌, ℕ, ◌+◌, ◌^◌, ◌<◌, ◌≤◌, length, slice_index};
ghost use Rattle.apv_base.specs.model.Format.{comps_of, component_width};
ghost use Rattle.apv_base.specs.model.Picture.{picture};
ghost use Rattle.apv_encoding.specs.Generated.{generated as generated_sample};
ghost use Rattle.apv_encoding.specs.Generated.{generated_picture};
ghost use Rattle.apv_generated.specs.Samples.{HaveSameSamples, IsRowOf, AreRowsOf, Keeps};
ghost use Rattle.apv_grid.specs.Buffer.{samples_of};

use apv_grid::Frame;

/// The sample `x`, `y` of a component of a picture of the video that is generated from `seed`: 0 to 1,023. `frame` is
/// the number of the picture, from 0 on. `x` and `y` count the component's own samples from its top left corner. Each
/// argument may have any value.
pub fn generated(seed: u32, comp: u8, frame: u32, x: u32, y: u32) -> u16
    ensures is { result ≡ generated_sample seed comp frame x y }
    ensures small { result < 1024 }
{
    let (x, y) = (u64::from(x), u64::from(y));
    let pattern = x * y % 61 * 4;
    let constant = u64::from(seed) * 37 + u64::from(comp) * 211 + u64::from(frame) * 17;
    ((constant + x * 5 + y * 3 + pattern) % 1024) as u16
}

/// Samples of the row `y` of a component of a picture, from `x` on, as many as the slice has.
fn generate(seed: u32, number: u32, comp: u8, x: u32, y: u32, row: &mut [u16])
    requires { x + length row.old < 2 ^ 32 }
    ensures size { length row.new ≡ length row.old }
    ensures samples { (i : ℕ) → i < length row.old
        → slice_index row.new i ≡ generated_picture seed number comp (x + i) y }
{
    for i in 0..row.len() {
        row[i] = generated(seed, comp, number, x + i as u32, y);
    }
}

/// At most 256 samples of the row `y` of a component, from `x` on, become those of the picture.
fn put_piece(seed: u32, number: u32, frame: &mut Frame, comp: u8, x: u32, y: u32, count: u32)
    requires comp { comp < comps_of frame.old.grid.format.chroma }
    requires y { y < frame.old.grid.format.height }
    requires x { x + count ≤ component_width frame.old.grid.format comp }
    requires few { count ≤ 256 }
    requires low { x + count < 2 ^ 32 }
    ensures grid { frame.new.grid ≡ frame.old.grid }
    ensures row { let samples = samples_of frame.new in
        IsRowOf (generated_picture seed number) comp y x (x + count) samples }
    ensures kept { let format = frame.old.grid.format in
        Keeps format (generated_picture seed number) (samples_of frame.old) (samples_of frame.new) }
{
    let mut buffer = [0; 256];
    let piece = &mut buffer[..count as usize];
    generate(seed, number, comp, x, y, piece);
    frame.put_row(comp, x, y, piece);
}

/// The visible samples of the row `y` of a component become those of the picture.
fn put_row(seed: u32, number: u32, frame: &mut Frame, comp: u8, y: u32)
    requires comp { comp < comps_of frame.old.grid.format.chroma }
    requires y { y < frame.old.grid.format.height }
    ensures grid { frame.new.grid ≡ frame.old.grid }
    ensures row { let width = component_width frame.old.grid.format comp in
        IsRowOf (generated_picture seed number) comp y 0 width (samples_of frame.new) }
    ensures kept { let format = frame.old.grid.format in
        Keeps format (generated_picture seed number) (samples_of frame.old) (samples_of frame.new) }
{
    let width = frame.width(comp);
    let mut x = 0;
    while x < width {
        let count = u32::min(256, width - x);
        put_piece(seed, number, frame, comp, x, y, count);
        x += count;
    }
}

/// The visible samples of a component become those of the picture.
fn put_component(seed: u32, number: u32, frame: &mut Frame, comp: u8)
    requires { comp < comps_of frame.old.grid.format.chroma }
    ensures grid { frame.new.grid ≡ frame.old.grid }
    ensures rows { let format = frame.old.grid.format in
        AreRowsOf format (generated_picture seed number) comp format.height (samples_of frame.new) }
    ensures kept { let format = frame.old.grid.format in
        Keeps format (generated_picture seed number) (samples_of frame.old) (samples_of frame.new) }
{
    let height = frame.height(comp);
    for y in 0..height {
        put_row(seed, number, frame, comp, y);
    }
}

/// Each visible sample of the frame, which may have any format, becomes that of the picture with that number, from 0
/// on, of the video that is generated from `seed`.
pub fn put_generated(seed: u32, number: u32, frame: &mut Frame)
    ensures grid { frame.new.grid ≡ frame.old.grid }
    ensures samples { let format = frame.old.grid.format in
        HaveSameSamples format (samples_of frame.new) (generated_picture seed number) }
    ensures picture { let format = frame.old.grid.format in
        picture format (samples_of frame.new) ≡ picture format (generated_picture seed number) }
{
    for comp in 0..frame.grid().format().chroma.comps() {
        put_component(seed, number, frame, comp);
    }
}
