//! A frame header, written.
ghost use Rattle.std.specs.Prelude.{◌≡◌, ℕ, ◌*◌, ◌+◌, ◌≤◌, List, length, true};
ghost use Rattle.std.specs.List.{flat_map, concat};
ghost use Rattle.apv_base.specs.model.Bits.{bin, bits, padding};
ghost use Rattle.apv_base.specs.model.Grid.{tile_count};
ghost use Rattle.apv_base.specs.model.Header.{IsSoundInfo, IsSoundHeader, header_comps, grid_of};
ghost use Rattle.apv_bits.specs.Writer.{bits_after, slice_name, Appends};
ghost use Rattle.apv_header.specs.Info.{frame_info_word};
ghost use Rattle.apv_header.specs.Parts.{colour_flag};
ghost use Rattle.apv_header.specs.Words.{AreFields, Leaves, fields_word, fields_bits, colour_word};
ghost use Rattle.apv_header.specs.Words.{stated_matrices as stated, header_matrices_word};
ghost use Rattle.apv_header.specs.Words.{sizes_word, prefix_word, prefix_len, frame_header_word};

use apv_base::{Colour, FrameHeader, FrameInfo, Matrix};
use apv_bits::BitWriter;

/// Appends fields, each a value and its number of bits (`u(n)`), at most 32.
fn put_fields(fields: &[(u32, u32)], writer: &mut BitWriter<'_>)
    requires fields { AreFields fields.now }
    requires room { fields_bits fields.now ≤ length (bits_after writer.old) }
    ensures appends { Appends writer.old writer.new (fields_word fields.now) }
    ensures left { Leaves writer.old writer.new (fields_bits fields.now) }
    ensures slice { slice_name writer.new ≡ slice_name writer.old }
{
    for (value, bits) in fields {
        writer.put(*value, *bits);
    }
}

/// Appends `frame_info()`, 96 bits, with its reserved bits, which are 0. The values must be sound: a size, chroma
/// format and bit depth that a frame can have and the profile takes, and a band of 0 to 7. There is room for the
/// bits.
pub fn put_frame_info(info: &FrameInfo, writer: &mut BitWriter<'_>)
    requires sound { IsSoundInfo info.now }
    requires room { 96 ≤ length (bits_after writer.old) }
    ensures appends { Appends writer.old writer.new (frame_info_word info.now) }
    ensures len { length (frame_info_word info.now) ≡ 96 }
    ensures left { Leaves writer.old writer.new 96 }
    ensures slice { slice_name writer.new ≡ slice_name writer.old }
{
    put_fields(
        &[
            (u32::from(info.profile), 8),
            (u32::from(info.level), 8),
            (u32::from(info.band), 3),
            (0, 5),
            (info.width, 24),
            (info.height, 24),
            (u32::from(info.chroma.idc()), 4),
            (u32::from(info.depth - 8), 4),
            (u32::from(info.capture), 8),
            (0, 8),
        ],
        writer,
    );
}

/// Appends a reserved byte, which is 0 (`reserved_zero_8bits`).
fn put_reserved(writer: &mut BitWriter<'_>)
    requires { 8 ≤ length (bits_after writer.old) }
    ensures appends { Appends writer.old writer.new (bin 8 0) }
    ensures left { Leaves writer.old writer.new 8 }
    ensures slice { slice_name writer.new ≡ slice_name writer.old }
{
    writer.put(0, 8);
}

/// Appends `color_description_present_flag` and the colour description that it announces.
fn put_colour(colour: &Option<Colour>, writer: &mut BitWriter<'_>)
    requires { length (colour_word colour.now) ≤ length (bits_after writer.old) }
    ensures appends { Appends writer.old writer.new (colour_word colour.now) }
    ensures left { Leaves writer.old writer.new (length (colour_word colour.now)) }
    ensures slice { slice_name writer.new ≡ slice_name writer.old }
{
    match colour {
        Some(colour) => put_fields(
            &[
                (1, 1),
                (u32::from(colour.primaries), 8),
                (u32::from(colour.transfer), 8),
                (u32::from(colour.matrix), 8),
                (u32::from(colour.full_range), 1),
            ],
            writer,
        ),
        None => writer.put(0, 1),
    }
}

/// Appends the 64 values of a matrix, row after row.
fn put_matrix(matrix: &Matrix, writer: &mut BitWriter<'_>)
    requires { length (bits matrix.now) ≤ length (bits_after writer.old) }
    ensures appends { Appends writer.old writer.new (bits matrix.now) }
    ensures slice { slice_name writer.new ≡ slice_name writer.old }
{
    for place in 0..64 {
        writer.put(u32::from(matrix.at(place)), 8);
    }
}

/// Appends the values of matrices, one matrix after the other.
fn put_values(matrices: &[Matrix], writer: &mut BitWriter<'_>)
    requires { length (bits (concat matrices.now)) ≤ length (bits_after writer.old) }
    ensures appends { Appends writer.old writer.new (bits (concat matrices.now)) }
    ensures slice { slice_name writer.new ≡ slice_name writer.old }
{
    for matrix in matrices {
        put_matrix(matrix, writer);
    }
}

/// The matrices that a header states: one for each component, or none without `use_q_matrix`.
fn stated_matrices(header: &FrameHeader) -> &[Matrix]
    ensures matrices { let header = header.now in
        result.now ≡ stated header.use_matrix (header_comps header) header.matrices }
    ensures count { header.now.use_matrix ≡ true → length result.now ≡ header_comps header.now }
    ensures few { length result.now ≤ 4 }
{
    if header.use_matrix {
        &header.matrices[..usize::from(header.info.chroma.comps())]
    } else {
        &[]
    }
}

/// Appends `use_q_matrix` and `quantization_matrix()`, which it announces.
fn put_matrices(header: &FrameHeader, writer: &mut BitWriter<'_>)
    requires { length (header_matrices_word header.now) ≤ length (bits_after writer.old) }
    ensures appends { Appends writer.old writer.new (header_matrices_word header.now) }
    ensures left { Leaves writer.old writer.new (length (header_matrices_word header.now)) }
    ensures slice { slice_name writer.new ≡ slice_name writer.old }
{
    writer.put(u32::from(header.use_matrix), 1);
    put_values(stated_matrices(header), writer);
}

/// Appends tile sizes, each of 32 bits (`tile_size_in_fh`).
fn put_tile_sizes(sizes: &[u32], writer: &mut BitWriter<'_>)
    requires { 32 * length sizes.now ≤ length (bits_after writer.old) }
    ensures appends { Appends writer.old writer.new (flat_map (bin 32) sizes.now) }
    ensures slice { slice_name writer.new ≡ slice_name writer.old }
{
    for size in sizes {
        writer.put(*size, 32);
    }
}

/// Appends `tile_size_present_in_fh_flag` and the tile sizes that it announces.
fn put_sizes(present: bool, sizes: &[u32], writer: &mut BitWriter<'_>)
    requires { length (sizes_word present sizes.now) ≤ length (bits_after writer.old) }
    ensures appends { Appends writer.old writer.new (sizes_word present sizes.now) }
    ensures left { Leaves writer.old writer.new (length (sizes_word present sizes.now)) }
    ensures slice { slice_name writer.new ≡ slice_name writer.old }
{
    writer.put(u32::from(present), 1);
    if present {
        put_tile_sizes(sizes, writer);
    }
}

/// The number of values of a matrix, 64.
fn len_matrix(matrix: &Matrix) -> u32
    ensures length { result ≡ length matrix.now }
    ensures is { result ≡ 64 }
{
    // A matrix that has a value has 64 of them.
    prove!(matrix.at(0) != 0);
    64
}

/// The number of values of at most four matrices.
fn len_values(matrices: &[Matrix]) -> u32
    requires { length matrices.now ≤ 4 }
    ensures values { result ≡ length (concat matrices.now) }
    ensures count { result ≡ 64 * length matrices.now }
{
    let mut len = 0;
    for matrix in matrices {
        len += len_matrix(matrix);
    }
    len
}

/// The bytes that the colour description adds to a header.
fn len_colour(colour: &Option<Colour>) -> u32
    ensures bits { let padding = padding (155 + 25 * colour_flag colour.now) in
        length (colour_word colour.now) + padding ≡ 6 + 8 * result }
    ensures few { result ≤ 3 }
{
    if colour.is_some() { 3 } else { 0 }
}

/// The bytes of the sizes of at most 400 tiles.
fn len_sizes(present: bool, tiles: u32) -> u32
    requires { tiles ≤ 400 }
    ensures bytes { (sizes : List ℕ) → (present ≡ true → length sizes ≡ tiles)
        → length (sizes_word present sizes) ≡ 1 + 8 * result }
    ensures few { result ≤ 1600 }
{
    if present { 4 * tiles } else { 0 }
}

/// The number of bytes of `frame_header()` of a sound header, 20 to 3700, by the number of its tiles, 1 to 400. That
/// number counts only where the header states the size of each tile.
pub fn len_frame_header(header: &FrameHeader, tiles: u32) -> u32
    requires sound { IsSoundHeader header.now }
    requires tiles { tiles ≡ tile_count (grid_of header.now) }
    ensures bytes { (sizes : List ℕ) → (header.now.sizes_present ≡ true → length sizes ≡ tiles)
        → length (frame_header_word header.now sizes) ≡ 8 * result }
    ensures few { result ≤ 3700 }
{
    // The fields that each header has, with its flags and the zeros after them, are 20 bytes.
    20 + len_colour(&header.colour)
        + len_values(stated_matrices(header))
        + len_sizes(header.sizes_present, tiles)
}

/// Appends the fields of `frame_header()` before the alignment bits, for a sound header. The sizes are written where
/// the header states them.
fn put_prefix(header: &FrameHeader, sizes: &[u32], writer: &mut BitWriter<'_>)
    requires sound { IsSoundHeader header.now }
    requires room { prefix_len header.now sizes.now ≤ length (bits_after writer.old) }
    ensures appends { Appends writer.old writer.new (prefix_word header.now sizes.now) }
    ensures slice { slice_name writer.new ≡ slice_name writer.old }
{
    put_frame_info(&header.info, writer);
    put_reserved(writer);
    put_colour(&header.colour, writer);
    put_matrices(header, writer);
    put_fields(&[(header.tile_width, 20), (header.tile_height, 20)], writer);
    put_sizes(header.sizes_present, sizes, writer);
    put_reserved(writer);
}

/// Writes `frame_header()` of a sound header into a slice of as many bytes as `len_frame_header` says. The sizes are
/// the bytes of each tile after its `tile_size`, tile after tile (`tile_size_in_fh`). There is one for each tile
/// where the header states them; else they aren't written.
pub fn put_frame_header(header: &FrameHeader, sizes: &[u32], out: &mut [u8])
    requires sound { IsSoundHeader header.now }
    requires sizes { header.now.sizes_present ≡ true
        → length sizes.now ≡ tile_count (grid_of header.now) }
    requires room { 8 * length out.old ≡ length (frame_header_word header.now sizes.now) }
    ensures { bits out.new ≡ frame_header_word header.now sizes.now }
{
    // So the slice has few bytes.
    prove!(len_values(stated_matrices(header)) <= 256);
    let mut writer = BitWriter::new(out);
    put_prefix(header, sizes, &mut writer);
    writer.align();
}
