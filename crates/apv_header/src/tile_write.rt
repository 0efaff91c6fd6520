//! The headers of tiles, written.
ghost use Rattle.std.specs.Prelude.{◌≡◌, ◌≤◌, ◌+◌, ◌*◌, length};
ghost use Rattle.std.specs.List.{flat_map};
ghost use Rattle.apv_base.specs.model.Bits.{be};
ghost use Rattle.apv_header.specs.Tiles.{IsTileHeader};

/// Writes numbers of four bytes, one after another, each with its high byte first.
fn put_lengths(lengths: &[u32], out: &mut [u8])
    requires few { length lengths.now ≤ 4 }
    requires room { length out.old ≡ 4 * length lengths.now }
    ensures { out.new ≡ flat_map (be 4) lengths.now }
{
    for (comp, length) in lengths.iter().enumerate() {
        out[4 * comp..4 * comp + 4].copy_from_slice(&length.to_be_bytes());
    }
}

/// Writes `tile_header()` of the tile of that number, counted from 0: `tile_header_size`, `tile_index`, then
/// `tile_data_size` in bytes (`lengths`) and `tile_qp` of each of 1 to 4 components, and the reserved byte, which is 0.
/// Numbers have their high byte first. The header has 5 bytes for each component and 5 more, which fill `out`.
pub fn put_tile_header(index: u16, lengths: &[u32], qp: &[u8], out: &mut [u8])
    requires pairs { length lengths.now ≡ length qp.now }
    requires some { 1 ≤ length qp.now }
    requires few { length qp.now ≤ 4 }
    requires room { length out.old ≡ 5 * length qp.now + 5 }
    ensures { IsTileHeader out.new index lengths.now qp.now }
{
    let comps = qp.len();
    let header_size = out.len() as u16;
    out[..2].copy_from_slice(&header_size.to_be_bytes());
    out[2..4].copy_from_slice(&index.to_be_bytes());
    put_lengths(lengths, &mut out[4..4 + 4 * comps]);
    out[4 + 4 * comps..4 + 5 * comps].copy_from_slice(qp);
    out[4 + 5 * comps] = 0;
}
