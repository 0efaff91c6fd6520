//! Headers of primitive bitstream units (PBUs), written.
ghost use Rattle.std.specs.Prelude.{◌≡◌, ◌≤◌, [], ◌∷◌, length};
ghost use Rattle.apv_base.specs.model.Pbu.{pbu_table};
ghost use Rattle.apv_base.specs.model.Table.{spell};

/// Writes the eight bytes before a PBU's body (`pbu_header()`): `pbu_size`, which is at least 4 and counts the last
/// four of them and the body, `pbu_type`, `group_id` and a reserved byte.
pub fn put_pbu_header(kind: u8, group: u16, size: u32, out: &mut [u8])
    requires size { 4 ≤ size }
    requires out { length out.old ≡ 8 }
    ensures { out.new ≡ spell 256 pbu_table (size ∷ kind ∷ group ∷ 0 ∷ []) }
{
    let size = size.to_be_bytes();
    let group = group.to_be_bytes();
    out.copy_from_slice(&[
        size[0], size[1], size[2], size[3], kind, group[0], group[1], 0,
    ]);
}
