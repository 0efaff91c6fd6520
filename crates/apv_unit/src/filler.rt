//! Filler: bytes FF (`filler()`).
ghost use Rattle.std.specs.Prelude.{◌≡◌, true, length};
ghost use Rattle.apv_base.specs.model.Pbu.{is_filler as is_filler_lem};

/// Whether each byte is FF.
pub fn is_filler(bytes: &[u8]) -> bool
    ensures { result ≡ is_filler_lem bytes.now }
{
    bytes.iter().all(|byte| *byte == 255)
}

/// Fills a slice with filler, bytes FF (`filler()`).
pub fn put_filler(out: &mut [u8])
    ensures bytes { is_filler_lem out.new ≡ true }
    ensures len { length out.new ≡ length out.old }
{
    out.fill(255);
}
