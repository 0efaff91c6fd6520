//! The order of a block's places.

ghost use Rattle.std.specs.Prelude.{◌≡◌, ◌-◌, ◌<◌, ◌≤◌};
ghost use Rattle.apv_base.specs.model.Scan.{scan};

/// The place, 8 * y + x, of each scan place.
pub const SCAN: [u8; 64] = [
    0, 1, 8, 16, 9, 2, 3, 10, 17, 24, 32, 25, 18, 11, 4, 5, 12, 19, 26, 33, 40, 48, 41, 34, 27, 20,
    13, 6, 7, 14, 21, 28, 35, 42, 49, 56, 57, 50, 43, 36, 29, 22, 15, 23, 30, 37, 44, 51, 58, 59,
    52, 45, 38, 31, 39, 46, 53, 60, 61, 54, 47, 55, 62, 63,
];

/// The place of a scan place.
#[inline]
pub(crate) fn place_of(scan_place: u32) -> usize
    requires { scan_place < 64 }
    ensures place { result ≡ scan scan_place }
    ensures within { result < 64 }
{
    SCAN[scan_place as usize] as usize
}

/// The place of the scan place before one.
#[inline]
pub(crate) fn place_before(scan_place: usize) -> usize
    requires some { 0 < scan_place }
    requires few { scan_place ≤ 64 }
    ensures place { result ≡ scan (scan_place - 1) }
    ensures within { result < 64 }
{
    SCAN[scan_place - 1] as usize
}
