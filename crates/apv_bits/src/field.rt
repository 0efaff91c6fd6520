//! Fields of a byte slice: eight bytes as one number, and fields up to the slice's end.

ghost use Rattle.std.specs.Prelude.{◌≡◌, ℕ, ◌+◌, ◌-◌, ◌*◌, ◌/◌, ◌%◌, ◌^◌, ◌<◌, ◌≤◌, ◌↔◌, ◌++◌};
ghost use Rattle.std.specs.Prelude.{length, take, drop, IsNone, IfSome};
ghost use Rattle.apv_base.specs.model.Bits.{bin, bits};
ghost use Rattle.apv_base.specs.model.Run.{MAX_UNIT};

/// The number that a few bytes spell, the high byte first.
#[inline]
fn number(bytes: &[u8]) -> u64
    requires { length bytes.now ≤ 8 }
    ensures small { result < 2 ^ (8 * length bytes.now) }
    ensures bits { bits bytes.now ≡ bin (8 * length bytes.now) result }
{
    if let Some(whole) = bytes.as_array() {
        return u64::from_be_bytes(*whole);
    }
    let mut all: u64 = 0;
    for byte in bytes {
        all = all << 8 | *byte as u64;
    }
    all
}

/// The number of eight bytes from one on, where there are as many.
#[inline]
pub fn load(bytes: &[u8], first: usize) -> Option<u64>
    requires { first ≤ 2 ^ 32 }
    ensures none { IsNone result ↔ (length bytes.now < first + 8) }
    ensures bits { IfSome result (λ w. drop (8 * first) (bits bytes.now)
        ≡ bin 64 w ++ drop (8 * first + 64) (bits bytes.now)) }
{
    if bytes.len() < first + 8 {
        return None;
    }
    Some(number(&bytes[first..first + 8]))
}

/// The n bits from a place on, by bytes: for the end of a slice, and for padding.
#[cold]
#[inline(never)]
pub fn field(bytes: &[u8], place: usize, n: u32) -> u32
    requires n { n ≤ 32 }
    requires length { length bytes.now ≤ MAX_UNIT }
    requires within { place + n ≤ 8 * length bytes.now }
    ensures small { result < 2 ^ n }
    ensures bits { drop place (bits bytes.now) ≡ bin n result ++ drop (place + n) (bits bytes.now) }
{
    if n == 0 {
        return 0;
    }
    let first = place / 8;
    let end = place + n as usize;
    let last = usize::min(first + 8, bytes.len());
    let window = number(&bytes[first..last]);
    let after = 8 * last - end;
    ((window >> after) & ((1 << n) - 1)) as u32
}

/// Writes a number into a few bytes, the high byte first.
#[inline]
fn store(bytes: &mut [u8], number: u64)
    requires { length bytes.old ≤ 8 }
    ensures { bits bytes.new ≡ bin (8 * length bytes.old) number }
{
    let len = bytes.len();
    for (i, byte) in bytes.iter_mut().enumerate() {
        *byte = (number >> (8 * (len - 1 - i)) & 0xff) as u8;
    }
}

/// Writes the n bits of a value from a place on, a byte at a time. All other bits stay.
#[cold]
#[inline(never)]
fn put_by_bytes(bytes: &mut [u8], place: usize, value: u64, n: u32)
    requires n { n ≤ 57 }
    requires value { value < 2 ^ n }
    requires length { length bytes.old ≤ MAX_UNIT }
    requires within { place + n ≤ 8 * length bytes.old }
    ensures { bits bytes.new
        ≡ take place (bits bytes.old) ++ bin n value ++ drop (place + n) (bits bytes.old) }
{
    let first = place / 8;
    let end = place + n as usize;
    let last = end.div_ceil(8);
    let after = 8 * last - end;
    let bytes = &mut bytes[first..last];
    let window = number(bytes);
    let high = window >> after >> n;
    let low = window & ((1 << after) - 1);
    let all = ((high << n | value) << after) | low;
    store(bytes, all);
}

/// Writes the n bits of a value from a place on. All other bits stay.
#[inline]
pub fn put_field(bytes: &mut [u8], place: usize, value: u64, n: u32)
    requires n { n ≤ 57 }
    requires value { value < 2 ^ n }
    requires length { length bytes.old ≤ MAX_UNIT }
    requires within { place + n ≤ 8 * length bytes.old }
    ensures { bits bytes.new
        ≡ take place (bits bytes.old) ++ bin n value ++ drop (place + n) (bits bytes.old) }
{
    if n == 0 {
        return;
    }
    let first = place / 8;
    if bytes.len() < first + 8 {
        put_by_bytes(bytes, place, value, n);
        return;
    }
    let chunk = &mut bytes[first..first + 8];
    let window = number(chunk);
    let after = 64 - (place % 8) as u32 - n;
    let mask = ((1 << n) - 1) << after;
    store(chunk, (window & !mask) | (value << after));
}
