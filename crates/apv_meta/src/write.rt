//! Payloads, written.
ghost use Rattle.std.specs.Prelude.{◌≡◌, ◌≤◌, ◌+◌, ◌/◌, List, ℕ, length};
ghost use Rattle.apv_base.specs.model.Table.{coded_number};
ghost use Rattle.apv_base.specs.model.Payload.{payload_bytes};
ghost use Rattle.apv_base.specs.model.Run.{MAX_UNIT};

/// How many bytes spell a number by bytes FF, which count 255 each, and one byte below FF.
fn len_number(value: u64) -> u64
    ensures { result ≡ value / 255 + 1 }
{
    value / 255 + 1
}

/// Writes a number by bytes FF, which count 255 each, and one byte below FF.
fn put_number(value: u64, out: &mut [u8])
    requires { length out.old ≡ value / 255 + 1 }
    ensures { out.new ≡ coded_number value }
{
    let last = out.len() - 1;
    out[..last].fill(255);
    out[last] = (value % 255) as u8;
}

/// How many bytes a payload of that type with `size` bytes takes, type and size included. The type is at most 65,535,
/// and the size at most 536,870,912.
pub fn len_payload(kind: u64, size: u64) -> u64
    requires kind { kind ≤ 65535 }
    requires size { size ≤ MAX_UNIT }
    ensures { (bytes : List ℕ) → length bytes ≡ size
        → result ≡ length (payload_bytes (record { kind = kind; bytes = bytes })) }
{
    len_number(kind) + len_number(size) + size
}

/// Writes a payload (`metadata_payload`): its type, `payload_type`, and its size, `payload_size`, each by bytes FF that
/// count 255 each and one byte below FF, then its bytes. `out` is as long as `len_payload` says.
pub fn put_payload(kind: u64, bytes: &[u8], out: &mut [u8])
    requires kind { kind ≤ 65535 }
    requires size { length bytes.now ≤ MAX_UNIT }
    requires room { length out.old ≡ length (payload_bytes (record { kind = kind; bytes = bytes.now })) }
    ensures { out.new ≡ payload_bytes (record { kind = kind; bytes = bytes.now }) }
{
    let size = bytes.len() as u64;
    let (of_kind, rest) = out.split_at_mut(len_number(kind) as usize);
    let (of_size, of_bytes) = rest.split_at_mut(len_number(size) as usize);
    put_number(kind, of_kind);
    put_number(size, of_size);
    of_bytes.copy_from_slice(bytes);
}
