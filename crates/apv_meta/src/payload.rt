//! The payload at a place of a list of payloads.
ghost use Rattle.std.specs.Prelude.{◌≡◌, ◌<◌, ◌≤◌, drop, length, IfSome, IfNone, None, Err};
ghost use Rattle.apv_base.specs.declared.rules.Rule.TheVariants.{V26};
ghost use Rattle.apv_base.specs.model.Table.{coded_at, walk};
ghost use Rattle.apv_base.specs.model.Payload.{payload_table};
ghost use Rattle.apv_meta.specs.Payload.{NumberFound, PayloadFound};
ghost use Rattle.apv_base.specs.model.Run.{MAX_UNIT};

/// A payload of a list of payloads (`metadata_payload`).
#[derive(Clone, Copy, Debug)]
pub struct Payload<'a> {
    /// The type, `payload_type`.
    pub kind: u64,
    /// The bytes, without type and size.
    pub bytes: &'a [u8],
    /// The place in the list after the payload.
    pub next: usize,
}

/// The number at a place of a list, which is spelled by bytes FF that count 255 each and one byte below FF, and the
/// place after it. None where the list ends before that byte.
fn number_at(list: &[u8], place: usize) -> Option<(u64, usize)>
    requires inside { place ≤ length list.now }
    requires small { length list.now ≤ MAX_UNIT }
    ensures found { IfSome result (NumberFound list.now place) }
    ensures none { IfNone result (coded_at (drop place list.now) ≡ None) }
{
    let mut value: u64 = 0;
    for (i, byte) in list[place..].iter().enumerate() {
        if *byte != 255 {
            return Some((value + u64::from(*byte), place + i + 1));
        }
        value += 255;
    }
    None
}

/// The payload that begins at a place of a list of payloads. None exactly where its type, its size or its bytes reach
/// past the end of the list. The list has at most 536,870,912 bytes, and the place is inside it.
pub fn next_payload(list: &[u8], place: usize) -> Option<Payload<'_>>
    requires inside { place < length list.now }
    requires small { length list.now ≤ MAX_UNIT }
    ensures found { IfSome result (λ p. PayloadFound list.now place (p.kind, p.bytes.now, p.next)) }
    ensures none { IfNone result (walk 256 payload_table (drop place list.now) ≡ Err V26) }
{
    let (kind, place) = number_at(list, place)?;
    let (size, place) = number_at(list, place)?;
    if size > (list.len() - place) as u64 {
        return None;
    }
    let next = place + size as usize;
    Some(Payload {
        kind,
        bytes: &list[place..next],
        next,
    })
}
