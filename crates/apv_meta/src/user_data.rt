//! User data: registered by ITU-T T.35 (`metadata_itu_t_t35()`), and under a UUID (`metadata_user_defined()`).
ghost use Rattle.std.specs.Prelude.{◌≡◌, ◌<◌, length, IfSome, IfNone};
ghost use Rattle.apv_meta.specs.UserData.{IsT35, IsNoT35, IsUser};

use crate::payload::Payload;

/// The `payload_type` of data that is registered by ITU-T T.35.
const T_35: u64 = 4;

/// The `payload_type` of data under a UUID.
const USER_DEFINED: u64 = 170;

/// Data that is registered by ITU-T T.35 (`metadata_itu_t_t35()`).
#[derive(Clone, Copy, Debug)]
pub struct T35<'a> {
    /// `itu_t_t35_country_code`.
    pub country: u8,
    /// `itu_t_t35_country_code_extension`, which is there exactly where the country code is 255.
    pub extension: Option<u8>,
    /// `itu_t_t35_payload`.
    pub rest: &'a [u8],
}

/// Data under a UUID (`metadata_user_defined()`).
#[derive(Clone, Copy, Debug)]
pub struct User<'a> {
    /// `uuid`.
    pub uuid: [u8; 16],
    /// `user_defined_data_payload`.
    pub rest: &'a [u8],
}

/// The data registered by ITU-T T.35 that a payload spells. None exactly where its type isn't 4, it is empty, or it is
/// the one byte FF, after which the extension is missing.
pub fn read_t35<'a>(payload: &Payload<'a>) -> Option<T35<'a>>
    ensures found { IfSome result (IsT35 payload.now.kind payload.now.bytes.now) }
    ensures none { IfNone result (payload.now.kind ≡ 4 → IsNoT35 payload.now.bytes.now) }
{
    if payload.kind != T_35 {
        return None;
    }
    let (country, rest) = payload.bytes.split_first()?;
    if *country != 255 {
        return Some(T35 {
            country: *country,
            extension: None,
            rest,
        });
    }
    let (extension, rest) = rest.split_first()?;
    Some(T35 {
        country: 255,
        extension: Some(*extension),
        rest,
    })
}

/// The data under a UUID that a payload spells. None exactly where its type isn't 170 or it has fewer than 16 bytes.
pub fn read_user<'a>(payload: &Payload<'a>) -> Option<User<'a>>
    ensures found { IfSome result (IsUser payload.now.kind payload.now.bytes.now) }
    ensures none { IfNone result (payload.now.kind ≡ 170 → length payload.now.bytes.now < 16) }
{
    if payload.kind != USER_DEFINED {
        return None;
    }
    let Some(uuid) = payload.bytes.first_chunk::<16>() else {
        return None;
    };
    Some(User {
        uuid: *uuid,
        rest: &payload.bytes[16..],
    })
}
