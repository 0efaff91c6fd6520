//! The payloads of a list, one after another.
ghost use Rattle.std.specs.Prelude.{◌≡◌, ◌≤◌, ℕ, List, length};
ghost use Rattle.std.specs.Iterator.{at_most};
ghost use Rattle.apv_base.specs.model.Payload.{Payload as PayloadSpec, ArePayloads};
ghost use Rattle.apv_base.specs.model.Run.{MAX_UNIT};
ghost use Rattle.apv_meta.specs.GivesPayload.{GivesPayload};

use crate::payload::{Payload, next_payload};
use std::marker::Model;

/// An iterator over the payloads of a list that is whole payloads (`metadata_payload`), in order. A contract sees the
/// bytes that are left of the list: the payloads in them are still to come.
#[derive(Debug, Drop)]
pub struct Payloads<'a> {
    list: &'a [u8],
    place: usize,
}

impl<'a> Model for Payloads<'a> {
    ghost use Rattle.std.specs.Prelude.{ℕ, List, drop};
    ghost use Rattle.apv_meta.specs.Payloads.{IsAtPayload};

    ghost Value = { List ℕ };

    ghost view = { λ s. drop s.place s.list.now };

    ghost invariant = { λ s. IsAtPayload s.list.now s.place };
}

impl<'a> Payloads<'a> {
    /// The payloads of a list of at most 536,870,912 bytes that is whole payloads one after another.
    pub fn of(list: &'a [u8]) -> Payloads<'a>
        requires small { length list.now ≤ MAX_UNIT }
        requires whole { (payloads : List PayloadSpec) × ArePayloads list.now payloads }
        ensures { result ≡ list.now }
    {
        Payloads { list, place: 0 }
    }
}

impl<'a> Iterator for Payloads<'a> {
    type Item = Payload<'a>;

    ghost next_gives = { GivesPayload };

    ghost remaining = { λ s. at_most (length s) };

    fn next(&mut self) -> Option<Payload<'a>> {
        if self.place == self.list.len() {
            return None;
        }
        let Some(payload) = next_payload(self.list, self.place) else {
            return None;
        };
        self.place = payload.next;
        Some(payload)
    }
}
