//! The PBUs of an access unit whose structure is sound, one after another.
ghost use Rattle.std.specs.Prelude.{◌≡◌, ◌≤◌, ℕ, List, length};
ghost use Rattle.std.specs.Iterator.{at_most};
ghost use Rattle.apv_base.specs.model.Pbu.{Pbu};
ghost use Rattle.apv_base.specs.model.Body.{with_bodies};
ghost use Rattle.apv_base.specs.model.Unit.{Structure};
ghost use Rattle.apv_base.specs.model.Run.{MAX_UNIT};
ghost use Rattle.apv_unit.specs.Pbus.{AreLeft};
ghost use Rattle.apv_unit.specs.GivesPbu.{GivesPbu};

use crate::pbu::next_pbu;
use std::marker::Model;

/// A PBU of an access unit whose structure is sound (`pbu()`).
#[derive(Clone, Copy, Debug)]
pub struct SoundPbu<'a> {
    /// The number of the PBU in its access unit, counted from 0.
    pub number: u32,
    /// `pbu_type`.
    pub kind: u8,
    /// `group_id`.
    pub group: u16,
    /// The bytes after the PBU's header.
    pub body: &'a [u8],
}

/// An iterator over the PBUs of an access unit whose structure is sound, in order. A contract sees the number of the
/// next PBU and the bytes that are left: the PBUs in them are still to come.
#[derive(Debug, Drop)]
pub struct Pbus<'a> {
    unit: &'a [u8],
    place: usize,
    number: u32,
}

impl<'a> Model for Pbus<'a> {
    ghost use Rattle.std.specs.Prelude.{drop};
    ghost use Rattle.apv_unit.specs.Pbus.{PbusLeft, IsAtPbu};

    ghost Value = { PbusLeft };

    ghost view = { λ s. record { number = s.number; bytes = drop s.place s.unit.now } };

    ghost invariant = { λ s. IsAtPbu s.unit.now s.place s.number };
}

impl<'a> Pbus<'a> {
    /// The PBUs of an access unit whose structure is sound, which has at most 536,870,912 bytes.
    pub fn of(unit: &'a [u8]) -> Pbus<'a>
        requires small { length unit.now ≤ MAX_UNIT }
        requires sound { (pbus : List Pbu) × Structure with_bodies unit.now pbus }
        ensures number { result.number ≡ 0 }
        ensures pbus { (pbus : List Pbu) → Structure with_bodies unit.now pbus
            → AreLeft result pbus }
    {
        Pbus {
            unit,
            place: 4,
            number: 0,
        }
    }
}

impl<'a> Iterator for Pbus<'a> {
    type Item = SoundPbu<'a>;

    ghost next_gives = { GivesPbu };

    ghost remaining = { λ s. at_most (length s.bytes) };

    fn next(&mut self) -> Option<SoundPbu<'a>> {
        let Ok(pbu) = next_pbu(self.unit, self.place) else {
            return None;
        };
        let number = self.number;
        self.place = pbu.next;
        self.number += 1;
        Some(SoundPbu {
            number,
            kind: pbu.kind,
            group: pbu.group,
            body: pbu.body,
        })
    }
}
