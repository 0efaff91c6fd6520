//! Why the body of a PBU isn't sound.
ghost use Rattle.std.specs.Prelude.{◌≡◌};
ghost use Rattle.apv_base.specs.declared.rules.HeadEnd.TheVariants.{Rule as breaks};

use apv_base::{HeadEnd, Rule, TileBreak};

/// Why a body isn't sound, and the number of the tile in its frame, counted from 0, which is 0 outside of tiles.
#[derive(Clone, Copy, Debug)]
pub struct BodyBreak {
    pub tile: u32,
    pub end: HeadEnd,
}

/// A rule that is broken in a tile.
pub fn inside(broken: TileBreak) -> BodyBreak
    ensures { result ≡ record { tile = broken.tile; end = breaks broken.rule } }
{
    BodyBreak {
        tile: broken.tile,
        end: HeadEnd::Rule(broken.rule),
    }
}

/// A rule that is broken outside of tiles.
pub fn outside(rule: Rule) -> BodyBreak
    ensures { result ≡ record { tile = 0; end = breaks rule } }
{
    BodyBreak {
        tile: 0,
        end: HeadEnd::Rule(rule),
    }
}
