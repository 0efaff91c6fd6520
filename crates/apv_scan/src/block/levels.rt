//! What 64 levels of 16 bits are.

ghost use Rattle.std.specs.Prelude.{◌≡◌, ◌<◌};
ghost use Rattle.apv_base.specs.model.Component.{IsBlock};
ghost use Rattle.apv_base.specs.model.Quant.{IsLevel};

/// Does nothing. Its contract says that a level of 16 bits is permitted.
#[inline]
fn is_level(level: i16)
    ensures { IsLevel level }
{
    let _level = level;
}

/// Does nothing. Its contract says that 64 levels of 16 bits are a block.
#[inline]
pub fn is_block(levels: &[i16; 64])
    ensures { IsBlock levels.now }
{
    for place in 0..64 {
        is_level(levels[place]);
    }
}
