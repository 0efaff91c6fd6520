//! Laws of the nearest level. Each is the contract of a function that does nothing.
ghost use Rattle.apv_quant.specs.Laws.{HasOneNearest, HasSomeNearest};

/// At most one permitted level is nearest to a coefficient.
pub fn one_nearest()
    ensures { HasOneNearest }
{}

/// A permitted level is nearest to a coefficient.
pub fn some_nearest()
    ensures { HasSomeNearest }
{}
