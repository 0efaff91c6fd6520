//! Numbers and blocks without a pattern.
ghost use Rattle.std.specs.Prelude.{◌<◌, ◌≤◌};

/// How many levels after the first of a block aren't 0.
///
/// - `Fine`: about 54, as at the QP 20.
/// - `Coarse`: about 29, as at the QP 32.
#[derive(Clone, Copy, PartialEq, Eq, Debug)]
pub enum Density {
    Fine,
    Coarse,
}

impl Density {
    /// Both.
    pub const BOTH: [Density; 2] = [Density::Fine, Density::Coarse];

    /// The number of levels that aren't 0.
    pub fn levels(self) -> u32 {
        match self {
            Density::Fine => 54,
            Density::Coarse => 29,
        }
    }

    /// The spread of the numbers that levels are made of. The greater it is, the fewer are 0.
    fn spread(self) -> u32
        ensures some { 0 < result }
        ensures few { result ≤ 100 }
    {
        match self {
            Density::Fine => 48,
            Density::Coarse => 12,
        }
    }
}

/// Numbers without a pattern, the same in each run.
#[derive(Drop)]
pub struct Noise {
    state: u64,
}

impl Noise {
    /// The numbers from their start on.
    pub fn start() -> Noise {
        Noise { state: 12345 }
    }

    /// The next 64 bits. The first of them have less of a pattern than the last.
    fn next_bits(&mut self) -> u64 {
        self.state = self
            .state
            .wrapping_mul(6364136223846793005)
            .wrapping_add(1442695040888963407);
        self.state
    }

    /// A number below another.
    fn below(&mut self, end: u32) -> u32
        requires { 0 < end }
        ensures { result < end }
    {
        (self.next_bits() >> 33) as u32 % end
    }

    /// A level of -9 to 9, of which smaller ones come more often.
    fn level(&mut self, density: Density) -> i16 {
        let spread = density.spread();
        let two = self.below(spread) + self.below(spread);
        let sum = two + self.below(spread) + self.below(spread);
        ((sum + 1005 - 2 * (spread - 1)) / 10) as i16 - 100
    }

    /// The levels of a block, of which the first is -128 to 127.
    pub fn block(&mut self, density: Density) -> [i16; 64] {
        let mut levels = [0; 64];
        levels[0] = self.below(256) as i16 - 128;
        for place in 1..64 {
            levels[place] = self.level(density);
        }
        levels
    }
}
