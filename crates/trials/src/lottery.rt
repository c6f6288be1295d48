// Numbers that look drawn by lot and are the same in every run: each is 16807 times the one before it, modulo 2^31 - 1.
ghost use Rattle.std.specs.Prelude.{◌<◌};

// The modulus, a prime.
const MODULUS: u64 = 2_147_483_647;

// The last number.
#[derive(Clone, Copy)]
pub struct Lottery {
    last: u32,
    ghost small: { last < 2147483647 },
}

impl Lottery {
    // The lottery that begins behind 1.
    pub fn new() -> Lottery {
        Lottery { last: 1 }
    }

    // One number from 0 on and below a limit, or 0 where the limit is 0.
    pub fn below(&mut self, limit: u32) -> u32 {
        let product = u64::from(self.last) * 16807;
        self.last = (product % MODULUS) as u32;
        self.last.checked_rem(limit).unwrap_or(0)
    }
}
