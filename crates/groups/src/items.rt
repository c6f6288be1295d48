// Signs and items.
ghost use Rattle.std.specs.Prelude.{◌≡◌};
ghost use Rattle.groups.specs.Items.{mark_of};

// What an item says of its lever: + normal or between, - reversed or between, * between.
#[derive(Clone, Copy, PartialEq, Eq, PartialOrd, Ord)]
pub enum Sign {
    Plus,
    Minus,
    Star,
}

// A plate with a sign.
#[derive(Clone, Copy, PartialEq, Eq)]
pub struct Item {
    pub plate: u32,
    pub sign: Sign,
}

impl From<Sign> for u8 {
    ghost from_gives = { λ sign byte. byte ≡ mark_of sign };

    // The byte that the sign is written as.
    fn from(sign: Sign) -> u8 {
        match sign {
            Sign::Plus => b'+',
            Sign::Minus => b'-',
            Sign::Star => b'*',
        }
    }
}
