// What a crew is, and the laws that each keeps.
ghost use Rattle.std.specs.Prelude.{◌≡◌, ◌&&◌};
ghost use Rattle.meaning.specs.Crews.{Admits, Lawful, askable};

// Who moves the levers. `admitted` is what the crew means, and the law says that what it means is a crew.
pub trait Crew {
    ghost admitted: { Self → Admits };

    // Whether the levers of the plates can be between together. False where the plates are more than 32, do not rise,
    // or are not all plates of levers.
    fn admits(&self, plates: &[u32]) -> bool
        ensures { result ≡ (askable plates.now && admitted self.now plates.now) };

    ghost lawful: { (c : Self) → Lawful (admitted c) };
}

// The laws hold of each crew: no levers are admitted, and of admitted levers any can be left out.
pub fn keeps_the_laws<C: Crew>(crew: &C)
    ensures { Lawful (C.Crew.admitted crew.now) }
{}
