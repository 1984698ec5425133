// The list machine stands in specs/ and proofs/. The code here is what its answers share.
#![tactic(auto)]

ghost use Rattle.std.specs.Prelude.{◌≡◌};
ghost use Rattle.list_machine.specs.Outsides as outsides;

// Why the machine stops in front of an item: one of its writes would fall into the image; it jumps to where no entry stands; its throw finds no entry
// at a usable 'THROW; no item follows it.
#[derive(Clone, Copy)]
pub enum Outside {
    WritesImage,
    NoEntry,
    NoHandler,
    PastEnd,
}

impl From<Outside> for u32 {
    ghost from_gives = { λ why n. n ≡ outsides.outside_number why };

    fn from(why: Outside) -> u32 {
        match why {
            Outside::WritesImage => 1,
            Outside::NoEntry => 2,
            Outside::NoHandler => 3,
            Outside::PastEnd => 4,
        }
    }
}
