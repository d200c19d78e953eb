// What a crew sees of a refusal: its number and its word. A store's fault becomes a refusal, whole.
// Number and word are methods: `u8::from(refusal)` would not say which number, and a console prints the two apart too.
ghost use Rattle.std.specs.Prelude.{◌≡◌};
ghost use Rattle.model.specs.Refusals.{number as number_of, word as word_of, dead};

use crate::types::{Fault, Refusal};

impl Refusal {
    pub fn number(&self) -> u8
        ensures { result ≡ number_of self.now }
    {
        match self {
            Refusal::Lost => 1,
            Refusal::Taken => 2,
            Refusal::Entries => 3,
            Refusal::Sectors => 4,
            Refusal::Misspelt => 5,
            Refusal::Start => 6,
            Refusal::Size => 7,
            Refusal::Small => 8,
            Refusal::Dead(_) => 9,
            Refusal::Unsound => 10,
            Refusal::Shut => 11,
            Refusal::Inside => 12,
            Refusal::Misfit => 13,
            Refusal::Unknown => 14,
        }
    }

    pub fn word(&self) -> &'static str
        ensures { result.now ≡ word_of self.now }
    {
        match self {
            Refusal::Lost => "lost",
            Refusal::Taken => "taken",
            Refusal::Entries => "entries",
            Refusal::Sectors => "sectors",
            Refusal::Misspelt => "misspelt",
            Refusal::Start => "start",
            Refusal::Size => "size",
            Refusal::Small => "small",
            Refusal::Dead(_) => "dead",
            Refusal::Unsound => "unsound",
            Refusal::Shut => "shut",
            Refusal::Inside => "inside",
            Refusal::Misfit => "misfit",
            Refusal::Unknown => "unknown",
        }
    }
}

impl From<Fault> for Refusal {
    ghost from_gives = { λ fault refusal. refusal ≡ dead fault };

    fn from(fault: Fault) -> Refusal {
        Refusal::Dead(fault)
    }
}
