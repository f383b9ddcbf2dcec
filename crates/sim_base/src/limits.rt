//! The limits that a run is given.

ghost use Rattle.std.specs.Prelude.{◌≡◌};

/// The limits of a run.
#[derive(Clone, Copy, Debug, PartialEq, Eq)]
pub struct Limits {
    /// The storage budget in words, 1,000 to 50,000,000.
    pub storage: u32,
    /// The number of ticks that a run may take, 1 to 10^18.
    pub ticks: u64,
    /// The length of the image of sysin in characters, 1 to 10,000.
    pub in_length: u16,
    /// The length of the image of sysout in characters, 1 to 10,000.
    pub out_length: u16,
}

impl Limits {
    /// The limits of a run with no options: 4,000,000 words, 10^9 ticks, images of 80 and 132 characters.
    pub const DEFAULT: Limits = Limits {
        storage: 4_000_000,
        ticks: 1_000_000_000,
        in_length: 80,
        out_length: 132,
    };

    /// The limits of a run with no options.
    pub fn without_options() -> Limits
        ensures storage { result.storage ≡ 4000000 }
        ensures ticks { result.ticks ≡ 1000000000 }
        ensures images { (result.in_length ≡ 80) × (result.out_length ≡ 132) }
    {
        Limits::DEFAULT
    }
}
