//! The options of a run: their names, and the values that they take.
ghost use Rattle.std.specs.Prelude.{◌≡◌, ◌≤◌, IfSome};
ghost use Rattle.command_line.specs.Options.{least, most, number_of, setting_of, value_of};
ghost use Rattle.std.specs.Str.{all_ascii_digits};

/// An option of a run.
#[derive(Clone, Copy, Debug, PartialEq, Eq)]
pub enum Setting {
    /// `--storage`: the storage budget, in words.
    Storage,
    /// `--ticks`: the number of ticks that a run may take.
    Ticks,
    /// `--in-length`: the length of the image of sysin, in characters.
    InLength,
    /// `--out-length`: the length of the image of sysout, in characters.
    OutLength,
}

impl Setting {
    /// The option of this name, which stands with its two hyphens.
    pub fn of(name: &str) -> Option<Setting>
        ensures { result ≡ setting_of name.now }
    {
        match name {
            "--storage" => Some(Setting::Storage),
            "--ticks" => Some(Setting::Ticks),
            "--in-length" => Some(Setting::InLength),
            "--out-length" => Some(Setting::OutLength),
            _ => None,
        }
    }

    // The least value. The range of each option is that which `Limits` names in words for its field; a limit is given nowhere else.
    fn least(self) -> u64
        ensures { result ≡ least self }
    {
        match self {
            Setting::Storage => 1_000,
            Setting::Ticks | Setting::InLength | Setting::OutLength => 1,
        }
    }

    // The greatest value.
    fn most(self) -> u64
        ensures { result ≡ most self }
    {
        match self {
            Setting::Storage => 50_000_000,
            Setting::Ticks => 1_000_000_000_000_000_000,
            Setting::InLength | Setting::OutLength => 10_000,
        }
    }

    /// The value that a word gives to this option: 1 to 19 decimal digits, with a number in the option's range.
    pub fn value(self, word: &str) -> Option<u64>
        ensures value { result ≡ value_of self word.now }
        ensures range { IfSome result (λ number. (least self ≤ number) × (number ≤ most self)) }
    {
        let number = number_of(word)?;
        if number < self.least() || number > self.most() {
            return None;
        }
        Some(number)
    }
}

/// The number that 1 to 19 decimal digits write.
pub fn number_of(word: &str) -> Option<u64>
    ensures { result ≡ number_of word.now }
{
    let digits = word.as_bytes();
    if digits.is_empty() || digits.len() > 19 || !are_digits(digits) {
        return None;
    }
    word.parse().ok()
}

// Whether each byte is a decimal digit.
fn are_digits(bytes: &[u8]) -> bool
    ensures { result ≡ all_ascii_digits bytes.now }
{
    let mut rest = bytes;
    while let [first, others @ ..] = rest {
        if !first.is_ascii_digit() {
            return false;
        }
        rest = others;
    }
    true
}
