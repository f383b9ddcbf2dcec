//! What the words behind a command give, read one by one.
ghost use Rattle.std.specs.Prelude.{◌≡◌, IfSome, None, Some, is_some, true};
ghost use Rattle.std.specs.Option.{option_map};
ghost use Rattle.command_line.specs.Given.{held, nothing, said, with_files, with_part, with_value, with_words};
ghost use Rattle.command_line.specs.Words.{Names, dashed_kind, has_options, kind_of, limits_of, texts};

use crate::options::Setting;
use sim_base::Limits;

/// What words give, each thing once at most.
#[derive(Clone, Copy)]
pub struct Given<'a> {
    storage: Option<u32>,
    ticks: Option<u64>,
    in_length: Option<u16>,
    out_length: Option<u16>,
    /// The name of the file; behind `gen` the number.
    pub file: Option<&'a str>,
}

/// What a word is, by itself.
#[derive(Clone, Copy)]
pub enum Kind<'a> {
    /// `--`: the words behind it are no options.
    EndsOptions,
    /// The name of a file.
    NamesFile,
    /// `--name=V`.
    Gives(Setting, &'a str),
    /// `--name`: the next word is its value.
    Awaits(Setting),
    /// None of these.
    Unknown,
}

/// What the words give; nothing where one of them is out of order or gives a thing again.
pub fn given_by(words: &[String]) -> Option<Given<'_>>
    ensures { option_map held result ≡ with_words nothing None (texts words.now) }
{
    with_words(Given::nothing(), None, words)
}

// What was given so far, and what further words give, where an option may await its value. Each call gives a thing more, so that it
// calls itself no more than ten times.
#[tactic(auto, using(crate::proofs::WordSteps::word_steps))]
fn with_words<'a>(
    given: Given<'a>,
    awaited: Option<Setting>,
    words: &'a [String],
) -> Option<Given<'a>>
    ensures { option_map held result ≡ with_words (held given.entry) awaited (texts words.now) }
{
    let [word, rest @ ..] = words else {
        return match awaited {
            Some(_) => None,
            None => Some(given),
        };
    };
    let word = word.as_str();
    match awaited {
        Some(setting) => with_words(given.with_value(setting, word)?, None, rest),
        None => match kind_of(word) {
            Kind::EndsOptions => given.with_files(rest),
            Kind::NamesFile => with_words(given.with_file(word)?, None, rest),
            Kind::Gives(setting, value) => with_words(
                given.with_value(setting, value)?,
                None,
                rest,
            ),
            Kind::Awaits(setting) => with_words(given, Some(setting), rest),
            Kind::Unknown => None,
        },
    }
}

impl<'a> Given<'a> {
    // Nothing yet.
    fn nothing() -> Given<'a>
        ensures { held result ≡ nothing }
    {
        Given {
            storage: None,
            ticks: None,
            in_length: None,
            out_length: None,
            file: None,
        }
    }

    // The same with an option that is set by this word.
    fn with_value(self, setting: Setting, word: &str) -> Option<Given<'a>>
        ensures { option_map held result ≡ with_value (held self.entry) setting word.now }
    {
        let number = setting.value(word)?;
        let mut given = self;
        match setting {
            Setting::Storage => set(&mut given.storage, number as u32)?,
            Setting::Ticks => set(&mut given.ticks, number)?,
            Setting::InLength => set(&mut given.in_length, number as u16)?,
            Setting::OutLength => set(&mut given.out_length, number as u16)?,
        }
        Some(given)
    }

    // The same with a file.
    fn with_file(self, file: &'a str) -> Option<Given<'a>>
        ensures { option_map held result ≡ with_part (held self.entry) (Names file.now) }
    {
        match self.file {
            None => Some(Given {
                file: Some(file),
                ..self
            }),
            Some(_) => None,
        }
    }

    // The same with each of these as a file.
    fn with_files(self, files: &'a [String]) -> Option<Given<'a>>
        ensures { option_map held result ≡ with_files (held self.entry) (texts files.now) }
    {
        match files {
            [] => Some(self),
            [file] => self.with_file(file.as_str()),
            _ => None,
        }
    }

    /// Whether an option is set.
    pub fn has_options(&self) -> bool
        ensures { result ≡ has_options (held self.now) }
    {
        self.storage.is_some()
            || self.ticks.is_some()
            || self.in_length.is_some()
            || self.out_length.is_some()
    }

    /// The limits, and for an option that is not set its default.
    pub fn limits(&self) -> Limits
        ensures { result ≡ limits_of (held self.now) }
    {
        let default = Limits::without_options();
        Limits {
            storage: self.storage.unwrap_or(default.storage),
            ticks: self.ticks.unwrap_or(default.ticks),
            in_length: self.in_length.unwrap_or(default.in_length),
            out_length: self.out_length.unwrap_or(default.out_length),
        }
    }
}

// Sets what is not set yet, and answers nothing where it is.
fn set<T: Copy>(slot: &mut Option<T>, value: T) -> Option<()>
    ensures unset { IfSome result (λ _. (slot.old ≡ None) × (slot.new ≡ Some value)) }
    ensures once { result ≡ None → is_some slot.old ≡ true }
{
    if slot.is_some() {
        return None;
    }
    *slot = Some(value);
    Some(())
}

// What a word is, by itself.
fn kind_of(word: &str) -> Kind<'_>
    ensures { said result ≡ kind_of word.now }
{
    match word.as_bytes() {
        b"--" => Kind::EndsOptions,
        [b'-', _, ..] => dashed_kind(word),
        _ => Kind::NamesFile,
    }
}

// What a word is that begins with `-`.
fn dashed_kind(word: &str) -> Kind<'_>
    ensures { said result ≡ dashed_kind word.now }
{
    match word.split_once('=') {
        Some((name, value)) => match Setting::of(name) {
            Some(setting) => Kind::Gives(setting, value),
            None => Kind::Unknown,
        },
        None => match Setting::of(word) {
            Some(setting) => Kind::Awaits(setting),
            None => Kind::Unknown,
        },
    }
}
