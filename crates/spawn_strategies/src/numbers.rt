// The rest of a word after its front, as a string or as a number.
ghost use Rattle.std.specs.Prelude.{◌≡◌};
ghost use Rattle.std.specs.Option.{option_copied};
ghost use Rattle.tool_words.specs.Words.{after_front, behind};
ghost use Rattle.spawn_strategies.specs.SpawnWords.{number_in};

use tool_words::number_behind;

/// A number that a word gives.
#[derive(Clone, Copy, Debug, PartialEq, Eq)]
pub enum Number {
    /// `--sandboxed=N`, N from 1 to 16
    Sandboxed,
    /// `--local_delay=N`, N from 0 to 9999
    Delay,
}

impl Number {
    /// Returns the number, if the word gives it.
    pub fn number_in(self, word: &str) -> Option<u32>
        ensures { result ≡ number_in self word.now }
    {
        match self {
            Number::Sandboxed => number_behind("--sandboxed=", 1, 16, word),
            Number::Delay => number_behind("--local_delay=", 0, 9999, word),
        }
    }
}

/// Returns the rest of the word after the front, if it isn't empty.
pub fn behind<'a>(front: &str, word: &'a str) -> Option<&'a str>
    ensures { option_copied result ≡ behind front.now word.now }
{
    match after_front(front, word) {
        Some(rest) if !rest.is_empty() => Some(rest),
        _ => None,
    }
}

/// Returns the rest of the word after the front, which may be empty.
pub fn after_front<'a>(front: &str, word: &'a str) -> Option<&'a str>
    ensures { option_copied result ≡ after_front front.now word.now }
{
    word.strip_prefix(front)
}
