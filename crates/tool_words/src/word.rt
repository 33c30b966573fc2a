// The meaning of one word of the command.
ghost use Rattle.std.specs.Prelude.{◌≡◌, ◌≤◌, ◌-◌, true};
ghost use Rattle.std.specs.List.{list_all};
ghost use Rattle.std.specs.Option.{option_copied};
ghost use Rattle.tool_words.specs.Words.{after_front, behind, is_digit, value_of, is_short_number, number_of, number_behind, names_a_list, number_in, text_in, fits};

/// The meaning of a word of the command.
#[derive(Clone, Copy, Debug, PartialEq, Eq)]
pub enum Kind {
    /// The path of a list: not empty, and not beginning with `-`.
    List,
    /// `--worker_verbose`
    Verbose,
    /// `--instances=N`, N from 1 to 48
    Instances,
    /// `--remote=N`, N from 1 to 16
    Remote,
    /// `--retries=N`, N from 0 to 9
    Retries,
    /// `--generate=N`, N from 1 to 1000
    Generate,
    /// `--executor=TEXT`
    Executor,
    /// `--extra_flag=TEXT`
    ExtraFlag,
}

impl Kind {
    /// Returns true if the word is of this kind.
    pub fn fits(self, word: &str) -> bool
        ensures { result ≡ fits self word.now }
    {
        match self {
            Kind::Verbose => word == "--worker_verbose",
            Kind::Instances | Kind::Remote | Kind::Retries | Kind::Generate => {
                self.number_in(word).is_some()
            }
            Kind::List | Kind::Executor | Kind::ExtraFlag => self.text_in(word).is_some(),
        }
    }

    /// Returns the number that a word of this kind gives.
    pub fn number_in(self, word: &str) -> Option<u32>
        ensures { result ≡ number_in self word.now }
    {
        match self {
            Kind::Instances => number_behind("--instances=", 1, 48, word),
            Kind::Remote => number_behind("--remote=", 1, 16, word),
            Kind::Retries => number_behind("--retries=", 0, 9, word),
            Kind::Generate => number_behind("--generate=", 1, 1000, word),
            Kind::List | Kind::Verbose | Kind::Executor | Kind::ExtraFlag => None,
        }
    }

    /// Returns the string that a word of this kind gives.
    pub fn text_in(self, word: &str) -> Option<&str>
        ensures { option_copied result ≡ text_in self word.now }
    {
        match self {
            Kind::List if names_a_list(word.as_bytes()) => Some(word),
            Kind::Executor => behind("--executor=", word),
            Kind::ExtraFlag => behind("--extra_flag=", word),
            _ => None,
        }
    }
}

fn names_a_list(word: &[u8]) -> bool
    ensures { result ≡ names_a_list word.now }
{
    match word {
        [] => false,
        [first, ..] => *first != b'-',
    }
}

// Returns the rest of the word after the front, if it isn't empty.
fn behind<'a>(front: &str, word: &'a str) -> Option<&'a str>
    ensures { option_copied result ≡ behind front.now word.now }
{
    match after_front(front, word) {
        Some(rest) if !rest.is_empty() => Some(rest),
        _ => None,
    }
}

// Returns the rest of the word after the front, which may be empty.
fn after_front<'a>(front: &str, word: &'a str) -> Option<&'a str>
    ensures { option_copied result ≡ after_front front.now word.now }
{
    word.strip_prefix(front)
}

/// Returns the number that an option's word has after this front, for example `--instances=`: one to four
/// decimal digits, within these limits.
pub fn number_behind(front: &str, least: u32, most: u32, word: &str) -> Option<u32>
    ensures { result ≡ number_behind front.now least most word.now }
{
    number_of(least, most, behind(front, word)?.as_bytes())
}

fn number_of(least: u32, most: u32, digits: &[u8]) -> Option<u32>
    ensures { result ≡ number_of least most digits.now }
{
    if !is_short_number(digits) {
        return None;
    }
    let value = value_of(digits);
    (least <= value && value <= most).then_some(value)
}

fn is_short_number(digits: &[u8]) -> bool
    ensures { result ≡ is_short_number digits.now }
{
    1 <= digits.len() && digits.len() <= 4 && is_all_digits(digits)
}

fn is_all_digits(digits: &[u8]) -> bool
    ensures { result ≡ list_all is_digit digits.now }
{
    digits.iter().all(|d| is_digit(*d))
}

fn is_digit(c: u8) -> bool
    ensures { result ≡ is_digit c }
{
    b'0' <= c && c <= b'9'
}

// Returns the number of at most four digits.
fn value_of(digits: &[u8]) -> u32
    requires { is_short_number digits.now ≡ true }
    ensures { result ≡ value_of digits.now }
{
    match digits {
        [a] => digit(*a),
        [a, b] => 10 * digit(*a) + digit(*b),
        [a, b, c] => 10 * (10 * digit(*a) + digit(*b)) + digit(*c),
        [a, b, c, d] => 10 * (10 * (10 * digit(*a) + digit(*b)) + digit(*c)) + digit(*d),
        _ => 0,
    }
}

fn digit(c: u8) -> u32
    requires { is_digit c ≡ true }
    ensures is { result ≡ c - 48 }
    ensures small { result ≤ 9 }
{
    (c - b'0') as u32
}
