// Reads the arguments of a command.
ghost use Rattle.std.specs.Prelude.{◌≡◌};
ghost use Rattle.std.specs.Option.{option_copied};
ghost use Rattle.std.specs.Char.{is_ascii_digit};
ghost use Rattle.std.specs.List.{list_all};
ghost use Rattle.tool_words.specs.Words.{after_front};
ghost use Rattle.demo_worker.specs.Words.{exit_code, exit_code_in, exit_code_of, flag_file_in, input_in, output_in, output_of};

use plain_values::Text;

/// Returns the input that an argument names.
pub fn input_in(word: &str) -> Option<&str>
    ensures { option_copied result ≡ input_in word.now }
{
    after_front("--in=", word)
}

/// Returns the last output that the arguments name.
pub fn output_of(words: &[Text]) -> Option<&str>
    ensures { option_copied result ≡ output_of words.now }
{
    let mut output = None;
    for word in words {
        if let Some(path) = output_in(word.as_str()) {
            output = Some(path);
        }
    }
    output
}

/// Returns the last exit code that the arguments name, or 0 if they name none.
pub fn exit_code(words: &[Text]) -> u8
    ensures { result ≡ exit_code words.now }
{
    let mut code = 0;
    for word in words {
        if let Some(given) = exit_code_in(word.as_str()) {
            code = given;
        }
    }
    code
}

/// Returns the file whose lines replace an argument: the part after its `@`, if that isn't empty.
pub fn flag_file_in(word: &str) -> Option<&str>
    ensures { option_copied result ≡ flag_file_in word.now }
{
    if word.starts_with("@") && 1 < word.len() {
        Some(&word[1..])
    } else {
        None
    }
}

/// Returns the output that an argument names.
pub fn output_in(word: &str) -> Option<&str>
    ensures { option_copied result ≡ output_in word.now }
{
    after_front("--out=", word)
}

fn exit_code_in(word: &str) -> Option<u8>
    ensures { result ≡ exit_code_in word.now }
{
    exit_code_of(after_front("--exit=", word)?)
}

fn exit_code_of(digits: &str) -> Option<u8>
    ensures { result ≡ exit_code_of digits.now }
{
    if digits.len() <= 3 && is_decimal(digits.as_bytes()) {
        match digits.parse::<u8>() {
            Ok(code) => Some(code),
            Err(_) => None,
        }
    } else {
        None
    }
}

fn is_decimal(digits: &[u8]) -> bool
    ensures { result ≡ list_all is_ascii_digit digits.now }
{
    digits.iter().all(|digit| digit.is_ascii_digit())
}

fn after_front<'a>(front: &str, word: &'a str) -> Option<&'a str>
    ensures { option_copied result ≡ after_front front.now word.now }
{
    word.strip_prefix(front)
}
