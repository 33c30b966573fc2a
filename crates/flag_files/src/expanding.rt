ghost use Rattle.std.specs.Prelude.{◌≡◌, ◌≤◌, ◌∷◌, [], length, sum_by, MatchResult, MatchOption, Ok, Err, true, false};
ghost use Rattle.std.specs.List.{flat_map};
ghost use Rattle.std.specs.Option.{option_copied};
ghost use Rattle.std.specs.Str.{is_utf8};
ghost use Rattle.std.specs.Str.Lines.{lines};
ghost use Rattle.outside.specs.Floor.{file_at};
ghost use Rattle.flag_files.specs.Expand.{Answers, AnswersAll, Refuses, expansion, file_name, file_text, steps, walk, stays, has_double_slash, names_file};
ghost use Rattle.flag_files.specs.declared.expanding.FlagFault.TheVariants.{NoMemory as no_memory};

use crate::texts::begins_with;
use outside::SourceFile;
use plain_values::{NoMemory, Text};
use std::alloc::{AllocFailed, Global};

const MAX_DEPTH: u32 = 16;

const MAX_WORDS: usize = 262_144;

const MAX_BYTES: usize = 16_777_216;

/// The reason that the words of a request can't be expanded.
#[derive(Drop)]
pub enum FlagFault {
    /// The file isn't among the given ones.
    NoSuchFile { path: Text },
    /// The file would be 17 levels deep. It was not looked for.
    TooDeep { path: Text },
    /// The file isn't UTF-8.
    NotText { path: Text },
    /// More than 262,144 words, or more than 16,777,216 bytes in them.
    TooManyWords,
    NoMemory,
}

/// Returns the words of a request with each flag file replaced by its lines, which are expanded in the same way.
///
/// A word `@f` is replaced by the lines of the file `f` if `f` isn't empty and the word neither begins with `@@` nor
/// contains `//`. Every other word stays. A line ends at a line feed, and one carriage return directly before it is
/// dropped. Bytes after the last line feed, if there are any, are a line. An empty line is an empty word.
///
/// # Errors
///
/// Returns the first fault that a walk from the left meets.
pub fn expand(alloc: Global, words: &[Text], files: &[SourceFile]) -> Result<Vec<Text>, FlagFault>
    ensures { AnswersAll result (expansion words.now files.now) }
{
    let mut expanded = Expanded::new(alloc);
    for word in words {
        expanded.add_word(alloc, word.as_str(), files, MAX_DEPTH)?;
    }
    Ok(expanded.words)
}

/// The words so far, with the number of their bytes.
#[derive(Drop)]
struct Expanded {
    words: Vec<Text>,
    bytes: usize,
    ghost counted: { bytes ≡ sum_by length words.items },
    ghost few_words: { length words.items ≤ 262144 },
    ghost few_bytes: { bytes ≤ 16777216 },
}

impl Expanded {
    fn new(alloc: Global) -> Expanded
        ensures { result.words.items ≡ [] }
    {
        Expanded {
            words: Vec::new(alloc),
            bytes: 0,
        }
    }

    // Adds the words that a word expands to. A file may still name files `levels` deep.
    #[cycle(expanding)]
    fn add_word(
        &mut self,
        alloc: Global,
        word: &str,
        files: &[SourceFile],
        levels: u32,
    ) -> Result<(), FlagFault>
        ensures { Answers result self.new.words.items
            (walk self.old.words.items (steps levels files.now word.now)) }
    {
        match file_name(word) {
            None => self.push(alloc, word),
            Some(path) => {
                if levels == 0 {
                    return Err(FlagFault::TooDeep {
                        path: Text::copy_of(alloc, path)?,
                    });
                }
                let text = text_of(alloc, path, files)?;
                self.add_lines(alloc, text, files, levels - 1)
            }
        }
    }

    #[cycle(expanding)]
    fn add_lines(
        &mut self,
        alloc: Global,
        text: &str,
        files: &[SourceFile],
        levels: u32,
    ) -> Result<(), FlagFault>
        ensures { Answers result self.new.words.items
            (walk self.old.words.items (flat_map (steps levels files.now) (lines text.now))) }
    {
        for line in text.lines() {
            self.add_word(alloc, line, files, levels)?;
        }
        Ok(())
    }

    fn push(&mut self, alloc: Global, word: &str) -> Result<(), FlagFault>
        ensures { Answers result self.new.words.items
            (walk self.old.words.items (stays word.now ∷ [])) }
    {
        if self.words.len() == MAX_WORDS || word.len() > MAX_BYTES - self.bytes {
            return Err(FlagFault::TooManyWords);
        }
        self.words.push(Text::copy_of(alloc, word)?)?;
        self.bytes += word.len();
        Ok(())
    }
}

// Returns the path of the file that a word names.
fn file_name(word: &str) -> Option<&str>
    ensures { option_copied result ≡ file_name word.now }
{
    if names_file(word) {
        Some(&word[1..])
    } else {
        None
    }
}

fn names_file(word: &str) -> bool
    ensures { result ≡ names_file word.now }
{
    begins_with(word, "@") && 1 < word.len() && !begins_with(word, "@@") && !has_double_slash(word)
}

fn has_double_slash(word: &str) -> bool
    ensures { result ≡ has_double_slash word.now }
{
    word.contains("//")
}

fn text_of<'a>(alloc: Global, path: &str, files: &'a [SourceFile]) -> Result<&'a str, FlagFault>
    ensures { MatchResult result
        (λ t. file_text files.now path.now ≡ Ok t.now)
        (λ f. Refuses f (file_text files.now path.now)) }
{
    let Some(bytes) = find(files, path) else {
        return Err(FlagFault::NoSuchFile {
            path: Text::copy_of(alloc, path)?,
        });
    };
    let Some(text) = as_text(bytes) else {
        return Err(FlagFault::NotText {
            path: Text::copy_of(alloc, path)?,
        });
    };
    Ok(text)
}

fn as_text(bytes: &[u8]) -> Option<&str>
    ensures { MatchOption result
        (is_utf8 bytes.now ≡ false)
        (λ t. (is_utf8 bytes.now ≡ true) × (t.now ≡ bytes.now)) }
{
    match str::from_utf8(bytes) {
        Ok(text) => Some(text),
        Err(_) => None,
    }
}

fn find<'a>(files: &'a [SourceFile], path: &str) -> Option<&'a [u8]>
    ensures { option_copied result ≡ file_at files.now path.now }
{
    for file in files {
        if file.path.as_str() == path {
            return Some(file.bytes.bytes());
        }
    }
    None
}

impl From<NoMemory> for FlagFault {
    ghost from_gives = { λ _ e. e ≡ no_memory };

    fn from(_: NoMemory) -> Self {
        FlagFault::NoMemory
    }
}

impl<T: Drop> From<AllocFailed<T>> for FlagFault {
    ghost from_gives = { λ _ e. e ≡ no_memory };

    fn from(_: AllocFailed<T>) -> Self {
        FlagFault::NoMemory
    }
}
