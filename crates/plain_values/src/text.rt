ghost use Rattle.std.specs.Prelude.{◌≡◌, List, ℕ, string_bytes, IfOk};

use crate::{Items, NoMemory};
use std::alloc::Global;
use std::marker::Model;

/// UTF-8 text that doesn't change. A contract sees the list of its bytes.
#[derive(Drop)]
pub struct Text {
    text: String,
}

impl Model for Text {
    ghost Value = { List ℕ };

    ghost view = { λ t. string_bytes t.text };
}

impl Text {
    /// Returns the text of a `String`, whose memory it takes over.
    pub fn of(text: String) -> Text
        ensures { result ≡ string_bytes text }
    {
        Text { text }
    }

    /// Returns the text as a `str`.
    pub fn as_str(&self) -> &str
        ensures { result.now ≡ self.now }
    {
        self.text.as_str()
    }

    /// Returns a copy of the text.
    ///
    /// # Errors
    ///
    /// Returns `NoMemory` if memory runs out.
    pub fn copy_of(alloc: Global, text: &str) -> Result<Text, NoMemory>
        ensures { IfOk result (λ t. t ≡ text.now) }
    {
        Ok(Text {
            text: String::from_str(alloc, text)?,
        })
    }
}

/// Returns a copy of the list of texts.
///
/// # Errors
///
/// Returns `NoMemory` if memory runs out.
pub fn texts_again(alloc: Global, texts: &[Text]) -> Result<Items<Text>, NoMemory>
    ensures { IfOk result (λ l. l ≡ texts.now) }
{
    let mut copies = Vec::new(alloc);
    for text in texts {
        copies.push(Text::copy_of(alloc, text.as_str())?)?;
    }
    Ok(Items::of(copies))
}
