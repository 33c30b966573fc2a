//! Watches for complete JSON that lacks the line feed at its end, where a reader waits for a line.
use bare_calls::{PAUSE, tell};

/// The time without further bytes, in milliseconds, after which such JSON is reported.
const PATIENCE: i32 = 2_000;

/// The text that follows the stream's name in the report.
const TOLD: &str =
    ": whole JSON stands here, and for two seconds no line feed behind it. A message in JSON is a line, so it \
isn't read before its line feed\n";

/// Follows the bytes of a stream. Reports once on standard error if its reader waits after such JSON.
#[derive(Drop)]
pub(crate) struct LineWatch {
    line: OpenLine,
    // The number of pauses since the last byte.
    pauses: i32,
    is_told: bool,
}

impl LineWatch {
    pub(crate) fn new() -> LineWatch {
        LineWatch {
            line: OpenLine::new(),
            pauses: 0,
            is_told: false,
        }
    }

    /// Follows the bytes that have come.
    pub(crate) fn follow(&mut self, bytes: &[u8]) {
        self.pauses = 0;
        if !self.is_told {
            self.line.follow(bytes);
        }
    }

    /// Counts a pause of [`PAUSE`] milliseconds in which nothing came. After enough of them it reports the stream of
    /// this name, once.
    pub(crate) fn pass(&mut self, name: &str) {
        if self.is_told || !self.line.is_whole() {
            return;
        }
        self.pauses = self.pauses.saturating_add(1);
        if self.pauses >= PATIENCE / PAUSE {
            self.is_told = true;
            tell(name, TOLD);
        }
    }
}

// The place at which the bytes after the last line feed end.
#[derive(Clone, Copy, PartialEq, Eq)]
enum Place {
    // Before the first byte that isn't blank.
    Before,
    // In an object.
    Within,
    // In a string of an object.
    InText,
    // In a string, after a backslash.
    Escaped,
    // After an object, with only blanks since.
    Behind,
    // After something that is no JSON object.
    Elsewhere,
}

// The bytes after the last line feed.
#[derive(Drop)]
struct OpenLine {
    place: Place,
    // The number of open brackets.
    depth: u64,
}

impl OpenLine {
    fn new() -> OpenLine {
        OpenLine {
            place: Place::Before,
            depth: 0,
        }
    }

    fn is_whole(&self) -> bool {
        self.place == Place::Behind
    }

    fn follow(&mut self, bytes: &[u8]) {
        let mut rest = bytes;
        if let Some(last) = bytes.iter().rposition(|byte| *byte == b'\n') {
            self.place = Place::Before;
            rest = bytes.get(last.saturating_add(1)..).unwrap_or(&[]);
        }
        for byte in rest {
            if self.place == Place::Elsewhere {
                return;
            }
            self.step(*byte);
        }
    }

    fn step(&mut self, byte: u8) {
        self.place = match (self.place, byte) {
            (Place::Before | Place::Behind, b' ' | b'\t' | b'\r') => self.place,
            (Place::Before | Place::Behind, b'{') => {
                self.depth = 1;
                Place::Within
            }
            (Place::Within, _) => self.step_within(byte),
            (Place::InText, b'"') => Place::Within,
            (Place::InText, b'\\') => Place::Escaped,
            (Place::InText | Place::Escaped, b' '..) => Place::InText,
            _ => Place::Elsewhere,
        };
    }

    fn step_within(&mut self, byte: u8) -> Place {
        match byte {
            b'"' => Place::InText,
            b'{' | b'[' => {
                self.depth = self.depth.saturating_add(1);
                Place::Within
            }
            b'}' | b']' => {
                self.depth = self.depth.saturating_sub(1);
                if self.depth == 0 {
                    Place::Behind
                } else {
                    Place::Within
                }
            }
            b'\t' | b'\r' | b' '.. => Place::Within,
            _ => Place::Elsewhere,
        }
    }
}
