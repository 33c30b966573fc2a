// The case of the next run: its sources, the child's outputs and answer, and the calls that fail.
use outside::SourceFile;
use outside_mem::{Beat, FailAt, Object, Script};
use plain_values::{Blob, NoMemory, Text};
use std::alloc::Global;

/// The case that the lines so far define.
#[derive(Drop)]
pub struct Case {
    files: Vec<SourceFile>,
    outputs: Vec<Text>,
    answer: Vec<u8>,
    fails: Vec<FailAt>,
    children: Vec<Option<Vec<Beat>>>,
}

impl Case {
    pub fn new(alloc: Global) -> Case {
        Case {
            files: Vec::new(alloc),
            outputs: Vec::new(alloc),
            answer: Vec::new(alloc),
            fails: Vec::new(alloc),
            children: Vec::new(alloc),
        }
    }

    /// Records a line of a case. Returns the text to print, which is the line itself if it isn't part of a
    /// case.
    pub fn note(&mut self, alloc: Global, line: &str) -> Result<String, NoMemory> {
        let (kind, rest) = line.split_once(' ').unwrap_or((line, ""));
        match kind {
            "new" => *self = Case::new(alloc),
            "file" => self.add_text(alloc, rest)?,
            "big" => self.add_zeros(alloc, rest)?,
            "leave" => self.outputs.push(Text::copy_of(alloc, rest)?)?,
            "give" => self.answer = bytes_of(alloc, rest),
            "fail" => self.add_fault(rest)?,
            "children" => self.children = children(alloc, rest)?,
            _ => return Ok(format!(in alloc; "{line}\n")?),
        }
        Ok(String::new(alloc))
    }

    fn add_text(&mut self, alloc: Global, line: &str) -> Result<(), NoMemory> {
        let (path, text) = line.split_once(' ').unwrap_or((line, ""));
        let text = text.replace(alloc, "\u{240a}", "\n")?;
        self.add_file(alloc, path, text.into_bytes())
    }

    fn add_zeros(&mut self, alloc: Global, line: &str) -> Result<(), NoMemory> {
        let (path, count) = line.split_once(' ').unwrap_or((line, ""));
        let count = count.parse::<usize>().unwrap_or(0);
        self.add_file(alloc, path, vec![in alloc; 0; count]?)
    }

    fn add_file(&mut self, alloc: Global, path: &str, bytes: Vec<u8>) -> Result<(), NoMemory> {
        self.files.retain(|file| file.path.as_str() != path);
        self.files.push(SourceFile {
            path: Text::copy_of(alloc, path)?,
            bytes: Blob::of(alloc, bytes)?,
        })?;
        Ok(())
    }

    fn add_fault(&mut self, line: &str) -> Result<(), NoMemory> {
        let (object, nth) = line.split_once(' ').unwrap_or((line, "1"));
        let (kind, which) = object.split_once(':').unwrap_or((object, ""));
        self.fails.push(FailAt {
            on: object_of(kind, number(which)),
            nth: nth.parse::<u64>().unwrap_or(1),
        })?;
        Ok(())
    }

    // Returns the beats of a child that reads one request, leaves the outputs, gives the answer, and ends.
    fn one_child(&self, alloc: Global) -> Result<Vec<Beat>, NoMemory> {
        let mut beats = Vec::new(alloc);
        beats.push(Beat::Hear(1))?;
        for output in &self.outputs {
            let path = Text::copy_of(alloc, output.as_str())?;
            beats.push(Beat::Leave(path, Blob::of(alloc, b"x".to_vec(alloc)?)?))?;
        }
        beats.push(Beat::Give(Vec::from_slice(alloc, self.answer.as_slice())?))?;
        beats.push(Beat::Die)?;
        Ok(beats)
    }

    /// Returns the script of one run, and then clears the failing calls and the children of the case.
    pub fn script(&mut self, alloc: Global) -> Result<Script, NoMemory> {
        let mut files = Vec::new(alloc);
        for file in &self.files {
            files.push(SourceFile {
                path: Text::copy_of(alloc, file.path.as_str())?,
                bytes: file.bytes.again()?,
            })?;
        }
        let mut lines = std::mem::replace(&mut self.children, Vec::new(alloc));
        if lines.is_empty() {
            lines.push(Some(self.one_child(alloc)?))?;
        }
        let fails = std::mem::replace(&mut self.fails, Vec::new(alloc));
        Ok(Script {
            files,
            lines,
            fails,
        })
    }
}

// Returns the children of the lines, from line 0 on. A single `/` separates two of them. A child without
// beats is obliging.
fn children(alloc: Global, words: &str) -> Result<Vec<Option<Vec<Beat>>>, NoMemory> {
    let mut lines = Vec::new(alloc);
    for child in words.split(" / ") {
        let mut beats = Vec::new(alloc);
        for word in child.split(' ') {
            let (kind, rest) = word.split_once('=').unwrap_or((word, ""));
            if let Some(beat) = beat_of(alloc, kind, rest)? {
                beats.push(beat)?;
            }
        }
        lines.push(if beats.is_empty() { None } else { Some(beats) })?;
    }
    Ok(lines)
}

fn beat_of(alloc: Global, kind: &str, rest: &str) -> Result<Option<Beat>, NoMemory> {
    Ok(Some(match kind {
        "hear" => Beat::Hear(number(rest)),
        "leave" => {
            let (path, text) = rest.split_once(',').unwrap_or((rest, "x"));
            let content = Blob::of(alloc, Vec::from_slice(alloc, text.as_bytes())?)?;
            Beat::Leave(Text::copy_of(alloc, path)?, content)
        }
        "give" => Beat::Give(bytes_of(alloc, rest)),
        "choose" => {
            let (first, second) = rest.split_once(',').unwrap_or((rest, ""));
            Beat::Choose(bytes_of(alloc, first), bytes_of(alloc, second))
        }
        "raise" => Beat::Raise(number(rest)),
        "await" => Beat::Await(number(rest)),
        "die" => Beat::Die,
        _ => return Ok(None),
    }))
}

fn number(digits: &str) -> u32 {
    digits.parse::<u32>().unwrap_or(0)
}

fn bytes_of(alloc: Global, digits: &str) -> Vec<u8> {
    hex::decode(alloc, digits).unwrap_or(Vec::new(alloc))
}

// Returns the object with this number, which is a berth, a line or an action, by the kind of call.
fn object_of(kind: &str, number: u32) -> Object {
    match kind {
        "floor" => Object::FloorRead,
        "launch" => Object::Launch(number),
        "clear" => Object::Clear(number),
        "folder" => Object::Folder(number),
        "put" => Object::Put(number),
        "get" => Object::Get(number),
        "feed" => Object::Feed(number),
        "tap" => Object::Tap(number),
        "place" => Object::Place(number),
        _ => Object::Sink,
    }
}
