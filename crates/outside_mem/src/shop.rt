ghost use Rattle.std.specs.Prelude.{◌≡◌, [], Some, IfOk, option_map};

use mem_children::{Calls, FailAt, Files, Object, note, note_end};
use outside::{Io, JobEnd, Read, Shop, ShopCall, SourceFile, Variable, variables_again};
use plain_values::{Blob, Items, NoMemory, Text, texts_again};
use std::alloc::Global;
use std::collections::VecDeque;

/// A shop in memory. It finds the files that it was made with and the files that were put; the later one
/// counts. Its runs end as its maker specified. It records its calls, unless memory ran out for an entry.
#[derive(Drop)]
pub struct MemShop {
    alloc: Global,
    files: Files,
    ends: VecDeque<JobEnd>,
    fails: Vec<FailAt>,
    puts: Calls,
    folders: Calls,
    gets: Calls,
    /// `None` once memory ran out for a failed call's entry.
    log: Option<Vec<ShopCall>>,
    faults: u64,
}

impl MemShop {
    /// Returns a shop with these files. Its runs end as `ends` lists, one after another. After the last,
    /// runs end with `Failed`.
    ///
    /// # Errors
    ///
    /// Returns `NoMemory` if memory runs out.
    pub fn new(
        alloc: Global,
        files: Vec<SourceFile>,
        ends: Vec<JobEnd>,
        fails: Vec<FailAt>,
    ) -> Result<MemShop, NoMemory>
        ensures log { IfOk result (λ s. option_map (λ v. v.items) s.log ≡ Some []) }
        ensures faults { IfOk result (λ s. s.faults ≡ 0) }
    {
        let mut stock = Files::new(alloc);
        for file in &files {
            stock.put(file.path.as_str(), file.bytes.again()?)?;
        }
        Ok(MemShop {
            alloc,
            files: stock,
            ends: VecDeque::from_vec(ends),
            fails,
            puts: Calls::new(),
            folders: Calls::new(),
            gets: Calls::new(),
            log: Some(Vec::new(alloc)),
            faults: 0,
        })
    }

    /// Returns the calls so far, or `None` if memory ran out for an entry.
    pub fn log(&self) -> Option<&[ShopCall]> {
        match &self.log {
            Some(log) => Some(log),
            None => None,
        }
    }
}

fn put_call(alloc: Global, path: &str, bytes: &[u8], end: Io) -> Result<ShopCall, NoMemory>
    ensures { IfOk result (λ c. c ≡ ShopCall.Put path.now bytes.now end) }
{
    Ok(ShopCall::Put {
        path: Text::copy_of(alloc, path)?,
        bytes: Blob::of(alloc, bytes.to_vec(alloc)?)?,
        end,
    })
}

fn folder_call(alloc: Global, path: &str, end: Io) -> Result<ShopCall, NoMemory>
    ensures { IfOk result (λ c. c ≡ ShopCall.Folder path.now end) }
{
    Ok(ShopCall::Folder {
        path: Text::copy_of(alloc, path)?,
        end,
    })
}

impl Shop for MemShop {
    ghost told = { λ s. record { faults = s.faults; log = option_map (λ v. v.items) s.log } };

    fn faults(&self) -> u64 {
        self.faults
    }

    fn put(&mut self, path: &str, bytes: &[u8]) -> Io {
        let fails = self.puts.fails_now(&self.fails, Object::ShopPut)
            || put_file(self.alloc, &mut self.files, path, bytes).is_err();
        let end = if fails { Io::Failed } else { Io::Done };
        let noted = note_end(&mut self.log, put_call(self.alloc, path, bytes, end));
        if fails || !noted {
            self.faults = self.faults.saturating_add(1);
            return Io::Failed;
        }
        Io::Done
    }

    fn folder(&mut self, path: &str) -> Io {
        let fails = self.folders.fails_now(&self.fails, Object::ShopFolder);
        let end = if fails { Io::Failed } else { Io::Done };
        let noted = note_end(&mut self.log, folder_call(self.alloc, path, end));
        if fails || !noted {
            self.faults = self.faults.saturating_add(1);
            return Io::Failed;
        }
        Io::Done
    }

    fn get(&mut self, path: &str) -> Result<Read, NoMemory> {
        let fails = self.gets.fails_now(&self.fails, Object::ShopGet);
        let answer = if fails {
            Read::Failed
        } else {
            self.files.get(path)?
        };
        let noted = ShopCall::Get {
            path: Text::copy_of(self.alloc, path)?,
            answer: answer.again()?,
        };
        note(&mut self.log, noted)?;
        if matches!(answer, Read::Failed) {
            self.faults = self.faults.saturating_add(1);
        }
        Ok(answer)
    }

    fn run(&mut self, folder: &str, words: &[Text], env: &[Variable]) -> Result<JobEnd, NoMemory> {
        let folder = Text::copy_of(self.alloc, folder)?;
        let words = texts_again(self.alloc, words)?;
        let env = variables_again(self.alloc, env)?;
        let end = self.ends.pop_front().unwrap_or(JobEnd::Failed);
        let noted = ShopCall::Run {
            folder,
            words,
            env,
            end: end.again()?,
        };
        note(&mut self.log, noted)?;
        if matches!(end, JobEnd::Failed) {
            self.faults = self.faults.saturating_add(1);
        }
        Ok(end)
    }
}

fn put_file(alloc: Global, files: &mut Files, path: &str, bytes: &[u8]) -> Result<(), NoMemory> {
    files.put(path, Blob::of(alloc, bytes.to_vec(alloc)?)?)
}
