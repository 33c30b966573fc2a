//! The working directory of the two small programs: folders of files, in which commands run to their end.
ghost use Rattle.std.specs.Prelude.{◌≡◌, ◌∷◌, [], IfOk, OnErr, Ok};
ghost use Rattle.outside.specs.Causes.{Counts};
ghost use Rattle.outside.specs.Lists.{Adds};
ghost use Rattle.outside.specs.Told.{ShopTold};
ghost use Rattle.outside.specs.declared.answers.Io.TheVariants as io;
ghost use Rattle.outside.specs.declared.answers.Read.TheVariants as read;
ghost use Rattle.outside.specs.declared.shop.JobEnd.TheVariants as end;
ghost use Rattle.outside.specs.declared.shop.ShopCall.TheVariants as call;

use crate::{Io, Read, Variable};
use plain_values::{Blob, Items, NoMemory, Text};

/// The end of a command that was run.
#[derive(Drop)]
pub enum JobEnd {
    /// With this exit code, and these bytes on its standard output.
    Exit(i32, Blob),
    /// By a signal.
    Signal,
    /// It could not be started.
    Failed,
}

impl JobEnd {
    /// Returns an equal value that shares the bytes.
    ///
    /// # Errors
    ///
    /// Returns `NoMemory` if the bytes can have no further owner.
    pub fn again(&self) -> Result<JobEnd, NoMemory>
        ensures { IfOk result (λ e. e ≡ self.now) }
    {
        Ok(match self {
            JobEnd::Exit(code, output) => JobEnd::Exit(*code, output.again()?),
            JobEnd::Signal => JobEnd::Signal,
            JobEnd::Failed => JobEnd::Failed,
        })
    }
}

/// One call on a shop, with its answer.
#[derive(Drop)]
pub enum ShopCall {
    Put {
        path: Text,
        bytes: Blob,
        end: Io,
    },
    Folder {
        path: Text,
        end: Io,
    },
    Get {
        path: Text,
        answer: Read,
    },
    Run {
        folder: Text,
        words: Items<Text>,
        env: Items<Variable>,
        end: JobEnd,
    },
}

/// Files in folders, and commands that run there. Paths are relative to the shop's own folder. The files that a command
/// leaves in its folder belong to the outside.
pub trait Shop: Drop {
    /// The number of its faults, and the calls so far with their answers, if it records them.
    ghost told: { Self → ShopTold };

    /// Returns the count of faults, which never falls.
    fn faults(&self) -> u64
        ensures { result ≡ (told self.now).faults };

    /// Puts a whole file there, replacing any existing one, and makes the folders above it.
    fn put(&mut self, path: &str, bytes: &[u8]) -> Io
        ensures count { Counts (told self.old).faults (told self.new).faults (result ≡ io.Failed) }
        ensures log { Adds (call.Put path.now bytes.now result ∷ []) (told self.old).log
            (told self.new).log };

    /// Makes a folder, with the folders above it. If it is there, the answer is `Done`.
    fn folder(&mut self, path: &str) -> Io
        ensures count { Counts (told self.old).faults (told self.new).faults (result ≡ io.Failed) }
        ensures log { Adds (call.Folder path.now result ∷ []) (told self.old).log
            (told self.new).log };

    /// Looks at a file.
    ///
    /// # Errors
    ///
    /// Returns `NoMemory` if memory runs out. The call then isn't in the log.
    fn get(&mut self, path: &str) -> Result<Read, NoMemory>
        ensures count { Counts (told self.old).faults (told self.new).faults (result
            ≡ Ok read.Failed) }
        ensures log { IfOk result (λ answer. Adds (call.Get path.now answer ∷ [])
            (told self.old).log (told self.new).log) }
        ensures err { OnErr result ((told self.new).log ≡ (told self.old).log) };

    /// Makes the folder, runs the words there with only these variables as environment and an empty
    /// standard input, and waits for the end.
    ///
    /// # Errors
    ///
    /// Returns `NoMemory` if memory runs out. The call then isn't in the log.
    fn run(&mut self, folder: &str, words: &[Text], env: &[Variable]) -> Result<JobEnd, NoMemory>
        ensures count { Counts (told self.old).faults (told self.new).faults (result
            ≡ Ok end.Failed) }
        ensures log { IfOk result (λ ended. Adds (call.Run folder.now words.now env.now ended ∷ [])
            (told self.old).log (told self.new).log) }
        ensures err { OnErr result ((told self.new).log ≡ (told self.old).log) };
}
