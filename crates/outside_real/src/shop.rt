//! Files and commands below the start folder, for workers and for executors.
ghost use Rattle.std.specs.Prelude.{◌≡◌, Some, []};
ghost use Rattle.outside.specs.Causes.{Counts};

use crate::job_folder::{HERE, JobFolder, JobFolders};
use crate::notes::{Got, Made, Put, Ran};
use bare_calls::{BESIDE, make_folder_inside, read_inside, read_regular, run_to_end, write_inside};
use outside::{Io, JobEnd, Read, Shop, ShopCall, Variable};
use plain_values::{Blob, NoMemory, Text};
use std::alloc::Global;
use std::io;
use std::marker::Model;
use std::process::{ExitStatus, Processes, SystemProcess};
use std::rt::Files;
use std::sync::{Arc, Wait};
use told_logs::Told;

/// Files and commands below the start folder.
#[derive(Drop)]
pub struct RealShop<R> {
    rt: R,
    alloc: Global,
    faults: u64,
    purpose: Purpose,
    log: Told<ShopCall>,
}

impl<R> Model for RealShop<R> {
    ghost use Rattle.outside_real.specs.Telling.{ShopSeen};

    ghost Value = { ShopSeen };

    ghost view = { λ s. record { faults = s.faults; log = s.log.items } };
}

// The client that a shop serves.
#[derive(Drop)]
enum Purpose {
    // Anyone: nothing is read behind a link.
    Anyone,
    // A worker's lane, by its number. Its client chose its inputs, so links to them are followed.
    Worker(u32),
    // An executor, whose paths begin with a job's folder.
    Jobs(JobFolder),
}

impl<R> RealShop<R> {
    /// Returns the shop in the start folder. Nothing behind a link is read.
    pub fn new(rt: R, alloc: Global) -> RealShop<R>
        ensures faults { result.faults ≡ 0 }
        ensures log { result.log ≡ [] }
    {
        RealShop::of(rt, alloc, Purpose::Anyone)
    }

    /// Returns the shop of a worker's lane in the start folder. Its client chooses the inputs, so links to them are
    /// followed: in Bazel's folders each input is a link. Shops that may write into one folder at once each have their
    /// own number.
    pub fn for_worker(rt: R, alloc: Global, number: u32) -> RealShop<R>
        ensures faults { result.faults ≡ 0 }
        ensures log { result.log ≡ [] }
    {
        RealShop::of(rt, alloc, Purpose::Worker(number))
    }

    /// Returns the shop of an executor's lane in the start folder. Each job gets its own folder, which is made for it and
    /// removed afterwards; all lanes share `folders`. Nothing behind a link is read.
    pub fn for_jobs(rt: R, alloc: Global, folders: Arc<JobFolders>) -> RealShop<R>
        ensures faults { result.faults ≡ 0 }
        ensures log { result.log ≡ [] }
    {
        RealShop::of(rt, alloc, Purpose::Jobs(JobFolder::new(folders)))
    }

    fn of(rt: R, alloc: Global, purpose: Purpose) -> RealShop<R>
        ensures faults { result.faults ≡ 0 }
        ensures log { result.log ≡ [] }
    {
        RealShop {
            rt,
            alloc,
            faults: 0,
            purpose,
            log: Told::new(),
        }
    }

    fn fails(&mut self) -> Io
        ensures answer { result ≡ Io.Failed }
        ensures log { self.new.log ≡ self.old.log }
        ensures count { Counts self.old.faults self.new.faults (result ≡ Io.Failed) }
    {
        self.faults = self.faults.saturating_add(1);
        if let Purpose::Jobs(job) = &mut self.purpose {
            job.close();
        }
        Io::Failed
    }
}

impl<R: Files + AllocGlobal + Wait> RealShop<R> {
    /// Removes the folder of the last job, as far as possible. The call isn't recorded.
    pub fn leave(&mut self)
        ensures { self.new ≡ self.old }
    {
        if let Purpose::Jobs(job) = &mut self.purpose {
            job.leave(&self.rt, self.alloc);
        }
    }
}

// Prepares for a call that begins a job or continues one.
fn enter<R: Files + AllocGlobal + Wait>(
    rt: &R,
    alloc: Global,
    purpose: &mut Purpose,
    path: &str,
) -> io::Result<()> {
    match purpose {
        Purpose::Jobs(job) => job.enter(rt, alloc, path),
        Purpose::Anyone | Purpose::Worker(_) => Ok(()),
    }
}

fn put<R: Files + AllocGlobal + Wait>(
    rt: &R,
    alloc: Global,
    purpose: &mut Purpose,
    path: &str,
    bytes: &[u8],
) -> io::Result<()> {
    enter(rt, alloc, purpose, path)?;
    match purpose {
        Purpose::Worker(number) => {
            let beside = format!(in alloc; "{BESIDE}.{}", *number)?;
            write_inside(rt, alloc, HERE, path, beside.as_str(), bytes)
        }
        Purpose::Anyone | Purpose::Jobs(_) => { write_inside(rt, alloc, HERE, path, BESIDE, bytes) }
    }
}

fn folder<R: Files + AllocGlobal + Wait>(
    rt: &R,
    alloc: Global,
    purpose: &mut Purpose,
    path: &str,
) -> io::Result<()> {
    enter(rt, alloc, purpose, path)?;
    make_folder_inside(rt, alloc, HERE, path)
}

fn get<R: Files + AllocGlobal>(
    rt: &R,
    alloc: Global,
    purpose: &Purpose,
    path: &str,
) -> io::Result<Option<Vec<u8>>> {
    match purpose {
        Purpose::Worker(_) => read_regular(rt, path),
        Purpose::Anyone | Purpose::Jobs(_) => read_inside(rt, alloc, HERE, path),
    }
}

// Makes the folder, and runs the words in it to their end.
fn run<R: Files + AllocGlobal + Processes<Started = SystemProcess> + Wait>(
    rt: &R,
    alloc: Global,
    purpose: &mut Purpose,
    folder: &str,
    words: &[Text],
    env: &[Variable],
) -> io::Result<(ExitStatus, Vec<u8>)> {
    enter(rt, alloc, purpose, folder)?;
    make_folder_inside(rt, alloc, HERE, folder)?;
    if let Purpose::Jobs(job) = purpose {
        job.close();
    }
    run_to_end(rt, alloc, folder, words, env)
}

impl<R: Files + AllocGlobal + Processes<Started = SystemProcess> + Wait + Drop> Shop
    for RealShop<R> {
    ghost told = { λ s. record { faults = s.faults; log = Some s.log } };

    fn faults(&self) -> u64 {
        self.faults
    }

    fn put(&mut self, path: &str, bytes: &[u8]) -> Io {
        let end = match put(&self.rt, self.alloc, &mut self.purpose, path, bytes) {
            Ok(()) => Io::Done,
            Err(_) => self.fails(),
        };
        self.log = self.log.with(&Put { path, bytes, end });
        end
    }

    fn folder(&mut self, path: &str) -> Io {
        let end = match folder(&self.rt, self.alloc, &mut self.purpose, path) {
            Ok(()) => Io::Done,
            Err(_) => self.fails(),
        };
        self.log = self.log.with(&Made { path, end });
        end
    }

    fn get(&mut self, path: &str) -> Result<Read, NoMemory> {
        let answer = match get(&self.rt, self.alloc, &self.purpose, path) {
            Ok(Some(bytes)) => Read::Found(Blob::of(self.alloc, bytes)?),
            Ok(None) => Read::Absent,
            Err(_) => {
                self.faults = self.faults.saturating_add(1);
                Read::Failed
            }
        };
        let got = Got {
            path,
            answer: &answer,
        };
        self.log = self.log.with(&got);
        Ok(answer)
    }

    fn run(&mut self, folder: &str, words: &[Text], env: &[Variable]) -> Result<JobEnd, NoMemory> {
        let end = match run(&self.rt, self.alloc, &mut self.purpose, folder, words, env) {
            Ok((status, written)) => match status.code() {
                Some(code) => JobEnd::Exit(code, Blob::of(self.alloc, written)?),
                None => JobEnd::Signal,
            },
            Err(_) => {
                self.faults = self.faults.saturating_add(1);
                JobEnd::Failed
            }
        };
        let ran = Ran {
            folder,
            words,
            env,
            end: &end,
        };
        self.log = self.log.with(&ran);
        Ok(end)
    }
}
