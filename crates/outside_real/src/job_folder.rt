//! The folders of an executor's jobs.
use bare_calls::{LockFile, Locked, can_name_open_folders, lock_inside, put_aside};
use plain_values::NoMemory;
use std::alloc::Global;
use std::io;
use std::rt::Files;
use std::sync::{Arc, Mutex, Wait};

/// The start folder, which contains the jobs' folders.
pub(crate) const HERE: &str = ".";

const LOCK: &str = ".executor_lock";

/// The names of the folders that an executor's lanes have, each as often as there are lanes that have it.
///
/// A job may have the number of an earlier one that was answered, and then both have the same folder. If the lane of the
/// earlier one removes the folder only when it begins another job, it must not remove the later one's.
#[derive(Drop)]
pub struct JobFolders {
    names: Mutex<Vec<String>>,
}

impl JobFolders {
    /// Returns the value of an executor that has no job yet, for all its lanes.
    ///
    /// # Errors
    ///
    /// Returns `NoMemory` if memory runs out.
    pub fn new(alloc: Global) -> Result<Arc<JobFolders>, NoMemory> {
        let folders = JobFolders {
            names: Mutex::new(Vec::new(alloc)),
        };
        Ok(Arc::new(alloc, folders)?)
    }

    // Removes any old folder of this name, and records that a lane has a folder of it.
    fn begin<R: Files + AllocGlobal + Wait>(
        &self,
        rt: &R,
        alloc: Global,
        name: &str,
    ) -> io::Result<()> {
        let mut names = self.names.lock(rt);
        put_aside(rt, alloc, HERE, name)?;
        names.push(String::from_str(alloc, name)?)?;
        Ok(())
    }

    // Records that a lane has this folder no more. Removes it as far as possible, unless another lane has it by now.
    fn end<R: Files + AllocGlobal + Wait>(&self, rt: &R, alloc: Global, name: &str) {
        let mut names = self.names.lock(rt);
        if let Some(place) = names.iter().position(|other| other.as_str() == name) {
            names.swap_remove(place);
        }
        if !names.iter().any(|other| other.as_str() == name) {
            let _ = put_aside(rt, alloc, HERE, name);
        }
    }
}

/// The folder of a lane's current job, or of its last one. Each job has a folder that is made for it and removed
/// afterwards. So a job finds nothing of another job, and nothing that another job's processes still write.
#[derive(Drop)]
pub(crate) struct JobFolder {
    folders: Arc<JobFolders>,
    // `None` before the first job.
    name: Option<String>,
    // True if the folder's job is under way and hasn't been run.
    is_filled: bool,
}

impl JobFolder {
    pub(crate) fn new(folders: Arc<JobFolders>) -> JobFolder {
        JobFolder {
            folders,
            name: None,
            is_filled: false,
        }
    }

    /// Prepares for a call that fills a job's folder or runs the job. The first call of a job removes any old folder of
    /// that name.
    pub(crate) fn enter<R: Files + AllocGlobal + Wait>(
        &mut self,
        rt: &R,
        alloc: Global,
        path: &str,
    ) -> io::Result<()> {
        let (job, _) = path.split_once('/').unwrap_or((path, ""));
        if self.is_filled && self.is_of(job) {
            return Ok(());
        }
        self.leave(rt, alloc);
        let name = String::from_str(alloc, job)?;
        self.folders.begin(rt, alloc, job)?;
        self.name = Some(name);
        self.is_filled = true;
        Ok(())
    }

    /// Records that the job is run, or was given up since a call failed. The next call that fills a folder begins
    /// another job.
    pub(crate) fn close(&mut self) {
        self.is_filled = false;
    }

    /// Removes the folder of the last job, as far as possible.
    pub(crate) fn leave<R: Files + AllocGlobal + Wait>(&mut self, rt: &R, alloc: Global) {
        if let Some(last) = self.name.take() {
            self.folders.end(rt, alloc, last.as_str());
        }
    }

    fn is_of(&self, job: &str) -> bool {
        matches!(&self.name, Some(last) if last.as_str() == job)
    }
}

/// Locks the start folder, in which jobs are run, for this executor. The lock is held as long as the returned file is
/// kept.
///
/// # Errors
///
/// Returns an error if another executor is at work in the folder, or if the lock can't be taken.
pub fn lock_jobs<R: Files<File: LockFile>>(rt: &R, alloc: Global) -> io::Result<R::File> {
    if !can_name_open_folders(rt) {
        return Err(io::Error::other(
            "`/proc` isn't mounted, and no job's folder can be used without it",
        ));
    }
    match lock_inside(rt, alloc, HERE, LOCK) {
        Locked::Held(file) => Ok(file),
        Locked::Taken => Err(io::Error::other("another executor is at work in this folder")),
        Locked::NoFile => Err(io::Error::other("`.executor_lock` is no regular file")),
        Locked::Refused(error) => Err(error),
    }
}
