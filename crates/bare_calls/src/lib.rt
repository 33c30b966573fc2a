//! The bare calls on files, folders, pipes and processes that the outside's objects make. What the system does for them
//! is trusted. A clause covers how paths are joined and what a process is started with. For the rest it is proved that
//! it is safe and ends. `real_trials` shows which system calls each one makes.
#![tactic(auto)]

mod aside;
mod disk;
mod emptying;
mod folder;
mod inside;
mod kept;
mod known;
mod lock;
mod look;
mod mounts;
mod paths;
mod pipes;
mod room;
mod spawn;

pub use disk::{read_regular, write_beside};
pub use emptying::put_aside;
pub use folder::can_name_open_folders;
pub use inside::{BESIDE, make_folder_inside, read_inside, write_inside};
pub use kept::{Given, KEPT_FROM};
pub use lock::{LockFile, Locked, lock_inside};
pub use paths::path_in;
pub use pipes::{
    PAUSE, is_later, never_wait, open_standard, rest, tell, wait_for_end, wait_for_input,
    wait_for_output, wait_to_read, wait_to_write, write_now,
};
pub use room::{ROOMS, Room};
pub use spawn::{end, has_ended, kill, run_to_end, start, wait_for};
