use crate::{Progress, Watcher};
use run_plan::Branch;
use std::test::Fail;
use std::time::Duration;

fn at(seconds: u64) -> Duration {
    Duration::from_secs(seconds)
}

#[test]
fn a_line_says_how_far_the_run_is(rt: HostRuntime) -> Result<(), Fail> {
    let alloc = rt.alloc();
    let progress = Progress::new(alloc)?;
    let mut watcher = Watcher::new(alloc)?;
    progress.sized(1_000);
    let look = watcher.look(&progress, at(0));
    assert!(rt; format!(in alloc; "{look}")?.as_str() == "[0/1000] 0 running, 0 failed");

    progress.began(37, Branch::Remote);
    watcher.look(&progress, at(1));
    progress.began(4, Branch::Local);
    progress.began(5, Branch::Local);
    progress.settled(5, true);
    progress.settled(6, false);
    let look = watcher.look(&progress, at(13));
    let line = "[2/1000] 2 running, 1 failed, oldest: actions[37] for 12 s";
    assert!(rt; format!(in alloc; "{look}")?.as_str() == line);

    progress.ended(37, Branch::Remote);
    let look = watcher.look(&progress, at(14));
    let line = "[2/1000] 1 running, 1 failed, oldest: actions[4] for 1 s";
    assert!(rt; format!(in alloc; "{look}")?.as_str() == line);
    Ok(())
}

#[test]
fn each_failure_is_told_once_and_in_order(rt: HostRuntime) -> Result<(), Fail> {
    let alloc = rt.alloc();
    let progress = Progress::new(alloc)?;
    let mut watcher = Watcher::new(alloc)?;
    assert!(rt; watcher.new_failures(alloc, &progress)?.is_empty());
    progress.settled(6, false);
    progress.settled(7, true);
    progress.settled(2, false);
    assert!(rt; watcher.new_failures(alloc, &progress)?.as_slice() == [6, 2].as_slice());
    assert!(rt; watcher.new_failures(alloc, &progress)?.is_empty());
    progress.settled(0, false);
    assert!(rt; watcher.new_failures(alloc, &progress)?.as_slice() == [0].as_slice());
    Ok(())
}

#[test]
fn an_action_runs_while_one_of_its_branches_does(rt: HostRuntime) -> Result<(), Fail> {
    let progress = Progress::new(rt.alloc())?;
    progress.began(1, Branch::Local);
    progress.began(1, Branch::Remote);
    progress.ended(1, Branch::Local);
    assert!(rt; progress.is_running(1));
    progress.settled(1, true);
    assert!(rt; !progress.is_running(1));
    // No list has such an action, so nothing is noted of it.
    progress.began(4096, Branch::Local);
    assert!(rt; !progress.is_running(4096));
    assert!(rt; !progress.is_over());
    progress.finish();
    assert!(rt; progress.is_over());
    Ok(())
}
