// A shop: files that were put there are found. A job has its arguments, only its own environment, and no
// input.
use crate::lines::{environment, words};
use crate::page::Page;
use outside::{JobEnd, Shop};
use plain_values::NoMemory;
use std::alloc::Global;
use std::io::Print;

const JOB: &str =
    "readlink /proc/$$/fd/0; echo \"greeting $GREETING, home [$HOME]\"; cat a; exit 3";

pub fn play<P: Print, S: Shop>(page: &mut Page<'_, P>, alloc: Global, shop: &mut S) {
    page.io("put job/a", &shop.put("job/a", b"here\n"));
    page.io("folder job/made", &shop.folder("job/made"));
    page.read("job/a", shop.get("job/a"));
    run(page, alloc, shop, &["/bin/sh", "-c", JOB]);
    run(page, alloc, shop, &["/bin/sh", "-c", "kill -9 $$"]);
    run(page, alloc, shop, &["no/such/program"]);
    page.counts("faults of the shop", &[shop.faults()]);
}

fn run<P: Print, S: Shop>(page: &mut Page<'_, P>, alloc: Global, shop: &mut S, each: &[&str]) {
    match end_of(alloc, shop, each) {
        Ok(JobEnd::Exit(code, written)) => {
            page.code(code);
            page.taken(written.bytes());
        }
        Ok(JobEnd::Signal) => page.line("  ended by a signal"),
        Ok(JobEnd::Failed) => page.line("  not started"),
        Err(NoMemory) => page.no_memory(),
    }
}

fn end_of<S: Shop>(alloc: Global, shop: &mut S, each: &[&str]) -> Result<JobEnd, NoMemory> {
    let words = words(alloc, each)?;
    let env = environment(alloc)?;
    shop.run("job", &words, &env)
}
