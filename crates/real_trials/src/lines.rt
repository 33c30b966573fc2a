// Lines, each with a shell. The first shell reads its feed and has only the command's environment. It
// leaves links and a fifo in its room, moves the room, and puts a link to the start folder at the room's
// path. Next to the outputs it leaves a link at the name under which they are written. The second shell
// runs a file that was put into its room, and looks if the first is gone. It leaves what is hard to remove:
// a name that isn't UTF-8, folders that nobody may change, and a link to a folder of others. The third
// shell looks if all that is gone, and if nothing else was touched.
use crate::page::Page;
use crate::puts::put;
use outside::{Berth, Child, Command, Feed, Launch, Taken, Tap, Variable};
use plain_values::{Items, NoMemory, Text};
use std::alloc::Global;
use std::io::Print;

const FIRST: &str =
    "mkdir -m 750 ../../aside; printf kept >../../aside/file; ln -s ../../aside/file out; \
    ln -s ../../aside way; ln -s aside/file ../../link; \
    ln -s letter ../../.worker_tool.0.part; mkfifo fifo; echo $$ >../pid; read line; \
    echo \"heard $line, greeting $GREETING, home [$HOME]\"; read line; \
    here=${PWD##*/}; mv ../$here ../moved; ln -s .. ../$here; echo $line; exec cat";

const SECOND: &str =
    "./tool || echo \"it can't be run\"; rm -r shelf rack; ln -s ../../aside shelf; ln -s ../../aside rack; \
    printf x >\"$(printf 'x\\351')\"; mkdir -p shut/in; printf x >shut/in/file; \
    chmod 555 shut/in shut; read pid <../pid; \
    test -e /proc/$pid && echo \"it is there\" || echo \"it is gone\"; \
    test \"$(readlink /proc/$$/fd/2)\" = \"$(readlink /proc/$PPID/fd/2)\" \
    && echo \"errors go where ours go\" || echo \"errors go elsewhere\"; exec cat";

const THIRD: &str = "test -z \"$(ls -A)\" && left=nothing || left=something; \
    echo \"$left is left, aside has $(stat -c %a ../../aside)\"; exec cat";

pub fn play<P: Print, B: Berth>(page: &mut Page<'_, P>, alloc: Global, berth: &mut B) {
    page.io("put letter", &put(alloc, berth, "letter", b"inside"));
    if let Some((mut feed, mut tap, mut child)) = shell(page, alloc, berth, 0, FIRST) {
        talk(page, alloc, berth, &mut feed, &mut tap, &mut child);
    }
    page.io("clear", &berth.room_clear(""));
    page.io("put tool", &put(alloc, berth, "tool", b"echo it runs\n"));
    page.io(
        "put shelf/file",
        &put(alloc, berth, "shelf/file", b"inside"),
    );
    page.io("put rack/file", &put(alloc, berth, "rack/file", b"inside"));
    if let Some((_feed, mut tap, mut child)) = shell(page, alloc, berth, 1, SECOND) {
        take_all(page, alloc, &mut tap, 3);
        page.io("put rack/x", &put(alloc, berth, "rack/x", b"inside"));
        page.read("rack/x", berth.room_get("rack/x"));
        page.io("clear", &berth.room_clear(""));
        berth.end(1, &mut child);
        page.io("clear", &berth.room_clear(""));
    }
    if let Some((_feed, mut tap, mut child)) = shell(page, alloc, berth, 2, THIRD) {
        take(page, &mut tap);
        child.kill();
        take(page, &mut tap);
    }
    match launch(alloc, berth, 3, "no/such/program", "") {
        Ok(Launch::Started(_feed, _tap, mut child)) => {
            child.kill();
            page.line("  started what isn't there");
        }
        Ok(Launch::Failed) => page.line("  not started"),
        Err(NoMemory) => page.no_memory(),
    }
    page.counts("faults of the berth", &[berth.faults()]);
}

// Starts a shell with this script. Returns `None` if it can't be started.
fn shell<P: Print, B: Berth>(
    page: &mut Page<'_, P>,
    alloc: Global,
    berth: &mut B,
    line: u32,
    script: &str,
) -> Option<(B::Feed, B::Tap, B::Child)> {
    match launch(alloc, berth, line, "/bin/sh", script) {
        Ok(Launch::Started(feed, tap, child)) => Some((feed, tap, child)),
        Ok(Launch::Failed) => {
            page.line("  no shell");
            None
        }
        Err(NoMemory) => {
            page.no_memory();
            None
        }
    }
}

fn launch<B: Berth>(
    alloc: Global,
    berth: &mut B,
    line: u32,
    program: &str,
    script: &str,
) -> Result<Launch<B::Feed, B::Tap, B::Child>, NoMemory> {
    let command = command(alloc, program, script)?;
    berth.launch(line, &command)
}

fn command(alloc: Global, program: &str, script: &str) -> Result<Command, NoMemory> {
    Ok(Command {
        program: Text::copy_of(alloc, program)?,
        words: Items::of(words(alloc, &["-c", script])?),
        env: Items::of(environment(alloc)?),
    })
}

/// Returns these words in memory of their own.
pub fn words(alloc: Global, each: &[&str]) -> Result<Vec<Text>, NoMemory> {
    let mut words = Vec::new(alloc);
    for word in each {
        words.push(Text::copy_of(alloc, word)?)?;
    }
    Ok(words)
}

/// Returns an environment: a greeting and the path on which programs are found.
pub fn environment(alloc: Global) -> Result<Vec<Variable>, NoMemory> {
    let mut variables = Vec::new(alloc);
    for (name, value) in [("GREETING", "hello"), ("PATH", "/usr/bin:/bin")] {
        variables.push(variable(alloc, name, value)?)?;
    }
    Ok(variables)
}

fn variable(alloc: Global, name: &str, value: &str) -> Result<Variable, NoMemory> {
    Ok(Variable {
        name: Text::copy_of(alloc, name)?,
        value: Text::copy_of(alloc, value)?,
    })
}

fn talk<P: Print, B: Berth>(
    page: &mut Page<'_, P>,
    alloc: Global,
    berth: &mut B,
    feed: &mut B::Feed,
    tap: &mut B::Tap,
    child: &mut B::Child,
) {
    page.io("feed", &feed.write(b"abc\n"));
    take(page, tap);
    page.read("out, a link", berth.room_get("out"));
    page.read("way/file, behind a link", berth.room_get("way/file"));
    page.io("clear way/file", &berth.room_clear("way/file"));
    page.io("put way/x", &put(alloc, berth, "way/x", b"inside"));
    page.read("way/x", berth.room_get("way/x"));
    page.read("fifo", berth.room_get("fifo"));
    page.io("feed", &feed.write(b"moved\n"));
    take(page, tap);
    page.read(
        "letter, in the room that was moved",
        berth.room_get("letter"),
    );
    page.io("clear", &berth.room_clear(""));
    berth.end(0, child);
    take(page, tap);
    page.io("feed of a dead process", &feed.write(b"abc\n"));
    page.counts(
        "faults of the feed and of the tap",
        &[feed.faults(), tap.faults()],
    );
}

// Takes `lines` lines, in pieces of any size.
fn take_all<P: Print, T: Tap>(page: &mut Page<'_, P>, alloc: Global, tap: &mut T, lines: usize) {
    let mut taken = Vec::new(alloc);
    for _ in 0..256 {
        if taken.iter().filter(|byte| **byte == b'\n').count() >= lines {
            break;
        }
        let mut into = [0u8; 256];
        match tap.read(&mut into) {
            Taken::Bytes(count) => {
                if taken.extend_from_slice(&into[..count]).is_err() {
                    break;
                }
            }
            Taken::End | Taken::Failed => break,
        }
    }
    page.taken(&taken);
}

/// Takes one piece.
pub fn take<P: Print, T: Tap>(page: &mut Page<'_, P>, tap: &mut T) {
    let mut into = [0u8; 256];
    match tap.read(&mut into) {
        Taken::Bytes(count) => page.taken(&into[..count]),
        Taken::End => page.line("  the end"),
        Taken::Failed => page.line("  tap failed"),
    }
}
