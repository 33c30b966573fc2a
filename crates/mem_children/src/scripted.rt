//! A child that plays beats.
ghost use Rattle.std.specs.Prelude.{◌≡◌, Some, None, true, false, if◌then◌else◌};

use crate::Beat;
use crate::actor::Acted;
use crate::ears::Ears;
use crate::line::Line;
use crate::patience::Patience;
use crate::ready::Ready;
use plain_values::NoMemory;
use std::sync::Wait;

#[derive(Drop)]
pub struct Scripted {
    ears: Ears,
    /// The number of whole frames that it has read.
    heard: u32,
    /// The next beat.
    next: usize,
}

impl Scripted {
    pub fn new(ears: Ears) -> Scripted {
        Scripted {
            ears,
            heard: 0,
            next: 0,
        }
    }

    /// Plays beats until bytes are ready or the child has ended. A beat that has waited too long is played
    /// again.
    pub fn play<R: Wait>(
        &mut self,
        rt: &R,
        beats: &[Beat],
        line: &Line,
        ready: &mut Ready,
    ) -> Result<Acted, NoMemory> {
        for beat in beats.get(self.next..).unwrap_or(&[]) {
            let acted = self.act(rt, beat, line, ready)?;
            if acted != Acted::On {
                return Ok(acted);
            }
            self.next = self.next.saturating_add(1);
            if !ready.is_empty() {
                return Ok(Acted::On);
            }
        }
        Ok(rest_until_killed(rt, line))
    }

    fn act<R: Wait>(
        &mut self,
        rt: &R,
        beat: &Beat,
        line: &Line,
        ready: &mut Ready,
    ) -> Result<Acted, NoMemory> {
        match beat {
            Beat::Hear(frames) => return self.hear(rt, line, *frames),
            Beat::Leave(path, bytes) => line.leave(rt, path.as_str(), bytes.again()?)?,
            Beat::Give(bytes) => ready.add(bytes.as_slice())?,
            Beat::Choose(first, second) => {
                ready.add(chosen(line.serves, first.as_slice(), second.as_slice()))?
            }
            Beat::Raise(gate) => line.gates.raise(rt, *gate)?,
            Beat::Await(gate) => return Ok(await_gate(rt, line, *gate)),
            Beat::Die => return Ok(Acted::Ended),
        }
        Ok(Acted::On)
    }

    // Waits until `frames` whole frames were given.
    fn hear<R: Wait>(&mut self, rt: &R, line: &Line, frames: u32) -> Result<Acted, NoMemory> {
        let mut patience = Patience::new();
        for _ in rt.forever() {
            let rings = line.bell.rings();
            let killed = line.is_killed(rt);
            self.listen(rt, line)?;
            if let Some(acted) = came(self.heard >= frames, killed) {
                return Ok(acted);
            }
            if !patience.turn_to_the_end(rt, &line.bell, rings) {
                return Ok(Acted::Late);
            }
        }
        unreachable!()
    }

    // Counts the frames that were given since the last call.
    fn listen<R: Wait>(&mut self, rt: &R, line: &Line) -> Result<(), NoMemory> {
        self.ears.listen(rt, line)?;
        for _ in rt.forever() {
            if self.ears.next()?.is_none() {
                return Ok(());
            }
            self.heard = self.heard.saturating_add(1);
        }
        unreachable!()
    }
}

// Returns the first bytes for an executor, and the second for a worker.
fn chosen<'a>(serves: bool, first: &'a [u8], second: &'a [u8]) -> &'a [u8]
    ensures { result.now ≡ (if serves then first.now else second.now) }
{
    if serves { first } else { second }
}

// Returns how a wait ends, or `None` if it isn't over. If the awaited event has come, the child goes on.
// Otherwise a killed child ends.
fn came(is_there: bool, killed: bool) -> Option<Acted>
    ensures there { is_there ≡ true → result ≡ Some Acted.On }
    ensures killed { is_there ≡ false → killed ≡ true → result ≡ Some Acted.Ended }
    ensures neither { is_there ≡ false → killed ≡ false → result ≡ None }
{
    match (is_there, killed) {
        (true, _) => Some(Acted::On),
        (false, true) => Some(Acted::Ended),
        (false, false) => None,
    }
}

fn await_gate<R: Wait>(rt: &R, line: &Line, gate: u32) -> Acted {
    let mut patience = Patience::new();
    for _ in rt.forever() {
        let rings = line.gates.bell.rings();
        let killed = line.is_killed(rt);
        if let Some(acted) = came(line.gates.is_raised(rt, gate), killed) {
            return acted;
        }
        if !patience.turn_to_the_end(rt, &line.gates.bell, rings) {
            return Acted::Late;
        }
    }
    unreachable!()
}

// Rests until the child is killed. After its last beat a child ends only then.
fn rest_until_killed<R: Wait>(rt: &R, line: &Line) -> Acted {
    let mut patience = Patience::new();
    for _ in rt.forever() {
        let rings = line.bell.rings();
        if let Some(acted) = came(false, line.is_killed(rt)) {
            return acted;
        }
        patience.turn(rt, &line.bell, rings);
    }
    unreachable!()
}
