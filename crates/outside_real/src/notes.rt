//! The notes of calls: references to their parts, from which clauses build the call.
ghost use Rattle.std.specs.Prelude.{◌∷◌, []};
ghost use Rattle.outside.specs.Floor.{one_read};
ghost use Rattle.outside.specs.declared.berth.BerthCall.TheVariants as call;
ghost use Rattle.outside.specs.declared.shop.ShopCall.TheVariants as shop;

use outside::{BerthCall, Command, FloorRead, Io, JobEnd, PlaceWrite, Read, ShopCall, Variable};
use plain_values::Text;
use told_logs::Note;

/// Bytes that were given or taken.
#[derive(Drop)]
pub(crate) struct Bytes<'a> {
    pub(crate) bytes: &'a [u8],
}

/// A call that was made once more.
#[derive(Drop)]
pub(crate) struct Once;

/// A launch.
#[derive(Drop)]
pub(crate) struct Launched<'a> {
    pub(crate) line: u32,
    pub(crate) command: &'a Command,
    pub(crate) end: Io,
}

/// A part that was cleared.
#[derive(Drop)]
pub(crate) struct Cleared<'a> {
    pub(crate) part: &'a str,
    pub(crate) end: Io,
}

/// A folder that was made.
#[derive(Drop)]
pub(crate) struct Made<'a> {
    pub(crate) path: &'a str,
    pub(crate) end: Io,
}

/// A file that was put.
#[derive(Drop)]
pub(crate) struct Put<'a> {
    pub(crate) path: &'a str,
    pub(crate) bytes: &'a [u8],
    pub(crate) end: Io,
}

/// A look at a file.
#[derive(Drop)]
pub(crate) struct Got<'a> {
    pub(crate) path: &'a str,
    pub(crate) answer: &'a Read,
}

/// A line's child that was killed.
#[derive(Drop)]
pub(crate) struct Ended {
    pub(crate) line: u32,
}

/// A write that was done.
#[derive(Drop)]
pub(crate) struct Wrote<'a> {
    pub(crate) path: &'a str,
    pub(crate) bytes: &'a [u8],
}

/// A command that was run.
#[derive(Drop)]
pub(crate) struct Ran<'a> {
    pub(crate) folder: &'a str,
    pub(crate) words: &'a [Text],
    pub(crate) env: &'a [Variable],
    pub(crate) end: &'a JobEnd,
}

impl Note<u8> for Bytes<'_> {
    ghost noted = { λ n. n.bytes.now };
}

impl Note<()> for Once {
    ghost noted = { λ n. record {} ∷ [] };
}

impl Note<BerthCall> for Launched<'_> {
    ghost noted = { λ n. call.Launch n.line n.command.now n.end ∷ [] };
}

impl Note<BerthCall> for Cleared<'_> {
    ghost noted = { λ n. call.Clear n.part.now n.end ∷ [] };
}

impl Note<BerthCall> for Made<'_> {
    ghost noted = { λ n. call.Folder n.path.now n.end ∷ [] };
}

impl Note<BerthCall> for Put<'_> {
    ghost noted = { λ n. call.Put n.path.now n.bytes.now n.end ∷ [] };
}

impl Note<BerthCall> for Got<'_> {
    ghost noted = { λ n. call.Get n.path.now n.answer.now ∷ [] };
}

impl Note<BerthCall> for Ended {
    ghost noted = { λ n. call.End n.line ∷ [] };
}

impl Note<FloorRead> for Got<'_> {
    ghost noted = { λ n. one_read n.path.now n.answer.now };
}

impl Note<PlaceWrite> for Wrote<'_> {
    ghost noted = { λ n. record { path = n.path.now; bytes = n.bytes.now } ∷ [] };
}

impl Note<ShopCall> for Put<'_> {
    ghost noted = { λ n. shop.Put n.path.now n.bytes.now n.end ∷ [] };
}

impl Note<ShopCall> for Made<'_> {
    ghost noted = { λ n. shop.Folder n.path.now n.end ∷ [] };
}

impl Note<ShopCall> for Got<'_> {
    ghost noted = { λ n. shop.Get n.path.now n.answer.now ∷ [] };
}

impl Note<ShopCall> for Ran<'_> {
    ghost noted = { λ n. shop.Run n.folder.now n.words.now n.env.now n.end.now ∷ [] };
}
