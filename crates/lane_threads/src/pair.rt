//! One of two: a lane of one kind or the other, and its end.
ghost use Rattle.lane_threads.specs.Pairs.{MayRunOfKind, HasRunOfKind};

use crate::lane::Lane;
use lane_bells::Bells;
use std::sync::Wait;
use std::thread::Threads;

/// A value of the first kind or of the second. A lane of either kind is a lane, and its end has the
/// same kind. So lanes of two kinds fit into one list without a box.
#[derive(Drop)]
pub enum Either<A, B> {
    /// A value of the first kind.
    First(A),
    /// A value of the second kind.
    Second(B),
}

impl<D, P, A: Lane<D, P>, B: Lane<D, P>> Lane<D, P> for Either<A, B> {
    type End = Either<A::End, B::End>;

    ghost may_run = { MayRunOfKind A.may_run B.may_run };

    ghost has_run = { HasRunOfKind A.has_run B.has_run };

    fn run<R: Threads + Wait + Sync>(
        self,
        rt: &R,
        desk: &D,
        bells: &Bells,
        pass: P,
    ) -> (Either<A::End, B::End>, P) {
        match self {
            Either::First(lane) => {
                let (end, pass) = lane.run(rt, desk, bells, pass);
                (Either::First(end), pass)
            }
            Either::Second(lane) => {
                let (end, pass) = lane.run(rt, desk, bells, pass);
                (Either::Second(end), pass)
            }
        }
    }
}
