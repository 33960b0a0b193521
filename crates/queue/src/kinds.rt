// A queue of either of two kinds, for code that takes queues of one type. It means what the queue inside means.
ghost use Rattle.either.specs.Either.{either};
ghost use Rattle.queue.specs.Either.{either_bounded};

use crate::Queue;
use either::{Either, for_both};
use refusal::QueueFault;

impl<A: Queue, B: Queue> Queue for Either<A, B> {
    ghost model = { λ q. either A.Queue.model B.Queue.model q };

    ghost bounded = { λ q. either_bounded A.Queue.model B.Queue.model A.Queue.bounded B.Queue.bounded q };

    fn size(&self) -> usize {
        for_both!(self, queue => queue.size())
    }

    fn held(&self) -> usize {
        for_both!(self, queue => queue.held())
    }

    fn empty(&mut self) {
        for_both!(self, queue => queue.empty())
    }

    fn offer(&mut self, place: usize, key: u32) -> Result<(), QueueFault> {
        for_both!(self, queue => queue.offer(place, key))
    }

    fn look(&self) -> Option<(u32, usize)> {
        for_both!(self, queue => queue.look())
    }

    fn take(&mut self) -> Option<(u32, usize)> {
        for_both!(self, queue => queue.take())
    }
}
