//! Settling: carries until no message waits or the answer list is full.
ghost use Rattle.std.specs.Prelude.{◌≡◌, ◌<◌, ◌≤◌, [], length, take, drop, replicate};
ghost use Rattle.register.specs.Past.{Settles};

use crate::register::Register;
use orders::answer::Answer;
use wire::channel::Channel;

impl Register {
    /// Gives how many carries it did; later answers keep what they held.
    pub fn settle<C: Channel>(&mut self, c: &mut C, answers: &mut [Answer]) -> usize
        ensures { Settles C.contents self.old c.old answers.old result answers.new self.new c.new }
    {
        for (n, answer) in answers.iter_mut().enumerate() {
            if c.waiting() == 0 {
                return n;
            }
            *answer = self.carry(c);
        }
        answers.len()
    }
}
