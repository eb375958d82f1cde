// A walk over a golden file: the lent file and the number of the next record, over the step on a file and a number.
ghost use Rattle.golden.specs.Walking.{Begins, Walks};

use crate::refusal::Refusal;
use crate::stepper::{Stored, step};

#[derive(Clone, Copy)]
pub struct Walk<'a> {
    pub file: &'a [u8],
    pub next: usize,
}

impl<'a> Walk<'a> {
    pub fn new(file: &'a [u8]) -> Walk<'a>
        ensures { Begins file.entry result }
    {
        Walk { file, next: 0 }
    }

    pub fn step(&mut self) -> Result<Option<Stored>, Refusal>
        ensures { Walks self.old result self.new }
    {
        let stepping = step(self.file, self.next);
        self.next = stepping.next;
        stepping.answer
    }
}
