// A template filled in: its bytes go to a page, with numbers and text where marks stand.
// `{` takes a number, and of the words up to `}`, which `|` parts, those of that number are shown. All other marks are told in `marks`.
// A mark that is not shown takes its numbers all the same.
ghost use Rattle.io.specs.Counts.{IsPrefixLen};

use crate::marks::{Given, put, taken_by};
use crate::page::Page;

// How far it is: the numbers taken, and of a choice the part that is wanted and the one that it is at.
#[derive(Drop)]
struct Filling {
    next: usize,
    wanted: u64,
    at: u64,
}

impl Filling {
    fn fill_byte(&mut self, page: &mut Page, byte: u8, given: Given) {
        match byte {
            b'{' => {
                self.choose(given.number(self.next));
                self.take(1);
            }
            b'|' => self.at = self.at.saturating_add(1),
            b'}' => self.choose(0),
            _ => {
                if self.at == self.wanted {
                    put(page, byte, given, self.next);
                }
                self.take(taken_by(byte));
            }
        }
    }

    // From here on the first part of a choice, or what stands outside of all, where none is wanted but the first.
    fn choose(&mut self, wanted: u64) {
        self.wanted = wanted;
        self.at = 0;
    }

    fn take(&mut self, count: usize) {
        self.next = self.next.saturating_add(count);
    }
}

// Fills a template in behind the bytes that a page has; the answer is how many it has then. What finds no room is left out.
pub fn fill(page: &mut [u8], size: usize, template: &[u8], numbers: &[u64], lent: &[u8]) -> usize
    ensures { IsPrefixLen result page.new }
{
    let room = page.len();
    let mut page = Page { bytes: page, size };
    let mut filling = Filling {
        next: 0,
        wanted: 0,
        at: 0,
    };
    for byte in template {
        filling.fill_byte(&mut page, *byte, Given { numbers, lent });
    }
    page.size.min(room)
}
