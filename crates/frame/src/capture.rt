// A capture: frames end to end, and where the first of them ends.
ghost use Rattle.frame.specs.Capturing.{MeasuresFirst};

use crate::layout;
use crate::unwrapper::four_at;

// How many bytes the first frame of a capture has, as it states itself: all that there are, where they are fewer.
#[tactic(auto, unfolding(crate::specs::Capturing::first_size))]
pub fn first(capture: &[u8]) -> usize
    ensures { MeasuresFirst capture.now result }
{
    if capture.len() < layout::LEAST_SIZE {
        return capture.len();
    }
    let stated = layout::LEAST_SIZE + four_at(capture, layout::LENGTH_PLACE) as usize;
    stated.min(capture.len())
}
