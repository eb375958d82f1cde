// The places of those that wait: in the first ones, oldest first.
// What is written is written whole, with zeros behind those that wait, so that the queue alone tells what stands there.
ghost use Rattle.std.specs.Prelude.{◌∷◌, [], ◌++◌, ◌≡◌, ◌<◌, ◌≤◌, length};
ghost use Rattle.sender.specs.Helpers.{in_places};
ghost use Rattle.sender.specs.Queue.{most_waiting};
ghost use Rattle.sender.specs.Told.{stored};

use crate::bench::Bench;

// How many wait, also by a count above 16.
pub(crate) fn in_places(count: usize) -> usize
    ensures { (result ≡ in_places count) × (result ≤ most_waiting) }
{
    count.min(Bench::PLACES)
}

// These wait, and nothing else stands in the places.
pub(crate) fn store(waiting: &[u32]) -> [u32; Bench::PLACES]
    requires { length waiting.now ≤ most_waiting }
    ensures { result ≡ stored waiting.now }
{
    let mut places = [0; Bench::PLACES];
    places[..waiting.len()].copy_from_slice(waiting);
    places
}

// These wait, and one more behind them.
pub(crate) fn store_with(waiting: &[u32], commid: u32) -> [u32; Bench::PLACES]
    requires { length waiting.now < most_waiting }
    ensures { result ≡ stored (waiting.now ++ (commid ∷ [])) }
{
    let mut places = store(waiting);
    places[waiting.len()] = commid;
    places
}
