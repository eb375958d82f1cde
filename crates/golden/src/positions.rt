// Numbers into a lent list, each at its place if there is room.
ghost use Rattle.std.specs.Prelude.{◌≡◌, set};

pub(crate) fn note(list: &mut [u32], place: usize, number: u32)
    ensures { list.new ≡ set list.old place number }
{
    if place < list.len() {
        list[place] = number;
    }
}
