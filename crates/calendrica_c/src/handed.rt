//! How a text is handed over in room that the caller gives.
ghost use Rattle.std.specs.Prelude.{◌≡◌, IsTrue, true, false, length};
ghost use Rattle.calendrica_c.specs.Rooms as spec;

/// How a call ends: its text is handed over, of a line with a result or a certificate with a yes for each line, or of another; memory
/// ran out; the bytes to check are too many, or aren't in the grammar, and the text says why; or the room is too small for the text.
#[derive(Clone, Copy, Debug, PartialEq, Eq)]
pub(crate) enum Handed {
    Done,
    Mixed,
    Memory,
    TooLarge,
    BadText,
    NoRoom,
}

impl Handed {
    /// The number of the status: that of a run that ends so, or 9.
    pub(crate) fn number(self) -> i32
        ensures number { result ≡ spec.number_of self }
    {
        match self {
            Handed::Done => 0,
            Handed::Mixed => 1,
            Handed::Memory => 5,
            Handed::TooLarge => 6,
            Handed::BadText => 7,
            Handed::NoRoom => 9,
        }
    }

    /// How a call ends whose text is of a result, or of none.
    pub(crate) fn of(is_result: bool) -> Handed
        ensures handed { result ≡ spec.handed_of is_result }
    {
        if is_result {
            Handed::Done
        } else {
            Handed::Mixed
        }
    }
}

/// Tells the length of a text, and puts it at the beginning of the room, where that is large enough. Says whether it is.
pub(crate) fn hand_over(text: &[u8], room: &mut [u8], told: &mut usize) -> bool
    ensures fits { result ≡ true → spec.Filled room.old room.new told.new text.now }
    ensures small { result ≡ false → spec.TooSmall room.old room.new told.new text.now }
{
    *told = text.len();
    if text.len() <= room.len() {
        room[..text.len()].copy_from_slice(text);
        true
    } else {
        false
    }
}
