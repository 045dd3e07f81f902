// Room for a capture and its words, in two sizes: most captures are small, and don't pay for large rooms. Each `ensures` gives only the
// length, which lending the array as a slice needs: where so large an array itself stands, the check counts through it, and runs out of stack.
ghost use Rattle.std.specs.Prelude.{◌≡◌, length};

use captures::HEADER_BYTES;
use packing::HOT_WORDS;
use replay::allowed::MOST_WORDS;
use wave::state::BLOCK_NUMBERS;

// One word more than a run takes, so that longer code shows.
pub(crate) const CODE_ROOM: usize = MOST_WORDS + 1;

pub(crate) const REGISTER_ROOM: usize = 16_384;

// The words of a state of depth 64; one of more than 32 blocks is refused by the run.
pub(crate) const STATE_ROOM: usize = HOT_WORDS + 64 * BLOCK_NUMBERS;

// The words of memory in the small rooms, and in the large ones: 64 MiB of device memory and 16 MiB of local memory.
pub(crate) const SMALL_DEVICE: usize = 262_144;

pub(crate) const SMALL_LOCAL: usize = 65_536;

pub(crate) const LARGE_DEVICE: usize = 16_777_216;

pub(crate) const LARGE_LOCAL: usize = 4_194_304;

// The bytes of the largest capture that each size has room for, and one more, so that a longer file shows.
pub(crate) const SMALL_FILE: usize = HEADER_BYTES
    + 4 * (CODE_ROOM + REGISTER_ROOM + SMALL_DEVICE + SMALL_LOCAL + STATE_ROOM)
    + 1;

pub(crate) const LARGE_FILE: usize = HEADER_BYTES
    + 4 * (CODE_ROOM + REGISTER_ROOM + LARGE_DEVICE + LARGE_LOCAL + STATE_ROOM)
    + 1;

// Room for so many bytes. `agree` and `make_day` have the same: a crate for one function would be no plainer.
pub(crate) fn bytes<const N: usize>() -> [u8; N]
    ensures { N ≡ length result }
{
    [0; N]
}

// Room for so many words. One function for both would take the number that fills it, and say its type at each call.
pub(crate) fn words<const N: usize>() -> [u32; N]
    ensures { N ≡ length result }
{
    [0; N]
}
