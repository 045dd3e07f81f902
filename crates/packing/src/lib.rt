// A state as words and back, in the order that captures have: place, active, halted, p1, p2, p3, depth, and then six numbers for each
// block, outermost first. By functions with a name, since a `From` of an array wouldn't say that its words are a state's.
#![tactic(auto)]

ghost use Rattle.std.specs.Prelude.{◌≡◌, ◌+◌, ◌*◌, ◌<◌, ◌++◌, get_or, take};
ghost use Rattle.std.specs.List.{flat_map};
ghost use Rattle.lanes.specs.Blocks.{nesting};
ghost use Rattle.wave.specs.Layout.{block_numbers};
ghost use Rattle.packing.specs.Words.{
  hot_words,
  hot_in,
  block_in,
  blocks_in,
  state_in,
  block_words,
  words_of,
  word_count,
};

use lanes::said::{Block, DEEPEST};
use wave::state::{BLOCK_NUMBERS, Hot, NO_BLOCK, State, depth_of};

// The words before those of the blocks, and which of them is the depth, counted from 0.
pub const HOT_WORDS: usize = 7;

pub const DEPTH_WORD: usize = 6;

// The words of a state with as many blocks as there is room for.
pub const STATE_WORDS: usize = HOT_WORDS + BLOCK_NUMBERS * DEEPEST;

// Word k, 0 where there are not so many.
fn word_at(words: &[u32], k: usize) -> u32
    ensures { result ≡ get_or words.now k 0 }
{
    words.get(k).copied().unwrap_or(0)
}

// The numbers before the blocks.
fn hot_of(words: &[u32]) -> Hot
    ensures { result ≡ hot_in words.now }
{
    Hot {
        place: word_at(words, 0),
        active: word_at(words, 1),
        halted: word_at(words, 2),
        p1: word_at(words, 3),
        p2: word_at(words, 4),
        p3: word_at(words, 5),
        depth: word_at(words, DEPTH_WORD),
    }
}

// The block whose words are those of block k.
fn block_of(words: &[u32], k: usize) -> Block
    requires { k < nesting }
    ensures { result ≡ block_in words.now (hot_words + block_numbers * k) }
{
    let at = HOT_WORDS + BLOCK_NUMBERS * k;
    Block {
        part: word_at(words, at),
        opener: word_at(words, at + 1),
        entered: word_at(words, at + 2),
        aside: word_at(words, at + 3),
        again: word_at(words, at + 4),
        left: word_at(words, at + 5),
    }
}

// The blocks.
fn blocks_of(words: &[u32]) -> [Block; DEEPEST]
    ensures { result ≡ blocks_in words.now }
{
    let mut blocks = [NO_BLOCK; DEEPEST];
    for k in 0..DEEPEST {
        blocks[k] = block_of(words, k);
    }
    blocks
}

// The state of these words. Missing words read as 0; words past the room for blocks are not read.
pub fn state_of(words: &[u32]) -> State
    ensures { result ≡ state_in words.now }
{
    let hot = hot_of(words);
    let blocks = blocks_of(words);
    State { hot, blocks }
}

// Puts the words of the blocks behind those of the numbers before them.
fn put_blocks(blocks: &[Block; DEEPEST], words: &mut [u32; STATE_WORDS])
    ensures { words.new ≡ take hot_words words.old ++ flat_map block_words blocks.now }
{
    for (k, b) in blocks.iter().enumerate() {
        let at = HOT_WORDS + BLOCK_NUMBERS * k;
        words[at..at + BLOCK_NUMBERS].copy_from_slice(&[
            b.part, b.opener, b.entered, b.aside, b.again, b.left,
        ]);
    }
}

// The words of a state, all the room for blocks among them.
pub fn words_of(state: State) -> [u32; STATE_WORDS]
    ensures { result ≡ words_of state }
{
    let h = state.hot;
    let front = [h.place, h.active, h.halted, h.p1, h.p2, h.p3, h.depth];
    let mut words = [0u32; STATE_WORDS];
    words[..HOT_WORDS].copy_from_slice(&front);
    put_blocks(&state.blocks, &mut words);
    words
}

// How many of a state's words count, with this depth: those of its open blocks and no more.
pub fn word_count(depth: u32) -> usize
    ensures { result ≡ word_count depth }
{
    HOT_WORDS + BLOCK_NUMBERS * (depth_of(depth) as usize)
}
