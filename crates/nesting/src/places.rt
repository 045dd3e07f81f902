// The blocks that are open at a place of the code.
ghost use Rattle.std.specs.Prelude.{◌≡◌, List, [], ◌∷◌, ◌≤◌, ◌<◌, Some};
ghost use Rattle.lanes.specs.Blocks.{nesting};
ghost use Rattle.blocks.specs.Code.{code_of};
ghost use Rattle.blocks.specs.Open.{Open, opened_at, innermost};
ghost use Rattle.blocks.specs.Scan.{step};
ghost use Rattle.nesting.specs.OpenAt.{open_at, shown};
ghost use Rattle.blocks.specs.Levels.{around};
ghost use Rattle.nesting.specs.Stacks.{Holds, Turned, Advances};

use blocks::item::Code;
use blocks::rules::{Part, Turn, judge};
use lanes::said::DEEPEST;

// An open block: its part, and its opener's place.
#[derive(Clone, Copy)]
pub struct OpenBlock {
    pub part: Part,
    pub opener: usize,
}

// What stands past the open blocks.
const UNUSED: OpenBlock = OpenBlock {
    part: Part::Before,
    opener: 0,
};

// The open blocks, outermost first, as many as the depth says; and how many are loops. An array with its count, since nothing here allocates.
// The depth's bound stands in the clauses and is no ghost field: `stack_of` of the specs is the stack of any number of blocks.
#[derive(Clone, Copy)]
pub struct Stack {
    pub depth: usize,
    pub loops: usize,
    pub blocks: [OpenBlock; DEEPEST],
}

impl Stack {
    // No open block.
    fn empty() -> Stack
        ensures { Holds result [] }
    {
        Stack {
            depth: 0,
            loops: 0,
            blocks: [UNUSED; DEEPEST],
        }
    }

    // The part of the innermost open block.
    fn inner(&self) -> Option<Part>
        requires { self.now.depth ≤ nesting }
        ensures { (o : List Open) → Holds self.now o → result ≡ innermost o }
    {
        if self.depth == 0 {
            None
        } else {
            Some(self.blocks[self.depth - 1].part)
        }
    }

    // One block more, opened at a place.
    fn push(&mut self, part: Part, at: usize)
        requires { (self.old.depth < nesting) × (self.old.loops < nesting) }
        ensures { (o : List Open) → Holds self.old o → Holds self.new (opened_at part at ∷ o) }
    {
        self.blocks[self.depth] = OpenBlock { part, opener: at };
        self.depth += 1;
        match part {
            Part::Loop => self.loops += 1,
            Part::Before | Part::After => {}
        }
    }

    // The innermost block closed.
    fn pop(&mut self)
        requires { self.old.depth ≤ nesting }
        ensures { (o : List Open) → Holds self.old o → Holds self.new (around o) }
    {
        if self.depth == 0 {
            return;
        }
        self.depth -= 1;
        let part = self.blocks[self.depth].part;
        self.blocks[self.depth] = UNUSED;
        match part {
            Part::Loop => self.loops = self.loops.saturating_sub(1),
            Part::Before | Part::After => {}
        }
    }

    // The innermost block in this part.
    fn turn_to(&mut self, inside: Option<Part>)
        requires { self.old.depth ≤ nesting }
        ensures { (o n : List Open) → Holds self.old o → Turned inside o n → Holds self.new n }
    {
        if let Some(part) = inside {
            if 0 < self.depth {
                self.blocks[self.depth - 1].part = part;
            }
        }
    }
}

// One instruction of the pass: the place after it, with the blocks that are open there. None where the pass is over.
fn advance(code: &Code, at: usize, stack: &mut Stack) -> Option<usize>
    requires { (o : List Open) × Holds stack.old o }
    ensures { (o : List Open) → Holds stack.old o → Advances (step (code_of code.now.words.now code.now.reading) at o) result stack.new }
{
    if code.words.len() <= at {
        return None;
    }
    let Ok(item) = code.look(at) else {
        return None;
    };
    let room = DEEPEST - stack.depth;
    match judge(Ok(item), at, room, stack.inner(), 0 < stack.loops) {
        Err(_) => None,
        Ok(Turn::Go(width, inside)) => {
            stack.turn_to(inside);
            Some(at + width)
        }
        Ok(Turn::Close) => {
            stack.pop();
            Some(at + 1)
        }
        Ok(Turn::Enter(part, _)) => {
            stack.push(part, at);
            Some(at + 1)
        }
    }
}

// The blocks open at a place, in time linear in the code; none where the place is neither an instruction's first word nor the end. An
// instruction's second word is no place, nor is one behind a refusal.
pub fn open_at(code: &Code, place: usize) -> Option<Stack>
    ensures { result ≡ shown (open_at (code_of code.now.words.now code.now.reading) place) }
{
    let mut stack = Stack::empty();
    let mut at: usize = 0;
    // An instruction has one word or two: the places are no range for a `for`.
    while at < place {
        at = advance(code, at, &mut stack)?;
    }
    if at == place { Some(stack) } else { None }
}
