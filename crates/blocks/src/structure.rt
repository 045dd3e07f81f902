// The check of a kernel's code: refusals 4 to 10. The instructions of a level are gone through in order; an inner block is a level of its own.
ghost use Rattle.std.specs.Prelude.{◌≡◌, ◌≤◌, length};
ghost use Rattle.blocks.specs.Code.{code_of};
ghost use Rattle.blocks.specs.Scan.{check_of};
ghost use Rattle.blocks.specs.Levels.{LevelSays};

use crate::item::Code;
use crate::rules::{Part, Turn, judge};
use lanes::said::DEEPEST;
use refusals::{Refusal, Rule, broken};

impl Code<'_> {
    // One level, from a place on, where so much room is left: the place after its end, or none where the code ends first. A block opened in it
    // is checked by a call of this function, with one less of room.
    fn level(
        &self,
        from: usize,
        room: usize,
        inside: Option<Part>,
        in_loop: bool,
    ) -> Result<Option<usize>, Refusal>
        requires { from ≤ length self.now.words.now }
        ensures { LevelSays (code_of self.now.words.now self.now.reading) from room inside in_loop result }
    {
        let mut at = from;
        let mut part = inside;
        // An instruction has one word or two, and a block many: the places are no range for a `for`.
        while at < self.words.len() {
            let item = self.look(at)?;
            match judge(Ok(item), at, room, part, in_loop)? {
                Turn::Go(width, next) => {
                    at += width;
                    part = next;
                }
                Turn::Close => return Ok(Some(at + 1)),
                Turn::Enter(inner, looped) => {
                    match self.level(at + 1, room - 1, Some(inner), looped)? {
                        Some(next) => at = next,
                        None => return Err(broken(Rule::Unclosed, at)),
                    }
                }
            }
        }
        Ok(None)
    }

    // Whether code is well built: refusals 4 to 9 instruction by instruction, then 10; the first broken rule in reading order.
    // The whole code is a level outside every block, which nothing closes.
    pub fn check(&self) -> Result<(), Refusal>
        ensures { result ≡ check_of (code_of self.now.words.now self.now.reading) }
    {
        self.level(0, DEEPEST, None, false)?;
        Ok(())
    }
}
