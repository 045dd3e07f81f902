// Writing a key.
ghost use Rattle.std.specs.Prelude.{◌≡◌};
ghost use Rattle.key.specs.Key.{keyed, parts_of, body_key, key_of};
ghost use Rattle.key.specs.Putting.{copied};

use crate::putting::body_of;
use body::body_length;
use faulting::faults::Faults;
use lanes::said::NESTING;
use numbers::put_bytes;
use refusals::{Refusal, Rule, broken};
use stepping::answers::{Outcome, Replayed};
use wave::state::State;

// Copies the body that `bytes` start with to the front of `out`, and answers its length.
fn copy_body(bytes: &[u8], out: &mut [u8]) -> Result<usize, Refusal>
    ensures { keyed result out.new ≡ copied bytes.now out.old }
{
    let size = body_length(bytes, 0)?;
    if out.len() < size {
        return Err(broken(Rule::Short, 0));
    }
    put_bytes(out, 0, &bytes[..size]);
    Ok(size)
}

// The key of a fault with these lanes of each kind, in this state.
fn write_fault(kernel: u32, f: Faults, state: State, out: &mut [u8]) -> Result<usize, Refusal>
    ensures { keyed result out.new ≡ body_key (parts_of kernel f state) out.old }
{
    if NESTING < state.hot.depth {
        return Err(broken(Rule::NotOfLayout, 0));
    }
    let body = body_of(kernel, f, state);
    copy_body(body.as_bytes(), out)
}

// Writes the key of what a run answered, for this kernel number, at the front of `out`, and answers its length. Tests 14, where the
// outcome is no fault or gives no body of the layout, then 13. A refusal changes nothing. What the run answered may be any value.
pub fn write_key(kernel: u32, answer: Replayed, out: &mut [u8]) -> Result<usize, Refusal>
    ensures { keyed result out.new ≡ key_of kernel answer out.old }
{
    let state = answer.state;
    let outcome = answer.outcome;
    match outcome {
        Outcome::Fault(f) => write_fault(kernel, f, state, out),
        Outcome::Ended => Err(broken(Rule::NotOfLayout, 0)),
        Outcome::OutOfBudget => Err(broken(Rule::NotOfLayout, 0)),
        Outcome::Refused(_) => Err(broken(Rule::NotOfLayout, 0)),
    }
}
