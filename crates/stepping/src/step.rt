// One step of the wave: an instruction carried out by the executing lanes.
ghost use Rattle.std.specs.Prelude.{◌≡◌, false, List, IfErr};
ghost use Rattle.faulting.specs.Kinds.{clear};
ghost use Rattle.lanes.specs.declared.said.Block.{Block};
ghost use Rattle.wave.specs.Wave.{preds_of};
ghost use Rattle.stepping.specs.Machine.{machine_of, named, with_named, hot_with};
ghost use Rattle.stepping.specs.Step.{registers_in, ordinary_of, stepped, step_of};

use crate::settings::Settings;
use compute::{Shape, carry_out};
use control::control;
use faulting::faults::{Faults, is_clear, of_barrier};
use fetching::control_in;
use lanes::said::{Block, DEEPEST};
use lanes::{Lanes, first};
use wave::going::onward_by;
use wave::guarding::executing;
use wave::state::Hot;
use words::reading::Fetched;

// The set of predicate `k`, 0 where there is none. No Option: an instruction's lanes are given a set whatever RD names, and give it back.
fn named_set(k: u8, h: Hot) -> Lanes
    ensures { result ≡ named k (preds_of h) }
{
    match k {
        1 => h.p1,
        2 => h.p2,
        3 => h.p3,
        _ => 0,
    }
}

// The hot numbers, with `set` for predicate `k`.
fn with_named(k: u8, set: Lanes, h: Hot) -> Hot
    ensures { result ≡ hot_with h (with_named k set (preds_of h)) }
{
    match k {
        1 => Hot { p1: set, ..h },
        2 => Hot { p2: set, ..h },
        3 => Hot { p3: set, ..h },
        _ => h,
    }
}

// An instruction that is no control instruction, by the lanes t: the hot numbers on by its words, or the faults, and nothing changed. Here
// and in a run the lent buffers stay parameters: a struct that holds a `&mut` owes in each contract, for each, that it holds the same one
// still.
fn ordinary(
    x: Fetched,
    t: Lanes,
    settings: Settings,
    h: Hot,
    regs: &mut [u32],
    device: &mut [u32],
    local: &mut [u32],
) -> Result<Hot, Faults>
    ensures machine { (blocks : List Block) →
        stepped h result blocks (registers_in settings regs.new) device.new local.new
        ≡ ordinary_of settings x t (machine_of h blocks (registers_in settings regs.old) device.old local.old) }
    ensures faults { IfErr result (λ faults. clear faults ≡ false) }
{
    let instr = x.instr;
    let rd = instr.rd;
    let shape = Shape {
        width: settings.width,
        registers: settings.registers,
    };
    let predicate = named_set(rd, h);
    let c = carry_out(instr, t, predicate, shape, regs, device, local);
    if is_clear(c.faults) {
        let n = onward_by(x.words, h);
        return Ok(with_named(rd, c.predicate, n));
    }
    Err(c.faults)
}

// One step: the hot numbers after it, or the faults. The machine afterwards is what `step_of` says; a fault leaves it as it was.
pub(crate) fn step(
    x: Fetched,
    settings: Settings,
    h: Hot,
    blocks: &mut [Block; DEEPEST],
    regs: &mut [u32],
    device: &mut [u32],
    local: &mut [u32],
) -> Result<Hot, Faults>
    ensures machine { stepped h result blocks.new (registers_in settings regs.new) device.new local.new
        ≡ step_of settings x (machine_of h blocks.old (registers_in settings regs.old) device.old local.old) }
    ensures faults { IfErr result (λ faults. clear faults ≡ false) }
{
    let instr = x.instr;
    let guard = instr.guard;
    let op = instr.op;
    let t = executing(guard, h);
    match control_in(op) {
        Some(o) => {
            let a = control(o, t, first(settings.lanes), h, blocks);
            let faults = of_barrier(a.barrier);
            if is_clear(faults) {
                Ok(a.hot)
            } else {
                Err(faults)
            }
        }
        None => ordinary(x, t, settings, h, regs, device, local),
    }
}
