// What a run may change, beside the file that it is written to.
use captures::answer::Parts;

// The words of the registers and of both memories.
#[derive(Drop)]
pub(crate) struct Memory<'a> {
    pub(crate) regs: &'a mut [u32],
    pub(crate) device: &'a mut [u32],
    pub(crate) local: &'a mut [u32],
}

impl Memory<'_> {
    // The words of a capture with this code and this state.
    pub(crate) fn parts<'b>(&'b self, code: &'b [u32], state: &'b [u32]) -> Parts<&'b [u32]> {
        Parts {
            code,
            registers: &*self.regs,
            device: &*self.device,
            local: &*self.local,
            state,
        }
    }
}
