// What a run is given beside its buffers.

// Width W, registers R for each lane, launched lanes n (lanes 0 to n-1), and the step budget.
#[derive(Clone, Copy)]
pub struct Settings {
    pub width: u32,
    pub registers: u32,
    pub lanes: u32,
    pub budget: u32,
}
