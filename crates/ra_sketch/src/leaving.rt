use ra_base::{Machine, Process};

/// A process that may leave its machine, with what doesn't depend on the machine to which it goes. The costs may have
/// wrapped.
#[derive(Clone, Copy)]
pub struct Leaving<'r> {
    /// The process.
    pub process: Process,
    /// Its machine.
    pub from: Machine,
    /// Its initial machine.
    pub home: Machine,
    /// What it requires of each resource.
    pub required: &'r [u32],
    /// The load and balance cost of its machine after it has left.
    pub(crate) without: u64,
    /// What the move adds if the process ends away from its initial machine, without what depends on the machine to
    /// which it goes.
    pub(crate) added: u64,
    /// The load and balance cost of its machine while it stays, and what its way there costs.
    pub(crate) taken: u64,
    /// What it costs to move the process off its initial machine.
    pub(crate) moved: u64,
    /// What its way from its initial machine to its machine costs.
    pub(crate) way: u64,
}

impl Leaving<'_> {
    /// Whether a way costs more than the process can bring, on an instance without balance objectives. `top` is the most
    /// by which a move may raise the cost.
    #[inline(always)]
    pub fn is_dear(&self, way: u64, top: u64) -> bool {
        self.added.wrapping_add(way) > self.taken.wrapping_add(top)
    }
}
