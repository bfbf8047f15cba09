ghost use Rattle.std.specs.Prelude.{◌≡◌, ◌<◌, ◌≤◌, length};

/// What is required if no process goes or comes.
pub(crate) static NOTHING: [u32; 20] = [0; 20];

/// A machine with so much free, from which processes go and to which others come.
#[derive(Clone, Copy)]
pub(crate) struct Change<'r> {
    /// What is free of each resource before.
    pub(crate) free: &'r [u32],
    /// What those that go require.
    pub(crate) gone: &'r [u32],
    /// What those that come require.
    pub(crate) come: &'r [u32],
    ghost all_gone: { length free.now ≤ length gone.now },
    ghost all_come: { length free.now ≤ length come.now },
}

impl Change<'_> {
    /// What is left of a resource after the change. It may have wrapped.
    #[inline(always)]
    pub(crate) fn left(&self, r: usize) -> u32
        requires { r < length self.now.free.now }
    {
        self.free[r]
            .wrapping_add(self.gone[r])
            .wrapping_sub(self.come[r])
    }
}
