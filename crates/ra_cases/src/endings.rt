ghost use Rattle.std.specs.Prelude.{◌↔◌, IsTrue};
ghost use Rattle.ra_cases.specs.Endings.{Same};

/// How a run ended: its exit status, its output and its error line.
#[derive(Clone, Copy)]
pub(crate) struct Ending<'b> {
    pub(crate) status: u8,
    pub(crate) out: &'b [u8],
    pub(crate) err: &'b [u8],
}

/// Whether a run ended as it should.
pub(crate) fn is_same(came: &Ending<'_>, wanted: &Ending<'_>) -> bool
    ensures { IsTrue result ↔ Same came.now wanted.now }
{
    came.status == wanted.status && came.out == wanted.out && came.err == wanted.err
}
