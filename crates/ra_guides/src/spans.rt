/// Where the processes of a machine are listed: from a start on, with room for some, so many of them now.
#[derive(Clone, Copy)]
pub(crate) struct Span {
    pub(crate) start: u32,
    pub(crate) room: u32,
    pub(crate) count: u32,
}
