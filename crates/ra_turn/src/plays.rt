//! What each step on the table tells its seat.
ghost use Rattle.ra_turn.specs.Steps.{peeked, ticket_drawn, queued, looked, saw, noted, served, glanced, gripped, released, cut_left, cut_right, passes_joined, spent};

use crate::sight::Sight;
use crate::story::Story;
use atomic_table::{Join, Play, Split};

/// A read of how far the turns are, before the pass draws a ticket.
pub(crate) struct Peek;

impl<V: Story> Play<Option<V>, Sight<V::Note, V::Opening>> for Peek {
    ghost then = { peeked };
}

/// A ticket is drawn, if it would be served at once.
pub(crate) struct Draw;

impl<V: Story> Play<Option<V>, Sight<V::Note, V::Opening>> for Draw {
    ghost then = { ticket_drawn };
}

/// A ticket is drawn, whether or not others wait before it.
pub(crate) struct Queue;

impl<V: Story> Play<Option<V>, Sight<V::Note, V::Opening>> for Queue {
    ghost then = { queued };
}

/// A read of the ticket that is served.
pub(crate) struct Look;

impl<V: Story> Play<Option<V>, Sight<V::Note, V::Opening>> for Look {
    ghost then = { looked };
}

/// The pass sees the history, and takes the value from the slot.
pub(crate) struct See;

impl<V: Story> Play<Option<V>, Sight<V::Note, V::Opening>> for See {
    ghost then = { saw V.opening V.notes V.author V.touches };
}

/// A note is counted.
pub(crate) struct Count;

impl<V: Story> Play<Option<V>, Sight<V::Note, V::Opening>> for Count {
    ghost then = { noted V.notes V.author };
}

/// The pass puts the value back, and the next ticket is served.
pub(crate) struct Serve;

impl<V: Story> Play<Option<V>, Sight<V::Note, V::Opening>> for Serve {
    ghost then = { served V.author V.touches };
}

/// A read of a guard's word.
pub(crate) struct Glance;

impl<V: Story> Play<Option<V>, Sight<V::Note, V::Opening>> for Glance {
    ghost then = { glanced };
}

/// A guard is locked.
pub(crate) struct Grasp;

impl<V: Story> Play<Option<V>, Sight<V::Note, V::Opening>> for Grasp {
    ghost then = { gripped V.author V.touches };
}

/// A guard is unlocked.
pub(crate) struct Release;

impl<V: Story> Play<Option<V>, Sight<V::Note, V::Opening>> for Release {
    ghost then = { released V.author V.touches };
}

/// A pass is split off the maker's seat.
pub(crate) struct Cut;

impl<N, O> Split<Sight<N, O>> for Cut {
    ghost left = { cut_left };

    ghost right = { cut_right };
}

/// One pass is joined to another.
pub(crate) struct Glue;

impl<N, O> Join<Sight<N, O>> for Glue {
    ghost both = { passes_joined };

    ghost spent = { spent };
}
