//! The steps of one turn, each on one word of the table.
ghost use Rattle.std.specs.Prelude.{◌≡◌, ℕ, ◌+◌, ◌<◌, ◌^◌, [], ◌∷◌, length, MatchBool, Some, None};
ghost use Rattle.ra_turn.specs.Views.{view, slots};
ghost use Rattle.ra_turn.specs.declared.sight.Stage.TheVariants.{Idle, Drawn, Called, InTurn};
ghost use Rattle.ra_turn.specs.Stages.{HasSlot};
ghost use Rattle.ra_turn.specs.Notes.{by};
ghost use Rattle.ra_turn.specs.Seats.{IsSized, IsSameSeat};
ghost use Rattle.ra_turn.specs.Steps.{with_stage, with_seen, with_ticket, ShowsValue, HasOneMore, HasCountedOwn, IsInTurnAt, IsShut, IsTold};

use crate::law::{Desk, Place};
use crate::patience::Patience;
use crate::plays::{Count, Draw, Look, Peek, Queue, See, Serve};
use crate::story::Story;
use std::sync::Wait;

const TICKET: usize = 0;

const SERVING: usize = 1;

const COUNT: usize = 2;

/// How often a pass looks for a free lock before it queues up.
const LOOKS: usize = 1_000;

/// Draws the next ticket if the ticket word is the one given, and says whether it did.
fn try_draw<V: Story>(desk: &Desk<V>, seat: &mut Place<V>, ticket: u64) -> bool
    requires table { (seat.old.table_id ≡ desk.now.table_id) ×
        IsSized desk.now.table_id desk.now.key }
    requires idle { ((view seat.old.me).stage ≡ Idle) × (0 < (view seat.old.me).left) }
    requires small { ticket < 2 ^ 62 }
    ensures same { IsSameSeat seat.old seat.new }
    ensures view { MatchBool result
        (seat.new.me ≡ (with_ticket (view seat.old.me) ticket, slots seat.old.me))
        (seat.new.me ≡ seat.old.me) }
{
    desk.compare_exchange::<Draw>(seat, TICKET, ticket, ticket + 1) == ticket
}

/// Draws the next ticket, after those that wait.
fn queue<V: Story>(desk: &Desk<V>, seat: &mut Place<V>) -> u64
    requires table { (seat.old.table_id ≡ desk.now.table_id) ×
        IsSized desk.now.table_id desk.now.key }
    requires idle { ((view seat.old.me).stage ≡ Idle) × (0 < (view seat.old.me).left) }
    ensures same { IsSameSeat seat.old seat.new }
    ensures view { seat.new.me ≡ (with_ticket (view seat.old.me) result, slots seat.old.me) }
{
    desk.fetch_add::<Queue>(seat, TICKET, 1)
}

/// Draws a ticket, and returns it. It reads first, and draws only if the ticket would be served at once, so that nobody
/// waits for a worker that has drawn a ticket and doesn't run. If `LOOKS` reads find others in their turns, it queues
/// up, and its turn comes after all that are in the queue by then.
pub(crate) fn draw<V: Story>(desk: &Desk<V>, seat: &mut Place<V>) -> u64
    requires table { (seat.old.table_id ≡ desk.now.table_id) ×
        IsSized desk.now.table_id desk.now.key }
    requires idle { ((view seat.old.me).stage ≡ Idle) × (0 < (view seat.old.me).left) }
    ensures same { IsSameSeat seat.old seat.new }
    ensures view { seat.new.me ≡ (with_ticket (view seat.old.me) result, slots seat.old.me) }
{
    let mut patience = Patience::make();
    for _ in 0..LOOKS {
        let next = desk.peek(TICKET);
        let serving = desk.load::<Peek>(seat, SERVING);
        if next == serving && try_draw(desk, seat, serving) {
            return serving;
        }
        patience.pause();
    }
    queue(desk, seat)
}

/// Waits until the ticket is served.
pub(crate) fn wait<V: Story, R: Wait>(rt: &R, desk: &Desk<V>, seat: &mut Place<V>, ticket: u64)
    requires table { (seat.old.table_id ≡ desk.now.table_id) ×
        IsSized desk.now.table_id desk.now.key }
    requires drawn { ((view seat.old.me).stage ≡ Drawn) × ((view seat.old.me).at ≡ ticket) }
    ensures same { IsSameSeat seat.old seat.new }
    ensures view { seat.new.me ≡ (with_stage (view seat.old.me) Called, slots seat.old.me) }
{
    let mut patience = Patience::make();
    for _ in rt.forever() {
        if desk.load::<Look>(seat, SERVING) == ticket {
            return;
        }
        patience.pause();
    }
    unreachable!()
}

/// Reads the length of the whole history, and then takes the value, so that the pass sees all of the history.
pub(crate) fn see<V: Story>(desk: &Desk<V>, seat: &mut Place<V>) -> (u64, V)
    requires table { (seat.old.table_id ≡ desk.now.table_id) ×
        IsSized desk.now.table_id desk.now.key }
    requires called { ((view seat.old.me).stage ≡ Called) × (slots seat.old.me ≡ []) }
    ensures same { IsSameSeat seat.old seat.new }
    ensures shows { ShowsValue V.opening V.notes V.author (view seat.old.me) result.0 result.1 }
    ensures view { seat.new.me ≡ (
      with_seen V.author (view seat.old.me) InTurn (V.notes result.1),
      (0, None) ∷ [],
    ) }
    ensures guards { IsShut V.author V.touches (view seat.new.me) ×
        IsTold V.touches (view seat.new.me) }
{
    let count = desk.load::<See>(seat, COUNT);
    let value = desk.exchange(seat, 0, None);
    (count, value.unwrap())
}

/// Counts the one note that the value has in addition to the `seen` notes that were counted.
fn note<V: Story>(desk: &Desk<V>, seat: &mut Place<V>, seen: u64, value: &Option<V>)
    requires table { (seat.old.table_id ≡ desk.now.table_id) ×
        IsSized desk.now.table_id desk.now.key }
    requires small { seen + 1 < 2 ^ 64 }
    requires holding { IsInTurnAt (view seat.old.me) seen }
    requires one_more { (x : V) × (value.now ≡ Some x) ×
        HasOneMore V.opening V.notes V.author V.touches (view seat.old.me) x }
    ensures same { IsSameSeat seat.old seat.new }
    ensures view { (x : V) → value.now ≡ Some x →
        HasCountedOwn V.notes V.author seat.old.me seat.new.me x }
    ensures made { by V.author (view seat.old.me).own.number (view seat.old.me).own.seen ≡
        (view seat.old.me).own.mine }
{
    desk.compare_exchange_with::<Count>(seat, COUNT, seen, seen + 1, value);
}

/// Puts the value back, and serves the next ticket.
fn put_back<V: Story>(desk: &Desk<V>, seat: &mut Place<V>, value: Option<V>)
    requires table { (seat.old.table_id ≡ desk.now.table_id) ×
        IsSized desk.now.table_id desk.now.key }
    requires has { HasSlot (view seat.old.me).stage × (slots seat.old.me ≡ (0, None) ∷ []) }
    requires value { (x : V) × (value ≡ Some x) × (V.notes x ≡ (view seat.old.me).own.seen) ×
        ((view seat.old.me).opened ≡ Some (V.opening x)) }
    ensures same { IsSameSeat seat.old seat.new }
    ensures view { seat.new.me ≡ (with_stage (view seat.old.me) Idle, []) }
    ensures guards { IsShut V.author V.touches (view seat.new.me) }
{
    let before = desk.exchange(seat, 0, value);
    let None = before else { unreachable!() };
    desk.fetch_add::<Serve>(seat, SERVING, 1);
}

/// Puts back a value whose notes are those that were seen.
pub(crate) fn hand_back<V: Story>(desk: &Desk<V>, seat: &mut Place<V>, value: V)
    requires table { (seat.old.table_id ≡ desk.now.table_id) ×
        IsSized desk.now.table_id desk.now.key }
    requires holding { ((view seat.old.me).stage ≡ InTurn) × (slots seat.old.me ≡ (0, None) ∷ []) }
    requires value { (V.notes value ≡ (view seat.old.me).own.seen) ×
        ((view seat.old.me).opened ≡ Some (V.opening value)) }
    ensures same { IsSameSeat seat.old seat.new }
    ensures view { seat.new.me ≡ (with_stage (view seat.old.me) Idle, []) }
    ensures guards { IsShut V.author V.touches (view seat.new.me) }
{
    put_back(desk, seat, Some(value));
}

/// Puts back a value that has one note more than the `seen` ones.
pub(crate) fn hand_on<V: Story>(desk: &Desk<V>, seat: &mut Place<V>, seen: u64, value: V)
    requires table { (seat.old.table_id ≡ desk.now.table_id) ×
        IsSized desk.now.table_id desk.now.key }
    requires small { seen + 1 < 2 ^ 64 }
    requires holding { IsInTurnAt (view seat.old.me) seen × (slots seat.old.me ≡ (0, None) ∷ []) }
    requires one_more { HasOneMore V.opening V.notes V.author V.touches (view seat.old.me) value }
    ensures same { IsSameSeat seat.old seat.new }
    ensures view { seat.new.me ≡ (with_seen V.author (view seat.old.me) Idle (V.notes value), []) }
    ensures guards { IsShut V.author V.touches (view seat.new.me) }
    ensures made { (by V.author (view seat.old.me).own.number (view seat.old.me).own.seen ≡
        (view seat.old.me).own.mine) × (length (V.notes value) < 2 ^ 62) }
{
    let value = Some(value);
    note(desk, seat, seen, &value);
    put_back(desk, seat, value);
}
