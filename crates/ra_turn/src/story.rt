//! What the protected value tells of itself.
ghost use Rattle.std.specs.Prelude.{◌≡◌, ℕ, List, Bool, length};

/// A value that keeps a history: a list of notes under one opening, to which its holder may add.
pub trait Story {
    /// A note of the history.
    type Note;

    /// The part of the value that never changes. Only clauses name this type; no value of it is made.
    type Opening;

    /// The opening of a value.
    ghost opening: { Self → Self.Opening };

    /// The notes of a value, in their order.
    ghost notes: { Self → List Self.Note };

    /// The number of the pass that made a note.
    ghost author: { Self.Note → ℕ };

    /// Whether a note touches a guard, under an opening.
    ghost touches: { Self.Opening → Self.Note → ℕ → Bool };

    /// How many notes it has.
    fn note_count(&self) -> u64
        ensures { result ≡ length (notes self.now) };
}
