//! What is picked from the things of a list.

ghost use Rattle.std.specs.Prelude.{◌≡◌, Option};

/// A reader of things: from each it picks an item, or nothing. A reader with a lifetime has a
/// `PhantomData` of the thing.
pub trait Picks {
    /// What it picks from.
    type Thing: Copy;

    /// What is picked.
    type Item;

    /// The item of a thing, if there is one.
    ghost picks: { Self.Thing → Option Self.Item };

    /// Picks the item of the thing, if there is one.
    fn pick(thing: Self::Thing) -> Option<Self::Item>
        ensures { result ≡ picks thing };
}
