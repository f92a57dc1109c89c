//! Laws of the definitions, as contracts of functions that do nothing.

ghost use Rattle.std.specs.List.{IsDistinct, filter_map, flat_map};
ghost use Rattle.std.specs.List.Sorted.{IsPermutation, IsStrictlySortedBy};
ghost use Rattle.std.specs.Cmp.{IsEquivalence};
ghost use Rattle.std.specs.Prelude.{◌≡◌, ◌↔◌, ◌++◌, ◌∷◌, Bool, List, All, Contains, length, Option, Some};
ghost use Rattle.summary_law.specs.Count.{Change, keeps, change_read, count_of};
ghost use Rattle.summary_law.specs.Count.{IsCount, IsCountOf, IsWithin, CountsOneMore};
ghost use Rattle.summary_law.specs.Readings.{read_all, with_key, by_key, HasKeyIn};
ghost use Rattle.summary_law.specs.Sorted.{sorted};
ghost use Rattle.std.specs.declared.cmp.Ordering.TheVariants.{Equal};
ghost use Rattle.summary_law.specs.declared.count.Count.{Count};

/// A list of changes has exactly one count, `count_of`. One more change that keeps a count leaves
/// the count as it is. Neither the sum nor the low of a count is further from 0 than its list of
/// changes is long.
pub fn counts()
    ensures one { (count : Count) (changes : List Change) →
        IsCount count changes ↔ (count ≡ count_of changes) }
    ensures kept { (count : Count) → CountsOneMore keeps count count }
    ensures within { (count : Count) (changes : List Change) → IsCount count changes →
        IsWithin count (length changes) }
{}

/// If items are read from things, the count of the items is also the count over all things, with a
/// low over all prefixes of the things: a thing from which no item is read keeps the count.
pub fn counts_of_read_items<E, I>()
    ensures { (read : E → Option I) (change : I → Change) (count : Count) (things : List E) →
        IsCountOf change count (filter_map read things) →
        IsCountOf (change_read read change) count things }
{}

/// What is read of a list is what the reading gives of an element, with what comes before it and
/// what comes after it, and nothing else. If each element has one of some different keys, what is
/// read by key is what is read of the elements of each key alone, except for the order.
pub fn readings<K, X, Y>()
    ensures exact { (read : List X → X → List X → Option Y) (xs : List X) (y : Y) →
        Contains (read_all read xs) y ↔ ((before : List X) × (x : X) × (after : List X)
        × (xs ≡ before ++ x ∷ after) × (read before x after ≡ Some y)) }
    ensures by_key { (eq : K → K → Bool) (key : X → K) (read : List X → X → List X → Option Y)
        (keys : List K) (xs : List X) → IsEquivalence eq → IsDistinct eq keys →
        All (HasKeyIn eq key keys) xs →
        IsPermutation (flat_map (λ k. read_all read (with_key eq key k xs)) keys)
        (read_all (by_key eq key read) xs) }
{}

/// The elements of a sorted list rise strictly. If only equal elements compare as equal, they are
/// the elements of the list.
pub fn sorted_lists<K: Ord>()
    ensures rising { (xs : List K) → IsStrictlySortedBy K.cmp (sorted K.cmp xs) }
    ensures members { ((x y : K) → K.cmp x y ≡ Equal → x ≡ y) → (xs : List K) (x : K) →
        Contains (sorted K.cmp xs) x ↔ Contains xs x }
{}
