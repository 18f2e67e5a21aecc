//! What becomes of the offsets and block starts of a plan: they are only counted, or written into
//! lists that are lent.

ghost use Rattle.std.specs.Prelude.{◌≡◌, ℕ, ◌<◌, List, length, slice_set};

/// What becomes of a number that belongs at an index of a lent list: a type parameter, so that one
/// loop counts and writes.
//
// A closure would do that, too, but what it writes to a lent list is not known after the call; nor
// is it where `zip` or `try_fold` go over the list.
pub trait Listing {
    // The list after a number was listed at an index.
    ghost listed: { List ℕ → ℕ → ℕ → List ℕ };

    // A list of so many places takes a number at an index.
    ghost room: { ℕ → ℕ → Type 0 };

    fn list(places: &mut [u64], index: usize, number: u64)
        requires { room (length places.old) index }
        ensures { places.new ≡ listed places.old index number };
}

/// The numbers are counted alone: no list changes.
pub struct Counted;

impl Listing for Counted {
    ghost listed = { λ places _ _. places };

    ghost room = { λ _ _. Unit {0} };

    fn list(_places: &mut [u64], _index: usize, _number: u64) {}
}

/// The numbers are written at their indices.
pub struct Written;

impl Listing for Written {
    ghost listed = { slice_set };

    ghost room = { λ places index. index < places };

    fn list(places: &mut [u64], index: usize, number: u64) {
        places[index] = number;
    }
}
