//! What is found is the only one that it can be.

ghost use Rattle.std.specs.Prelude.{◌≡◌, ◌<◌, ◌≤◌, ◌+◌, ℕ, List, take};
ghost use Rattle.std.specs.List.{sum};
ghost use Rattle.rows.specs.Counts.{Finds};

/// No other place and rest are found for the same k.
pub fn only_one_is_found()
    ensures { (numbers : List ℕ) (k place rest place2 rest2 : ℕ) → Finds numbers k place rest → Finds numbers k place2 rest2 →
        (place ≡ place2) × (rest ≡ rest2) }
{}

/// The place is the least one whose front sum, its own number in it, passes k.
pub fn found_place_is_the_first()
    ensures { (numbers : List ℕ) (k place rest : ℕ) → Finds numbers k place rest →
        (k < sum (take (place + 1) numbers)) × ((i : ℕ) → i < place → sum (take (i + 1) numbers) ≤ k) }
{}
