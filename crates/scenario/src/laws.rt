//! What ties offers, what is left and words together, and what the form of scenarios in JSON comes to.

ghost use Rattle.std.specs.Prelude.{Err, IfErr, IfOk, List, None, Ok, Result, Some, [], length, slice_get, true};
ghost use Rattle.std.specs.Prelude.{ℕ, ◌+◌, ◌<◌, ◌↔◌, ◌∷◌, ◌≡◌, ◌≢◌, ◌⊎◌};
ghost use Rattle.serde_json.specs.Data.{Data};
ghost use Rattle.base.specs.Extent.{Extent};
ghost use Rattle.base.specs.declared.step.CoreAsk.{CoreAsk};
ghost use Rattle.scenario.specs.Alike.{Alike};
ghost use Rattle.scenario.specs.Limits.{FitsTypes, IsWithin, Throughout};
ghost use Rattle.scenario.specs.Refusals.{IsRefusal, first_fault};
ghost use Rattle.scenario.specs.Says.{IsTextOf, Says};
ghost use Rattle.scenario.specs.Shown.{shown};
ghost use Rattle.scenario.specs.Taking.{ends, left, offers};
ghost use Rattle.scenario.specs.Tree.{Tree};
ghost use Rattle.scenario.specs.Words.{IsWord};
ghost use Rattle.scenario.specs.declared.reading.ScenarioFault.{ScenarioFault};
ghost use Rattle.scenario.specs.declared.reading.ScenarioFault.TheVariants.{NoMemory};

/// Taking offers reaches every word of a tree and nothing else: the empty list is a word exactly where the tree may end,
/// and an ask in front of others exactly where it is offered and the others are a word of what is then left.
pub fn offers_reach_the_words()
    ensures end { (t : Tree) → IsWord t [] ↔ (ends t ≡ true) }
    ensures ask { (t : Tree) (ask : CoreAsk) (others : List CoreAsk) →
        IsWord t (ask ∷ others) ↔ ((i : ℕ) × (slice_get (offers t) i ≡ Some ask) × IsWord (left t i) others) }
{}

/// Alike trees are alike whatever is taken: they offer the same, may end together, and what is left of both is alike.
pub fn alike_trees_stay_alike()
    ensures offers { (s t : Tree) → Alike s t → offers s ≡ offers t }
    ensures ends { (s t : Tree) → Alike s t → ends s ≡ ends t }
    ensures left { (s t : Tree) (i : ℕ) → Alike s t → i < length (offers s) → Alike (left s i) (left t i) }
{}

/// Alike trees have the same words.
pub fn alike_trees_have_the_same_words()
    ensures { (s t : Tree) (word : List CoreAsk) → Alike s t → IsWord s word → IsWord t word }
{}

/// A value says one tree at most, and a text is the text of one tree at most, whatever the shape. The value that a tree is
/// written as says this tree.
pub fn a_text_is_of_one_tree()
    ensures value { (value : Data) (one other : Tree) → Says value one → Says value other → one ≡ other }
    ensures text { (bytes : List ℕ) (one other : Tree) → IsTextOf bytes one → IsTextOf bytes other → one ≡ other }
    ensures written { (tree : Tree) → Throughout FitsTypes tree → Says (shown tree) tree }
{}

/// A text of a tree within the limits is refused only for want of memory. So what is read is exactly these trees.
///
/// What [`Scenario::read`](crate::Scenario::read) may answer of such a text is therefore this tree, or want of memory.
pub fn trees_within_are_read()
    ensures value { (shape : Extent) (value : Data) (tree : Tree) →
        IsWithin shape tree → Says value tree → first_fault shape value ≡ None }
    ensures text { (shape : Extent) (bytes : List ℕ) (tree : Tree) (fault : ScenarioFault) →
        IsWithin shape tree → IsTextOf bytes tree → IsRefusal shape bytes fault → fault ≡ NoMemory }
    ensures answer { (shape : Extent) (bytes : List ℕ) (tree : Tree) (answer : Result Tree ScenarioFault) →
        IsWithin shape tree → IsTextOf bytes tree → IfOk answer (IsTextOf bytes) → IfErr answer (IsRefusal shape bytes) →
        (answer ≡ Ok tree) ⊎ (answer ≡ Err NoMemory) }
{}

/// JSON without a first fault says a tree.
pub fn json_without_fault_is_a_tree()
    ensures { (shape : Extent) (value : Data) → first_fault shape value ≡ None → (tree : Tree) × Says value tree }
{}

/// A text has one refusal at most, beside the want of memory.
pub fn one_refusal_at_most()
    ensures { (shape : Extent) (bytes : List ℕ) (one other : ScenarioFault) →
        IsRefusal shape bytes one → IsRefusal shape bytes other → one ≢ NoMemory → other ≢ NoMemory → one ≡ other }
{}
