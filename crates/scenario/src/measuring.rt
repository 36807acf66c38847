//! How long the words of a scenario are.

ghost use Rattle.std.specs.Prelude.{◌≡◌, min};
ghost use Rattle.scenario.specs.Tree.{plain, plain_all};
ghost use Rattle.scenario.specs.Limits.{greatest, longest, total};

use crate::reading::LONGEST;
use crate::tree::Scenario;
use std::alloc::Allocator;

/// A count above every word that may be read: what is longer is counted as this, so that no sum wraps.
const TOO_MANY: u64 = LONGEST as u64 + 1;

/// The length of the longest word, or 1,000,001 where it is longer.
#[cycle(measuring)]
#[tactic(auto, using(crate::proofs::Children::children, crate::proofs::Lengths::cut_product))]
pub fn longest_word<A: Allocator>(scenario: &Scenario<A>) -> u64
    ensures { result ≡ min (longest (plain scenario.now)) 1000001 }
{
    match scenario {
        Scenario::One(_) => 1,
        Scenario::Seq(children) | Scenario::Both(children) => total_length(children.as_slice()),
        Scenario::Any(children) => greatest_length(children.as_slice()),
        Scenario::Times(turns, child) => (u64::from(*turns) * longest_word(child)).min(TOO_MANY),
    }
}

/// The sum of the children's longest words.
#[cycle(measuring)]
#[tactic(auto, using(crate::proofs::Children::children, crate::proofs::Lengths::cut_product))]
fn total_length<A: Allocator>(children: &[Scenario<A>]) -> u64
    ensures { result ≡ min (total (plain_all children.now)) 1000001 }
{
    let mut length = 0u64;
    for child in children {
        length = (length + longest_word(child)).min(TOO_MANY);
    }
    length
}

/// The greatest of the children's longest words.
#[cycle(measuring)]
#[tactic(auto, using(crate::proofs::Children::children, crate::proofs::Lengths::cut_product))]
fn greatest_length<A: Allocator>(children: &[Scenario<A>]) -> u64
    ensures { result ≡ min (greatest (plain_all children.now)) 1000001 }
{
    let mut length = 0u64;
    for child in children {
        length = length.max(longest_word(child));
    }
    length
}
