//! Pairs with the order in which the home last served their two caches.

ghost use Rattle.std.specs.Prelude.{◌≡◌, ◌==◌};
ghost use Rattle.pairs.specs.Pairs.{data_to};
ghost use Rattle.closing.specs.Ranked as ranked;

use pairs::{Pair, PairSide, Rule};

/// In what order the home last served a request of each of two caches, as far as it is known.
#[derive(Clone, Copy, PartialEq, Eq, Debug)]
pub enum Order {
    Unknown,
    /// The first cache's before the second's.
    Before,
    /// The first cache's after the second's.
    After,
}

/// A pair, and the order of its two caches.
#[derive(Clone, Copy, Debug)]
pub struct RankedPair {
    pub pair: Pair,
    pub order: Order,
}

/// Whether no Data are on their way to a cache.
fn lacks_data(side: &PairSide) -> bool
    ensures { result ≡ (data_to side.now == 0) }
{
    side.dir_data == 0 && side.owner_data == 0 && side.excl_data == 0
}

/// Whether Data, forwards or acks are on their way to a cache.
pub(crate) fn is_busy(side: &PairSide) -> bool
    ensures { result ≡ ranked.is_busy side.now }
{
    !lacks_data(side) || side.link.len() != 0 || side.owed
}

/// Whether Data, forwards or acks concern a cache.
pub(crate) fn is_open(side: &PairSide) -> bool
    ensures { result ≡ ranked.is_open side.now }
{
    is_busy(side) || side.fwd_gets != 0 || side.fwd_getm != 0
}

/// Whether a request comes to the home by a rule.
pub(crate) fn is_request(rule: Rule) -> bool
    ensures { result ≡ ranked.is_request rule }
{
    matches!(
        rule,
        Rule::SentGetS | Rule::SentGetM | Rule::SentPutS | Rule::SentPutM
    )
}

impl Order {
    /// The order as the other cache has it.
    fn turned(self) -> Order
        ensures { result ≡ ranked.turned self }
    {
        match self {
            Order::Unknown => Order::Unknown,
            Order::Before => Order::After,
            Order::After => Order::Before,
        }
    }

    /// The order after a step of the first cache by a rule.
    pub(crate) fn after(self, rule: Rule) -> Order
        ensures { result ≡ ranked.order_after rule self }
    {
        if is_request(rule) { Order::After } else { self }
    }
}

impl RankedPair {
    ghost use Rattle.std.specs.Prelude.{◌≡◌, ◌↔◌, IsTrue};

    /// Any two caches of a block that nothing has happened to.
    pub(crate) fn opened() -> RankedPair
        ensures { result ≡ ranked.opened_ranked }
    {
        RankedPair {
            pair: Pair::opened(),
            order: Order::Unknown,
        }
    }

    /// A pair with an order, which is kept while both caches are open.
    pub(crate) fn of(pair: &Pair, order: Order) -> RankedPair
        ensures { result ≡ ranked.ranked pair.now order }
    {
        let both_open = is_open(&pair.first) && is_open(&pair.second);
        RankedPair {
            pair: *pair,
            order: if both_open { order } else { Order::Unknown },
        }
    }

    /// The same with the caches in the other order.
    pub(crate) fn turned(&self) -> RankedPair
        ensures { result ≡ ranked.turned_pair self.now }
    {
        RankedPair {
            pair: self.pair.swapped(),
            order: self.order.turned(),
        }
    }

    /// Whether both are the same.
    pub(crate) fn is_same(&self, other: &RankedPair) -> bool
        ensures { IsTrue result ↔ (self.now ≡ other.now) }
    {
        self.pair.is_same(&other.pair) & (self.order == other.order)
    }
}
