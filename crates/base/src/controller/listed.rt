ghost use Rattle.std.specs.Prelude.{◌≡◌, ◌<◌, ◌≤◌, ℕ, Bool, List, MatchOption, Some, length, slice_get, true};
ghost use Rattle.base.specs.Spelling.{is_name, named_in, named_of, IsUnnamed};
ghost use Rattle.base.specs.declared.controller.protocol.Protocol.{Protocol};

use crate::controller::protocol::Protocol;

/// A state, an event or an action of a controller: one of a few of its kind, which stand in a fixed order and have names.
pub trait Listed: Copy + PartialEq + 'static {
    /// How it is spelled.
    ghost spelling: { Self → List ℕ };

    /// Its number among its kind, counted from 0.
    ghost place: { Self → ℕ };

    /// All of its kind, in order.
    ghost kind: { List Self };

    /// The one that stands first.
    ghost head: { Self };

    /// What of its kind a protocol has.
    ghost has: { Protocol → Self → Bool };

    /// How it is spelled in texts: in at most 13 bytes.
    fn name(self) -> &'static str
        ensures name { result.now ≡ spelling self }
        ensures short { length (spelling self) ≤ 13 };

    /// Its number among its kind, counted from 0.
    fn number(self) -> usize
        ensures number { result ≡ place self }
        ensures small { result < length kind };

    /// All of its kind, in order.
    fn all() -> &'static [Self]
        ensures { result.now ≡ kind };

    /// The one of its kind that stands first.
    fn first() -> Self
        ensures { result ≡ head };

    /// Whether a protocol has it.
    fn is_in(self, protocol: Protocol) -> bool
        ensures { result ≡ has protocol self };

    /// Each stands at its number.
    ghost stands: { (x : Self) → slice_get kind (place x) ≡ Some x };

    /// Each is found by its name.
    ghost found: { (x : Self) → named_in spelling kind (spelling x) ≡ Some x };

    /// Each name is one word.
    ghost plain: { (x : Self) → is_name (spelling x) ≡ true };
}

/// The one of its kind that has this name. `None` comes exactly where none has it.
pub fn named<N: Listed>(name: &[u8]) -> Option<N>
    ensures spelled { MatchOption result (IsUnnamed N.spelling name.now) (λ x. name.now ≡ N.spelling x) }
    ensures named { result ≡ named_in N.spelling N.kind name.now }
{
    find_named(N::all(), name)
}

/// The one of its kind that has this name, if a protocol has it.
pub fn named_of<N: Listed>(protocol: Protocol, name: &[u8]) -> Option<N>
    ensures { result ≡ named_of (N.has protocol) N.spelling N.kind name.now }
{
    let found = named::<N>(name)?;
    if found.is_in(protocol) {
        Some(found)
    } else {
        None
    }
}

/// The first of these that has this name.
fn find_named<N: Listed>(all: &[N], name: &[u8]) -> Option<N>
    ensures { result ≡ named_in N.spelling all.now name.now }
{
    for &one in all {
        if one.name().as_bytes() == name {
            return Some(one);
        }
    }
    None
}
