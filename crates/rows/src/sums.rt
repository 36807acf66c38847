ghost use Rattle.std.specs.Prelude.{◌≡◌, ◌+◌, ◌-◌, ◌*◌, ◌<◌, ◌≤◌, ◌^◌, IfOk, length, replicate, slice_index, slice_set, true};
ghost use Rattle.std.specs.List.{sum};
ghost use Rattle.rows.specs.Counts.{Finds};
ghost use Rattle.rows.specs.inner.Tree.{span};

use base::NoMemory;
use std::alloc::Global;
use std::marker::Model;

/// A row of numbers below 2^32, and a tree of their sums, in which each node stands over four.
///
/// The sum of them all is at 0, and under the node at `i` are those from `4 * i + 1` to `4 * i + 4`. The numbers are the last level.
#[derive(Drop)]
pub struct Sums {
    tree: Vec<u64>,
    // Where the numbers begin.
    first: usize,
    // How many levels there are above them.
    levels: u32,
    count: u32,
}

/// Where the k-th is.
#[derive(Clone, Copy)]
pub struct KthPlace {
    /// The place of the number that it falls in.
    pub place: usize,
    /// What is left of k there.
    pub rest: u32,
}

impl Model for Sums {
    ghost use Rattle.std.specs.Prelude.{List, ℕ};
    ghost use Rattle.rows.specs.inner.Tree.{numbers_of, IsTree};

    ghost Value = { List ℕ };

    ghost view = { λ s. numbers_of s.tree.items s.first s.count };

    ghost invariant = { λ s. IsTree s.tree.items s.first s.levels s.count };
}

impl Sums {
    /// So many numbers, each of them 0.
    pub fn open(alloc: Global, count: u32) -> Result<Sums, NoMemory>
        ensures { IfOk result (λ sums. sums ≡ replicate count 0) }
    {
        let mut first: usize = 0;
        let mut levels: u32 = 0;
        while 3 * first + 1 < count as usize {
            first = 4 * first + 1;
            levels += 1;
        }
        let tree = vec![in alloc; 0u64; 4 * first + 1]?;
        Ok(Sums {
            tree,
            first,
            levels,
            count,
        })
    }

    /// The same numbers again.
    pub fn try_clone(&self, alloc: Global) -> Result<Sums, NoMemory>
        ensures { IfOk result (λ sums. sums ≡ self.now) }
    {
        let tree = Vec::from_slice(alloc, self.tree.as_slice())?;
        Ok(Sums {
            tree,
            first: self.first,
            levels: self.levels,
            count: self.count,
        })
    }

    /// How many numbers there are.
    #[inline(always)]
    pub fn len(&self) -> usize
        ensures { result ≡ length self.now }
    {
        self.count as usize
    }

    /// The number at a place.
    #[inline(always)]
    pub fn get(&self, at: usize) -> u32
        requires { at < length self.now }
        ensures { result ≡ slice_index self.now at }
    {
        self.tree[self.first + at] as u32
    }

    /// The sum of all.
    #[inline(always)]
    pub fn total(&self) -> u64
        ensures total { result ≡ sum self.now }
        ensures few { sum self.now ≤ 2 ^ 32 * length self.now }
    {
        self.tree[0]
    }

    /// Makes the number at a place another.
    #[inline(always)]
    pub fn set(&mut self, at: usize, value: u32)
        requires { at < length self.old }
        ensures { self.new ≡ slice_set self.old at value }
    {
        let mut node = self.first + at;
        let before = self.tree[node];
        let after = value as u64;
        if before == after {
            return;
        }
        self.tree[node] = after;
        while node > 0 {
            node = (node - 1) / 4;
            self.tree[node] = self.tree[node] - before + after;
        }
    }

    /// The place that the k-th falls in, counted from 0, and what is left of k there.
    #[inline(always)]
    pub fn find(&self, k: u64) -> KthPlace
        requires { k < sum self.now }
        ensures { Finds self.now k result.place result.rest }
    {
        let mut node = 0;
        let mut rest = k;
        for _ in 0..self.levels {
            let (next, left) = fall(&self.tree, 4 * node + 1, rest);
            node = next;
            rest = left;
        }
        KthPlace {
            place: node - self.first,
            rest: rest as u32,
        }
    }

    /// Makes all numbers 0. Where few aren't, it takes no longer than making these 0 one by one.
    pub fn clear(&mut self)
        ensures { self.new ≡ replicate (length self.old) 0 }
    {
        if !self.clear_few() {
            self.tree.fill(0);
        }
    }

    /// Makes the first numbers 0 that aren't, one in 64 of all at most, and answers whether it then knows that none is left.
    fn clear_few(&mut self) -> bool
        ensures count { length self.new ≡ length self.old }
        ensures none { result ≡ true → self.new ≡ replicate (length self.old) 0 }
    {
        for _ in 0..self.count / 64 {
            if self.total() == 0 {
                return true;
            }
            let first = self.find(0);
            self.set(first.place, 0);
        }
        false
    }
}

/// The one of four nodes from one on that what is left falls in, and what is left of it there.
#[inline(always)]
fn fall(tree: &Vec<u64>, node: usize, rest: u64) -> (usize, u64)
    requires inside { node + 3 < length tree.now.items }
    requires within { rest < span tree.now.items node 4 }
    ensures least { node ≤ result.0 }
    ensures most { result.0 < node + 4 }
    ensures front { span tree.now.items node (result.0 - node) + result.1 ≡ rest }
    ensures within { result.1 < slice_index tree.now.items result.0 }
{
    // Which one it is can't be foretold, so nothing branches. A difference that wraps is more than what it was taken from.
    let pair = &tree[node..node + 2];
    let behind = rest.wrapping_sub(pair[0]);
    let is_past = (rest >= pair[0]) & (behind >= pair[1]);
    let (half, left) = if is_past {
        (node + 2, behind - pair[1])
    } else {
        (node, rest)
    };
    let next = tree[half];
    let place = if left < next { half } else { half + 1 };
    (place, left.min(left.wrapping_sub(next)))
}
