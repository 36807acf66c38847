ghost use Rattle.std.specs.Prelude.{◌≡◌, ◌↔◌, ℕ, IfOk, length, replicate, true};
ghost use Rattle.cores.specs.Cores.{idle, is_free};
ghost use Rattle.cores.specs.inner.Touched.{AreIdleBut};

use base::{Ask, CacheId, NoMemory};
use rows::Bits;
use std::alloc::Global;
use std::marker::Model;

/// What one core has asked.
#[derive(Clone, Copy)]
struct Core {
    outstanding: Option<Ask>,
    issued: u64,
    finished: u64,
}

/// What each of some cores has outstanding: one load or store at most.
#[derive(Drop)]
pub struct Cores {
    alloc: Global,
    cores: Vec<Core>,
    // A flag for each core, which is set where it has asked something.
    touched: Bits,
}

impl Model for Core {
    ghost use Rattle.cores.specs.Cores as spec;

    ghost Value = { spec.Core };

    ghost view = { λ c. record { outstanding = c.outstanding; issued = c.issued; finished = c.finished } };

    ghost inverse = { λ c. record { outstanding = c.outstanding; issued = c.issued; finished = c.finished } };
}

impl Core {
    ghost use Rattle.std.specs.Prelude.{◌≡◌, is_none};
    ghost use Rattle.cores.specs.Cores.{finishing, idle, issuing};

    /// A core that has asked nothing.
    fn idle() -> Core
        ensures { result ≡ idle }
    {
        Core {
            outstanding: None,
            issued: 0,
            finished: 0,
        }
    }

    fn issue(&mut self, ask: Ask)
        ensures { self.new ≡ issuing ask self.old }
    {
        self.outstanding = Some(ask);
        self.issued = self.issued.saturating_add(1);
    }

    fn is_free(&self) -> bool
        ensures { result ≡ is_none self.now.outstanding }
    {
        self.outstanding.is_none()
    }

    fn counts(&self) -> (u64, u64)
        ensures issued { result.0 ≡ self.now.issued }
        ensures finished { result.1 ≡ self.now.finished }
    {
        (self.issued, self.finished)
    }

    fn finish(&mut self)
        ensures { self.new ≡ finishing self.old }
    {
        self.outstanding = None;
        self.finished = self.finished.saturating_add(1);
    }
}

impl Model for Cores {
    ghost use Rattle.std.specs.Prelude.{List};
    ghost use Rattle.cores.specs.Cores as spec;
    ghost use Rattle.cores.specs.inner.Counted.{AreCounted};
    ghost use Rattle.cores.specs.inner.Touched.{AreIdleBut};

    ghost Value = { List spec.Core };

    ghost view = { λ c. c.cores.items };

    ghost invariant = { λ c. AreCounted c.cores.items × AreIdleBut c.touched c.cores.items };
}

impl Cores {
    ghost use Rattle.std.specs.Prelude.{◌≡◌, ◌≤◌, ◌+◌, ◌↔◌, ℕ, true, false, IfOk, OnErr, OnOk, slice_index_or, replicate};
    ghost use Rattle.cores.specs.Cores.{Completes, finishing, idle, is_free, issuing, with_core};

    /// So many cores, none of which has asked anything.
    pub fn open(alloc: Global, n: u32) -> Result<Cores, NoMemory>
        ensures { IfOk result (λ cores. cores ≡ replicate n idle) }
    {
        let cores = idle_cores(alloc, n)?;
        let touched = Bits::open(alloc, n)?;
        Ok(Cores {
            alloc,
            cores,
            touched,
        })
    }

    /// Whatever they have asked, there are so many cores from now on, none of which has asked anything. It takes memory only
    /// where there are more or fewer of them than there were; else it costs what those have that have asked something.
    ///
    /// Where memory is refused, nothing has changed.
    pub fn reset(&mut self, n: u32) -> Result<(), NoMemory>
        ensures ok { OnOk result (self.new ≡ replicate n idle) }
        ensures err { OnErr result (self.new ≡ self.old) }
    {
        if n != self.touched.places() {
            *self = Cores::open(self.alloc, n)?;
            return Ok(());
        }
        make_idle(&mut self.cores, &self.touched);
        self.touched.clear();
        Ok(())
    }

    /// Whether nothing of the core is outstanding. A core that isn't there is free.
    pub fn free(&self, core: CacheId) -> bool
        ensures { result ≡ is_free self.now core.0 }
    {
        let number = core.0 as usize;
        number >= self.cores.len() || self.cores[number].outstanding.is_none()
    }

    /// Whether nothing of any core is outstanding.
    pub fn all_free(&self) -> bool
        ensures { (result ≡ true) ↔ ((core : ℕ) → is_free self.now core ≡ true) }
    {
        are_free(self.cores.as_slice(), &self.touched)
    }

    /// The core issues a load or a store. Where the core isn't there, nothing changes.
    pub fn issue(&mut self, core: CacheId, ask: Ask)
        requires free { is_free self.old core.0 ≡ true }
        requires completes { Completes ask }
        ensures { self.new ≡ with_core self.old core.0 (issuing ask) }
    {
        let number = core.0 as usize;
        if number < self.cores.len() {
            self.cores[number].issue(ask);
            self.touched.set(core.0, true);
        }
    }

    /// What the core has outstanding finishes.
    pub fn finish(&mut self, core: CacheId)
        requires { is_free self.old core.0 ≡ false }
        ensures { self.new ≡ with_core self.old core.0 finishing }
    {
        let number = core.0 as usize;
        if number < self.cores.len() {
            self.cores[number].finish();
        }
    }

    /// How many loads and stores the core has issued, and how many of them have finished, each counted up to
    /// `u64::MAX`. They differ by one at most. A core that isn't there has issued none.
    pub fn counts(&self, core: CacheId) -> (u64, u64)
        ensures issued { result.0 ≡ (slice_index_or self.now core.0 idle).issued }
        ensures finished { result.1 ≡ (slice_index_or self.now core.0 idle).finished }
        ensures one_apart { (result.1 ≤ result.0) × (result.0 ≤ result.1 + 1) }
    {
        let number = core.0 as usize;
        if number >= self.cores.len() {
            return (0, 0);
        }
        self.cores[number].counts()
    }
}

/// So many idle cores.
fn idle_cores(alloc: Global, n: u32) -> Result<Vec<Core>, NoMemory>
    ensures { IfOk result (λ cores. cores.items ≡ replicate n idle) }
{
    let mut cores = Vec::with_capacity(alloc, n as usize)?;
    for _ in 0..n {
        cores.push_reserved(Core::idle());
    }
    Ok(cores)
}

/// Makes the cores idle that have asked something.
fn make_idle(cores: &mut Vec<Core>, touched: &Bits)
    requires { AreIdleBut touched.now cores.old.items }
    ensures { cores.new.items ≡ replicate (length touched.now) idle }
{
    // No core has the largest number, so the number after one fits.
    let count = touched.places();
    let mut from = 0;
    while from < count {
        let Some(at) = touched.next_from(from) else {
            return;
        };
        cores[at as usize] = Core::idle();
        from = at + 1;
    }
}

/// Whether nothing of any core is outstanding. Of those that have asked nothing nothing is.
fn are_free(cores: &[Core], touched: &Bits) -> bool
    requires { AreIdleBut touched.now cores.now }
    ensures { (result ≡ true) ↔ ((core : ℕ) → is_free cores.now core ≡ true) }
{
    let count = touched.places();
    let mut from = 0;
    while from < count {
        let Some(at) = touched.next_from(from) else {
            return true;
        };
        if !cores[at as usize].is_free() {
            return false;
        }
        from = at + 1;
    }
    true
}
