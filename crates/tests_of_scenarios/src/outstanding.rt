ghost use Rattle.cores.specs.Cores.{Completes};

use crate::asserting::same;
use base::{Ask, CacheId};
use cores::Cores;
use std::process::Abort;

/// Compares whether a core is free, and how much it was issued and has finished.
fn has_counts(rt: &impl Abort, cores: &Cores, core: u32, free: bool, issued: u64, finished: u64) {
    let core = CacheId(core);
    let found = (cores.free(core), cores.counts(core));
    same(rt, &found, &(free, (issued, finished)));
}

/// Issues an ask to the first core, and finishes it.
fn issue_and_finish(rt: &impl Abort, cores: &mut Cores, ask: Ask, before: u64, issued: u64)
    requires { Completes ask }
{
    let first = CacheId(0);
    same(rt, &(cores.free(first), cores.all_free()), &(true, true));
    if cores.free(first) {
        cores.issue(first, ask);
    }
    has_counts(rt, cores, 0, false, issued, before);
    has_counts(rt, cores, 1, true, 0, 0);
    same(rt, &cores.all_free(), &false);
    if !cores.free(first) {
        cores.finish(first);
    }
    has_counts(rt, cores, 0, true, issued, issued);
}

#[test]
fn one_core_among_others(rt: HostRuntime) {
    let mut cores = Cores::open(rt.alloc(), 2).expect(&rt, "memory");
    issue_and_finish(&rt, &mut cores, Ask::Load, 0, 1);
    issue_and_finish(&rt, &mut cores, Ask::Store(7), 1, 2);
    let absent = CacheId(2);
    if cores.free(absent) {
        cores.issue(absent, Ask::Load);
    }
    has_counts(&rt, &cores, 2, true, 0, 0);
}
