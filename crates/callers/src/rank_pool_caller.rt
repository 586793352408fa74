#![tactic(auto)]

ghost use Rattle.std.specs.Prelude.{◌≡◌, ◌<◌, ◌^◌, true, map, All, IfOk, vec_len};

use rank_pool::{Job, OpenGate, PoolRefused, run_pool};
use std::alloc::Global;
use std::sync::Wait;
use std::thread::Threads;

/// Runs all jobs to their ends, in four threads, or in as many as there are jobs.
pub fn run_in_four<J: Job, R: Threads + Wait + Sync>(
    rt: &R,
    alloc: Global,
    jobs: Vec<J>,
    shared: &J::Shared,
) -> Result<Vec<J>, PoolRefused<J>>
    requires few { vec_len jobs < 2 ^ 32 }
    requires belongs { All (λ j. J.belongs j shared.now) jobs.items }
    ensures order { IfOk result (λ v. map J.which v.items ≡ map J.which jobs.items) }
    ensures over { IfOk result (λ v. All (λ j. J.over j ≡ true) v.items) }
{
    run_pool(rt, alloc, jobs, shared, 4, &OpenGate)
}
