// Two workers that claim all jobs.
use bytes::Bytes;
use slate_services::jobs::claim_by_two;
use std::alloc::Global;
use std::sync::Wait;
use std::thread::Threads;

// Whether two workers together claim just twenty jobs, each once. Each has twenty turns. In a turn it
// claims a job, or conflicts with a claim of the other worker, and with no claim in two turns, or
// finds that no job is free. So a worker that never finds that sees twenty claims, its own or others'.
fn are_all_claimed<R: Threads + Wait + Sync>(rt: &R, alloc: Global) -> bool {
    let payload = Bytes::from_static(b"x");
    match claim_by_two(rt, alloc, &payload, 20, 0, 1000, 20) {
        Ok(left) => left.added == 20 && left.first.saturating_add(left.second) == 20,
        Err(_) => false,
    }
}

#[test]
fn two_workers_claim_all_jobs(rt: HostRuntime) {
    assert!(rt; are_all_claimed(&rt, rt.alloc()));
}
