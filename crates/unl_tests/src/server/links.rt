//! A test of the queue of links (`LinkQueue`), which is compared with its model `LinkState`, a queue for one thread.
ghost use Rattle.std.specs.Prelude.{◌≡◌, ◌<◌};
ghost use Rattle.crossbeam_queue.specs.Passes.{view};
ghost use Rattle.unl_workers.specs.Passes.{IsPassOfQueue};

use std::alloc::Global;
use std::sync::Wait;
use unl_workers::{LinkQueue, LinkState, Popped, QueuePass};

/// Puts a link into the queue and its model. Does nothing if the model is full, since the queue's `put` would block.
fn put_one<W: Wait>(
    rt: &W,
    queue: &LinkQueue<u64>,
    pass: &mut QueuePass<u64>,
    state: &mut LinkState<u64>,
    link: u64,
)
    requires queue { IsPassOfQueue queue.now pass.old }
    requires parts { 0 < (view pass.old).parts }
    requires may_put { (view pass.old).may_put ≡ 1 }
    ensures queue { IsPassOfQueue queue.now pass.new }
    ensures parts { 0 < (view pass.new).parts }
    ensures may_put { (view pass.new).may_put ≡ 1 }
{
    match state.push(link) {
        Some(_) => {}
        None => queue.put(rt, pass, link),
    }
}

/// Puts the links 0, 1, and so on, `count` in all, into the queue and its model, each as `put_one` does.
fn put_both<W: Wait>(
    rt: &W,
    queue: &LinkQueue<u64>,
    pass: &mut QueuePass<u64>,
    state: &mut LinkState<u64>,
    count: u64,
)
    requires queue { IsPassOfQueue queue.now pass.old }
    requires parts { 0 < (view pass.old).parts }
    requires may_put { (view pass.old).may_put ≡ 1 }
    ensures queue { IsPassOfQueue queue.now pass.new }
    ensures parts { 0 < (view pass.new).parts }
    ensures may_put { (view pass.new).may_put ≡ 1 }
{
    for link in 0..count {
        put_one(rt, queue, pass, state, link);
    }
}

/// Takes the oldest link out of the queue and its model. Returns whether both returned the same. If the model is empty
/// and not closed, the queue's `take` would block, so it is not called and the result is true.
fn take_one<W: Wait>(
    rt: &W,
    queue: &LinkQueue<u64>,
    pass: &mut QueuePass<u64>,
    state: &mut LinkState<u64>,
) -> bool
    requires queue { IsPassOfQueue queue.now pass.old }
    requires parts { 0 < (view pass.old).parts }
    ensures queue { IsPassOfQueue queue.now pass.new }
    ensures parts { 0 < (view pass.new).parts }
    ensures may_put { (view pass.new).may_put ≡ (view pass.old).may_put }
{
    match state.pop() {
        Popped::Taken(link) => queue.take(rt, pass) == Some(link),
        Popped::Closed => queue.take(rt, pass).is_none(),
        Popped::Empty => true,
    }
}

/// Takes a link `times` times, as `take_one` does. Returns whether the queue and its model returned the same each time.
fn take_both<W: Wait>(
    rt: &W,
    queue: &LinkQueue<u64>,
    pass: &mut QueuePass<u64>,
    state: &mut LinkState<u64>,
    times: u64,
) -> bool
    requires queue { IsPassOfQueue queue.now pass.old }
    requires parts { 0 < (view pass.old).parts }
    ensures queue { IsPassOfQueue queue.now pass.new }
    ensures parts { 0 < (view pass.new).parts }
    ensures may_put { (view pass.new).may_put ≡ (view pass.old).may_put }
{
    for _ in 0..times {
        if !take_one(rt, queue, pass, state) {
            return false;
        }
    }
    true
}

/// Puts links into the queue and its model and takes links out, also when they are full, empty or closed. Returns
/// whether both always returned the same, or `None` if out of memory.
fn agree<W: Wait>(rt: &W, alloc: Global) -> Option<bool> {
    let Ok((queue, mut pass)) = LinkQueue::new(alloc) else {
        return None;
    };
    let Ok(mut state) = LinkState::new(alloc) else {
        return None;
    };
    put_both(rt, &queue, &mut pass, &mut state, 70);
    let shorter = take_both(rt, &queue, &mut pass, &mut state, 30);
    put_both(rt, &queue, &mut pass, &mut state, 20);
    let empty = take_both(rt, &queue, &mut pass, &mut state, 60);
    put_both(rt, &queue, &mut pass, &mut state, 30);
    queue.close(rt, &mut pass);
    state.close();
    let closed = take_both(rt, &queue, &mut pass, &mut state, 40);
    Some(shorter && empty && closed)
}

#[test]
fn a_queue_does_what_its_state_says(rt: HostRuntime) {
    assert!(rt; agree(&rt, rt.alloc()) == Some(true));
}
