//! A test that reopens a keeper in memory that already has rows, which no program does.
use crate::keepers::upstreams::{opened, put, state_of_dev};
use std::alloc::Global;
use unl_documents::List;
use unl_keeper::MemoryKeeper;

/// Puts two features and reopens the upstream. Returns the version number and the features that it has then.
fn reopened(alloc: Global) -> Option<(u64, String)> {
    let mut keeper = MemoryKeeper::new(alloc, List::new(alloc));
    let mut up = opened(alloc, &mut keeper)?;
    put(alloc, &mut up, &mut keeper, 'a')?;
    put(alloc, &mut up, &mut keeper, 'b')?;
    let up = opened(alloc, &mut keeper)?;
    state_of_dev(alloc, &up)
}

#[test]
fn a_keeper_in_memory_has_its_rows_again(rt: HostRuntime) {
    let state = reopened(rt.alloc());
    assert!(rt; state.is_some_and(|(number, names)| number == 2 && names.as_str() == "ab"));
}
