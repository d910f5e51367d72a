// The words that excuse something, or say what counts as an error.
use crate::asked::{are_asked, is_asked};
use std::test::Fail;
use test_support::nested;

// Words that excuse something, and what they excuse: deadlocks where the first process does not wait, and reasons.
const EXCUSES: &str = r#"
explore --depth 1 --main-deadlock -> explore depth 1, nodes 1000000, workers 1, by tree, plain, main-deadlock
explore --normal 'boom' --depth 1 -> explore depth 1, nodes 1000000, workers 1, by tree, plain, normal 'boom'
explore --normal 'boom' --depth 1 --job "P | " --normal 7 -> explore job "P | ", depth 1, nodes 1000000, workers 1, by tree, normal 'boom', normal 7
check --normal {'shutdown',[1,2|'x']} --depth 1 --main-deadlock --normal [] --normal {'shutdown',[1,2|'x']} -> check depth 1, main-deadlock, normal {'shutdown',[1,2|'x']}, normal [], normal {'shutdown',[1,2|'x']}
merge --normal {'shutdown',[1,2|'x']} --main-deadlock --at 1 --depth 2 --normal 'boom' -> merge depth 2, at 1, main-deadlock, normal {'shutdown',[1,2|'x']}, normal 'boom'
sample --normal {'shutdown','_'} --main-deadlock --depth 2 --normal 'boom' -> sample depth 2, runs 1000, seed 1, at any time, plain, main-deadlock, normal {'shutdown','_'}, normal 'boom'
"#;

#[test]
fn reads_what_is_excused(rt: HostRuntime) -> Result<(), Fail> {
    are_asked(rt.alloc(), EXCUSES)
}

// No more may be given.
#[test]
fn reads_sixteen_reasons(rt: HostRuntime) -> Result<(), Fail> {
    let words = nested(rt.alloc(), "check --depth 1", " --normal []", 16, "", "")?;
    let wanted = nested(rt.alloc(), "check depth 1", ", normal []", 16, "", "")?;
    is_asked(rt.alloc(), words.as_str(), wanted.as_str())
}

// Words with `--idle-servers`. What is unread counts, and a deadlock without the first process is normal.
const IDLE_SERVERS: &str = r#"
explore --depth 1 --idle-servers -> explore depth 1, nodes 1000000, workers 1, by tree, plain, idle-servers, main-deadlock
explore --idle-servers --depth 1 --job "P | " -> explore job "P | ", depth 1, nodes 1000000, workers 1, by tree, idle-servers, main-deadlock
explore --format terms --idle-servers --depth 1 -> explore depth 1, nodes 1000000, workers 1, by tree, as terms, idle-servers, main-deadlock
check --idle-servers --depth 1 -> check depth 1, idle-servers, main-deadlock
merge --depth 2 --idle-servers --at 1 -> merge depth 2, at 1, idle-servers, main-deadlock
sample --depth 2 --idle-servers -> sample depth 2, runs 1000, seed 1, at any time, plain, idle-servers, main-deadlock
sample --idle-servers --depth 2 --format terms -> sample depth 2, runs 1000, seed 1, at any time, as terms, idle-servers, main-deadlock
"#;

#[test]
fn reads_idle_servers(rt: HostRuntime) -> Result<(), Fail> {
    are_asked(rt.alloc(), IDLE_SERVERS)
}
