// Does one piece of work with the explored world or its parts, at a size, so that a clock outside can measure it.
#![tactic(auto)]

mod rows;
mod signals;
mod worlds;

use anyhow::Error;
use rows::{copy_often, walk_rows};
use signals::{receive_past, send_through};
use std::alloc::{AllocError, Global};
use std::env;
use world_model::table::Kind;
use worlds::{contents_of, copy_world};

// Does the work of this name at this size, and counts what it did; of another name it does nothing.
fn work(alloc: Global, name: &str, size: u32) -> Result<u32, AllocError> {
    match name {
        "set" => walk_rows(alloc, Kind::Set, size),
        "ordered_set" => walk_rows(alloc, Kind::OrderedSet, size),
        "copies" => copy_often(alloc, size),
        "signals" => send_through(alloc, size),
        "receive" => receive_past(alloc, size),
        _ => Ok(
            contents_of(name, size)
                .and_then(|contents| copy_world(alloc, contents))
                .unwrap_or(0),
        ),
    }
}

fn main(rt: HostRuntime) -> Result<(), Error> {
    let words: Vec<String> = env::args(&rt)?.collect(rt.alloc())?;
    let [_, name, size] = words.as_slice() else {
        println!(rt;
            "usage: test_measures set|ordered_set|copies|signals|receive|processes|references|messages|objects SIZE"
        )?;
        return Ok(());
    };
    let size: u32 = size.as_str().parse()?;
    let count = work(rt.alloc(), name.as_str(), size)?;
    println!(rt; "{count}")?;
    Ok(())
}
