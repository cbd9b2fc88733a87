// Reads a program text from standard input and prints its rules again, or the line that tells why it is refused.
#![tactic(auto)]

use anyhow::Context;
use reader::lists::Lists;
use report::rewriting::rewrite_or_tell;
use std::io::{Read, Write};

const ROOM: usize = 65_536;

// One byte more than a text may have shows that it is too long.
const TAKEN: u64 = 65_537;

fn run(rt: &HostRuntime) -> anyhow::Result<()> {
    let heap = rt.alloc();
    let mut text = Vec::new(heap);
    rt.stdin().take(TAKEN).read_to_end(&mut text)?;
    let mut out = vec![in heap; 0u8; ROOM]?;
    // Room for every text that can be read. A function that makes it for both programs would lie in `report`, which works in
    // what it is lent and asks for no memory.
    let mut integers = vec![in heap; 0i32; 16_384]?;
    let mut starts = vec![in heap; 0u32; 2048]?;
    let mut places = vec![in heap; 0u32; 1024]?;
    let mut lengths = vec![in heap; 0u32; 1024]?;
    let mut assumed = vec![in heap; 0i32; 1024]?;
    let mut lists = Lists {
        integers: &mut integers,
        starts: &mut starts,
        places: &mut places,
        lengths: &mut lengths,
        assumed: &mut assumed,
    };
    let size = rewrite_or_tell(&text, &mut lists, &mut out)
        .ok()
        .context("no room for the line that tells the refusal")?;
    out.truncate(size);
    rt.stdout().write_all(&out)?;
    Ok(())
}

fn main(rt: HostRuntime) -> anyhow::Result<()> {
    run(&rt)
}
