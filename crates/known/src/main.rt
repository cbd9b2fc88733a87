// Rewrites the known results in the folder where it is run, and compares byte for byte. Each has two files: NAME.aspif,
// the text, and NAME.rules, its rules as they have to come out, or the line of the refusal.
#![tactic(auto)]

use anyhow::bail;
use reader::lists::Lists;
use report::rewriting::rewrite_or_tell;
use std::fs;

const ROOM: usize = 65_536;

// The names of the texts in the folder, in order.
fn all_names(rt: &HostRuntime) -> anyhow::Result<Vec<String>> {
    let mut names = Vec::new(rt.alloc());
    for entry in fs::read_dir(rt, ".")? {
        let entry = entry?;
        if let Some(name) = entry.file_name().strip_suffix(".aspif") {
            names.push(String::from_str(rt.alloc(), name)?)?;
        }
    }
    names.sort()?;
    Ok(names)
}

fn is_as_known(rt: &HostRuntime, name: &str) -> anyhow::Result<bool> {
    let heap = rt.alloc();
    let text = fs::read(rt, format!(in heap; "{name}.aspif")?)?;
    let known = fs::read(rt, format!(in heap; "{name}.rules")?)?;
    let mut out = vec![in heap; 0u8; ROOM]?;
    // Room for every text that can be read. A function that makes it for both programs would lie in `report`, which works in
    // what it is lent and asks for no memory.
    let mut integers = vec![in heap; 0i32; 16_384]?;
    let mut starts = vec![in heap; 0u32; 2048]?;
    let mut places = vec![in heap; 0u32; 1024]?;
    let mut lengths = vec![in heap; 0u32; 1024]?;
    let mut assumed = vec![in heap; 0i32; 1024]?;
    let mut lists = Lists {
        integers: &mut integers,
        starts: &mut starts,
        places: &mut places,
        lengths: &mut lengths,
        assumed: &mut assumed,
    };
    let answer = rewrite_or_tell(&text, &mut lists, &mut out);
    let Ok(size) = answer else {
        return Ok(false);
    };
    out.truncate(size);
    Ok(out == known)
}

fn run(rt: &HostRuntime) -> anyhow::Result<()> {
    let names = all_names(rt)?;
    let mut differing = 0usize;
    for name in &names {
        if is_as_known(rt, name.as_str())? {
            println!(rt; "{name}: as known")?;
        } else {
            differing = differing.saturating_add(1);
            println!(rt; "{name}: DIFFERENT")?;
        }
    }
    let compared = names.len();
    println!(rt; "{compared} compared, {differing} different")?;
    if differing > 0 {
        bail!("an output is not as known");
    }
    Ok(())
}

fn main(rt: HostRuntime) -> anyhow::Result<()> {
    run(&rt)
}
