// Prints the program text of one invoice: its standing rules, and what was delivered today.
#![tactic(auto)]

use anyhow::{Context, bail};
use numbers::lists::{Names, RuleLists};
use report::composing::compose;
use report::fault::Fault;
use report::telling::tell;
use std::env;
use std::io::Write;

// The atoms: 1 delivered, 2 release, 3 hold, 4 query.
const NAMES: &[u8] = b"delivered release hold query";

const NAME_STARTS: [u32; 4] = [0, 10, 18, 23];

const NAME_LENGTHS: [u32; 4] = [9, 7, 4, 5];

const RULES: [i32; 25] = [
    0, 1, 2, 0, 2, 1, -3, // delivered goods are released unless held
    0, 1, 3, 0, 1, -2, // held unless released
    1, 1, 4, 0, 1, 1, // what was delivered may be queried
    0, 0, 0, 2, 2, 4, // never both released and queried
];

const STARTS: [u32; 4] = [0, 7, 13, 19];

// the third start is not where the second rule ends
const WRONG_STARTS: [u32; 4] = [0, 7, 14, 19];

const FACTS: [u32; 1] = [1];

const ROOM: usize = 65_536;

fn standing(starts: &[u32]) -> RuleLists<'_> {
    let names = Names {
        text: NAMES,
        starts: &NAME_STARTS,
        lengths: &NAME_LENGTHS,
    };
    RuleLists {
        atoms: 4,
        integers: &RULES,
        starts,
        names,
    }
}

// The text or, in its place, the line that tells why there is none.
fn text_or_refusal(starts: &[u32], out: &mut [u8]) -> Result<usize, Fault> {
    compose(standing(starts), &FACTS, out).or_else(|fault| tell(&fault, out))
}

fn show(rt: &HostRuntime, starts: &[u32]) -> anyhow::Result<()> {
    let mut out = vec![in rt.alloc(); 0u8; ROOM]?;
    let size = text_or_refusal(starts, &mut out)
        .ok()
        .context("no room for the line that tells the refusal")?;
    out.truncate(size);
    rt.stdout().write_all(&out)?;
    Ok(())
}

fn run(rt: &HostRuntime) -> anyhow::Result<()> {
    let mut words = env::args(rt)?.skip(1).peekable();
    if words.peek().is_none() {
        return show(rt, &STARTS);
    }
    for word in words {
        match word.as_str() {
            "invoice" => show(rt, &STARTS)?,
            "refused" => show(rt, &WRONG_STARTS)?,
            _ => bail!("usage: compose [invoice] [refused]"),
        }
    }
    Ok(())
}

fn main(rt: HostRuntime) -> anyhow::Result<()> {
    run(&rt)
}
