//! Reads a script, a command a line, calls the library and prints one answer line for each command.
#![tactic(auto)]

mod command;
mod lines;
mod session;
mod unreadable;
mod words;

use anyhow::anyhow;
use std::io::{BufWriter, Read, Write};
use std::{env, fs};

/// The script: the file named as the only argument, or standard input where there is none.
fn read_script(rt: &HostRuntime) -> anyhow::Result<Vec<u8>> {
    let mut arguments = env::args(rt)?.skip(1);
    let Some(path) = arguments.next() else {
        let mut script = Vec::new(rt.alloc());
        rt.stdin().read_to_end(&mut script)?;
        return Ok(script);
    };
    if arguments.next().is_some() {
        eprintln!(rt; "usage: posbook [SCRIPT]")?;
        return Err(anyhow!("more than one script"));
    }
    let script = fs::read(rt, path.as_str());
    if let Err(error) = &script {
        eprintln!(rt; "posbook: cannot read {path}: {error}")?;
    }
    Ok(script?)
}

fn main(rt: HostRuntime) -> anyhow::Result<()> {
    let script = read_script(&rt)?;
    let mut out = BufWriter::new(rt.alloc(), rt.stdout())?;
    session::run(rt.alloc(), &script, &mut out)?;
    out.flush()?;
    Ok(())
}
