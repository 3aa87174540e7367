// Runs what the programs `listing`, `tree` and `clear` do on each recording that its arguments name: refused, unfinalised and too long
// ones, and ones at the limits. tools/programs.py wrote the recordings and what is to be printed.
#![tactic(auto)]

use std::env::{Env, FillError};
use std::fs::File;
use std::io;
use std::rt::Files;

// What a program prints of the file named.
fn run<R: Files + Print, P: FnOnce(&R, &mut R::File) -> io::Result<()>>(
    rt: &R,
    path: &[u8],
    program: P,
) -> io::Result<()>
    requires { P.IsAlwaysCallable program }
{
    let Ok(name) = str::from_utf8(path) else {
        return println!(rt; "not opened");
    };
    let Ok(mut file) = File::open(rt, name) else {
        return println!(rt; "not opened");
    };
    program(rt, &mut file)
}

// The three programs on the file that an argument names.
fn programs(rt: &(impl Files + Print), path: &[u8]) -> io::Result<()> {
    rt.write_all(path)?;
    rt.write_all(b"\n")?;
    run(rt, path, console::listing)?;
    run(rt, path, console::tree)?;
    run(rt, path, console::clear)
}

fn main(rt: HostRuntime) -> io::Result<()> {
    // `env::args` needs the heap
    for i in 1..usize::MAX {
        let mut path = [0u8; 4096];
        match rt.arg(i, &mut path) {
            Ok(n) => programs(&rt, &path[..n])?,
            // a longer name than any file's
            Err(FillError::TooLong) => programs(&rt, b"")?,
            Err(FillError::NotPresent) => return Ok(()),
        }
    }
    Ok(())
}
