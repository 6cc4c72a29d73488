// Prints, for pattern.bin and program.bin of this folder, what each holds or where its first fault is.
#![tactic(auto)]

use anyhow::Context;
use inspection::{PRINTOUT, file_graph_line, file_line, inspect};
use lines::graph::GRAPH_LINE;
use lines::role::Role;
use listing::file::FILE_BYTES;
use std::fs::File;
use std::io::{ErrorKind, Read, Write};
use std::process::ExitCode;
use std::{env, io};

// The bytes of a file, no more than are looked at. A missing file is an empty one.
fn read_file(rt: &HostRuntime, name: &str) -> io::Result<Vec<u8>> {
    let mut bytes = Vec::new(rt.alloc());
    match File::open(rt, name) {
        Ok(file) => {
            file.take(FILE_BYTES as u64).read_to_end(&mut bytes)?;
        }
        Err(error) => {
            if error.kind() != ErrorKind::NotFound {
                return Err(error);
            }
        }
    }
    Ok(bytes)
}

// Whether the program was asked to show the graphs that it read.
fn shows_graph(rt: &HostRuntime) -> io::Result<bool> {
    Ok(env::args(rt)?.any(|argument| argument.as_str() == "--graph"))
}

// Prints the line of a file, and then those of its graph.
fn print_graph(rt: &HostRuntime, role: Role, bytes: &[u8]) -> io::Result<()> {
    let mut line = [0; GRAPH_LINE];
    if let Ok(length) = file_line(role, bytes, &mut line) {
        rt.stdout().write_all(&line[0..length])?;
    }
    for index in 0..FILE_BYTES {
        let Some(length) = file_graph_line(bytes, index, &mut line) else {
            break;
        };
        rt.stdout().write_all(&line[0..length])?;
    }
    Ok(())
}

fn run(rt: &HostRuntime) -> anyhow::Result<()> {
    let pattern = read_file(rt, "pattern.bin").context("pattern.bin")?;
    let program = read_file(rt, "program.bin").context("program.bin")?;
    if shows_graph(rt)? {
        print_graph(rt, Role::Pattern, &pattern)?;
        print_graph(rt, Role::Program, &program)?;
        return Ok(());
    }
    let mut out = [0; PRINTOUT];
    let length = inspect(&pattern, &program, &mut out);
    rt.stdout().write_all(&out[0..length])?;
    Ok(())
}

fn main(rt: HostRuntime) -> io::Result<ExitCode> {
    if let Err(error) = run(&rt) {
        eprintln!(rt; "inspect: {error:#}")?;
        return Ok(ExitCode::FAILURE);
    }
    Ok(ExitCode::SUCCESS)
}
