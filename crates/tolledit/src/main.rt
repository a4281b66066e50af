// Runs an editing script from standard input, and prints one line for each command.
#![tactic(auto)]

use anyhow::anyhow;
use editing::answers;
use journal::{Accepted, Answer, answer_line, refused_line};
use law::law_of_runs;
use script::{Command, ScriptError, Step, parse_script};
use std::fs;
use std::io::Read;
use std::str::from_utf8;

// The bytes of a file; a missing one is empty.
fn file_bytes(rt: &HostRuntime, name: &[u8]) -> anyhow::Result<Vec<u8>> {
    let name = from_utf8(name)?;
    if fs::exists(rt, name)? {
        Ok(fs::read(rt, name)?)
    } else {
        Ok(Vec::new(rt.alloc()))
    }
}

// The bytes of the file that a step reads, or none.
fn sheet_of(rt: &HostRuntime, step: &Step<&[u8]>) -> anyhow::Result<Vec<u8>> {
    match step.command {
        Command::Read(name) => file_bytes(rt, name),
        _ => Ok(Vec::new(rt.alloc())),
    }
}

// Writes the sheet of a step, if it wrote one.
fn keep(rt: &HostRuntime, step: &Step<&[u8]>, answer: &Answer) -> anyhow::Result<()> {
    if let (Command::Write(name), Ok(Accepted::Wrote(bytes))) = (step.command, answer) {
        fs::write(rt, from_utf8(name)?, bytes.as_slice())?;
    }
    Ok(())
}

// Each sheet is stored behind its own line, so the lines are not one text here, as they are in editcases.
fn run_steps(rt: &HostRuntime, steps: &[Step<&[u8]>]) -> anyhow::Result<()> {
    let sheets: Vec<Vec<u8>> = steps
        .iter()
        .map(|step| sheet_of(rt, step))
        .try_collect(rt.alloc())?;
    let answers = answers(rt.alloc(), steps, sheets.as_slice())?;
    for (step, answer) in steps.iter().zip(answers.iter()) {
        rt.println(answer_line(rt.alloc(), step.line, answer)?)?;
        keep(rt, step, answer)?;
    }
    Ok(())
}

fn run(rt: &HostRuntime) -> anyhow::Result<()> {
    let _ = law_of_runs();
    let mut text = Vec::new(rt.alloc());
    rt.stdin().read_to_end(&mut text)?;
    match parse_script(rt.alloc(), text.as_slice()) {
        Ok(steps) => run_steps(rt, steps.as_slice())?,
        Err(ScriptError::Refused(line)) => rt.println(refused_line(rt.alloc(), line)?)?,
        Err(ScriptError::NoMemory) => return Err(anyhow!("out of memory")),
    }
    println!(rt; "end")?;
    Ok(())
}

fn main(rt: HostRuntime) -> anyhow::Result<()> {
    run(&rt)
}
