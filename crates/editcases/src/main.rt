// Runs the editing scripts of a file of cases, and counts those that print what is expected.
#![tactic(auto)]

use anyhow::anyhow;
use editing::answers;
use journal::{answer_line, refused_line};
use script::{ScriptError, Step, parse_script};
use std::alloc::{AllocError, Global};
use std::fs;
use std::str::from_utf8;

// Which part of a case the next line belongs to.
#[derive(Clone, Copy)]
enum Part {
    Outside,
    Script,
    Expected,
}

// The case that is being read, and how many were run.
#[derive(Drop)]
struct Cases {
    part: Part,
    script: String,
    expected: String,
    run: u32,
    right: u32,
}

// Puts a line with its end behind a text. With `writeln!` a file of short lines takes more than twice as long.
fn add_line(text: &mut String, line: &str) -> Result<(), AllocError> {
    text.push_str(line)?;
    text.push_str("\n")
}

// Puts the lines that tell the answers to the steps behind a text; no step reads or writes a file.
fn write_answers(heap: Global, steps: &[Step<&[u8]>], text: &mut String) -> Result<(), AllocError> {
    let answers = answers(heap, steps, &[])?;
    for (step, answer) in steps.iter().zip(answers.iter()) {
        add_line(text, answer_line(heap, step.line, answer)?.as_str())?;
    }
    Ok(())
}

// Everything that is printed for a script, as `tolledit` prints it.
fn script_text(heap: Global, script: &str) -> anyhow::Result<String> {
    let mut text = String::new(heap);
    match parse_script(heap, script.as_bytes()) {
        Ok(steps) => write_answers(heap, steps.as_slice(), &mut text)?,
        Err(ScriptError::Refused(line)) => {
            add_line(&mut text, refused_line(heap, line)?.as_str())?;
        }
        Err(ScriptError::NoMemory) => return Err(anyhow!("out of memory")),
    }
    add_line(&mut text, "end")?;
    Ok(text)
}

impl Cases {
    // Runs the case that was read.
    fn run(&mut self, heap: Global) -> anyhow::Result<()> {
        let text = script_text(heap, self.script.as_str())?;
        self.run = self.run.saturating_add(1);
        if text == self.expected {
            self.right = self.right.saturating_add(1);
        }
        self.script.clear();
        self.expected.clear();
        self.part = Part::Outside;
        Ok(())
    }

    fn take(&mut self, heap: Global, line: &str) -> anyhow::Result<()> {
        match (self.part, line) {
            (Part::Outside, "script") => self.part = Part::Script,
            (Part::Outside, _) => {}
            (Part::Script, "expect") => self.part = Part::Expected,
            (Part::Script, _) => add_line(&mut self.script, line)?,
            (Part::Expected, ".") => self.run(heap)?,
            (Part::Expected, _) => add_line(&mut self.expected, line)?,
        }
        Ok(())
    }
}

fn run(rt: &HostRuntime) -> anyhow::Result<()> {
    let heap = rt.alloc();
    let bytes = fs::read(rt, "cases.txt")?;
    let mut cases = Cases {
        part: Part::Outside,
        script: String::new(heap),
        expected: String::new(heap),
        run: 0,
        right: 0,
    };
    for line in from_utf8(bytes.as_slice())?.lines() {
        cases.take(heap, line)?;
    }
    println!(rt; "{} cases, {} as expected", cases.run, cases.right)?;
    Ok(())
}

fn main(rt: HostRuntime) -> anyhow::Result<()> {
    run(&rt)
}
