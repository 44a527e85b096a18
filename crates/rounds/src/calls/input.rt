// The input, line by line.
//   Run                         how far the run has come
//   Run::ended, Run::take       the call of a whole line; the lines of a chunk
//   finished                    the end of the input
//   turn, read_all              one read and its lines; all of them
ghost use Rattle.std.specs.Prelude.{◌≡◌, false, IfErr};
ghost use Rattle.rounds.specs.Judged.{agreed};

use super::line::Line;
use super::{Case, Verdict, check};
use crate::BYTES;
use crate::lists::{SPACE, front};
use plan::Plan;
use std::io;
use std::io::{ErrorKind, Read};

// The line under way, unless its bytes are no such line, and its numbers; the case; how many lines and cases are whole.
#[derive(Drop)]
struct Run {
    line: Option<Line>,
    numbers: [u16; SPACE],
    case: Case,
    lines: u64,
    cases: u64,
}

impl Run {
    fn new() -> Run {
        Run {
            line: Some(Line::NEW),
            numbers: [0; SPACE],
            case: Case::new(Plan {
                users: 0,
                threshold: 0,
                collusion: 0,
                blocks: 0,
            }),
            lines: 0,
            cases: 0,
        }
    }

    // The line under way is whole: its call is made and compared. What does not agree ends the run.
    fn ended(&mut self) -> Result<(), Verdict>
        ensures { IfErr result (λ why. agreed why ≡ false) }
    {
        let line = self.line.and_then(|line| line.ended(&mut self.numbers));
        self.line = Some(Line::NEW);
        self.lines = self.lines.wrapping_add(1);
        let verdict = match line {
            Some(
                Line {
                    letter: Some(letter),
                    count,
                    ..
                },
            ) => {
                if letter == b'p' {
                    self.cases = self.cases.wrapping_add(1);
                }
                check(&mut self.case, letter, front(&self.numbers, count))
            }
            _ => Verdict::Damaged,
        };
        verdict.ending()
    }

    // The lines of a chunk, up to the first that does not agree; what is left of a line stays under way.
    fn take(&mut self, chunk: &[u8]) -> Result<(), Verdict>
        ensures { IfErr result (λ why. agreed why ≡ false) }
    {
        for byte in chunk {
            if *byte == b'\n' {
                self.ended()?;
            } else {
                self.line = self
                    .line
                    .and_then(|line| line.with(*byte, &mut self.numbers));
            }
        }
        Ok(())
    }
}

// The end of the input: it must be the end of a line.
fn finished(rt: &HostRuntime, run: &Run) -> io::Result<()> {
    let cases = run.cases;
    match run.line {
        Some(Line { letter: None, .. }) => println!(rt; "cases: {cases} agree"),
        _ => println!(rt; "the input ends within a line"),
    }
}

// One read, and its lines; answers whether there is more to come. A read that fails is told on standard error.
fn turn(rt: &HostRuntime, run: &mut Run, buf: &mut [u8; BYTES]) -> io::Result<bool> {
    match rt.stdin().read(buf) {
        Ok(0) => {
            finished(rt, run)?;
            Ok(false)
        }
        Ok(n) => match run.take(&buf[..n]) {
            Ok(()) => Ok(true),
            Err(verdict) => {
                let cases = run.cases;
                let lines = run.lines;
                println!(rt; "case {cases}, line {lines}: {verdict}")?;
                Ok(false)
            }
        },
        Err(error) if error.kind() == ErrorKind::Interrupted => Ok(true),
        Err(error) => {
            eprintln!(rt; "rounds: standard input: {error}")?;
            Ok(false)
        }
    }
}

// Reads standard input to its end, or to the first line that does not agree, and says which.
pub fn read_all(rt: &HostRuntime) -> io::Result<()> {
    let mut buf = [0u8; BYTES];
    let mut run = Run::new();
    // every loop ends, this one behind more reads than there can be
    for _ in 0..u64::MAX {
        if !turn(rt, &mut run, &mut buf)? {
            break;
        }
    }
    Ok(())
}
