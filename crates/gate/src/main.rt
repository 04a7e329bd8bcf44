// gate: carries out a script, one call a line, and prints an answer for each.
#![tactic(auto)]

ghost use Rattle.std.specs.Prelude.{IfOk};
ghost use Rattle.gate.specs.Answers.{Answers};

mod answer;

use crate::answer::answer;
use commands::{Fault, parse};
use std::alloc::{AllocError, Global};
use std::io;
use std::io::{BufRead, BufReader, Write};

// A blank line and a comment have no answer. A line that is no call changes nothing, and the script goes on.
fn carry_out(heap: Global, line: &[u8]) -> Result<Option<String>, AllocError>
    ensures { IfOk result (Answers line.now) }
{
    match parse(heap, line) {
        Ok(None) => Ok(None),
        Ok(Some(call)) => Ok(Some(answer(heap, &call)?)),
        Err(fault @ Fault::BadLine) => Ok(Some(fault.to_string(heap)?)),
        Err(Fault::OutOfMemory) => Err(AllocError),
    }
}

// Each answer is written with its line end by one call, however long it is: `println!` would cut a long one.
fn main(rt: HostRuntime) -> io::Result<()> {
    let mut text = Vec::new(rt.alloc());
    for line in BufReader::new(rt.alloc(), rt.stdin())?.split(rt.alloc(), b'\n') {
        if let Some(answer) = carry_out(rt.alloc(), line?.as_slice())? {
            text.clear();
            text.extend_from_slice(answer.as_bytes())?;
            text.push(b'\n')?;
            rt.stdout().write_all(text.as_slice())?;
        }
    }
    Ok(())
}
