// Speaks the line protocol of `oracle answer` (oracle/README.md), so that the original's answers can be compared with ours.
#![tactic(auto)]

mod desk;

use answer_line::input::{LINE_BYTES, next_line};
use answer_line::reply::{Fault, Reply};
use desk::Desk;
use std::alloc::Global;
use std::io;
use std::io::{BufRead, BufReader, BufWriter, Write};

// How much is read at once, and kept back before it is written.
const BUFFER_BYTES: usize = 65536;

// No verb takes more: what stands behind them is one word more, however long, so that a line of blanks takes no memory of its own.
const MOST_WORDS: usize = 7;

// A line is answered by its words, parted by one blank each.
fn answer<'a>(
    alloc: Global,
    line: &[u8],
    desk: &'a mut Desk,
) -> io::Result<Result<Reply<'a>, Fault>> {
    if line.len() > LINE_BYTES {
        return Ok(Err(Fault::BadLine));
    }
    let words: Vec<&[u8]> = line.splitn(MOST_WORDS + 1, |b| *b == b' ').collect(alloc)?;
    Ok(desk.answer(words.as_slice()))
}

// Each line is answered. The turns are counted, because nothing says that the input ends.
fn answer_lines(alloc: Global, input: &mut impl BufRead, out: &mut impl Write) -> io::Result<()> {
    let mut desk = Desk::new(alloc)?;
    let mut line = Vec::new(alloc);
    for _ in 0..u64::MAX {
        if !next_line(input, &mut line)? {
            break;
        }
        match answer(alloc, line.as_slice(), &mut desk)? {
            Ok(reply) => writeln!(out, "{reply}")?,
            Err(fault) => writeln!(out, "{fault}")?,
        }
    }
    Ok(())
}

// The answers to the lines before a read that failed are written too.
fn main(rt: HostRuntime) -> io::Result<()> {
    let alloc = rt.alloc();
    let mut input = BufReader::with_capacity(alloc, BUFFER_BYTES, rt.stdin())?;
    let mut out = BufWriter::with_capacity(alloc, BUFFER_BYTES, rt.stdout())?;
    let answered = answer_lines(alloc, &mut input, &mut out);
    let written = out.flush();
    answered.and(written)
}
