// Lays out the Eon text on standard input under the default settings, or says why it is refused: number, start, end. Input
// that could not be read whole is not laid out: what is missing might be a bye.
#![tactic(auto)]

ghost use Rattle.std.specs.Prelude.{◌≤◌, ◌<◌, length, IfOk, OnOk};
ghost use Rattle.std.specs.Io.KnownBytes.{Consumes, IsAtEnd, Appends};
ghost use Rattle.eon_spec.specs.Refused.{refusal_of};
ghost use Rattle.eon_spec.specs.Calls.{outcome_of};
ghost use Rattle.eonfmt.specs.Said.{refusal_line, said, formatted};

use eon_spec::{RECORD_WORDS, Refusal, TEXT_MAX};
use std::io;
use std::io::{ErrorKind, Read, Write};
use std::process::ExitCode;

// The memory is fixed and on the stack: docs/DECISIONS.md says how much. A byte more than a text has at most, so that a full buffer is
// refused by 1.
const TEXT_BYTES: usize = TEXT_MAX + 1;

// The records of an event.
const TABLE_WORDS: usize = RECORD_WORDS * 3276;

const OUT_BYTES: usize = 65536;

// How often in all a read may be interrupted by a signal before it counts as failed.
const INTERRUPTS: usize = 1000;

// What was read to the end, as far as there is room, or a read that failed. The end is a read of no bytes and nothing else. std's
// `read_to_end` would take memory without a limit, and would try an interrupted read again without one.
fn read_input<'a, R: Read>(input: &mut R, text: &'a mut [u8]) -> io::Result<&'a [u8]>
    ensures fits { IfOk result (λ given. length given.now ≤ length text.old) }
    ensures given { IfOk result (λ given. Consumes (R.remaining input.old) (R.remaining input.new) given.now) }
    ensures whole { IfOk result (λ given. length given.now < length text.old → IsAtEnd (R.remaining input.new)) }
{
    let mut n = 0;
    let mut interrupts = INTERRUPTS;
    while n < text.len() {
        match input.read(&mut text[n..]) {
            Ok(0) => return Ok(&text[..n]),
            Ok(more) => n += more,
            Err(e) if interrupts > 0 && e.kind() == ErrorKind::Interrupted => interrupts -= 1,
            Err(e) => return Err(e),
        }
    }
    Ok(text)
}

// The functions that write answer whether all was taken.
fn write_refusal<W: Write>(to: &mut W, r: Refusal) -> io::Result<()>
    ensures { OnOk result (Appends (W.contents to.old) (W.contents to.new) (refusal_line (refusal_of r))) }
{
    writeln!(to, "refused {} {} {}", r.reason.number(), r.start, r.end)
}

fn write_answer<W: Write>(to: &mut W, answer: Result<usize, Refusal>, out: &[u8]) -> io::Result<()>
    ensures { OnOk result (Appends (W.contents to.old) (W.contents to.new) (said (outcome_of answer) out.now)) }
{
    match answer {
        Ok(n) => to.write_all(&out[..n.min(out.len())]),
        Err(r) => write_refusal(to, r),
    }
}

// Reading's refusal, or what layout answered.
fn lay_out<W: Write>(to: &mut W, text: &[u8]) -> io::Result<()>
    ensures { OnOk result (Appends (W.contents to.old) (W.contents to.new) (formatted text.now)) }
{
    let mut table = [0u32; TABLE_WORDS];
    let mut out = [0u8; OUT_BYTES];
    let run = eon_runs::run(text, &mut table, &mut out);
    let answer = run.read.and(run.written);
    write_answer(to, answer, &out)
}

// Why standard input or output failed is told on standard error, where that can be written, and by the exit status.
fn tell(rt: &impl Eprint, stream: &str, e: io::Error) -> ExitCode {
    let _ = eprintln!(rt; "eonfmt: standard {stream}: {e}");
    ExitCode::FAILURE
}

fn main(rt: HostRuntime) -> ExitCode {
    let mut room = [0u8; TEXT_BYTES];
    let text = match read_input(&mut rt.stdin(), &mut room) {
        Ok(text) => text,
        Err(e) => return tell(&rt, "input", e),
    };
    match lay_out(&mut rt.stdout(), text) {
        Ok(()) => ExitCode::SUCCESS,
        Err(e) => tell(&rt, "output", e),
    }
}
