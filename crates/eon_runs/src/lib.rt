// Calls made in a row, one on what another wrote: the runs of demand 3, and what it says of them. A table and its output stay two
// parameters: a struct of both would need a clause more for each, that it still holds the memory that it was given.
#![tactic(auto)]

ghost use Rattle.std.specs.Prelude.{◌≡◌};
ghost use Rattle.eon_spec.specs.Tree.{TokenTree};
ghost use Rattle.eon_spec.specs.Calls.{after, outcome_of};
ghost use Rattle.eon_spec.specs.Runs.{Premises, Suffices, wrote, IsRun, IsRow, ShareText};

use eon_spec::{FormatOptions, Refusal, Rows, Run, Runs};

// A run: reading, and then layout by the table just filled, under the default settings.
pub fn run(text: &[u8], table: &mut [u32], out: &mut [u8]) -> Run
    ensures { IsRun text.now table.old out.old result table.new out.new }
{
    let read = eon_syntax::read(text, table);
    let written = eon_syntax::format(text, table, FormatOptions::default(), out);
    Run { read, written }
}

// The part of an output that a layout call wrote.
fn written_part(written: Result<usize, Refusal>, out: &[u8]) -> &[u8]
    ensures { result.now ≡ wrote (after (outcome_of written) out.now) }
{
    let len = written.unwrap_or(0);
    &out[..len.min(out.len())]
}

// Demand 3: the afternoon run on a file, and the evening run on what it wrote.
pub fn two_runs(
    text: &[u8],
    table1: &mut [u32],
    out1: &mut [u8],
    table2: &mut [u32],
    out2: &mut [u8],
) -> Runs
    ensures { IsRow text.now table1.old out1.old table2.old out2.old result table1.new out1.new table2.new out2.new }
{
    let afternoon = run(text, table1, out1);
    let evening = run(written_part(afternoon.written, out1), table2, out2);
    Runs { afternoon, evening }
}

// Its last sentence: two such rows share a written text exactly when their trees are equal.
pub fn two_rows(
    a: &[u8],
    table1: &mut [u32],
    out1: &mut [u8],
    table2: &mut [u32],
    out2: &mut [u8],
    b: &[u8],
    table3: &mut [u32],
    out3: &mut [u8],
    table4: &mut [u32],
    out4: &mut [u8],
) -> Rows
    ensures first { IsRow a.now table1.old out1.old table2.old out2.old result.first table1.new out1.new table2.new out2.new }
    ensures second { IsRow b.now table3.old out3.old table4.old out4.old result.second table3.new out3.new table4.new out4.new }
    ensures shared { (t u : TokenTree) → Premises a.now t → Suffices t table1.old out1.old → Premises b.now u → Suffices u table3.old out3.old → ShareText a.now t result.first.afternoon out1.new b.now u result.second.afternoon out3.new }
{
    let first = two_runs(a, table1, out1, table2, out2);
    let second = two_runs(b, table3, out3, table4, out4);
    Rows { first, second }
}
