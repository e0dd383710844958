// The layout of a finished table (format.rs).
#![tactic(auto)]

ghost use Rattle.std.specs.Prelude.{◌≡◌, true, length};
ghost use Rattle.eon_spec.specs.Tree.{TokenTree};
ghost use Rattle.eon_spec.specs.Layout.{format, settings_of};
ghost use Rattle.eon_spec.specs.Records.{tree_records};
ghost use Rattle.eon_spec.specs.Calls.{done, read_finished, good_settings, format_call, fill, after, outcome_of};
ghost use Rattle.eon_put.specs.Put.{Writes};
ghost use Rattle.eon_table.specs.TreeAt.{TreeAt, SomeTree};

mod items;
mod layout;
mod node;

use crate::items::Layout;
use eon_put::{Measure, Writer};
use eon_spec::{FormatOptions, Reason, Refusal};
use eon_table::Sheet;

// The layout call, behind its checks of the settings and of the table: `end` is the number of the tree's records.
pub fn format_finished(
    sheet: Sheet,
    options: &FormatOptions,
    end: usize,
    out: &mut [u8],
) -> Result<usize, Refusal>
    requires settings { good_settings options.now ≡ true }
    requires finished { (t : TokenTree) × (read_finished sheet.text.now sheet.table.now ≡ done t) × (end ≡ length (tree_records t)) }
    ensures { after (outcome_of result) out.new ≡ format_call sheet.entry.text.now sheet.entry.table.now options.now out.old }
{
    lay_out(Layout { sheet, options }, end, out)
}

// Measures, then writes, or leaves `out` as it was.
fn lay_out(layout: Layout, end: usize, out: &mut [u8]) -> Result<usize, Refusal>
    requires { SomeTree layout.sheet.text.now layout.sheet.table.now end 0 }
    ensures { (t : TokenTree) → TreeAt layout.entry.sheet.text.now layout.entry.sheet.table.now end 0 t → after (outcome_of result) out.new ≡ fill out.old (done (length (format (settings_of layout.entry.options.now) t), format (settings_of layout.entry.options.now) t)) }
{
    let mut measure = Measure {
        left: Some(out.len()),
    };
    layout.format(end, &mut measure);
    let Some(left) = measure.left else {
        return Err(Refusal::new(Reason::NoSpace, 0));
    };
    let bytes = out.len() - left;
    let mut writer = Writer { out, at: Some(0) };
    write(layout, end, &mut writer);
    Ok(bytes)
}

// The writer keeps its memory.
fn write(layout: Layout, end: usize, writer: &mut Writer<'_>)
    requires { SomeTree layout.sheet.text.now layout.sheet.table.now end 0 }
    ensures same_memory { writer.new.out.ghost_name ≡ writer.old.out.ghost_name }
    ensures written { (t : TokenTree) → TreeAt layout.entry.sheet.text.now layout.entry.sheet.table.now end 0 t → Writes writer.old (format (settings_of layout.entry.options.now) t) writer.new }
{
    layout.format(end, writer);
}
