//! The lines of a file and of the plan.

ghost use Rattle.std.specs.Prelude.{◌≡◌, ◌++◌};
ghost use Rattle.mufom_explain.specs.Lines.{file_line, plan_line};

use mufom_numbers::Text;
use mufom_origins::file_name;
use mufom_text::{Output, counted, quoted};

/// Puts the line of the file with a number, as in `file 2: "b.695"`. `names` are the names of all files.
pub fn file_line<K: Output>(out: &mut K, names: &[Text], number: u32)
    ensures { K.takes out.old out.new (file_line names.now number) }
{
    counted(out, b"file ", number as u128);
    out.put(b": ");
    quoted(out, file_name(names, number));
    out.put(b"\n");
}

/// Puts the line of the plan with the name of its file, as in `plan: "plan.toml"`.
pub fn plan_line<K: Output>(out: &mut K, name: &Text)
    ensures { K.takes out.old out.new (plan_line name.now) }
{
    out.put(b"plan: ");
    quoted(out, name.as_str().as_bytes());
    out.put(b"\n");
}
