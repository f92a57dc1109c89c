//! The section `codes`.

ghost use Rattle.std.specs.Prelude.{◌≡◌};
ghost use Rattle.binder_code.specs.Commands.{kind_of_word, protocol_of_word};

use crate::line::{Row, push_counted, push_hex_word};
use crate::whole_rows::WholeSection;
use audit_findings::{CodeRow, Findings};
use binder_code::{Code, Kind, Protocol, kind};

/// The section.
#[derive(Clone, Copy)]
pub(crate) struct Codes;

impl WholeSection for Codes {
    ghost use Rattle.report_text.specs.Codes.{codes_section};

    type Kept = CodeRow;

    ghost section = { codes_section };

    fn head(&self, _found: &Findings<'_>, rows: usize) -> Row {
        let mut line = Row::new();
        push_counted(&mut line, "codes ", rows as u64);
        line
    }

    fn rows<'f>(&self, found: &'f Findings<'_>) -> &'f [CodeRow] {
        found.sections().events.codes.as_slice()
    }

    fn line(&self, row: &CodeRow) -> Row {
        let mut line = Row::new();
        line.push_str("  ");
        push_hex_word(&mut line, row.word);
        line.push_str(" ");
        line.push_str(kind_of_word(row.word).name());
        push_counted(&mut line, " ", row.count);
        line
    }
}

/// The kind whose code word this is; opaque, if it is that of no listed kind.
fn kind_of_word(word: u32) -> Kind
    ensures { result ≡ kind_of_word word }
{
    let code = Code(word);
    kind(protocol_of(code), code).unwrap_or(Kind::Opaque)
}

/// The protocol that the letter of a code word names.
fn protocol_of(code: Code) -> Protocol
    ensures { result ≡ protocol_of_word code.0 }
{
    if code.letter() == b'c' {
        Protocol::Command
    } else {
        Protocol::Return
    }
}
