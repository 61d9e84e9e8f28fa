//! The kinds of lines.
ghost use Rattle.std.specs.Prelude.{◌≡◌};
ghost use Rattle.std.specs.List.{list_all};
ghost use Rattle.mps_fields.specs.Lines.{is_blank as blank, is_comment as comment, is_blank_line as blank_line, is_section_line as section_line};
ghost use Rattle.mps_fields.specs.LineViews.{line_view};
ghost use Rattle.mps_model.specs.Sections.{is_content as content_line};
ghost use Rattle.mps_model.specs.LineFaults.{is_allowed_byte as allowed_byte};

use mps_fields::TextLine;

fn is_blank(byte: u8) -> bool
    ensures { result ≡ blank byte }
{
    byte == b' ' || byte == b'\t'
}

fn is_comment(bytes: &[u8]) -> bool
    ensures { result ≡ comment bytes.now }
{
    matches!(bytes, [b'*', ..])
}

fn is_blank_line(bytes: &[u8]) -> bool
    ensures { result ≡ blank_line bytes.now }
{
    bytes.iter().all(|byte| is_blank(*byte))
}

fn is_allowed_byte(byte: u8) -> bool
    ensures { result ≡ allowed_byte byte }
{
    matches!(byte, b' '..=b'~' | b'\t')
}

/// The line is no comment, and not blank.
pub(crate) fn is_content(line: &TextLine) -> bool
    ensures { result ≡ content_line (line_view line.now) }
{
    !is_comment(line.bytes) && !is_blank_line(line.bytes)
}

/// A word stands in the first column of a line.
pub(crate) fn is_section_line(bytes: &[u8]) -> bool
    ensures { result ≡ section_line bytes.now }
{
    match bytes {
        [byte, ..] => !is_blank(*byte) && *byte != b'*',
        [] => false,
    }
}

/// All bytes are printed ASCII, blanks or tabs.
pub(crate) fn is_allowed(bytes: &[u8]) -> bool
    ensures { result ≡ list_all allowed_byte bytes.now }
{
    bytes.iter().all(|byte| is_allowed_byte(*byte))
}
