//! Section lines.
ghost use Rattle.std.specs.Prelude.{◌≡◌, ◌≤◌, length, option_map, IfSome};
ghost use Rattle.mps_fields.specs.LineViews.{line_view};
ghost use Rattle.mps_model.specs.Sections.{section_at};
ghost use Rattle.mps_model.specs.LineFaults.{has_more_fields as more_fields};
ghost use Rattle.mps_fields.specs.Lines.{most_bytes};

use crate::lines::line_kind::is_section_line;
use crate::lines::section::Section;
use mps_fields::{TextLine, fields_free};

/// What a section line says: the section that it begins, and whether another field follows its word, other than on NAME.
#[derive(Clone, Copy, Debug)]
pub(crate) struct SectionLine {
    pub(crate) section: Section,
    pub(crate) has_more_fields: bool,
}

/// What a line says that begins a section; none for a data line, and for another word.
pub(crate) fn section_line(line: &TextLine) -> Option<SectionLine>
    requires { length line.now.bytes.now ≤ most_bytes }
    ensures section { option_map (λ said. said.section) result ≡ section_at (line_view line.now) }
    ensures more { IfSome result (λ said. said.has_more_fields ≡ more_fields (line_view line.now)) }
{
    if !is_section_line(line.bytes) {
        return None;
    }
    let fields = fields_free(line);
    match fields.fields() {
        [word, ..] => {
            let section = Section::from_word(word.text)?;
            Some(SectionLine {
                section,
                has_more_fields: section != Section::Name && fields.count() > 1,
            })
        }
        [] => None,
    }
}
