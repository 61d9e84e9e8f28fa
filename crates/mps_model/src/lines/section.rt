//! The sections of a model text.
ghost use Rattle.std.specs.Prelude.{◌≡◌, find, bytes_eq};
ghost use Rattle.mps_model.specs.Sections.{all_sections, word_of};

/// A section of a model text, by the word that begins it.
#[derive(Clone, Copy, Debug, PartialEq, Eq)]
pub enum Section {
    Name,
    Rows,
    Columns,
    Rhs,
    Ranges,
    Bounds,
    Endata,
}

impl Section {
    const ALL: [Section; 7] = [
        Section::Name,
        Section::Rows,
        Section::Columns,
        Section::Rhs,
        Section::Ranges,
        Section::Bounds,
        Section::Endata,
    ];

    fn word(self) -> &'static [u8]
        ensures { result.now ≡ word_of self }
    {
        match self {
            Section::Name => b"NAME",
            Section::Rows => b"ROWS",
            Section::Columns => b"COLUMNS",
            Section::Rhs => b"RHS",
            Section::Ranges => b"RANGES",
            Section::Bounds => b"BOUNDS",
            Section::Endata => b"ENDATA",
        }
    }

    /// The section that a word begins.
    pub(crate) fn from_word(word: &[u8]) -> Option<Section>
        ensures { result ≡ find (λ section. bytes_eq word.now (word_of section)) all_sections }
    {
        Section::ALL
            .iter()
            .copied()
            .find(|section| word == section.word())
    }
}
