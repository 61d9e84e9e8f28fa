//! The two layouts of a model text.

/// How the fields of a data line are found.
#[derive(Clone, Copy, Debug, PartialEq, Eq)]
pub enum Layout {
    /// Blanks and tabs stand between fields, and nowhere else.
    Free,
    /// A field is what stands in its columns of the line.
    Fixed,
}
