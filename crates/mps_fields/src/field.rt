//! A field of a line.

/// A field of the line with the number `line`, which begins `at` bytes into it.
#[derive(Clone, Copy, Debug)]
pub struct Field<'a> {
    pub text: &'a [u8],
    pub line: u32,
    pub at: u32,
}
