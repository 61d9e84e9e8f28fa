//! The name of a file.
ghost use Rattle.std.specs.Prelude.{◌≡◌, ◌≤◌, true, IfOk, length};
ghost use Rattle.solve_cli.specs.FileNames.{is_file_name as named_file};

use std::alloc::{AllocError, Global};
use std::marker::Model;

const MOST_NAME_BYTES: usize = 255;

/// The name of a file: 1 to 255 bytes that do not begin with `-`.
#[derive(Debug, Drop)]
pub struct FileName {
    text: String,
}

impl Model for FileName {
    ghost use Rattle.std.specs.Prelude.{◌≡◌, true, ℕ, List, string_bytes};
    ghost use Rattle.solve_cli.specs.FileNames.{is_file_name};

    ghost Value = { List ℕ };

    ghost view = { λ name. string_bytes name.text };

    ghost invariant = { λ name. is_file_name (string_bytes name.text) ≡ true };
}

impl FileName {
    /// The name that the word is.
    pub(crate) fn of(alloc: Global, word: &str) -> Result<FileName, AllocError>
        requires { named_file word.now ≡ true }
        ensures { IfOk result (λ name. name ≡ word.now) }
    {
        Ok(FileName {
            text: String::from_str(alloc, word)?,
        })
    }

    /// Lends the name.
    pub fn text(&self) -> &str
        ensures text { result.now ≡ self.now }
        ensures short { length result.now ≤ 255 }
    {
        self.text.as_str()
    }
}

/// Whether a word is the name of a file.
pub(crate) fn is_file_name(word: &str) -> bool
    ensures { result ≡ named_file word.now }
{
    let bytes = word.as_bytes();
    !bytes.is_empty() && bytes.len() <= MOST_NAME_BYTES && bytes[0] != b'-'
}
