//! Runs of bytes other than blank and tab.
ghost use Rattle.std.specs.Prelude.{◌≡◌, ◌+◌, ◌≤◌, [], not, position, length, MatchOption};
ghost use Rattle.std.specs.List.{prefix_len, position_or_len};
ghost use Rattle.mps_fields.specs.Lines.{is_blank as blank, most_bytes};
ghost use Rattle.mps_fields.specs.FreeFields.{fields_from};
ghost use Rattle.mps_fields.specs.FieldViews.{CutsFirst};

/// A run that begins `at` bytes into its line, and the rest of the line, which begins at the place `end`.
#[derive(Clone, Copy, Debug)]
pub(crate) struct Cut<'a> {
    pub(crate) at: u32,
    pub(crate) text: &'a [u8],
    pub(crate) rest: &'a [u8],
    pub(crate) end: u32,
}

fn is_blank(byte: u8) -> bool
    ensures { result ≡ blank byte }
{
    byte == b' ' || byte == b'\t'
}

fn first_other(bytes: &[u8]) -> Option<usize>
    ensures { result ≡ position (λ byte. not (blank byte)) bytes.now }
{
    bytes.iter().position(|byte| !is_blank(*byte))
}

fn first_blank(bytes: &[u8]) -> Option<usize>
    ensures { result ≡ position blank bytes.now }
{
    bytes.iter().position(|byte| is_blank(*byte))
}

// How many blanks stand in front.
#[tactic(auto, using(crate::specs::FrontLaws::place_some, crate::specs::FrontLaws::place_none))]
fn blanks_len(bytes: &[u8]) -> usize
    ensures len { result ≡ position_or_len (λ byte. not (blank byte)) bytes.now }
    ensures within { result ≤ length bytes.now }
{
    match first_other(bytes) {
        Some(place) => place,
        None => bytes.len(),
    }
}

// How many bytes of a run stand in front.
#[tactic(auto, using(crate::specs::FrontLaws::place_some, crate::specs::FrontLaws::place_none))]
fn run_len(bytes: &[u8]) -> usize
    ensures len { result ≡ position_or_len blank bytes.now }
    ensures within { result ≤ length bytes.now }
{
    match first_blank(bytes) {
        Some(place) => place,
        None => bytes.len(),
    }
}

/// The first run of bytes that begin at a place of a line, or `None` where only blanks are left.
pub(crate) fn cut_run(bytes: &[u8], place: u32) -> Option<Cut<'_>>
    requires { place + length bytes.now ≤ most_bytes }
    ensures { MatchOption result (fields_from place bytes.now ≡ []) (CutsFirst place bytes.now) }
{
    let blanks = blanks_len(bytes);
    let (_, bytes) = bytes.split_at(blanks);
    if bytes.is_empty() {
        return None;
    }
    let (text, rest) = bytes.split_at(run_len(bytes));
    let at = place + blanks as u32;
    Some(Cut {
        at,
        text,
        rest,
        end: at + text.len() as u32,
    })
}
