//! The bytes of a claim and of the records of a tree.
ghost use Rattle.std.specs.Prelude.{◌≡◌, ◌<◌, ◌++◌, [], ◌∷◌, ℕ, List, codes, drop, length, flat_map, map, option_to_list, option_map, OnOk, IfOk, decimal};
ghost use Rattle.std.specs.Fmt.{signed_decimal};
ghost use Rattle.proof_text.specs.Spelling.{pair, cut_word, use_word, line_words, form_words, mark_word, further, in_words, in_lines, closing_line, split_line, below_line, above_line, split_lines, run_line, record_lines, claim_line, head_lines};

use crate::claim::{Claim, Record};
use farkas_rows::{CutUse, Line, Use};
use itoa::Buffer;
use proof_tree::{Cut, Mark};
use sequence::{NoMemory, Sequence};
use std::alloc::Global;

/// The bytes of a text.
pub type Text = Sequence<u8>;

/// The two lines in front of the nodes.
pub fn print_head(alloc: Global, claim: &Claim) -> Result<Text, NoMemory>
    ensures { IfOk result (λ text. text ≡ in_lines (head_lines claim.now)) }
{
    let mut text = Vec::from_slice(alloc, b"SLICER 1\n")?;
    push_claim(&mut text, claim)?;
    text.push(b'\n')?;
    Ok(Text::from_vec(text))
}

/// The lines of one node without its children, or the line of nodes that were not worked.
pub fn print_record(alloc: Global, item: &Record<'_>) -> Result<Text, NoMemory>
    ensures { IfOk result (λ text. text ≡ in_lines (record_lines item.now)) }
{
    let mut text = Vec::new(alloc);
    match item {
        Record::Close(line) => push_line(&mut text, b"E", line)?,
        Record::Split(cut) => push_split(&mut text, cut)?,
        Record::Run(count) => push_run(&mut text, *count)?,
    }
    Ok(Text::from_vec(text))
}

/// Puts the line of a claim at the end, without its line feed.
fn push_claim(text: &mut Vec<u8>, claim: &Claim) -> Result<(), NoMemory>
    ensures { OnOk result (text.new.items ≡ text.old.items ++ claim_line claim.now) }
{
    match claim {
        Claim::Infeasible => text.extend_from_slice(b"INFEASIBLE")?,
        Claim::Open => text.extend_from_slice(b"OPEN")?,
        Claim::Optimal(x) => {
            text.extend_from_slice(b"OPTIMAL")?;
            push_numbers(text, x.items())?;
        }
    }
    Ok(())
}

/// Puts each number behind a blank at the end.
fn push_numbers(text: &mut Vec<u8>, numbers: &[i128]) -> Result<(), NoMemory>
    ensures { OnOk result (text.new.items ≡ text.old.items ++ further (map signed_decimal numbers.now)) }
{
    for number in numbers {
        text.push(b' ')?;
        push_number(text, *number)?;
    }
    Ok(())
}

/// Puts the line of nodes that were not worked at the end.
fn push_run(text: &mut Vec<u8>, count: i128) -> Result<(), NoMemory>
    ensures { OnOk result (text.new.items ≡ text.old.items ++ (run_line count ++ 10 ∷ [])) }
{
    text.extend_from_slice(b"O ")?;
    push_number(text, count)?;
    text.push(b'\n')?;
    Ok(())
}

/// Puts the three lines of a split at the end.
fn push_split(text: &mut Vec<u8>, cut: &Cut) -> Result<(), NoMemory>
    ensures { OnOk result (text.new.items ≡ text.old.items ++ in_lines (split_lines cut.now)) }
{
    push_split_line(text, cut)?;
    push_line(text, b"B", &cut.below)?;
    push_line(text, b"A", &cut.above)
}

/// Puts the first line of a split at the end.
fn push_split_line(text: &mut Vec<u8>, cut: &Cut) -> Result<(), NoMemory>
    ensures { OnOk result (text.new.items ≡ text.old.items ++ (split_line cut.now ++ 10 ∷ [])) }
{
    text.extend_from_slice(b"S ")?;
    text.extend_from_slice(mark_of(cut.mark))?;
    text.push(b' ')?;
    push_number(text, cut.lo)?;
    text.push(b' ')?;
    push_number(text, cut.count)?;
    push_form(text, cut.form.items())?;
    text.push(b'\n')?;
    Ok(())
}

/// How a mark is spelled.
fn mark_of(mark: Mark) -> &'static [u8]
    ensures { result.now ≡ mark_word mark }
{
    match mark {
        Mark::Thin => b"T",
        Mark::Plain => b"P",
    }
}

/// Puts each factor that is not 0 at the end, behind a blank and its column.
fn push_form(text: &mut Vec<u8>, form: &[i128]) -> Result<(), NoMemory>
    ensures { OnOk result (text.new.items ≡ text.old.items ++ further (form_words 0 form.now)) }
{
    for column in 0..form.len() {
        push_factor(text, column as u64, form[column])?;
    }
    Ok(())
}

/// Puts a factor at the end, behind a blank and its column, unless it is 0.
fn push_factor(text: &mut Vec<u8>, column: u64, factor: i128) -> Result<(), NoMemory>
    ensures { OnOk result (text.new.items ≡ text.old.items ++ further (form_words column (factor ∷ []))) }
{
    if factor == 0 {
        return Ok(());
    }
    text.push(b' ')?;
    push_size(text, column)?;
    push_multiplier(text, factor)
}

/// Puts a line of multipliers behind its first word at the end.
fn push_line(text: &mut Vec<u8>, first: &[u8], line: &Line) -> Result<(), NoMemory>
    ensures { OnOk result (text.new.items ≡ text.old.items ++ (in_words (first.now ∷ line_words line.now) ++ 10 ∷ [])) }
{
    text.extend_from_slice(first)?;
    push_cut(text, line.cut)?;
    push_uses(text, line.items.items())?;
    text.push(b'\n')?;
    Ok(())
}

/// Puts the cut at the end, behind a blank, where it is used.
fn push_cut(text: &mut Vec<u8>, cut: Option<CutUse>) -> Result<(), NoMemory>
    ensures { OnOk result (text.new.items ≡ text.old.items ++ further (option_to_list (option_map cut_word cut))) }
{
    let Some(cut) = cut else {
        return Ok(());
    };
    text.extend_from_slice(b" Z")?;
    push_number(text, cut.value)?;
    push_multiplier(text, cut.times)
}

/// Puts each inequality with its multiplier behind a blank at the end.
fn push_uses(text: &mut Vec<u8>, items: &[Use]) -> Result<(), NoMemory>
    ensures { OnOk result (text.new.items ≡ text.old.items ++ further (map use_word items.now)) }
{
    for item in items {
        push_use(text, *item)?;
    }
    Ok(())
}

/// Puts an inequality with its multiplier behind a blank at the end.
fn push_use(text: &mut Vec<u8>, item: Use) -> Result<(), NoMemory>
    ensures { OnOk result (text.new.items ≡ text.old.items ++ further (use_word item ∷ [])) }
{
    text.push(b' ')?;
    push_size(text, u64::from(item.index))?;
    push_multiplier(text, item.times)
}

/// Puts a colon and a number at the end.
fn push_multiplier(text: &mut Vec<u8>, number: i128) -> Result<(), NoMemory>
    ensures { OnOk result (text.new.items ≡ text.old.items ++ 58 ∷ signed_decimal number) }
{
    text.push(b':')?;
    push_number(text, number)
}

/// Puts a number at the end.
fn push_number(text: &mut Vec<u8>, number: i128) -> Result<(), NoMemory>
    ensures { OnOk result (text.new.items ≡ text.old.items ++ signed_decimal number) }
{
    let mut buffer = Buffer::new();
    text.extend_from_slice(buffer.format(number).as_bytes())?;
    Ok(())
}

/// Puts a number that has no sign at the end.
fn push_size(text: &mut Vec<u8>, number: u64) -> Result<(), NoMemory>
    ensures { OnOk result (text.new.items ≡ text.old.items ++ decimal number) }
{
    let mut buffer = Buffer::new();
    text.extend_from_slice(buffer.format(number).as_bytes())?;
    Ok(())
}
