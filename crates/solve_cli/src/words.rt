//! The command that a list of words spells.
ghost use Rattle.std.specs.Prelude.{◌≡◌, ◌≤◌, true, IfOk, IfSome, length, map, option_and_then, option_map, string_bytes};
ghost use Rattle.std.specs.List.{list_all};
ghost use Rattle.mps_fields.specs.Decimal.{is_digit as digit, is_digits as digits};
ghost use Rattle.solve_cli.specs.Words.{are_file_names as file_names, is_plain_number as plain_number, number_within, valued_option_of, first_option_of, words_in, with_option, settled, options_of, files_of, solve_of, check_of, market_of, none_chosen, command_of};
ghost use Rattle.solve_cli.specs.Commands.{GivesCommand, GivesFiles, job_view};
ghost use Rattle.solve_cli.specs.declared.words.WordsStop.TheVariants.{NoMemory as no_memory};

use crate::file_name::{FileName, is_file_name};
use mps_model::Layout;
use std::alloc::{AllocError, Global};

/// 2^62, the greatest upper bound that may be handed in.
const MOST_UPPER: u64 = 4_611_686_018_427_387_904;

/// The greatest budget of nodes.
const MOST_NODES: u64 = 1_000;

/// The budget of nodes where none is given.
pub(crate) const DEFAULT_NODES: u32 = 1_000;

/// The greatest number of rows of a market.
const MOST_MARKET_ROWS: u64 = 10;

/// The greatest number of columns of a market.
const MOST_MARKET_COLUMNS: u64 = 100;

/// The greatest start of the stream of a market.
const MOST_START: u64 = 2_147_483_646;

/// An option of a command.
#[derive(Clone, Copy, Debug, Drop, PartialEq, Eq)]
pub(crate) enum SolveOption {
    Fixed,
    Upper(i128),
    Nodes(u32),
}

/// The options that were read so far.
#[derive(Clone, Copy, Debug, Drop)]
pub(crate) struct Chosen {
    layout: Layout,
    upper: Option<i128>,
    nodes: Option<u32>,
}

impl SolveOption {
    /// How many words the option has.
    fn words(self) -> usize
        ensures { result ≡ words_in self }
    {
        match self {
            SolveOption::Fixed => 1,
            SolveOption::Upper(_) | SolveOption::Nodes(_) => 2,
        }
    }
}

impl Chosen {
    /// Free form, no upper bound and no budget.
    fn none() -> Chosen
        ensures { result ≡ none_chosen }
    {
        Chosen {
            layout: Layout::Free,
            upper: None,
            nodes: None,
        }
    }

    /// These options and one more, unless it is given already.
    fn with(self, option: SolveOption) -> Option<Chosen>
        ensures { result ≡ with_option self option }
    {
        match option {
            SolveOption::Fixed => match self.layout {
                Layout::Free => Some(Chosen {
                    layout: Layout::Fixed,
                    upper: self.upper,
                    nodes: self.nodes,
                }),
                Layout::Fixed => None,
            },
            SolveOption::Upper(bound) => match self.upper {
                None => Some(Chosen {
                    layout: self.layout,
                    upper: Some(bound),
                    nodes: self.nodes,
                }),
                Some(_) => None,
            },
            SolveOption::Nodes(count) => match self.nodes {
                None => Some(Chosen {
                    layout: self.layout,
                    upper: self.upper,
                    nodes: Some(count),
                }),
                Some(_) => None,
            },
        }
    }
}

/// A command.
#[derive(Debug, Drop)]
pub enum Command {
    /// Solves the model that the text in `model` states, in this layout, with this upper bound for the columns for which it
    /// gives none, and with a budget of so many nodes. The proof of the answer will go into `proof`.
    Solve {
        layout: Layout,
        upper: Option<i128>,
        nodes: u32,
        model: FileName,
        proof: FileName,
    },
    /// Checks the proof in `proof` against the model that the text in `model` states, in this layout and with this upper bound
    /// for the columns for which it gives none.
    Check {
        layout: Layout,
        upper: Option<i128>,
        model: FileName,
        proof: FileName,
    },
    /// Puts the text of the market with `m` rows (1 to 10) and `n` columns (1 to 100), from `start` (1 to 2147483646), into
    /// `model`, and solves it with the budget that solving has where none is chosen. The proof of the answer will go into `proof`.
    Market {
        m: u32,
        n: u32,
        start: u32,
        model: FileName,
        proof: FileName,
    },
}

/// The options and the names of the two files behind the first word of a command.
#[derive(Debug, Drop)]
pub(crate) struct Files {
    chosen: Chosen,
    model: FileName,
    proof: FileName,
}

/// Why words gave no command.
#[derive(Clone, Copy, Debug, Drop, PartialEq, Eq)]
pub enum WordsStop {
    /// They are no command.
    Words,
    NoMemory,
}

impl From<AllocError> for WordsStop {
    ghost from_gives = { λ _ stop. stop ≡ no_memory };

    fn from(_: AllocError) -> Self {
        WordsStop::NoMemory
    }
}

fn are_file_names(model: &str, proof: &str) -> bool
    ensures { result ≡ file_names model.now proof.now }
{
    is_file_name(model) && is_file_name(proof) && model != proof
}

// Whether a byte is one of the digits 0 to 9.
fn is_digit(byte: u8) -> bool
    ensures { result ≡ digit byte }
{
    byte >= b'0' && byte <= b'9'
}

fn has_digits_only(word: &[u8]) -> bool
    ensures { result ≡ list_all digit word.now }
{
    word.iter().all(|byte| is_digit(*byte))
}

fn is_digits(word: &[u8]) -> bool
    ensures { result ≡ digits word.now }
{
    !word.is_empty() && has_digits_only(word)
}

fn is_plain_number(word: &[u8]) -> bool
    ensures { result ≡ plain_number word.now }
{
    is_digits(word) && (word.len() == 1 || word[0] != b'0')
}

// The whole number from low to high that a word spells in its shortest decimal digits.
fn number(word: &str, low: u64, high: u64) -> Option<u64>
    ensures value { result ≡ number_within low high word.now }
    ensures range { IfSome result (λ number. number ≤ high) }
{
    if !is_plain_number(word.as_bytes()) {
        return None;
    }
    let Ok(number) = word.parse::<u64>() else {
        return None;
    };
    if number < low {
        return None;
    }
    if number > high {
        return None;
    }
    Some(number)
}

// The option of two words.
fn valued_option(word: &str, value: &str) -> Option<SolveOption>
    ensures { result ≡ valued_option_of word.now value.now }
{
    if word == "--upper" {
        return Some(SolveOption::Upper(i128::from(number(value, 0, MOST_UPPER)?)));
    }
    if word == "--nodes" {
        return Some(SolveOption::Nodes(number(value, 1, MOST_NODES)? as u32));
    }
    None
}

// The option that words begin with.
fn first_option(words: &[String]) -> Option<SolveOption>
    ensures { result ≡ first_option_of (map string_bytes words.now) }
{
    match words {
        [word, ..] if word.as_str() == "--fixed" => Some(SolveOption::Fixed),
        [word, value, ..] => valued_option(word.as_str(), value.as_str()),
        _ => None,
    }
}

// The options that words spell, in any order, each at most once.
fn read_options(words: &[String]) -> Option<Chosen>
    ensures { result ≡ option_and_then (settled none_chosen) (options_of (map string_bytes words.now)) }
{
    let mut given = Chosen::none();
    let mut rest = words;
    while !rest.is_empty() {
        let option = first_option(rest)?;
        given = given.with(option)?;
        rest = &rest[option.words()..];
    }
    Some(given)
}

// What the words behind the first one spell: options in front of two names.
fn read_files(alloc: Global, words: &[String]) -> Result<Files, WordsStop>
    ensures { GivesFiles result (files_of (map string_bytes words.now)) }
{
    let (options, names) = words.split_at(words.len().saturating_sub(2));
    let [model, proof] = names else {
        return Err(WordsStop::Words);
    };
    let (model, proof) = (model.as_str(), proof.as_str());
    if !are_file_names(model, proof) {
        return Err(WordsStop::Words);
    }
    let Some(chosen) = read_options(options) else {
        return Err(WordsStop::Words);
    };
    Ok(Files {
        chosen,
        model: FileName::of(alloc, model)?,
        proof: FileName::of(alloc, proof)?,
    })
}

fn solve_command(files: Files) -> Command
    ensures { job_view result ≡ solve_of files }
{
    let Files {
        chosen,
        model,
        proof,
    } = files;
    Command::Solve {
        layout: chosen.layout,
        upper: chosen.upper,
        nodes: chosen.nodes.unwrap_or(DEFAULT_NODES),
        model,
        proof,
    }
}

// None where a budget is chosen, which a check does not have.
fn check_command(files: Files) -> Option<Command>
    ensures { option_map job_view result ≡ check_of files }
{
    if files.chosen.nodes.is_some() {
        return None;
    }
    let Files {
        chosen,
        model,
        proof,
    } = files;
    Some(Command::Check {
        layout: chosen.layout,
        upper: chosen.upper,
        model,
        proof,
    })
}

// The market that the words behind the first one spell: three numbers in front of two names.
fn read_market(alloc: Global, words: &[String]) -> Result<Command, WordsStop>
    ensures { GivesCommand result (market_of (map string_bytes words.now)) }
{
    let [rows, columns, start, model, proof] = words else {
        return Err(WordsStop::Words);
    };
    let (Some(m), Some(n), Some(start)) = (
        number(rows.as_str(), 1, MOST_MARKET_ROWS),
        number(columns.as_str(), 1, MOST_MARKET_COLUMNS),
        number(start.as_str(), 1, MOST_START),
    ) else {
        return Err(WordsStop::Words);
    };
    let (model, proof) = (model.as_str(), proof.as_str());
    if !are_file_names(model, proof) {
        return Err(WordsStop::Words);
    }
    Ok(Command::Market {
        m: m as u32,
        n: n as u32,
        start: start as u32,
        model: FileName::of(alloc, model)?,
        proof: FileName::of(alloc, proof)?,
    })
}

/// The command that the words spell.
pub fn read_words(alloc: Global, words: &Vec<String>) -> Result<Command, WordsStop>
    ensures { GivesCommand result (command_of (map string_bytes words.now.items)) }
{
    match words.as_slice() {
        [word, rest @ ..] if word.as_str() == "solve" => {
            let files = read_files(alloc, rest)?;
            Ok(solve_command(files))
        }
        [word, rest @ ..] if word.as_str() == "check" => {
            let files = read_files(alloc, rest)?;
            match check_command(files) {
                Some(command) => Ok(command),
                None => Err(WordsStop::Words),
            }
        }
        [word, rest @ ..] if word.as_str() == "market" => read_market(alloc, rest),
        _ => Err(WordsStop::Words),
    }
}
