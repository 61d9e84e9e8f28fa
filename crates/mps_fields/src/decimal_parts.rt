//! Cuts of a text into the parts of a number. Every part is a slice of the text.
ghost use Rattle.std.specs.Prelude.{◌≡◌, ◌≤◌, not, position, length, MatchOption, None};
ghost use Rattle.std.specs.List.{prefix_len, list_all};
ghost use Rattle.mps_fields.specs.Decimal.{is_digit as digit, is_digits as digits, fraction_digits, is_exponent_letter as exponent_letter};
ghost use Rattle.mps_fields.specs.Reading.{sign_of, after_sign, front_digits, after_digits, fraction_of, after_fraction, exponent_of, decimal_of};
ghost use Rattle.mps_fields.specs.DecimalParts.{is_minus, IsPowerOf, ArePartsOf};

/// The exponent: no digits where none is written.
#[derive(Clone, Copy, Debug)]
pub(crate) struct Power<'a> {
    pub(crate) is_negative: bool,
    pub(crate) digits: &'a [u8],
}

/// A number as it is written; `fraction` has the digits after the point.
#[derive(Clone, Copy, Debug)]
pub(crate) struct Parts<'a> {
    pub(crate) is_negative: bool,
    pub(crate) whole: &'a [u8],
    pub(crate) fraction: &'a [u8],
    pub(crate) power: Power<'a>,
}

fn is_digit(byte: u8) -> bool
    ensures { result ≡ digit byte }
{
    byte >= b'0' && byte <= b'9'
}

fn has_digits_only(text: &[u8]) -> bool
    ensures { result ≡ list_all digit text.now }
{
    text.iter().all(|byte| is_digit(*byte))
}

// One or more digits, and nothing else.
fn is_digits(text: &[u8]) -> bool
    ensures { result ≡ digits text.now }
{
    !text.is_empty() && has_digits_only(text)
}

fn is_exponent_letter(byte: u8) -> bool
    ensures { result ≡ exponent_letter byte }
{
    byte == b'e' || byte == b'E' || byte == b'd' || byte == b'D'
}

fn first_other(text: &[u8]) -> Option<usize>
    ensures { result ≡ position (λ byte. not (digit byte)) text.now }
{
    text.iter().position(|byte| !is_digit(*byte))
}

// How many digits stand in front.
#[tactic(auto, using(crate::specs::FrontLaws::lead_none))]
fn digits_len(text: &[u8]) -> usize
    ensures len { result ≡ prefix_len digit text.now }
    ensures within { result ≤ length text.now }
{
    match first_other(text) {
        Some(place) => place,
        None => text.len(),
    }
}

fn cut_digits(text: &[u8]) -> (&[u8], &[u8])
    ensures front { result.0.now ≡ front_digits text.now }
    ensures back { result.1.now ≡ after_digits text.now }
{
    text.split_at(digits_len(text))
}

// Whether a minus stands in front, and the text behind the sign.
fn cut_sign(text: &[u8]) -> (bool, &[u8])
    ensures sign { result.0 ≡ is_minus (sign_of text.now) }
    ensures rest { result.1.now ≡ after_sign text.now }
{
    match text {
        [b'-', rest @ ..] => (true, rest),
        [b'+', rest @ ..] => (false, rest),
        _ => (false, text),
    }
}

// The digits behind a point in front, and the text behind them.
fn cut_fraction(text: &[u8]) -> (&[u8], &[u8])
    ensures fraction { result.0.now ≡ fraction_digits (fraction_of text.now) }
    ensures rest { result.1.now ≡ after_fraction text.now }
{
    match text {
        [b'.', rest @ ..] => cut_digits(rest),
        _ => text.split_at(0),
    }
}

// The exponent that is all of a text.
#[tactic(auto, using(crate::proofs::DecimalPartLaws::no_power, crate::proofs::DecimalPartLaws::power_is, crate::proofs::DecimalPartLaws::head_and_rest))]
fn exponent(text: &[u8]) -> Option<Power<'_>>
    ensures { MatchOption result (exponent_of text.now ≡ None) (λ power. IsPowerOf power text.now) }
{
    match text {
        [] => Some(Power {
            is_negative: false,
            digits: text,
        }),
        [letter, rest @ ..] => {
            let (is_negative, digits) = cut_sign(rest);
            if !is_exponent_letter(*letter) || !is_digits(digits) {
                return None;
            }
            Some(Power {
                is_negative,
                digits,
            })
        }
    }
}

/// The parts of the number that a text is.
pub(crate) fn cut_parts(text: &[u8]) -> Option<Parts<'_>>
    ensures { MatchOption result (decimal_of text.now ≡ None) (λ parts. ArePartsOf parts text.now) }
{
    let (is_negative, rest) = cut_sign(text);
    let (whole, rest) = cut_digits(rest);
    let (fraction, rest) = cut_fraction(rest);
    if whole.is_empty() && fraction.is_empty() {
        return None;
    }
    let power = exponent(rest)?;
    Some(Parts {
        is_negative,
        whole,
        fraction,
        power,
    })
}
