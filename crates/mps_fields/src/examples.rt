//! Worked values of the definitions, and the law that a text is read in one way.
#![tactic(auto, unfolding(crate::specs::Computing::computed))]

ghost use Rattle.std.specs.Prelude.{◌≡◌, ◌↔◌, ◌+◌, ◌-◌, ◌≤◌, IfSome, ℕ, not, List, [], ◌∷◌, ◌++◌, filter, replicate, codes, Some, None, Ok, Err, pos, negsuc, true, false};
ghost use Rattle.std.specs.List.{range_with_len};
ghost use Rattle.exact_math.specs.Rational.{frac, whole};
ghost use Rattle.mps_fields.specs.Lines.{lines_of, is_comment, is_blank_line, is_data_line, is_section_line};
ghost use Rattle.mps_fields.specs.FreeFields.{free_fields, AreFields};
ghost use Rattle.mps_fields.specs.FixedFields.{fixed_fields, is_in_columns, field_between, LiesBetween};
ghost use Rattle.mps_fields.specs.Decimal.{Decimal, Spells};
ghost use Rattle.mps_fields.specs.Reading.{number_of, decimal_of};
ghost use Rattle.mps_fields.specs.declared.numbers.NumberFault.TheVariants.{NotNumber, WideNumber};

/// Texts that are numbers, and texts that are none.
pub fn worked_numbers()
    ensures whole { number_of (codes "-120") ≡ Ok (whole (negsuc 119)) }
    ensures fraction { number_of (codes "+12.50") ≡ Ok (frac (pos 25) 2) }
    ensures point_last { number_of (codes "1.") ≡ Ok (whole (pos 1)) }
    ensures point_first { number_of (codes ".5") ≡ Ok (frac (pos 1) 2) }
    ensures exponent { number_of (codes "1.5D+3") ≡ Ok (whole (pos 1500)) }
    ensures least_power { number_of (codes "10e-38") ≡ Ok (frac (pos 1) 10000000000000000000000000000000000000) }
    ensures power_too_low { number_of (codes "10e-39") ≡ Err WideNumber }
    ensures greatest { number_of (codes "170141183460469231731687303715884105727") ≡ Ok (whole (pos 170141183460469231731687303715884105727)) }
    ensures too_great { number_of (codes "-170141183460469231731687303715884105728") ≡ Err WideNumber }
    ensures point_alone { number_of (codes ".") ≡ Err NotNumber }
    ensures no_exponent { number_of (codes "1e+") ≡ Err NotNumber }
    ensures two_points { number_of (codes "1.2.3") ≡ Err NotNumber }
    ensures nothing { number_of [] ≡ Err NotNumber }
{}

/// Lines and their kinds.
pub fn worked_lines()
    ensures two_lines { lines_of (65 ∷ 13 ∷ 10 ∷ 66 ∷ []) ≡ (65 ∷ []) ∷ (66 ∷ []) ∷ [] }
    ensures nothing_after { lines_of (65 ∷ 10 ∷ 10 ∷ []) ≡ (65 ∷ []) ∷ [] ∷ [] }
    ensures no_line { lines_of [] ≡ [] }
    ensures inner_return { lines_of (13 ∷ 13 ∷ 65 ∷ 13 ∷ 13 ∷ []) ≡ (13 ∷ 13 ∷ 65 ∷ 13 ∷ []) ∷ [] }
    ensures comment { is_comment (codes "* x") ≡ true }
    ensures blank { is_blank_line (32 ∷ 9 ∷ []) ≡ true }
    ensures empty { is_blank_line [] ≡ true }
    ensures data { is_data_line (codes " x") ≡ true }
    ensures blank_is_no_data { is_data_line (codes "  ") ≡ false }
    ensures section { is_section_line (codes "ROWS") ≡ true }
{}

/// Fields by runs and by columns.
pub fn worked_fields()
    ensures runs { free_fields (32 ∷ 120 ∷ 49 ∷ 9 ∷ 32 ∷ 114 ∷ []) ≡ (record { at = 1; text = codes "x1" }) ∷ (record { at = 5; text = codes "r" }) ∷ [] }
    ensures none { free_fields (32 ∷ 9 ∷ []) ≡ [] }
    ensures columns { fixed_fields (codes " UP  B  1    x") ≡ Some (record { at = 1; text = codes "UP" }) ∷ Some (record { at = 5; text = codes "B  1" }) ∷ None ∷ None ∷ None ∷ None ∷ [] }
    ensures in_columns { is_in_columns (codes " UP B        x") ≡ false }
    ensures tab { is_in_columns (32 ∷ 85 ∷ 9 ∷ []) ≡ false }
    ensures short { is_in_columns (codes " UP B") ≡ true }
{}

/// The columns of fixed form: each byte of this line of 64 is the number of its column, and 32 is the blank.
pub fn worked_columns()
    ensures fields { fixed_fields (range_with_len 1 64) ≡
        Some (record { at = 1; text = range_with_len 2 2 }) ∷ Some (record { at = 4; text = range_with_len 5 8 })
        ∷ Some (record { at = 14; text = range_with_len 15 8 }) ∷ Some (record { at = 24; text = range_with_len 25 12 })
        ∷ Some (record { at = 39; text = range_with_len 40 8 }) ∷ Some (record { at = 49; text = range_with_len 50 12 }) ∷ [] }
    ensures gaps { filter (λ column. not (is_in_columns (replicate (column - 1) 32 ++ codes "x"))) (range_with_len 1 64) ≡
        1 ∷ 4 ∷ 13 ∷ 14 ∷ 23 ∷ 24 ∷ 37 ∷ 38 ∷ 39 ∷ 48 ∷ 49 ∷ [] }
    ensures last_tab_refused { is_in_columns (replicate 60 32 ++ 9 ∷ []) ≡ false }
    ensures first_tab_taken { is_in_columns (replicate 61 32 ++ 9 ∷ []) ≡ true }
{}

/// A text is a number in one way at most, and `decimal_of` finds it.
pub fn one_reading()
    ensures one { (text : List ℕ) (d e : Decimal) → Spells d text → Spells e text → d ≡ e }
    ensures found { (text : List ℕ) (d : Decimal) → Spells d text ↔ (decimal_of text ≡ Some d) }
{}

/// The fields of a line in free form are all its runs of bytes other than blank and tab, in rising order, each at its place.
#[tactic(auto, using(crate::proofs::FreeFieldLaws::free_fields_are))]
pub fn free_fields_are_runs()
    ensures { (line : List ℕ) → AreFields line 0 (free_fields line) }
{}

/// A field in fixed form stands at its place in the line, within its columns; the columns of two fields have none in common.
#[tactic(auto, using(crate::proofs::FixedFieldLaws::field_lies))]
pub fn fixed_fields_lie_in_columns()
    ensures { (first last : ℕ) (line : List ℕ) → 1 ≤ first → first ≤ last + 1 → IfSome (field_between first last line) (LiesBetween first last line) }
{}
