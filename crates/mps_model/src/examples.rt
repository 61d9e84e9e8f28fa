//! Worked values of the definitions, and the law that a text has one meaning.
#![tactic(auto, unfolding(crate::specs::WorkedTexts::computed))]

ghost use Rattle.std.specs.Prelude.{◌≡◌, ◌↔◌, ℕ, ℤ, List, [], ◌∷◌, ◌++◌, codes, replicate, take, Option, Some, None, Ok, Err, pos, negsuc, true, false};
ghost use Rattle.exact_math.specs.Rational.{frac, whole};
ghost use Rattle.int_model.specs.declared.model.Model.{Model};
ghost use Rattle.mps_model.specs.declared.layout.Layout.{Layout};
ghost use Rattle.mps_model.specs.declared.fault.TextFault.{TextFault};
ghost use Rattle.mps_model.specs.declared.layout.Layout.TheVariants.{Free, Fixed};
ghost use Rattle.mps_model.specs.declared.fault.FaultKind.TheVariants as faults;
ghost use Rattle.mps_model.specs.Tables.{tables_of};
ghost use Rattle.mps_model.specs.Bounds.{is_integer};
ghost use Rattle.mps_model.specs.StatedModel.{means, model_lines};
ghost use Rattle.mps_model.specs.RowFaults.{row_fault};
ghost use Rattle.mps_model.specs.ColumnFaults.{column_fault};
ghost use Rattle.std.specs.Bool.{Decides};
ghost use Rattle.exact_math.specs.Rational.{ℚ};
ghost use Rattle.frac128.specs.Range.{SumInRange};
ghost use Rattle.mps_model.specs.Sides.{sum_fits};
ghost use Rattle.mps_model.specs.Meaning.{fault_at, meaning, Means, FaultAt, HasOneMeaning, are_settled};
ghost use Rattle.mps_model.specs.WorkedTexts.{text_of, empty_model, two_coins, sample, split_fixed, split_free, small_fixed, item, equation, column_to, ranged, priced, two_free_rows, marked, by_columns, row_between, column_between, tables_with, many_columns};

/// A text without rows and columns, an equation over two columns, and the example of docs/FORMATS.md.
pub fn worked_models()
    ensures empty { meaning Free None empty_model ≡ Ok (record { columns = []; rows = []; objective = []; constant = whole (pos 0) }) }
    ensures coins { meaning Free None two_coins ≡ Ok (record {
      columns = column_to 10 (codes "x") ∷ column_to 10 (codes "y") ∷ [];
      rows = equation (codes "r") 8 (item 0 3 ∷ item 1 5 ∷ []) ∷ [];
      objective = [];
      constant = whole (pos 0);
    }) }
    ensures sample { meaning Free None sample ≡ Ok (record {
      columns = column_to 9 (codes "x") ∷ column_to 1 (codes "y") ∷ [];
      rows = (record { name = codes "r"; lo = Some (whole (pos 4)); hi = None; items = item 0 2 ∷ item 1 3 ∷ [] }) ∷ [];
      objective = (record { column = 0; factor = frac (pos 1) 2 }) ∷ [];
      constant = whole (pos 0);
    }) }
{}

/// The sides of a row with the right side 5, without a range (the line is a comment) and with one.
pub fn worked_sides()
    ensures at_most { (means Free None (ranged (codes " L r") (codes "* none"))).rows ≡ row_between None (Some (pos 5)) }
    ensures at_least { (means Free None (ranged (codes " G r") (codes "* none"))).rows ≡ row_between (Some (pos 5)) None }
    ensures equal { (means Free None (ranged (codes " E r") (codes "* none"))).rows ≡ row_between (Some (pos 5)) (Some (pos 5)) }
    ensures equal_down { (means Free None (ranged (codes " E r") (codes " r -3"))).rows ≡ row_between (Some (pos 2)) (Some (pos 5)) }
    ensures equal_up { (means Free None (ranged (codes " E r") (codes " r 3"))).rows ≡ row_between (Some (pos 5)) (Some (pos 8)) }
    ensures equal_still { (means Free None (ranged (codes " E r") (codes " r 0"))).rows ≡ row_between (Some (pos 5)) (Some (pos 5)) }
    ensures at_most_ranged { (means Free None (ranged (codes " L r") (codes " r -3"))).rows ≡ row_between (Some (pos 2)) (Some (pos 5)) }
    ensures at_most_ranged_above { (means Free None (ranged (codes " L r") (codes " r 3"))).rows ≡ row_between (Some (pos 2)) (Some (pos 5)) }
    ensures at_least_ranged { (means Free None (ranged (codes " G r") (codes " r -3"))).rows ≡ row_between (Some (pos 5)) (Some (pos 8)) }
    ensures faultless { fault_at Free None (ranged (codes " E r") (codes " r -3")) ≡ None }
{}

/// The bounds of a column: the last entry that sets a side counts.
pub fn worked_bounds()
    ensures given { (means Free (Some (pos 9)) (priced (codes " x c 1") [])).columns ≡ column_between (codes "x") (pos 0) (pos 9) }
    ensures not_given { (means Free (Some (pos 9)) (priced (codes " x c 1") (codes "BOUNDS" ∷ codes " UP x 4" ∷ []))).columns ≡ column_between (codes "x") (pos 0) (pos 4) }
    ensures lower_last { (means Free None (priced (codes " x c 1") (codes "BOUNDS" ∷ codes " MI x" ∷ codes " LO x -4" ∷ codes " UP x -1" ∷ []))).columns ≡ column_between (codes "x") (negsuc 3) (negsuc 0) }
    ensures each_side { (means Free None (priced (codes " x c 1") (codes "BOUNDS" ∷ codes " FX B x 2" ∷ codes " UP B x 5" ∷ []))).columns ≡ column_between (codes "x") (pos 2) (pos 5) }
    ensures unset_again { (means Free (Some (pos 9)) (priced (codes " x c 1") (codes "BOUNDS" ∷ codes " UP x 5" ∷ codes " PL x" ∷ []))).columns ≡ column_between (codes "x") (pos 0) (pos 9) }
    ensures binary { (means Free None (priced (codes " x c 1") (codes "BOUNDS" ∷ codes " FR B x 7" ∷ codes " BV B x" ∷ []))).columns ≡ column_between (codes "x") (pos 0) (pos 1) }
    ensures fixed { (means Free None (priced (codes " x c 1") (codes "BOUNDS" ∷ codes " FX x 2" ∷ []))).columns ≡ column_between (codes "x") (pos 2) (pos 2) }
    ensures upper_kept { (means Free None (priced (codes " x c 1") (codes "BOUNDS" ∷ codes " UP x 5" ∷ codes " MI x" ∷ codes " LO x 0" ∷ []))).columns ≡ column_between (codes "x") (pos 0) (pos 5) }
{}

/// The objective is the first N row; a number on it in RHS is taken from the value.
pub fn worked_objectives()
    ensures later { meaning Free None two_free_rows ≡ Ok (record { columns = column_between (codes "x") (pos 0) (pos 1); rows = []; objective = item 0 1 ∷ []; constant = whole (negsuc 2) }) }
    ensures half { meaning Free None (priced (codes " x c 0.5") (codes "RHS" ∷ codes " c 3" ∷ codes "BOUNDS" ∷ codes " LI x 3" ∷ codes " UI x 9" ∷ [])) ≡ Ok (record { columns = column_between (codes "x") (pos 3) (pos 9); rows = []; objective = (record { column = 0; factor = frac (pos 1) 2 }) ∷ []; constant = whole (negsuc 2) }) }
    ensures zero { (means Free (Some (pos 9)) (priced (codes " x c 0e999") [])).objective ≡ [] }
{}

/// Which columns are integer: those between markers, and those with a bound of kind BV, LI or UI.
pub fn worked_integers()
    ensures bounded { is_integer (tables_of Free (model_lines marked)) (codes "v") ≡ true }
    ensures between { is_integer (tables_of Free (model_lines marked)) (codes "w") ≡ true }
    ensures behind { is_integer (tables_of Free (model_lines marked)) (codes "x") ≡ false }
    ensures open_to_the_end { is_integer (tables_of Free (model_lines marked)) (codes "y") ≡ true }
    ensures by_a_lower_bound { fault_at Free (Some (pos 9)) (text_of (codes "ROWS" ∷ codes " N c" ∷ codes "COLUMNS" ∷ codes " x c 1" ∷ codes "BOUNDS" ∷ codes " LI x 1" ∷ codes "ENDATA" ∷ [])) ≡ None }
{}

/// A text with CR LF line ends, whose fields stand in their columns, in both layouts; in fixed form a name may hold a blank.
pub fn worked_layouts()
    ensures fixed { meaning Fixed None (by_columns (codes "X1      ")) ≡ Ok (record { columns = column_between (codes "X1") (pos 0) (pos 1); rows = equation (codes "R1") 125 (item 0 71 ∷ []) ∷ []; objective = []; constant = whole (pos 0) }) }
    ensures free { meaning Free None (by_columns (codes "X1      ")) ≡ Ok (record { columns = column_between (codes "X1") (pos 0) (pos 1); rows = equation (codes "R1") 125 (item 0 71 ∷ []) ∷ []; objective = []; constant = whole (pos 0) }) }
    ensures blank_in_name { meaning Fixed None (by_columns (codes "X 1     ")) ≡ Ok (record { columns = column_between (codes "X 1") (pos 0) (pos 1); rows = equation (codes "R1") 125 (item 0 71 ∷ []) ∷ []; objective = []; constant = whole (pos 0) }) }
    ensures blank_between_names { fault_at Free None (by_columns (codes "X 1     ")) ≡ Some (record { kind = faults.FieldCount; line = 5 }) }
    ensures split_fixed { meaning Fixed None split_fixed ≡ Ok (record {
      columns = column_to 1 (codes "X1") ∷ column_to 1 (codes "X2") ∷ column_to 1 (codes "X3") ∷ [];
      rows = equation (codes "R1") 125 (item 0 71 ∷ item 1 94 ∷ item 2 86 ∷ []) ∷ equation (codes "R2") 80 (item 0 37 ∷ item 1 41 ∷ item 2 83 ∷ []) ∷ [];
      objective = [];
      constant = whole (pos 0);
    }) }
    ensures split_fixed_as_free { meaning Free None split_fixed ≡ Ok (record {
      columns = column_to 1 (codes "X1") ∷ column_to 1 (codes "X2") ∷ column_to 1 (codes "X3") ∷ [];
      rows = equation (codes "R1") 125 (item 0 71 ∷ item 1 94 ∷ item 2 86 ∷ []) ∷ equation (codes "R2") 80 (item 0 37 ∷ item 1 41 ∷ item 2 83 ∷ []) ∷ [];
      objective = [];
      constant = whole (pos 0);
    }) }
    ensures split_free { meaning Free None split_free ≡ meaning Fixed None split_fixed }
    ensures small_fixed { meaning Fixed None (small_fixed (codes "first r")) ≡ Ok (record {
      columns = column_to 9 (codes "x") ∷ column_to 1 (codes "y") ∷ [];
      rows = (record { name = codes "first r"; lo = Some (whole (pos 2)); hi = Some (whole (pos 5)); items = item 0 1 ∷ item 1 1 ∷ [] })
          ∷ (record { name = codes "q"; lo = Some (whole (negsuc 3)); hi = Some (whole (pos 0)); items = item 0 1 ∷ [] }) ∷ [];
      objective = (record { column = 0; factor = frac (pos 1) 2 }) ∷ [];
      constant = whole (negsuc 2);
    }) }
    ensures small_fields { fault_at Free None (small_fixed (codes "first r")) ≡ Some (record { kind = faults.FieldCount; line = 5 }) }
    ensures small_free { meaning Free None (small_fixed (codes "first-r")) ≡ meaning Fixed None (small_fixed (codes "first-r")) }
{}

/// Lines that are too long, hold other bytes, or stand out of their columns; comments are judged by their length alone.
pub fn worked_line_faults()
    ensures long_comment { fault_at Free None (replicate 1025 42) ≡ Some (record { kind = faults.LongLine; line = 1 }) }
    ensures longest_comment { fault_at Free None (replicate 1024 42) ≡ Some (record { kind = faults.NoEnd; line = 1 }) }
    ensures long_blank_line { fault_at Free None (replicate 1025 32) ≡ Some (record { kind = faults.LongLine; line = 1 }) }
    ensures byte { fault_at Free None (82 ∷ 200 ∷ []) ≡ Some (record { kind = faults.Byte; line = 1 }) }
    ensures delete_byte { fault_at Free None (127 ∷ []) ≡ Some (record { kind = faults.Byte; line = 1 }) }
    ensures byte_in_comment { fault_at Free None (42 ∷ 200 ∷ 10 ∷ 10 ∷ []) ≡ Some (record { kind = faults.NoEnd; line = 2 }) }
    ensures tab { fault_at Fixed None (text_of (codes "ROWS" ∷ (32 ∷ 69 ∷ 9 ∷ 114 ∷ []) ∷ [])) ≡ Some (record { kind = faults.Byte; line = 2 }) }
    ensures tab_in_free_form { fault_at Free None (text_of (codes "ROWS" ∷ (32 ∷ 69 ∷ 9 ∷ 114 ∷ []) ∷ [])) ≡ Some (record { kind = faults.NoEnd; line = 2 }) }
    ensures tab_begins_data { fault_at Free None (text_of (codes "ROWS" ∷ (9 ∷ codes "E r") ∷ [])) ≡ Some (record { kind = faults.NoEnd; line = 2 }) }
    ensures out_of_columns { fault_at Fixed None (text_of (codes "ROWS" ∷ codes " E r" ∷ [])) ≡ Some (record { kind = faults.Byte; line = 2 }) }
{}

/// Sections that are unknown, out of order or twice there, lines before ROWS, and a text that does not end.
pub fn worked_section_faults()
    ensures unknown { fault_at Free None (text_of (codes "NAME" ∷ codes "OBJSENSE" ∷ [])) ≡ Some (record { kind = faults.Section; line = 2 }) }
    ensures out_of_order { fault_at Free None (text_of (codes "ROWS" ∷ codes "RHS" ∷ [])) ≡ Some (record { kind = faults.Section; line = 2 }) }
    ensures columns_missing { fault_at Free None (text_of (codes "ROWS" ∷ codes "ENDATA" ∷ [])) ≡ Some (record { kind = faults.Section; line = 2 }) }
    ensures columns_first { fault_at Free None (text_of (codes "COLUMNS" ∷ [])) ≡ Some (record { kind = faults.Section; line = 1 }) }
    ensures sides_behind_ranges { fault_at Free None (text_of (codes "ROWS" ∷ codes " N c" ∷ codes " E r" ∷ codes "COLUMNS" ∷ codes " x r 1" ∷ codes "RANGES" ∷ codes "RHS" ∷ [])) ≡ Some (record { kind = faults.Section; line = 7 }) }
    ensures twice { fault_at Free None (text_of (codes "ROWS" ∷ codes "COLUMNS" ∷ codes "RANGES" ∷ codes "BOUNDS" ∷ codes "RANGES" ∷ [])) ≡ Some (record { kind = faults.Section; line = 5 }) }
    ensures either_order { fault_at Free None (text_of (codes "ROWS" ∷ codes "COLUMNS" ∷ codes "BOUNDS" ∷ codes "RANGES" ∷ [])) ≡ Some (record { kind = faults.NoEnd; line = 4 }) }
    ensures no_line_of_sides { fault_at Free (Some (pos 9)) (priced (codes " x c 1") (codes "RHS" ∷ [])) ≡ None }
    ensures data_before_rows { fault_at Free None (text_of (codes "NAME" ∷ codes " x" ∷ [])) ≡ Some (record { kind = faults.Section; line = 2 }) }
    ensures more_fields { fault_at Free None (text_of (codes "ROWS x" ∷ [])) ≡ Some (record { kind = faults.FieldCount; line = 1 }) }
    ensures more_fields_at_the_end { fault_at Free None (text_of (codes "ROWS" ∷ codes "COLUMNS" ∷ codes "ENDATA x" ∷ [])) ≡ Some (record { kind = faults.FieldCount; line = 3 }) }
    ensures nothing { fault_at Free None [] ≡ Some (record { kind = faults.NoEnd; line = 0 }) }
    ensures cut_in_a_line { fault_at Free None (take 37 two_coins) ≡ Some (record { kind = faults.FieldCount; line = 6 }) }
    ensures cut_before_the_end { fault_at Free None (take 81 two_coins) ≡ Some (record { kind = faults.NoEnd; line = 12 }) }
    ensures behind_the_end { fault_at Free None (empty_model ++ 200 ∷ []) ≡ None }
{}

/// Faults of lines in ROWS.
pub fn worked_row_faults()
    ensures short { fault_at Free None (text_of (codes "ROWS" ∷ codes " N" ∷ [])) ≡ Some (record { kind = faults.FieldCount; line = 2 }) }
    ensures kind { fault_at Free None (text_of (codes "ROWS" ∷ codes " X r" ∷ [])) ≡ Some (record { kind = faults.RowKind; line = 2 }) }
    ensures twice { fault_at Free None (text_of (codes "ROWS" ∷ codes " E r" ∷ codes " N r" ∷ [])) ≡ Some (record { kind = faults.Duplicate; line = 3 }) }
    ensures too_many { row_fault (tables_with (replicate 256 (record { kind = codes "E"; name = codes "r" })) []) (Some (record { kind = codes "L"; name = codes "s" })) ≡ Some faults.TooManyRows }
    ensures free_rows_do_not_count { row_fault (tables_with (replicate 256 (record { kind = codes "E"; name = codes "r" })) []) (Some (record { kind = codes "N"; name = codes "s" })) ≡ None }
{}

/// Faults of lines in COLUMNS.
pub fn worked_column_faults()
    ensures cut_short { fault_at Free None (text_of (codes "ROWS" ∷ codes " N c" ∷ codes " E r" ∷ codes "COLUMNS" ∷ codes " x r" ∷ [])) ≡ Some (record { kind = faults.FieldCount; line = 5 }) }
    ensures unknown_row { fault_at Free None (text_of (codes "ROWS" ∷ codes " N c" ∷ codes " E r" ∷ codes "COLUMNS" ∷ codes " x s 3e" ∷ [])) ≡ Some (record { kind = faults.UnknownRow; line = 5 }) }
    ensures not_a_number { fault_at Free None (text_of (codes "ROWS" ∷ codes " N c" ∷ codes " E r" ∷ codes "COLUMNS" ∷ codes " x r 3e" ∷ [])) ≡ Some (record { kind = faults.NotNumber; line = 5 }) }
    ensures wide_number { fault_at Free None (text_of (codes "ROWS" ∷ codes " N c" ∷ codes " E r" ∷ codes "COLUMNS" ∷ codes " x r 1e39" ∷ [])) ≡ Some (record { kind = faults.WideNumber; line = 5 }) }
    ensures zero_is_not_wide { fault_at Free None (text_of (codes "ROWS" ∷ codes " N c" ∷ codes " E r" ∷ codes "COLUMNS" ∷ codes " x r 0e999" ∷ [])) ≡ Some (record { kind = faults.NoEnd; line = 5 }) }
    ensures second_pair { fault_at Free None (text_of (codes "ROWS" ∷ codes " N c" ∷ codes " E r" ∷ codes "COLUMNS" ∷ codes " x r 1 c 1." ∷ codes " x r 1 s 1" ∷ [])) ≡ Some (record { kind = faults.Duplicate; line = 6 }) }
    ensures same_row_in_one_line { fault_at Free None (text_of (codes "ROWS" ∷ codes " N c" ∷ codes " E r" ∷ codes "COLUMNS" ∷ codes " x r 1 r 2" ∷ [])) ≡ Some (record { kind = faults.Duplicate; line = 5 }) }
    ensures column_again { fault_at Free None (text_of (codes "ROWS" ∷ codes " N c" ∷ codes " E r" ∷ codes "COLUMNS" ∷ codes " x r 1" ∷ codes " y r 1" ∷ codes " x c 1" ∷ [])) ≡ Some (record { kind = faults.Duplicate; line = 7 }) }
    ensures column_across_marker { fault_at Free None (text_of (codes "ROWS" ∷ codes " N c" ∷ codes " E r" ∷ codes "COLUMNS" ∷ codes " x r 1" ∷ codes " M 'MARKER' 'INTORG'" ∷ codes " x c 1" ∷ [])) ≡ Some (record { kind = faults.Duplicate; line = 7 }) }
    ensures column_across_comment { fault_at Free None (text_of (codes "ROWS" ∷ codes " N c" ∷ codes " E r" ∷ codes "COLUMNS" ∷ codes " x r 1" ∷ codes "* k" ∷ codes " x c 1" ∷ [])) ≡ Some (record { kind = faults.NoEnd; line = 7 }) }
    ensures zero_is_an_entry { fault_at Free None (text_of (codes "ROWS" ∷ codes " N c" ∷ codes " E r" ∷ codes "COLUMNS" ∷ codes " x r 0" ∷ codes " x r 1" ∷ [])) ≡ Some (record { kind = faults.Duplicate; line = 6 }) }
    ensures other_word { fault_at Free None (text_of (codes "ROWS" ∷ codes " N c" ∷ codes " E r" ∷ codes "COLUMNS" ∷ codes " M 'MARKER' 'INTO'" ∷ [])) ≡ Some (record { kind = faults.Marker; line = 5 }) }
    ensures closes_nothing { fault_at Free None (text_of (codes "ROWS" ∷ codes " N c" ∷ codes " E r" ∷ codes "COLUMNS" ∷ codes " M 'MARKER' 'INTEND'" ∷ [])) ≡ Some (record { kind = faults.Marker; line = 5 }) }
    ensures opens_twice { fault_at Free None (text_of (codes "ROWS" ∷ codes " N c" ∷ codes " E r" ∷ codes "COLUMNS" ∷ codes " M 'MARKER' 'INTORG'" ∷ codes " M 'MARKER' 'INTORG'" ∷ [])) ≡ Some (record { kind = faults.Marker; line = 6 }) }
    ensures short_marker { fault_at Free None (text_of (codes "ROWS" ∷ codes " N c" ∷ codes " E r" ∷ codes "COLUMNS" ∷ codes " M 'MARKER'" ∷ [])) ≡ Some (record { kind = faults.FieldCount; line = 5 }) }
    ensures pairs_behind_a_mark { fault_at Free None (text_of (codes "ROWS" ∷ codes " N c" ∷ codes " E r" ∷ codes "COLUMNS" ∷ codes " M 'MARKER' 1 r 1" ∷ [])) ≡ Some (record { kind = faults.FieldCount; line = 5 }) }
    ensures too_many { column_fault (tables_with [] many_columns) (Some (record { at = 300; label = codes "xy"; pairs = [] })) ≡ Some faults.TooManyColumns }
{}

/// Faults of lines in RHS and RANGES.
pub fn worked_side_faults()
    ensures one_field { fault_at Free None (text_of (codes "ROWS" ∷ codes " N c" ∷ codes " E r" ∷ codes "COLUMNS" ∷ codes " x r 1" ∷ codes "RHS" ∷ codes " r" ∷ [])) ≡ Some (record { kind = faults.FieldCount; line = 7 }) }
    ensures two_pairs_without_a_set { fault_at Free None (text_of (codes "ROWS" ∷ codes " N c" ∷ codes " E r" ∷ codes "COLUMNS" ∷ codes " x r 1" ∷ codes "RHS" ∷ codes " r 1 c 1" ∷ [])) ≡ Some (record { kind = faults.NoEnd; line = 7 }) }
    ensures second_set { fault_at Free None (text_of (codes "ROWS" ∷ codes " N c" ∷ codes " E r" ∷ codes "COLUMNS" ∷ codes " x r 1" ∷ codes "RHS" ∷ codes " A r 1" ∷ codes " c 1" ∷ [])) ≡ Some (record { kind = faults.SecondSet; line = 8 }) }
    ensures same_set { fault_at Free None (text_of (codes "ROWS" ∷ codes " N c" ∷ codes " E r" ∷ codes "COLUMNS" ∷ codes " x r 1" ∷ codes "RHS" ∷ codes " A r 1" ∷ codes " A c 1" ∷ [])) ≡ Some (record { kind = faults.NoEnd; line = 8 }) }
    ensures twice { fault_at Free None (text_of (codes "ROWS" ∷ codes " N c" ∷ codes " E r" ∷ codes "COLUMNS" ∷ codes " x r 1" ∷ codes "RHS" ∷ codes " r 1" ∷ codes " r 1" ∷ [])) ≡ Some (record { kind = faults.Duplicate; line = 8 }) }
    ensures range_on_objective { fault_at Free None (text_of (codes "ROWS" ∷ codes " N c" ∷ codes " E r" ∷ codes "COLUMNS" ∷ codes " x r 1" ∷ codes "RANGES" ∷ codes " c 1" ∷ [])) ≡ Some (record { kind = faults.RangeOnObjective; line = 7 }) }
    ensures range_on_a_later_free_row { fault_at Free None (text_of (codes "ROWS" ∷ codes " N c" ∷ codes " N d" ∷ codes "COLUMNS" ∷ codes " x c 1" ∷ codes "RANGES" ∷ codes " d 1" ∷ [])) ≡ Some (record { kind = faults.RangeOnObjective; line = 7 }) }
    ensures range_twice { fault_at Free None (text_of (codes "ROWS" ∷ codes " N c" ∷ codes " E r" ∷ codes "COLUMNS" ∷ codes " x r 1" ∷ codes "RANGES" ∷ codes " r 1" ∷ codes " r 1" ∷ [])) ≡ Some (record { kind = faults.Duplicate; line = 8 }) }
    ensures range_of_no_row { fault_at Free None (text_of (codes "ROWS" ∷ codes " N c" ∷ codes " E r" ∷ codes "COLUMNS" ∷ codes " x r 1" ∷ codes "RANGES" ∷ codes " s 1" ∷ [])) ≡ Some (record { kind = faults.UnknownRow; line = 7 }) }
    ensures range_is_no_number { fault_at Free None (text_of (codes "ROWS" ∷ codes " N c" ∷ codes " E r" ∷ codes "COLUMNS" ∷ codes " x r 1" ∷ codes "RANGES" ∷ codes " r z" ∷ [])) ≡ Some (record { kind = faults.NotNumber; line = 7 }) }
    ensures wide_side { fault_at Free None (text_of (codes "ROWS" ∷ codes " N c" ∷ codes " E r" ∷ codes "COLUMNS" ∷ codes " x r 1" ∷ codes "RHS" ∷ codes " r 170141183460469231731687303715884105727" ∷ codes "RANGES" ∷ codes " r 1" ∷ [])) ≡ Some (record { kind = faults.WideNumber; line = 9 }) }
    ensures greatest_side { fault_at Free None (text_of (codes "ROWS" ∷ codes " N c" ∷ codes " E r" ∷ codes "COLUMNS" ∷ codes " x r 1" ∷ codes "RHS" ∷ codes " r 170141183460469231731687303715884105727" ∷ codes "RANGES" ∷ codes " r -1" ∷ [])) ≡ Some (record { kind = faults.NoEnd; line = 9 }) }
    ensures wide_first_alone { fault_at Free None (text_of (codes "ROWS" ∷ codes " N c" ∷ codes " E r" ∷ codes "COLUMNS" ∷ codes " x r 1" ∷ codes "RHS" ∷ codes " r 1e38" ∷ codes "RANGES" ∷ codes " r -17014118346046923173168730371588410572.5" ∷ [])) ≡ Some (record { kind = faults.WideNumber; line = 9 }) }
    ensures wide_second_alone { fault_at Free None (text_of (codes "ROWS" ∷ codes " N c" ∷ codes " E r" ∷ codes "COLUMNS" ∷ codes " x r 1" ∷ codes "RHS" ∷ codes " r -17014118346046923173168730371588410572.5" ∷ codes "RANGES" ∷ codes " r 1e38" ∷ [])) ≡ Some (record { kind = faults.WideNumber; line = 9 }) }
{}

/// Faults of lines in BOUNDS.
pub fn worked_bound_faults()
    ensures kind { fault_at Free None (text_of (codes "ROWS" ∷ codes " N c" ∷ codes " E r" ∷ codes "COLUMNS" ∷ codes " x r 1" ∷ codes "BOUNDS" ∷ codes " XX x 1" ∷ [])) ≡ Some (record { kind = faults.BoundKind; line = 7 }) }
    ensures short { fault_at Free None (text_of (codes "ROWS" ∷ codes " N c" ∷ codes " E r" ∷ codes "COLUMNS" ∷ codes " x r 1" ∷ codes "BOUNDS" ∷ codes " UP x" ∷ [])) ≡ Some (record { kind = faults.FieldCount; line = 7 }) }
    ensures value_not_read { fault_at Free None (text_of (codes "ROWS" ∷ codes " N c" ∷ codes " E r" ∷ codes "COLUMNS" ∷ codes " x r 1" ∷ codes "BOUNDS" ∷ codes " FR B x 1e" ∷ [])) ≡ Some (record { kind = faults.NoEnd; line = 7 }) }
    ensures second_set { fault_at Free None (text_of (codes "ROWS" ∷ codes " N c" ∷ codes " E r" ∷ codes "COLUMNS" ∷ codes " x r 1" ∷ codes "BOUNDS" ∷ codes " FR x" ∷ codes " FR B x" ∷ [])) ≡ Some (record { kind = faults.SecondSet; line = 8 }) }
    ensures unknown_column { fault_at Free None (text_of (codes "ROWS" ∷ codes " N c" ∷ codes " E r" ∷ codes "COLUMNS" ∷ codes " x r 1" ∷ codes "BOUNDS" ∷ codes " UP y z" ∷ [])) ≡ Some (record { kind = faults.UnknownColumn; line = 7 }) }
    ensures not_a_number { fault_at Free None (text_of (codes "ROWS" ∷ codes " N c" ∷ codes " E r" ∷ codes "COLUMNS" ∷ codes " x r 1" ∷ codes "BOUNDS" ∷ codes " UP x z" ∷ [])) ≡ Some (record { kind = faults.NotNumber; line = 7 }) }
    ensures wide_number { fault_at Free None (text_of (codes "ROWS" ∷ codes " N c" ∷ codes " E r" ∷ codes "COLUMNS" ∷ codes " x r 1" ∷ codes "BOUNDS" ∷ codes " UP x 1e-39" ∷ [])) ≡ Some (record { kind = faults.WideNumber; line = 7 }) }
{}

/// Fields that are absent, or that a line does not have, in fixed form.
pub fn worked_fixed_faults()
    ensures first_field { fault_at Fixed None (text_of (codes "ROWS" ∷ codes " N  c" ∷ codes " E  r" ∷ codes "COLUMNS" ∷ codes " A  x         r         1" ∷ [])) ≡ Some (record { kind = faults.FieldCount; line = 5 }) }
    ensures row_with_a_third_field { fault_at Fixed None (text_of (codes "ROWS" ∷ codes " E  r         s" ∷ [])) ≡ Some (record { kind = faults.FieldCount; line = 2 }) }
    ensures no_number { fault_at Fixed None (text_of (codes "ROWS" ∷ codes " N  c" ∷ codes " E  r" ∷ codes "COLUMNS" ∷ codes "    x         r" ∷ [])) ≡ Some (record { kind = faults.FieldCount; line = 5 }) }
    ensures half_a_pair { fault_at Fixed None (text_of (codes "ROWS" ∷ codes " N  c" ∷ codes " E  r" ∷ codes "COLUMNS" ∷ codes "    x         r         1              c" ∷ [])) ≡ Some (record { kind = faults.FieldCount; line = 5 }) }
    ensures not_read { fault_at Fixed None (text_of (codes "ROWS" ∷ codes " N  c" ∷ codes " E  r" ∷ codes "COLUMNS" ∷ codes "    x         r         1                                    12" ∷ [])) ≡ Some (record { kind = faults.NoEnd; line = 5 }) }
    ensures no_set_name { fault_at Fixed None (text_of (codes "ROWS" ∷ codes " N  c" ∷ codes " E  r" ∷ codes "COLUMNS" ∷ codes "    x         r         1" ∷ codes "RHS" ∷ codes "              r         1" ∷ [])) ≡ Some (record { kind = faults.NoEnd; line = 7 }) }
    ensures side_with_a_first_field { fault_at Fixed None (text_of (codes "ROWS" ∷ codes " N  c" ∷ codes " E  r" ∷ codes "COLUMNS" ∷ codes "    x         r         1" ∷ codes "RHS" ∷ codes " A            r         1" ∷ [])) ≡ Some (record { kind = faults.FieldCount; line = 7 }) }
    ensures short_marker { fault_at Fixed None (text_of (codes "ROWS" ∷ codes " N  c" ∷ codes " E  r" ∷ codes "COLUMNS" ∷ codes "    M         'MARKER'" ∷ [])) ≡ Some (record { kind = faults.FieldCount; line = 5 }) }
    ensures marker_with_a_fourth_field { fault_at Fixed None (text_of (codes "ROWS" ∷ codes " N  c" ∷ codes " E  r" ∷ codes "COLUMNS" ∷ codes "    M         'MARKER'  1              'INTORG'" ∷ [])) ≡ Some (record { kind = faults.FieldCount; line = 5 }) }
    ensures marker { fault_at Fixed None (text_of (codes "ROWS" ∷ codes " N  c" ∷ codes " E  r" ∷ codes "COLUMNS" ∷ codes "    M         'MARKER'                 'INTEND'" ∷ [])) ≡ Some (record { kind = faults.Marker; line = 5 }) }
    ensures no_kind { fault_at Fixed None (text_of (codes "ROWS" ∷ codes " N  c" ∷ codes " E  r" ∷ codes "COLUMNS" ∷ codes "    x         r         1" ∷ codes "BOUNDS" ∷ codes "              x         1" ∷ [])) ≡ Some (record { kind = faults.BoundKind; line = 7 }) }
    ensures no_value { fault_at Fixed None (text_of (codes "ROWS" ∷ codes " N  c" ∷ codes " E  r" ∷ codes "COLUMNS" ∷ codes "    x         r         1" ∷ codes "BOUNDS" ∷ codes " UP           x" ∷ [])) ≡ Some (record { kind = faults.FieldCount; line = 7 }) }
    ensures value_not_read { fault_at Fixed None (text_of (codes "ROWS" ∷ codes " N  c" ∷ codes " E  r" ∷ codes "COLUMNS" ∷ codes "    x         r         1" ∷ codes "BOUNDS" ∷ codes " FR           x         1e" ∷ [])) ≡ Some (record { kind = faults.NoEnd; line = 7 }) }
    ensures fifth_field { fault_at Fixed None (text_of (codes "ROWS" ∷ codes " N  c" ∷ codes " E  r" ∷ codes "COLUMNS" ∷ codes "    x         r         1" ∷ codes "BOUNDS" ∷ codes " FR           x                        1" ∷ [])) ≡ Some (record { kind = faults.FieldCount; line = 7 }) }
{}

/// Where more than one fault holds, the first line has it, and on one line the first kind.
pub fn worked_order()
    ensures line_before_column { fault_at Free None (text_of (codes "NAME P" ∷ codes "ROWS" ∷ codes " N c" ∷ codes "COLUMNS" ∷ codes " x c 1" ∷ codes "BOUNDS" ∷ codes " UP y 1" ∷ codes "ENDATA" ∷ [])) ≡ Some (record { kind = faults.UnknownColumn; line = 7 }) }
    ensures length_before_byte { fault_at Free None (replicate 1025 200) ≡ Some (record { kind = faults.LongLine; line = 1 }) }
    ensures duplicate_before_pairs { fault_at Free None (text_of (codes "ROWS" ∷ codes " N c" ∷ codes " E r" ∷ codes "COLUMNS" ∷ codes " x r 1" ∷ codes " y r 1" ∷ codes " x s z" ∷ [])) ≡ Some (record { kind = faults.Duplicate; line = 7 }) }
    ensures first_pair { fault_at Free None (text_of (codes "ROWS" ∷ codes " N c" ∷ codes " E r" ∷ codes "COLUMNS" ∷ codes " x r z s 1" ∷ [])) ≡ Some (record { kind = faults.NotNumber; line = 5 }) }
    ensures number_before_duplicate { fault_at Free None (text_of (codes "ROWS" ∷ codes " N c" ∷ codes " E r" ∷ codes "COLUMNS" ∷ codes " x r 1" ∷ codes " x r z" ∷ [])) ≡ Some (record { kind = faults.NotNumber; line = 6 }) }
    ensures range_kind { fault_at Free None (text_of (codes "ROWS" ∷ codes " N c" ∷ codes " E r" ∷ codes "COLUMNS" ∷ codes " x r 1" ∷ codes "RANGES" ∷ codes " c z" ∷ [])) ≡ Some (record { kind = faults.RangeOnObjective; line = 7 }) }
    ensures wide_range_before_duplicate { fault_at Free None (text_of (codes "ROWS" ∷ codes " N c" ∷ codes " E r" ∷ codes "COLUMNS" ∷ codes " x r 1" ∷ codes "RANGES" ∷ codes " r 1" ∷ codes " r 1e39" ∷ [])) ≡ Some (record { kind = faults.WideNumber; line = 8 }) }
    ensures set_before_row { fault_at Free None (text_of (codes "ROWS" ∷ codes " N c" ∷ codes " E r" ∷ codes "COLUMNS" ∷ codes " x r 1" ∷ codes "RHS" ∷ codes " A r 1" ∷ codes " s z" ∷ [])) ≡ Some (record { kind = faults.SecondSet; line = 8 }) }
    ensures set_before_column { fault_at Free None (text_of (codes "ROWS" ∷ codes " N c" ∷ codes " E r" ∷ codes "COLUMNS" ∷ codes " x r 1" ∷ codes "BOUNDS" ∷ codes " FR x" ∷ codes " FR B q" ∷ [])) ≡ Some (record { kind = faults.SecondSet; line = 8 }) }
    ensures lower_before_upper { fault_at Free None (priced (codes " x c 1") (codes "BOUNDS" ∷ codes " FR x" ∷ [])) ≡ Some (record { kind = faults.NoLower; line = 6 }) }
{}

/// Columns that are not integer or not bounded, with the number of the column's first line.
pub fn worked_whole_faults()
    ensures continuous { fault_at Free (Some (pos 9)) marked ≡ Some (record { kind = faults.Continuous; line = 8 }) }
    ensures no_markers { fault_at Free None (text_of (codes "NAME P" ∷ codes "ROWS" ∷ codes " N c" ∷ codes "COLUMNS" ∷ codes " x c 1" ∷ codes "ENDATA" ∷ [])) ≡ Some (record { kind = faults.Continuous; line = 5 }) }
    ensures upper_is_not_integer { fault_at Free None (text_of (codes "NAME P" ∷ codes "ROWS" ∷ codes " N c" ∷ codes "COLUMNS" ∷ codes " x c 1" ∷ codes "BOUNDS" ∷ codes " UP x 1" ∷ codes "ENDATA" ∷ [])) ≡ Some (record { kind = faults.Continuous; line = 5 }) }
    ensures no_upper { fault_at Free None (priced (codes " x c 1") []) ≡ Some (record { kind = faults.NoUpper; line = 6 }) }
    ensures upper_given { fault_at Free (Some (pos 9)) (priced (codes " x c 1") []) ≡ None }
    ensures no_lower { fault_at Free None (priced (codes " x c 1") (codes "BOUNDS" ∷ codes " MI x" ∷ codes " UP x -1" ∷ [])) ≡ Some (record { kind = faults.NoLower; line = 6 }) }
    ensures free_column { fault_at Free None (priced (codes " x c 1") (codes "BOUNDS" ∷ codes " FR x" ∷ codes " UP x 5" ∷ [])) ≡ Some (record { kind = faults.NoLower; line = 6 }) }
    ensures free_above { fault_at Free None (priced (codes " x c 1") (codes "BOUNDS" ∷ codes " UP x 5" ∷ codes " FR x" ∷ codes " LO x 0" ∷ [])) ≡ Some (record { kind = faults.NoUpper; line = 6 }) }
    ensures negative_upper { fault_at Free None (priced (codes " x c 1") (codes "BOUNDS" ∷ codes " UP x -1" ∷ [])) ≡ Some (record { kind = faults.NegativeUpper; line = 6 }) }
    ensures upper_zero { fault_at Free None (priced (codes " x c 1") (codes "BOUNDS" ∷ codes " UP x 0" ∷ [])) ≡ None }
    ensures lower_set { fault_at Free None (priced (codes " x c 1") (codes "BOUNDS" ∷ codes " LO x -4" ∷ codes " UP x -1" ∷ [])) ≡ None }
{}

/// A text means a model or has a first fault, and not both; what it means is that model or that fault.
pub fn one_meaning()
    ensures ok { (layout : Layout) (given : Option ℤ) (text : List ℕ) (model : Model) → (meaning layout given text ≡ Ok model) ↔ Means layout given text model }
    ensures err { (layout : Layout) (given : Option ℤ) (text : List ℕ) (fault : TextFault) → (meaning layout given text ≡ Err fault) ↔ FaultAt layout given text fault }
    ensures one { (layout : Layout) (given : Option ℤ) (text : List ℕ) → HasOneMeaning layout given text }
{}

/// In a text without fault each column is an integer between two bounds.
#[tactic(auto, using(crate::proofs::OnModel::FaultlessColumnLaws::faultless_settled))]
pub fn faultless_columns()
    ensures { (layout : Layout) (given : Option ℤ) (text : List ℕ) → fault_at layout given text ≡ None → are_settled given (tables_of layout (model_lines text)) ≡ true }
{}

/// The test of a row's side with a range is what the range of exact fractions says of a sum.
#[tactic(auto, using(crate::proofs::OnTables::SumRangeLaws::sum_fits_decides))]
pub fn side_test_is_the_range()
    ensures { (p q : ℚ) → Decides (sum_fits p q) (SumInRange p q) }
{}
