//! The law that a text in fixed form means the same in free form, where it can be read so.
ghost use Rattle.std.specs.Prelude.{◌≡◌, ℕ, ℤ, List, [], ◌∷◌, Option, Some, None, codes, true, false};
ghost use Rattle.std.specs.List.{list_all};
ghost use Rattle.int_model.specs.declared.model.Model.{Model};
ghost use Rattle.mps_model.specs.declared.layout.Layout.TheVariants.{Free, Fixed};
ghost use Rattle.mps_model.specs.declared.fault.FaultKind.TheVariants as faults;
ghost use Rattle.mps_model.specs.Meaning.{fault_at, Means};
ghost use Rattle.mps_model.specs.FixedAsFree.{has_whole_fields, ends_with_its_fields, data_lines, ReadsFree};
ghost use Rattle.mps_model.specs.WorkedTexts.{text_of, split_fixed, by_columns, unnamed_bound};

/// A text in fixed form that can be read in free form means the same model there.
pub fn fixed_reads_free()
    ensures { (given : Option ℤ) (text : List ℕ) (model : Model) → ReadsFree text → Means Fixed given text model → Means Free given text model }
{}

/// The market split in fixed form can be read in free form; a name with a blank and a word behind column 61 cannot, and a
/// bound without a set name becomes another one.
#[tactic(auto, unfolding(crate::specs::WorkedTexts::computed))]
pub fn worked_free_readings()
    ensures split { ReadsFree split_fixed }
    ensures blank_in_name { list_all has_whole_fields (data_lines (by_columns (codes "X 1     "))) ≡ false }
    ensures word_behind { list_all ends_with_its_fields (data_lines (text_of (codes "ROWS" ∷ codes " N  COST                                                     x" ∷ []))) ≡ false }
    ensures unnamed_fixed { fault_at Fixed None unnamed_bound ≡ None }
    ensures unnamed_free { fault_at Free None unnamed_bound ≡ Some (record { kind = faults.UnknownColumn; line = 6 }) }
{}
