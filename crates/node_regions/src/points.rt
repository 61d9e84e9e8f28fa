//! The points of a node and those of its region in the coordinates of a frame. The function here does nothing; its contract
//! carries the laws.
ghost use Rattle.std.specs.Prelude.{◌≡◌, ℤ, ◌+ℤ◌, List, length, Option};
ghost use Rattle.exact_math.specs.Rational.{ℚ, whole, ◌+ℚ◌};
ghost use Rattle.whole_rows.specs.WholeRows.{WholeRows, IsWithinLimits};
ghost use Rattle.farkas_rows.specs.declared.path.Slice.{Slice};
ghost use Rattle.spaces.specs.Maps.{pulled_constant, pulled_form};
ghost use Rattle.node_point.specs.RationalPoints.{form_value, IsRationalPoint};
ghost use Rattle.reformulate.specs.Substitutions.{IsShaped, Substitution};
ghost use Rattle.presolve_map.specs.Columns.{removed_part};
ghost use Rattle.presolve_map.specs.ReducedRows.{ReducedRows};
ghost use Rattle.farkas_lift.specs.NodeEqualities.{work_form};
ghost use Rattle.node_lines.specs.NodeSystems.{IsFramedNode};
ghost use Rattle.node_regions.specs.RegionPoints.{StandsFor};
ghost use Rattle.node_regions.specs.NodeRegions.{IsInNode};

/// Each rational point of a node has coordinates in the node's region, each point of the region stands for one of the node, and
/// a form has the same values at both, up to a constant.
pub fn regions_have_the_points_of_nodes()
    ensures inward { (model : WholeRows) (work : ReducedRows) (frame : Substitution) (path : List Slice) (cut : Option ℤ) (x : List ℚ) → IsWithinLimits model → IsShaped frame
        → IsFramedNode model work frame path → IsRationalPoint model path cut x → (y : List ℚ) × (IsInNode frame work cut y × StandsFor model frame y x) }
    ensures outward { (model : WholeRows) (work : ReducedRows) (frame : Substitution) (path : List Slice) (cut : Option ℤ) (y : List ℚ) → IsWithinLimits model → IsShaped frame
        → IsFramedNode model work frame path → IsInNode frame work cut y → (x : List ℚ) × (IsRationalPoint model path cut x × StandsFor model frame y x) }
    ensures values { (model : WholeRows) (work : ReducedRows) (frame : Substitution) (path : List Slice) (cut : Option ℤ) (x y : List ℚ) (form : List ℤ) → IsWithinLimits model
        → IsShaped frame → IsFramedNode model work frame path → IsRationalPoint model path cut x → StandsFor model frame y x → length form ≡ length model.box
        → form_value form x ≡ form_value (pulled_form frame.to_work (work_form work form)) y
        +ℚ whole (pulled_constant frame.to_work (work_form work form) +ℤ removed_part model.box form) }
{}
