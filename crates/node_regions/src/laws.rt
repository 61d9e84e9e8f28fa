//! The laws of the crate. The functions here do nothing; their contracts carry the laws.
ghost use Rattle.std.specs.Prelude.{◌≡◌, ◌≤◌, Bool, ℤ, pos, neg_ℤ, ◌+ℤ◌, ◌-ℤ◌, List, Option, All, length};
ghost use Rattle.exact_math.specs.Rational.{ℚ, whole, ◌+ℚ◌, ◌≤ℚ◌};
ghost use Rattle.exact_math.specs.Ring.{integers};
ghost use Rattle.exact_vectors.specs.Matrices.{combination};
ghost use Rattle.whole_rows.specs.WholeRows.{WholeRows, IsWithinLimits, span};
ghost use Rattle.whole_rows.specs.declared.bounds.Bounds.{Bounds};
ghost use Rattle.farkas_rows.specs.declared.path.Slice.{Slice};
ghost use Rattle.farkas_rows.specs.Refutes.{HasForms};
ghost use Rattle.node_point.specs.RationalPoints.{form_value, IsRationalPoint};
ghost use Rattle.form_widths.specs.Slices.{AreSlices};
ghost use Rattle.spaces.specs.Maps.{pulled_constant, pulled_form};
ghost use Rattle.spaces.specs.Tables.{rows_in};
ghost use Rattle.frac128.specs.Range.{IsNarrow};
ghost use Rattle.farkas_rows.specs.Inequalities.{Inequality};
ghost use Rattle.lp_dict.specs.declared.system.System.{System};
ghost use Rattle.norm_gauge.specs.Widths.{HasBound, polytope_of};
ghost use Rattle.reformulate.specs.Substitutions.{IsShaped, IsSubstitution, Substitution, columns_of, dimension_of};
ghost use Rattle.rational_frames.specs.RationalFrames.{rational_coordinates_of, rational_point_of};
ghost use Rattle.presolve_map.specs.Columns.{kept};
ghost use Rattle.presolve_map.specs.ReducedRows.{ReducedRows, IsReduced};
ghost use Rattle.farkas_lift.specs.NodeEqualities.{work_form};
ghost use Rattle.farkas_lift.specs.NodeSides.{node_sides};
ghost use Rattle.farkas_lift.specs.NodeSystem.{IsSystemOf, SystemStays};
ghost use Rattle.node_regions.specs.NodesWithFrames.{FramedNode, HasEnds, first_slice, last_slice};
ghost use Rattle.node_regions.specs.NodeFrames.{IsKeptForm};
ghost use Rattle.node_regions.specs.NodeRegions.{IsInNode, node_polytope, polytope_in};
ghost use Rattle.node_regions.specs.PlacedPoints.{IsInBox, IsReducedPoint, placed_point};

/// The rational points of a model are those of its reduced rows, placed among all columns.
pub fn reduced_points()
    ensures placed { (rows : WholeRows) (work : ReducedRows) (path : List Slice) (cut : Option ℤ) (w : List ℚ) → IsWithinLimits rows → IsReduced rows work
        → HasForms (length rows.box) path → All (λ slice. IsKeptForm rows.box slice.form) path → IsReducedPoint rows.box work path cut w
        → IsRationalPoint rows path cut (placed_point rows.box w) }
    ensures kept { (rows : WholeRows) (work : ReducedRows) (path : List Slice) (cut : Option ℤ) (x : List ℚ) → IsWithinLimits rows → IsReduced rows work
        → HasForms (length rows.box) path → All (λ slice. IsKeptForm rows.box slice.form) path → IsRationalPoint rows path cut x
        → IsReducedPoint rows.box work path cut (kept rows.box x) }
    ensures same { (rows : WholeRows) (path : List Slice) (cut : Option ℤ) (x : List ℚ) → IsRationalPoint rows path cut x → placed_point rows.box (kept rows.box x) ≡ x }
{}

/// The rational points of a node and their coordinates in a frame of it are those of its region, which is bounded. A form over all
/// columns that is 0 in the removed ones has the values of a form on the coordinates, and a constant more.
pub fn node_coordinates()
    ensures point { (node : FramedNode) (y : List ℚ) → IsInNode node.frame node.work node.cut y
        → IsRationalPoint node.model node.path node.cut (placed_point node.model.box (rational_point_of node.frame y)) }
    ensures coordinates { (node : FramedNode) (x : List ℚ) → IsRationalPoint node.model node.path node.cut x
        → IsInNode node.frame node.work node.cut (rational_coordinates_of node.frame (kept node.model.box x)) }
    ensures again { (node : FramedNode) (x : List ℚ) → IsRationalPoint node.model node.path node.cut x
        → placed_point node.model.box (rational_point_of node.frame (rational_coordinates_of node.frame (kept node.model.box x))) ≡ x }
    ensures value { (node : FramedNode) (form : List ℤ) (y : List ℚ) → length form ≡ length node.model.box → IsKeptForm node.model.box form
        → IsInNode node.frame node.work node.cut y → form_value form (placed_point node.model.box (rational_point_of node.frame y))
        ≡ form_value (pulled_form node.frame.to_work (work_form node.work form)) y +ℚ whole (pulled_constant node.frame.to_work (work_form node.work form)) }
    ensures bounded { (node : FramedNode) → HasBound (node_polytope node.frame node.work node.cut) }
{}

/// The system of a node is its region, it has few inequalities, and where its numbers stay in range no entry of K is -2^127.
pub fn node_systems()
    ensures polytope { (inequalities : List Inequality) (frame : Substitution) (system : System) → IsSystemOf (dimension_of frame) inequalities system
        → polytope_of system.rows system.limits ≡ polytope_in inequalities frame }
    ensures count { (model : WholeRows) (work : ReducedRows) (has_cut : Bool) → IsWithinLimits model → IsReduced model work → length (node_sides work has_cut) ≤ 1025 }
    ensures lines { (work : ReducedRows) (frame : Substitution) (cut : Option ℤ) → IsShaped frame → columns_of frame ≡ length work.rows.box
        → SystemStays frame work cut → All IsNarrow frame.to_work.lines.items }
{}

/// A form on the coordinates is that of its form over the work columns, a light form has small values in the box, and the slices
/// of a form over all columns run between the whole numbers that its form on the coordinates reaches.
pub fn forms_of_coordinates()
    ensures pulled { (frame : Substitution) (form : List ℤ) → IsSubstitution frame → length form ≡ dimension_of frame
        → pulled_form frame.to_work (combination integers (columns_of frame) form (rows_in frame.back)) ≡ form }
    ensures least { (form : List ℤ) (box : List Bounds) (x : List ℚ) → IsInBox box x → whole (neg_ℤ (pos (span form box))) ≤ℚ form_value form x }
    ensures greatest { (form : List ℤ) (box : List Bounds) (x : List ℚ) → IsInBox box x → form_value form x ≤ℚ whole (pos (span form box)) }
    ensures slices { (node : FramedNode) (form : List ℤ) (low high : List ℚ) → length form ≡ length node.model.box → IsKeptForm node.model.box form
        → HasEnds node (pulled_form node.frame.to_work (work_form node.work form)) low high
        → AreSlices (IsRationalPoint node.model node.path node.cut) form (first_slice node form low) ((last_slice node form high -ℤ first_slice node form low) +ℤ pos 1) }
{}
