//! Frames over the rational numbers: a frame of the integer solutions of equalities is one of their rational solutions too.
//!
//! Hardly any code: definitions and a law (`specs/`). The function here does nothing; its contract carries the law.
#![tactic(auto)]

ghost use Rattle.std.specs.Prelude.{List};
ghost use Rattle.reformulate.specs.Frames.{IsFrame};
ghost use Rattle.reformulate.specs.Substitutions.{IsShaped, Substitution};
ghost use Rattle.reformulate.specs.declared.equality.Equality.{Equality};
ghost use Rattle.rational_frames.specs.RationalFrames.{IsRationalFrame};

/// A frame takes the rational points one to one as it takes the whole ones: a rational solution, less x0 and times its common denominator, is a whole
/// vector of the frame's lattice.
pub fn frames_take_rational_points()
    ensures { (equalities : List Equality) (s : Substitution) → IsShaped s → IsFrame equalities s → IsRationalFrame equalities s }
{}
