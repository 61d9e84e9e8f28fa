//! The model that a text states, or its first fault.
ghost use Rattle.std.specs.Prelude.{◌≡◌, ◌≤◌, ◌≤ℤ◌, pos, length, Ok, Err, option_map, IfSome, IfOk};
ghost use Rattle.exact_math.specs.Rational.{whole};
ghost use Rattle.mps_model.specs.declared.fault.TextFault.{TextFault as Fault};
ghost use Rattle.mps_model.specs.Meaning.{meaning};
ghost use Rattle.mps_model.specs.ModelLimits.{KeepsLimits};
ghost use Rattle.mps_fields.specs.Lines.{most_bytes};

use crate::fault::{FaultKind, TextFault};
use crate::layout::Layout;
use crate::read_stop::ReadStop;
use crate::reader::Reader;
use frac128::Frac;
use int_model::Model;
use mps_fields::lines;
use std::alloc::Global;

fn bound_of(upper: Option<i128>) -> Option<Frac>
    requires { IfSome upper (λ bound. pos 0 ≤ℤ bound) }
    ensures { result ≡ option_map whole upper }
{
    match upper {
        Some(bound) => Some(Frac::whole(bound)),
        None => None,
    }
}

/// The model that a text states, or its first fault. A column whose upper bound the text does not give has the bound
/// `upper`, if there is one. A text without ENDATA has its fault on its last line; what stands behind ENDATA is not judged.
pub fn read(
    alloc: Global,
    layout: Layout,
    upper: Option<i128>,
    text: &[u8],
) -> Result<Model, ReadStop>
    requires upper { IfSome upper (λ bound. pos 0 ≤ℤ bound) }
    requires size { length text.now ≤ most_bytes }
    ensures model { IfOk result (λ model. meaning layout upper text.now ≡ Ok model) }
    ensures fault { (fault : Fault) → result ≡ Err (ReadStop.Fault fault) → meaning layout upper text.now ≡ Err fault }
    ensures limits { IfOk result KeepsLimits }
{
    let given = bound_of(upper);
    let mut reader = Reader::new(alloc);
    let mut count = 0;
    for line in lines(text) {
        if let Err(stop) = reader.take(layout, &line) {
            return Err(ReadStop::on_line(line.number, stop));
        }
        if reader.is_ended() {
            return reader.into_model(&given);
        }
        count = line.number;
    }
    Err(ReadStop::Fault(TextFault {
        kind: FaultKind::NoEnd,
        line: count,
    }))
}
