//! Points of a node.
ghost use Rattle.std.specs.Prelude.{◌≡◌, length, SomeIff};
ghost use Rattle.farkas_rows.specs.Refutes.{HasForms};

use crate::parts::is_point;
use farkas_rows::Path;
use std::marker::Model;
use whole_rows::DenseRows;

/// A rational point: the value of each column is its numerator over the denominator.
#[derive(Debug, Drop)]
pub struct NodePoint {
    numerators: Vec<i128>,
    denominator: i128,
}

impl Model for NodePoint {
    ghost use Rattle.node_point.specs.NodePoints.{Fractions};

    ghost Value = { Fractions };

    ghost view = { λ point. record { numerators = point.numerators.items; denominator = point.denominator } };
}

impl NodePoint {
    ghost use Rattle.node_point.specs.NodePoints.{Fractions, IsNodePoint};
    ghost use Rattle.node_point.specs.Ranges.{StaysWithin};

    /// The point of these values, where they meet each row, bound and slice of the node, and the cut where there is one.
    /// The forms of the path have a factor for each column.
    ///
    /// There is no point where they do not meet them, or where a product, a partial sum or a side times the denominator
    /// leaves 128 bits. It takes no memory.
    pub fn of(
        rows: &DenseRows,
        path: &Path,
        cut: Option<i128>,
        numerators: Vec<i128>,
        denominator: i128,
    ) -> Option<NodePoint>
        requires { HasForms (length rows.now.box) path.now }
        ensures { let x : Fractions = record { numerators = numerators.items; denominator = denominator } in SomeIff result (IsNodePoint rows.now path.now cut x × StaysWithin rows.now path.now cut x) x }
    {
        if is_point(rows, path, cut, &numerators, denominator) {
            Some(NodePoint {
                numerators,
                denominator,
            })
        } else {
            None
        }
    }

    /// Lends the numerators, one for each column.
    pub fn numerators(&self) -> &[i128]
        ensures { result.now ≡ self.now.numerators }
    {
        &self.numerators
    }

    /// The denominator of each value.
    pub fn denominator(&self) -> i128
        ensures { result ≡ self.now.denominator }
    {
        self.denominator
    }
}
