//! The lines of inequalities that no values within the narrowed box of a node meet.
ghost use Rattle.std.specs.Prelude.{◌≡◌, ◌≢◌, ◌^◌, ◌≤◌, pos, ◌-ℤ◌, ◌<ℤ◌, ℤ, [], ◌∷◌, length, None, Some, IfOk, OnOk};
ghost use Rattle.std.specs.List.Sorted.{IsStrictlyIncreasing};
ghost use Rattle.whole_rows.specs.WholeRows.{span};
ghost use Rattle.whole_rows.specs.declared.ends.End.TheVariants.{Least};
ghost use Rattle.whole_rows.specs.Ends.{sum_at};
ghost use Rattle.farkas_rows.specs.Refutes.{Refutes};
ghost use Rattle.proof_tree.specs.Trees.{IsOfSize};
ghost use Rattle.plain_slices.specs.Items.{numbers_of, left_of, named_by, IsPutIn, IsGathered, IsApartFrom, IsBalanced, IsUnmet};
ghost use Rattle.plain_slices.specs.Sides.{side_form};

use crate::items::{put, put_bound};
use crate::node::Node;
use crate::side::Side;
use farkas_rows::{CutUse, Line, Use, Uses};
use sequence::NoMemory;
use std::alloc::Global;

/// The line of an upper and a lower bound of one column, once each.
pub(crate) fn line_of_pair(alloc: Global, above: u32, below: u32) -> Result<Line, NoMemory>
    requires { above ≢ below }
    ensures cut { IfOk result (λ line. line.cut ≡ None) }
    ensures items { IfOk result (λ line. IsPutIn (record { index = below; times = pos 1 }) (record { index = above; times = pos 1 } ∷ []) line.items) }
    ensures rising { IfOk result (λ line. IsStrictlyIncreasing (numbers_of line.items)) }
{
    let mut items = Vec::new(alloc);
    items.push(Use {
        index: above,
        times: 1,
    })?;
    put(
        &mut items,
        Use {
            index: below,
            times: 1,
        },
    )?;
    Ok(Line {
        cut: None,
        items: Uses::from_vec(items),
    })
}

impl Node<'_> {
    ghost use Rattle.plain_slices.specs.NodeViews.{IsNode};

    /// Puts in, for each column, the bound of the narrowed box that takes the form's factor away.
    fn balance(&self, items: &mut Vec<Use>, form: &[i128], side: Side) -> Result<(), NoMemory>
        requires node { IsNode self.now }
        requires dense { length form.now ≡ length self.now.rows.now.box }
        requires light { span (side_form side form.now) self.now.bounds.items ≤ 2 ^ 96 }
        requires gathered { IsGathered self.now.rows.now self.now.path.now None items.old.items }
        requires wide { length (left_of (named_by self.now.rows.now self.now.path.now None) (length self.now.rows.now.box) items.old.items) ≡ length self.now.rows.now.box }
        requires apart { IsApartFrom (named_by self.now.rows.now self.now.path.now None) 0 (side_form side form.now) items.old.items }
        ensures { OnOk result (IsBalanced self.now.rows.now self.now.path.now self.now.bounds.items (side_form side form.now) (length self.now.rows.now.box) items.old.items items.new.items) }
    {
        for column in 0..form.len() {
            let factor = side.factor(form[column]);
            put_bound(items, self.sources[column], factor)?;
        }
        Ok(())
    }

    /// The line of a side that is out of reach: that side once, and what balances it.
    pub(crate) fn line_of_side(
        &self,
        alloc: Global,
        number: u32,
        form: &[i128],
        side: Side,
    ) -> Result<Line, NoMemory>
        requires node { IsNode self.now }
        requires dense { length form.now ≡ length self.now.rows.now.box }
        requires light { span (side_form side form.now) self.now.bounds.items ≤ 2 ^ 96 }
        requires unmet { (limit : ℤ) × IsUnmet self.now.rows.now self.now.path.now self.now.bounds.items number (side_form side form.now) limit }
        ensures cut { IfOk result (λ line. line.cut ≡ None) }
        ensures refutes { IfOk result (Refutes self.now.rows.now self.now.path.now None) }
    {
        let mut items = Vec::new(alloc);
        items.push(Use {
            index: number,
            times: 1,
        })?;
        self.balance(&mut items, form, side)?;
        Ok(Line {
            cut: None,
            items: Uses::from_vec(items),
        })
    }

    /// The line of the cut with the best value, once, and what balances it.
    pub(crate) fn line_of_cut(&self, alloc: Global, best: i128) -> Result<Line, NoMemory>
        requires node { IsNode self.now }
        requires light { span self.now.rows.now.cost self.now.bounds.items ≤ 2 ^ 96 }
        requires best { IsOfSize (2 ^ 97) best }
        requires unmet { (best -ℤ pos 1) <ℤ sum_at Least self.now.rows.now.cost self.now.bounds.items }
        ensures cut { IfOk result (λ line. line.cut ≡ Some (record { value = best; times = pos 1 })) }
        ensures refutes { IfOk result (Refutes self.now.rows.now self.now.path.now None) }
    {
        let mut items = Vec::new(alloc);
        self.balance(&mut items, self.rows.cost(), Side::Upper)?;
        Ok(Line {
            cut: Some(CutUse {
                value: best,
                times: 1,
            }),
            items: Uses::from_vec(items),
        })
    }
}
