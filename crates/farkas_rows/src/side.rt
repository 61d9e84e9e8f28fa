//! One inequality of a node as the node has it: its form is lent, and a lower side is turned only where it is used.
ghost use Rattle.std.specs.Prelude.{◌≡◌, ℕ, ◌+◌, ◌^◌, ◌<◌, ◌≤◌, ℤ, pos, ◌+ℤ◌, ◌*ℤ◌, ◌≤ℤ◌, length, slice_index_or, sum_by, unsigned_abs, SomeIff, IfSome};
ghost use Rattle.farkas_rows.specs.Judgement.{IsWeight};
ghost use Rattle.farkas_rows.specs.Refutes.{inequality_weight};

use crate::line::Weight;

/// The weight that a line passes nowhere: 2 to the power 126.
pub(crate) const HEAVIEST: i128 = 1 << 126;

/// The factors of a form: one for each column, or the form that is the value of one column.
#[derive(Clone, Copy, Debug, Drop)]
pub(crate) enum Factors<'a> {
    Dense(&'a [i128]),
    Unit(usize),
}

/// On which side of a number the form's value stays.
#[derive(Clone, Copy, Debug, Drop)]
pub(crate) enum Bound {
    AtMost(i128),
    Below(i128),
    AtLeast(i128),
}

/// An inequality of a node.
#[derive(Clone, Copy, Debug, Drop)]
pub(crate) struct Side<'a> {
    pub(crate) factors: Factors<'a>,
    pub(crate) bound: Bound,
}

impl Side<'_> {
    ghost use Rattle.farkas_rows.specs.Sides.{CanAdd, factor_of, inequality_in, IsSideIn};

    /// The weight of the inequality.
    pub(crate) fn weight(&self) -> Weight
        ensures { (columns : ℕ) → IsSideIn columns self.now → IsWeight (pos (inequality_weight (inequality_in columns self.now))) result }
    {
        let Some(size) = self.factors.size() else {
            return Weight::Above;
        };
        let weight = (size + self.bound.size()).max(1);
        if weight > HEAVIEST as u128 {
            Weight::Above
        } else {
            Weight::Within(weight as i128)
        }
    }

    /// Adds the inequality, so many times, to the sums of the columns, and answers what it adds to the limit.
    pub(crate) fn add_to(&self, times: i128, sums: &mut [i128]) -> i128
        requires side { IsSideIn (length sums.old) self.now }
        requires times { (pos 0 ≤ℤ times) × (times ≤ℤ pos (2 ^ 126)) }
        requires room { CanAdd sums.old times (inequality_in (length sums.old) self.now) }
        ensures sums { (j : ℕ) → j < length sums.old → slice_index_or sums.new j (pos 0) ≡ slice_index_or sums.old j (pos 0) +ℤ times *ℤ factor_of j (inequality_in (length sums.old) self.now) }
        ensures limit { result ≡ times *ℤ (inequality_in (length sums.old) self.now).limit }
    {
        self.factors.add_to(self.bound.signed(times), sums);
        times * self.bound.limit()
    }
}

impl Factors<'_> {
    ghost use Rattle.farkas_rows.specs.Sides.{form_in, IsFormIn};

    /// The sum of the factors' sizes, where it is at most 2 to the power 126.
    fn size(&self) -> Option<u128>
        ensures size { (columns : ℕ) → IsFormIn columns self.now → SomeIff result (sum_by unsigned_abs (form_in columns self.now) ≤ 2 ^ 126) (sum_by unsigned_abs (form_in columns self.now)) }
        ensures small { IfSome result (λ size. size ≤ 2 ^ 126) }
    {
        match self {
            Factors::Dense(form) => size_of(form),
            Factors::Unit(_) => Some(1),
        }
    }

    /// Adds the form, so many times, to the sums of the columns.
    fn add_to(&self, times: i128, sums: &mut [i128])
        requires form { IsFormIn (length sums.old) self.now }
        requires products { (j : ℕ) → j < length sums.old → unsigned_abs (times *ℤ slice_index_or (form_in (length sums.old) self.now) j (pos 0)) ≤ 2 ^ 126 }
        requires sums { (j : ℕ) → j < length sums.old → unsigned_abs (slice_index_or sums.old j (pos 0) +ℤ times *ℤ slice_index_or (form_in (length sums.old) self.now) j (pos 0)) ≤ 2 ^ 126 }
        ensures { (j : ℕ) → j < length sums.old → slice_index_or sums.new j (pos 0) ≡ slice_index_or sums.old j (pos 0) +ℤ times *ℤ slice_index_or (form_in (length sums.old) self.now) j (pos 0) }
    {
        match self {
            Factors::Dense(form) => add_multiple(sums, form, times),
            Factors::Unit(column) => sums[*column] += times,
        }
    }
}

impl Bound {
    ghost use Rattle.farkas_rows.specs.Sides.{limit_of, times_form};

    /// The limit of the inequality.
    fn limit(self) -> i128
        requires { unsigned_abs (limit_of self) ≤ 2 ^ 126 }
        ensures { result ≡ limit_of self }
    {
        match self {
            Bound::AtMost(side) => side,
            Bound::Below(side) => side - 1,
            Bound::AtLeast(side) => -side,
        }
    }

    /// The size of the inequality's limit.
    fn size(self) -> u128
        ensures size { result ≡ unsigned_abs (limit_of self) }
        ensures small { result < 2 ^ 127 + 2 }
    {
        match self {
            Bound::AtMost(side) => side.unsigned_abs(),
            Bound::Below(side) => {
                if side > 0 {
                    side.unsigned_abs() - 1
                } else {
                    side.unsigned_abs() + 1
                }
            }
            Bound::AtLeast(side) => side.unsigned_abs(),
        }
    }

    /// A multiplier of the inequality as one of the form, which is turned for a lower side.
    fn signed(self, times: i128) -> i128
        requires { (pos 0 ≤ℤ times) × (times ≤ℤ pos (2 ^ 126)) }
        ensures { result ≡ times_form self times }
    {
        match self {
            Bound::AtMost(_) => times,
            Bound::Below(_) => times,
            Bound::AtLeast(_) => -times,
        }
    }
}

/// The sum of the sizes of a form's factors, where it is at most 2 to the power 126.
fn size_of(form: &[i128]) -> Option<u128>
    ensures { SomeIff result (sum_by unsigned_abs form.now ≤ 2 ^ 126) (sum_by unsigned_abs form.now) }
{
    let mut size = 0;
    for factor in form {
        size += factor.unsigned_abs();
        if size > HEAVIEST as u128 {
            return None;
        }
    }
    Some(size)
}

/// Adds the form, so many times, to the sums of the columns.
fn add_multiple(sums: &mut [i128], form: &[i128], times: i128)
    requires dense { length form.now ≡ length sums.old }
    requires products { (j : ℕ) → j < length sums.old → unsigned_abs (times *ℤ slice_index_or form.now j (pos 0)) ≤ 2 ^ 126 }
    requires sums { (j : ℕ) → j < length sums.old → unsigned_abs (slice_index_or sums.old j (pos 0) +ℤ times *ℤ slice_index_or form.now j (pos 0)) ≤ 2 ^ 126 }
    ensures { (j : ℕ) → j < length sums.old → slice_index_or sums.new j (pos 0) ≡ slice_index_or sums.old j (pos 0) +ℤ times *ℤ slice_index_or form.now j (pos 0) }
{
    for j in 0..sums.len() {
        sums[j] += times * form[j];
    }
}
