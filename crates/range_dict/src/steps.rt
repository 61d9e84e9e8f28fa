//! The steps of the simplex method over ranges.
ghost use Rattle.std.specs.Prelude.{◌≡◌, ◌<◌, ◌≤◌, IfSome, vec_len, OnOk};

use crate::dict::RangeDict;
use crate::number::product;
use crate::range::{Outside, Range, Variable};
use crate::stop::RangeStop;
use std::cmp::Ordering;

/// The row whose value is to rise, or to fall.
#[derive(Clone, Copy, Debug, Drop)]
pub(crate) struct Aim {
    pub(crate) row: usize,
    pub(crate) rises: bool,
}

/// How far the variable of a column goes: `distance` over `pivot`, which is above 0. There the basic variable of `row` is at
/// its side `at` and leaves, or, without a row, the variable is at its own other side.
#[derive(Clone, Copy, Debug, Drop)]
pub(crate) struct Step {
    distance: i128,
    pivot: i64,
    row: Option<usize>,
    at: i64,
    is_high: bool,
}

impl Step {
    /// Whether nothing moves.
    pub(crate) fn is_still(&self) -> bool {
        self.distance == 0
    }
}

/// A side and whether it is the upper one, and how far the value, times the divisor, is from it.
#[derive(Clone, Copy, Debug, Drop)]
struct Room {
    distance: i128,
    at: i64,
    is_high: bool,
}

/// The room below an upper side, 0 or more where the value is within it.
fn room_below(range: &Range, value: i64, divisor: i64) -> Option<Room> {
    let at = range.high?;
    Some(Room {
        distance: product(at, divisor) - i128::from(value),
        at,
        is_high: true,
    })
}

/// The room above a lower side.
fn room_above(range: &Range, value: i64, divisor: i64) -> Option<Room> {
    let at = range.low?;
    Some(Room {
        distance: i128::from(value) - product(at, divisor),
        at,
        is_high: false,
    })
}

/// Whether there is a side, and the value has passed it.
fn has_passed(room: &Option<Room>) -> bool {
    match room {
        Some(room) => room.distance < 0,
        None => false,
    }
}

/// The room of a value that rises or falls within its range. A value that is outside of its range is stopped by nothing.
fn room_of(range: &Range, value: i64, divisor: i64, rises: bool) -> Option<Room> {
    let below = room_below(range, value, divisor);
    let above = room_above(range, value, divisor);
    if has_passed(&below) || has_passed(&above) {
        None
    } else if rises {
        below
    } else {
        above
    }
}

/// The way of a value that has passed a side back to it.
fn way_back(range: &Range, value: i64, divisor: i64, rises: bool) -> Option<Room> {
    let room = if rises {
        room_above(range, value, divisor)
    } else {
        room_below(range, value, divisor)
    }?;
    Some(Room {
        distance: room.distance.checked_neg()?,
        at: room.at,
        is_high: room.is_high,
    })
}

/// Compares two quotients, whose dividends are not below 0 and whose divisors are above 0.
fn compare(first: i128, first_divisor: i64, second: i128, second_divisor: i64) -> Ordering {
    if let (Ok(short_first), Ok(short_second)) = (i64::try_from(first), i64::try_from(second)) {
        let left = product(short_first, second_divisor);
        return left.cmp(&product(short_second, first_divisor));
    }
    let (whole_first, rest_first) = divided(first, first_divisor);
    let (whole_second, rest_second) = divided(second, second_divisor);
    match whole_first.cmp(&whole_second) {
        Ordering::Equal => {
            product(rest_first, second_divisor).cmp(&product(rest_second, first_divisor))
        }
        order => order,
    }
}

/// The whole quotient and the rest.
fn divided(dividend: i128, divisor: i64) -> (i128, i64) {
    if divisor <= 0 {
        return (dividend, 0);
    }
    let divisor = i128::from(divisor);
    let rest = i64::try_from(dividend % divisor).ok();
    (dividend / divisor, rest.unwrap_or(0))
}

/// A number for each variable, by which ties are broken.
fn rank(variable: Variable) -> u64 {
    match variable {
        Variable::Cost => 0,
        Variable::Row(i) => u64::from(i) + 1,
        Variable::Column(j) => u64::from(j) + (1 << 32),
        Variable::Slice(e) => u64::from(e) + (1 << 33),
    }
}

/// Whether a variable outside with this entry in the aim's row can move so that the aim's value moves as it should.
#[inline(always)]
fn can_serve(outside: &Outside, entry: i64, aim: Aim) -> bool {
    entry != 0 && ((entry > 0) == aim.rises) != outside.is_high && !outside.range.is_fixed()
}

impl RangeDict {
    /// The column of the variable that enters: that of the largest entry, or by Bland's rule that of the first variable.
    pub(crate) fn entering(&self, aim: Aim, is_bland: bool) -> Option<usize>
        requires { aim.row ≤ vec_len self.now.basic }
        ensures { IfSome result (λ column. column < vec_len self.now.outside) }
    {
        let row = self.table.row(aim.row);
        let mut best = None;
        let mut most = 0;
        for j in 0..self.outside.len() {
            let outside = &self.outside[j];
            if !can_serve(outside, row[j], aim) {
                continue;
            }
            let merit = if is_bland {
                u64::MAX - rank(outside.range.variable)
            } else {
                row[j].unsigned_abs()
            };
            if merit > most {
                most = merit;
                best = Some(j);
            }
        }
        best
    }

    /// How far the variable of a column can go: to its own other side, or until a row that is met is at a side, or the aim's
    /// row is back at the side that it has passed. None where nothing stops it.
    pub(crate) fn farthest(&self, column: usize, aim: Aim, is_bland: bool) -> Option<Step>
        requires { column < vec_len self.now.outside }
        ensures { IfSome result (λ step. IfSome step.row (λ row. row < vec_len self.now.basic)) }
    {
        let mut best = self.other_side(column);
        for i in 0..self.basic.len() {
            let Some(step) = self.step_of(i, column, aim) else {
                continue;
            };
            if self.is_shorter(&step, &best, aim, is_bland) {
                best = Some(step);
            }
        }
        best
    }

    /// The step to the other side of the variable of a column, where it has one.
    fn other_side(&self, column: usize) -> Option<Step>
        requires { column < vec_len self.now.outside }
        ensures { IfSome result (λ step. step.row ≡ None) }
    {
        let outside = &self.outside[column];
        let divisor = self.divisor.value();
        let at = if outside.is_high {
            outside.range.low?
        } else {
            outside.range.high?
        };
        let width = i64::try_from(i128::from(at) - i128::from(outside.at)).ok()?;
        Some(Step {
            distance: product(width.checked_abs()?, divisor),
            pivot: divisor,
            row: None,
            at,
            is_high: !outside.is_high,
        })
    }

    /// The step of the variable of a column that brings the basic variable of a row to the side where it stops.
    fn step_of(&self, row: usize, column: usize, aim: Aim) -> Option<Step>
        requires row { row < vec_len self.now.basic }
        requires column { column < vec_len self.now.outside }
        ensures { IfSome result (λ step. step.row ≡ Some row) }
    {
        let items = self.table.row(row);
        let entry = items[column];
        if entry == 0 {
            return None;
        }
        let value = items[self.outside.len()];
        let divisor = self.divisor.value();
        let range = &self.basic[row];
        let room = if row == aim.row {
            way_back(range, value, divisor, aim.rises)?
        } else {
            let rises = (entry > 0) != self.outside[column].is_high;
            room_of(range, value, divisor, rises)?
        };
        Some(Step {
            distance: room.distance,
            pivot: entry.checked_abs()?,
            row: Some(row),
            at: room.at,
            is_high: room.is_high,
        })
    }

    /// Whether a row's step is shorter than another one. Of two that are as long, the aim's row comes first, then the variable's
    /// own other side, then the smaller pivot, or by Bland's rule the first variable.
    fn is_shorter(&self, step: &Step, other: &Option<Step>, aim: Aim, is_bland: bool) -> bool {
        let Some(other) = other else {
            return true;
        };
        match compare(step.distance, step.pivot, other.distance, other.pivot) {
            Ordering::Less => true,
            Ordering::Greater => false,
            Ordering::Equal => {
                if step.row == Some(aim.row) {
                    return true;
                }
                if other.row.is_none() || other.row == Some(aim.row) {
                    return false;
                }
                if is_bland {
                    self.rank_at(step.row) < self.rank_at(other.row)
                } else {
                    step.pivot < other.pivot
                }
            }
        }
    }

    /// The rank of a row's basic variable.
    fn rank_at(&self, row: Option<usize>) -> u64 {
        let Some(row) = row else {
            return 0;
        };
        match self.basic.get(row) {
            Some(range) => rank(range.variable),
            None => 0,
        }
    }

    /// Takes a step.
    pub(crate) fn take(&mut self, column: usize, step: Step) -> Result<(), RangeStop>
        requires column { column < vec_len self.old.outside }
        requires row { IfSome step.row (λ row. row < vec_len self.old.basic) }
        ensures rows { vec_len self.new.basic ≡ vec_len self.old.basic }
        ensures columns { vec_len self.new.outside ≡ vec_len self.old.outside }
    {
        match step.row {
            Some(row) => self.pivot(row, column, step.at, step.is_high),
            None => self.shift(column, step.at, step.is_high),
        }
    }

    /// The first row from `start` on whose value is outside of its range, in turn.
    pub(crate) fn violated_from(&self, start: usize) -> Option<Aim>
        ensures { IfSome result (λ aim. aim.row < vec_len self.now.basic) }
    {
        let count = self.basic.len();
        for i in start..count {
            if let Some(aim) = self.violated_at(i) {
                return Some(aim);
            }
        }
        for i in 0..count {
            if let Some(aim) = self.violated_at(i) {
                return Some(aim);
            }
        }
        None
    }

    /// The aim of a row whose value is outside of its range.
    fn violated_at(&self, row: usize) -> Option<Aim>
        requires { row < vec_len self.now.basic }
        ensures { IfSome result (λ aim. aim.row ≡ row) }
    {
        let value = self.entry(row, self.outside.len());
        let divisor = self.divisor.value();
        let range = &self.basic[row];
        if has_passed(&room_above(range, value, divisor)) {
            Some(Aim { row, rises: true })
        } else if has_passed(&room_below(range, value, divisor)) {
            Some(Aim { row, rises: false })
        } else {
            None
        }
    }
}
