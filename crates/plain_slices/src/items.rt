//! The items of a line: inequalities by their numbers, which rise, each with a multiplier.
ghost use Rattle.std.specs.Prelude.{◌≡◌, ◌≢◌, ℕ, ◌+◌, ◌^◌, ◌<◌, ◌≤◌, pos, unsigned_abs, length, slice_index, All, OnOk};
ghost use Rattle.std.specs.List.Sorted.{IsStrictlyIncreasing};
ghost use Rattle.plain_slices.specs.Items.{numbers_of, IsPutIn, bound_item};

use crate::node::Source;
use farkas_rows::Use;
use sequence::NoMemory;

/// Puts in, for a column with this factor, the inequality that bounds the sum there: as often as takes the column's factor
/// away. Where the factor is 0 there is nothing to take away.
pub(crate) fn put_bound(items: &mut Vec<Use>, source: Source, factor: i128) -> Result<(), NoMemory>
    requires small { unsigned_abs factor ≤ 2 ^ 96 }
    requires rising { IsStrictlyIncreasing (numbers_of items.old.items) }
    requires apart { factor ≢ pos 0 → All (λ other. other.index ≢ (bound_item source factor).index) items.old.items }
    ensures kept { OnOk result (factor ≡ pos 0 → items.new.items ≡ items.old.items) }
    ensures put { OnOk result (factor ≢ pos 0 → IsPutIn (bound_item source factor) items.old.items items.new.items) }
    ensures rising { OnOk result (IsStrictlyIncreasing (numbers_of items.new.items)) }
{
    if factor < 0 {
        put(
            items,
            Use {
                index: source.above,
                times: -factor,
            },
        )
    } else if factor > 0 {
        put(
            items,
            Use {
                index: source.below,
                times: factor,
            },
        )
    } else {
        Ok(())
    }
}

/// Puts an item in at its place. No other has its number.
pub(crate) fn put(items: &mut Vec<Use>, item: Use) -> Result<(), NoMemory>
    requires rising { IsStrictlyIncreasing (numbers_of items.old.items) }
    requires apart { All (λ other. other.index ≢ item.index) items.old.items }
    ensures put { OnOk result (IsPutIn item items.old.items items.new.items) }
    ensures rising { OnOk result (IsStrictlyIncreasing (numbers_of items.new.items)) }
{
    let place = place_of(items, item.index);
    items.insert(place, item)?;
    Ok(())
}

/// The place among items with rising numbers at which another number goes.
fn place_of(items: &[Use], number: u32) -> usize
    requires { All (λ other. other.index ≢ number) items.now }
    ensures within { result ≤ length items.now }
    ensures before { (k : ℕ) → k + 1 ≡ result → slice_index (numbers_of items.now) k < number }
    ensures after { (k : ℕ) → result ≤ k → k < length items.now → number < slice_index (numbers_of items.now) k }
{
    let mut place = items.len();
    while place > 0 {
        if items[place - 1].index < number {
            return place;
        }
        place -= 1;
    }
    0
}
