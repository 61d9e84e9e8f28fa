//! Forms made shorter by multiples of equalities: on the points of a node such a form is the old one and a constant.
use crate::halt::Halt;
use crate::numbers::quotient::nearest;
use exact_vectors::dot_checked;
use reformulate::Equalities;
use sequence::NoMemory;
use std::alloc::Global;

/// How often all equalities are gone through at most.
const MOST_PASSES: usize = 100;

/// The forms of equalities over the work columns, short themselves, with the squares of their lengths.
#[derive(Debug, Drop)]
pub(crate) struct Shortener {
    forms: Vec<Squared>,
}

/// A form with the square of its length.
#[derive(Debug, Drop)]
struct Squared {
    factors: Vec<i128>,
    square: i128,
}

/// Takes the multiple of a form that makes another one shortest from it; whether that is not 0.
fn shorten_by(factors: &mut [i128], by: &[i128], square: i128) -> Option<bool> {
    if factors.len() != by.len() {
        return None;
    }
    let times = nearest(dot_checked(factors, by)?, square)?;
    if times == 0 {
        return Some(false);
    }
    for i in 0..by.len() {
        factors[i] = factors[i].checked_sub(times.checked_mul(by[i])?)?;
    }
    Some(true)
}

impl Shortener {
    fn new(alloc: Global) -> Shortener {
        Shortener {
            forms: Vec::new(alloc),
        }
    }

    /// Makes a form shorter, as far as single equalities can.
    pub(crate) fn shorten(&self, factors: &mut [i128]) -> Option<()> {
        for _pass in 0..MOST_PASSES {
            let mut is_shorter = false;
            for form in &self.forms {
                if shorten_by(factors, &form.factors, form.square)? {
                    is_shorter = true;
                }
            }
            if !is_shorter {
                break;
            }
        }
        Some(())
    }

    /// Takes a further equality, and makes the others shorter by it.
    fn add(&mut self, alloc: Global, factors: &[i128]) -> Result<(), Halt> {
        let mut factors = factors.to_vec(alloc)?;
        self.shorten(&mut factors).ok_or(Halt::GivesUp)?;
        let square = dot_checked(&factors, &factors).ok_or(Halt::GivesUp)?;
        if square == 0 {
            return Ok(());
        }
        for form in self.forms.iter_mut() {
            shorten_by(&mut form.factors, &factors, square).ok_or(Halt::GivesUp)?;
            form.square = dot_checked(&form.factors, &form.factors).ok_or(Halt::GivesUp)?;
        }
        self.forms.push(Squared { factors, square })?;
        Ok(())
    }

    /// A copy.
    fn copied(&self, alloc: Global) -> Result<Shortener, NoMemory> {
        let mut forms = Vec::with_capacity(alloc, self.forms.len() + 1)?;
        for form in &self.forms {
            forms.push(Squared {
                factors: form.factors.to_vec(alloc)?,
                square: form.square,
            })?;
        }
        Ok(Shortener { forms })
    }

    /// A copy with a further equality, or without it where numbers leave their range.
    pub(crate) fn extended(&self, alloc: Global, factors: &[i128]) -> Result<Shortener, NoMemory> {
        let mut all = self.copied(alloc)?;
        match all.add(alloc, factors) {
            Ok(()) => Ok(all),
            Err(Halt::NoMemory) => Err(NoMemory),
            Err(Halt::GivesUp) => self.copied(alloc),
        }
    }

    /// That of the equalities, without those at which numbers leave their range.
    pub(crate) fn of(alloc: Global, equalities: &Equalities) -> Result<Shortener, NoMemory> {
        let mut all = Shortener::new(alloc);
        for equality in equalities.items() {
            all = all.extended(alloc, equality.form.items())?;
        }
        Ok(all)
    }
}
