//! Fast steps, each of which puts one narrow value after another.

ghost use Rattle.std.specs.Prelude.{◌≡◌, ℕ, ◌+◌, ◌<◌, ◌≤◌, List, length, take};
ghost use Rattle.step_program.specs.Fits as fits;
ghost use Rattle.step_program.specs.Values as values;
ghost use Rattle.step_program.specs.Running as running;

use crate::step::{Join, Pick, Sum, Take, Test, Two};

/// `&` of two slots.
#[derive(Clone, Copy)]
pub(crate) struct And {
    pub of: Two,
}

/// `|` of two slots.
#[derive(Clone, Copy)]
pub(crate) struct Or {
    pub of: Two,
}

/// `^` of two slots.
#[derive(Clone, Copy)]
pub(crate) struct Xor {
    pub of: Two,
}

/// A step of one kind.
pub(crate) trait Fast: Copy {
    /// It reads the first so many slots alone.
    ghost reads: { ℕ → Self → Type 0 };

    /// Its value, where these are the slots.
    ghost gives: { List ℕ → Self → ℕ };

    fn value(&self, slots: &[u64]) -> u64
        requires { reads (length slots.now) self.now }
        ensures { result ≡ gives slots.now self.now };
}

impl Fast for And {
    ghost reads = { λ n x. fits.TwoFits n x.of };

    ghost gives = { λ xs x. values.and_value xs x.of };

    fn value(&self, slots: &[u64]) -> u64 {
        slots[self.of.left as usize] & slots[self.of.right as usize]
    }
}

impl Fast for Or {
    ghost reads = { λ n x. fits.TwoFits n x.of };

    ghost gives = { λ xs x. values.or_value xs x.of };

    fn value(&self, slots: &[u64]) -> u64 {
        slots[self.of.left as usize] | slots[self.of.right as usize]
    }
}

impl Fast for Xor {
    ghost reads = { λ n x. fits.TwoFits n x.of };

    ghost gives = { λ xs x. values.xor_value xs x.of };

    fn value(&self, slots: &[u64]) -> u64 {
        slots[self.of.left as usize] ^ slots[self.of.right as usize]
    }
}

impl Fast for Pick {
    ghost reads = { fits.PickFits };

    ghost gives = { values.pick_value };

    fn value(&self, slots: &[u64]) -> u64 {
        let no = slots[self.no as usize];
        let turn = slots[self.yes as usize] ^ no;
        no ^ (turn & 0u64.wrapping_sub(u64::from(slots[self.condition as usize] != 0)))
    }
}

impl Fast for Test {
    ghost reads = { fits.TestFits };

    ghost gives = { values.test_value };

    fn value(&self, slots: &[u64]) -> u64 {
        let same = slots[self.of as usize] & self.mask == slots[self.like as usize];
        u64::from(same != self.differs)
    }
}

impl Fast for Join {
    ghost reads = { fits.JoinFits };

    ghost gives = { values.join_value };

    fn value(&self, slots: &[u64]) -> u64 {
        slots[self.high as usize].wrapping_mul(self.scale) | slots[self.low as usize]
    }
}

impl Fast for Take {
    ghost reads = { fits.TakeFits };

    ghost gives = { values.take_value };

    fn value(&self, slots: &[u64]) -> u64 {
        (slots[self.of as usize] >> self.from) & self.mask
    }
}

impl Fast for Sum {
    ghost reads = { fits.SumFits };

    ghost gives = { values.sum_value };

    fn value(&self, slots: &[u64]) -> u64 {
        slots[self.left as usize].wrapping_add(slots[self.right as usize]) & self.mask
    }
}

/// Puts the values of steps of one kind after the first so many slots, and gives how many there are then.
pub(crate) fn fill<S: Fast>(steps: &[S], slots: &mut [u64], from: usize) -> usize
    requires fits { running.AllFit S.reads from steps.now }
    requires room { from + length steps.now ≤ length slots.old }
    ensures count { result ≡ from + length steps.now }
    ensures value { take result slots.new ≡ running.filled S.gives (take from slots.old) steps.now }
{
    let mut at = from;
    for step in steps {
        let value = step.value(&slots[..at]);
        slots[at] = value;
        at += 1;
    }
    at
}
