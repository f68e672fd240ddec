//! Steps of a builder as steps of the program.

ghost use Rattle.std.specs.Prelude.{◌≡◌};
ghost use Rattle.step_program.specs.Renamed as names;

use crate::placement::Placement;
use crate::step::{Calculation, Join, Number, Operand, Pick, Rare, Step, Sum, Take, Test, Two};

fn two(of: Two, places: &Placement) -> Two
    ensures { result ≡ names.two places.now of }
{
    Two {
        left: places.narrow(of.left),
        right: places.narrow(of.right),
    }
}

fn pick(of: Pick, places: &Placement) -> Pick
    ensures { result ≡ names.pick places.now of }
{
    Pick {
        condition: places.narrow(of.condition),
        yes: places.narrow(of.yes),
        no: places.narrow(of.no),
    }
}

fn test(of: Test, places: &Placement) -> Test
    ensures { result ≡ names.test places.now of }
{
    Test {
        of: places.narrow(of.of),
        like: places.narrow(of.like),
        mask: of.mask,
        differs: of.differs,
    }
}

fn join(of: Join, places: &Placement) -> Join
    ensures { result ≡ names.join places.now of }
{
    Join {
        high: places.narrow(of.high),
        low: places.narrow(of.low),
        scale: of.scale,
    }
}

fn take(of: Take, places: &Placement) -> Take
    ensures { result ≡ names.take places.now of }
{
    Take {
        of: places.narrow(of.of),
        from: of.from,
        mask: of.mask,
    }
}

fn sum(of: Sum, places: &Placement) -> Sum
    ensures { result ≡ names.sum places.now of }
{
    Sum {
        left: places.narrow(of.left),
        right: places.narrow(of.right),
        mask: of.mask,
    }
}

fn operand(of: Operand, places: &Placement) -> Operand
    ensures { result ≡ names.operand places.now of }
{
    Operand {
        slot: places.slot(of.slot),
        width: of.width,
    }
}

fn number(of: Number, places: &Placement) -> Number
    ensures { result ≡ names.number places.now of }
{
    Number {
        of: operand(of.of, places),
        signed: of.signed,
    }
}

fn calculation(of: Calculation, places: &Placement) -> Calculation
    ensures { result ≡ names.calculation places.now of }
{
    match of {
        Calculation::Constant { value } => Calculation::Constant { value },
        Calculation::Unary { operator, of } => Calculation::Unary {
            operator,
            of: operand(of, places),
        },
        Calculation::Binary {
            operator,
            signed,
            left,
            right,
        } => Calculation::Binary {
            operator,
            signed,
            left: operand(left, places),
            right: operand(right, places),
        },
        Calculation::Extend { signed, of } => Calculation::Extend {
            signed,
            of: operand(of, places),
        },
        Calculation::Cut { of } => Calculation::Cut {
            of: operand(of, places),
        },
        Calculation::Select { of, place } => Calculation::Select {
            of: operand(of, places),
            place: number(place, places),
        },
        Calculation::Insert { of, place, part } => Calculation::Insert {
            of: operand(of, places),
            place: number(place, places),
            part: operand(part, places),
        },
        Calculation::Concat { left, right } => Calculation::Concat {
            left: operand(left, places),
            right: operand(right, places),
        },
        Calculation::Choose { condition, yes, no } => Calculation::Choose {
            condition: operand(condition, places),
            yes: operand(yes, places),
            no: operand(no, places),
        },
        Calculation::Word {
            memory,
            least,
            index,
        } => Calculation::Word {
            memory,
            least,
            index: number(index, places),
        },
    }
}

/// The step over the program's slots.
pub(crate) fn renamed(step: &Step, places: &Placement) -> Step
    ensures { result ≡ names.step places.now step.now }
{
    match *step {
        Step::And(of) => Step::And(two(of, places)),
        Step::Or(of) => Step::Or(two(of, places)),
        Step::Xor(of) => Step::Xor(two(of, places)),
        Step::Pick(of) => Step::Pick(pick(of, places)),
        Step::Test(of) => Step::Test(test(of, places)),
        Step::Join(of) => Step::Join(join(of, places)),
        Step::Take(of) => Step::Take(take(of, places)),
        Step::Sum(of) => Step::Sum(sum(of, places)),
        Step::Rare(of) => Step::Rare(Rare {
            width: of.width,
            calculation: calculation(of.calculation, places),
        }),
    }
}
