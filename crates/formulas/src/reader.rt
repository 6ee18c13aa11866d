// Sum, product and factor readers that call each other: the rest of a chain, a latch and a timer are readers of their own.
ghost use Rattle.std.specs.Prelude.{◌+◌, ◌<◌};
ghost use Rattle.marks.specs.Marks.{lent};
ghost use Rattle.formulas.specs.Readers.{Begun, Left, SumRead, SumsRead, ProductRead, ProductsRead};
ghost use Rattle.formulas.specs.Readers.{FactorRead, LatchRead, TimerRead};

use marks::{Mark, kind};
use moves::{begin, expect, leaf, pass, pass_length, put};

// sum = product {"+" product}
#[cycle(factor_latch_product_products_sum_sums_timer)]
pub(crate) fn sum(text: &[u8; 1024], bytes: usize, code: &mut [u64; 32], m: &mut Mark, deep: usize)
    requires { Begun text.now bytes code.old m.old deep }
    ensures { Left (SumRead (lent text.now bytes) deep) m.old
        code.old code.new m.new }
{
    product(text, bytes, code, m, deep);
    sums(text, bytes, code, m, deep);
}

// {"+" product}
#[cycle(factor_latch_product_products_sum_sums_timer)]
fn sums(text: &[u8; 1024], bytes: usize, code: &mut [u64; 32], m: &mut Mark, deep: usize)
    requires { Begun text.now bytes code.old m.old deep }
    ensures { Left (SumsRead (lent text.now bytes) deep) m.old
        code.old code.new m.new }
{
    if pass(text, bytes, m, b'+') {
        product(text, bytes, code, m, deep);
        put(code, m, kind::OR, deep, 0);
        sums(text, bytes, code, m, deep);
    }
}

// product = factor {"." factor}
#[cycle(factor_latch_product_products_sum_sums_timer)]
fn product(text: &[u8; 1024], bytes: usize, code: &mut [u64; 32], m: &mut Mark, deep: usize)
    requires { Begun text.now bytes code.old m.old deep }
    ensures { Left (ProductRead (lent text.now bytes) deep) m.old
        code.old code.new m.new }
{
    factor(text, bytes, code, m, deep);
    products(text, bytes, code, m, deep);
}

// {"." factor}
#[cycle(factor_latch_product_products_sum_sums_timer)]
fn products(text: &[u8; 1024], bytes: usize, code: &mut [u64; 32], m: &mut Mark, deep: usize)
    requires { Begun text.now bytes code.old m.old deep }
    ensures { Left (ProductsRead (lent text.now bytes) deep) m.old
        code.old code.new m.new }
{
    if pass(text, bytes, m, b'.') {
        factor(text, bytes, code, m, deep);
        put(code, m, kind::AND, deep, 0);
        products(text, bytes, code, m, deep);
    }
}

// factor = "!" factor, "^" factor, "~" factor, "(" sum ")", "0", "1", name, or a block
#[cycle(factor_latch_product_products_sum_sums_timer)]
fn factor(text: &[u8; 1024], bytes: usize, code: &mut [u64; 32], m: &mut Mark, deep: usize)
    requires { Begun text.now bytes code.old m.old deep }
    ensures { Left (FactorRead (lent text.now bytes) deep) m.old
        code.old code.new m.new }
{
    let first = begin(text, bytes, m);
    if first == 0 {
        leaf(text, bytes, code, m, deep);
        return;
    }
    if first < kind::TON {
        factor(text, bytes, code, m, deep + 1);
        put(code, m, first, deep, 0);
        return;
    }
    if first == kind::BRACKET {
        sum(text, bytes, code, m, deep + 1);
        expect(text, bytes, m, b')');
        return;
    }
    if first < kind::AND {
        timer(text, bytes, code, m, first, deep);
        return;
    }
    latch(text, bytes, code, m, first, deep);
}

// sum,sum) after SR( or RS(
#[cycle(factor_latch_product_products_sum_sums_timer)]
fn latch(
    text: &[u8; 1024],
    bytes: usize,
    code: &mut [u64; 32],
    m: &mut Mark,
    part: u64,
    deep: usize,
)
    requires { Begun text.now bytes code.old m.old (deep + 1) }
    ensures { Left (LatchRead (lent text.now bytes) part deep) m.old
        code.old code.new m.new }
{
    sum(text, bytes, code, m, deep + 1);
    expect(text, bytes, m, b',');
    sum(text, bytes, code, m, deep + 1);
    expect(text, bytes, m, b')');
    put(code, m, part, deep, 0);
}

// length,sum) after TON(, TOF( or TP(
#[cycle(factor_latch_product_products_sum_sums_timer)]
fn timer(
    text: &[u8; 1024],
    bytes: usize,
    code: &mut [u64; 32],
    m: &mut Mark,
    part: u64,
    deep: usize,
)
    requires { (Begun text.now bytes code.old m.old (deep + 1)) × (part < 16) }
    ensures { Left (TimerRead (lent text.now bytes) part deep) m.old
        code.old code.new m.new }
{
    let n = pass_length(text, bytes, m);
    expect(text, bytes, m, b',');
    sum(text, bytes, code, m, deep + 1);
    expect(text, bytes, m, b')');
    put(code, m, n as u64 * 16 + part, deep, n);
}
