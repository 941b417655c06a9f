//! Fixnums: the integers of a program, with exact arithmetic.

ghost use Rattle.std.specs.Prelude.{◌≡◌, ℤ, ◌+ℤ◌, ◌-ℤ◌, ◌*ℤ◌, SomeIff};
ghost use Rattle.sch_word.specs.values.Fixnum.{IsFixnum};

use std::marker::Model;

/// The least fixnum, -2^60. This constant and the next are the only place of the range.
pub const FIXNUM_MIN: i64 = -1_152_921_504_606_846_976;

/// The greatest fixnum, 2^60 - 1.
pub const FIXNUM_MAX: i64 = 1_152_921_504_606_846_975;

/// An integer from `FIXNUM_MIN` to `FIXNUM_MAX`, which contracts see as that integer.
///
/// R5RS 6.2.3 lets an implementation bound its exact integers; this range is the project's own.
#[derive(Clone, Copy)]
pub struct Fix {
    value: i64,
}

impl Model for Fix {
    ghost Value = { ℤ };

    ghost view = { λ fix. fix.value };

    ghost invariant = { λ fix. IsFixnum fix.value };

    ghost inverse = { λ z. record { value = z } };
}

impl Fix {
    /// The fixnum of this value, and `None` exactly where there is none.
    pub fn new(n: i128) -> Option<Fix>
        ensures { SomeIff result (IsFixnum n) n }
    {
        if FIXNUM_MIN as i128 <= n && n <= FIXNUM_MAX as i128 {
            Some(Fix { value: n as i64 })
        } else {
            None
        }
    }

    /// The value of the fixnum.
    pub fn get(self) -> i64
        ensures value { result ≡ self }
        ensures in_range { IsFixnum result }
    {
        self.value
    }
}

/// The sum, and `None` exactly where it is no fixnum.
pub fn fix_add(a: Fix, b: Fix) -> Option<Fix>
    ensures { SomeIff result (IsFixnum (a +ℤ b)) (a +ℤ b) }
{
    Fix::new(a.get() as i128 + b.get() as i128)
}

/// The difference, and `None` exactly where it is no fixnum.
pub fn fix_sub(a: Fix, b: Fix) -> Option<Fix>
    ensures { SomeIff result (IsFixnum (a -ℤ b)) (a -ℤ b) }
{
    Fix::new(a.get() as i128 - b.get() as i128)
}

/// The product, and `None` exactly where it is no fixnum.
pub fn fix_mul(a: Fix, b: Fix) -> Option<Fix>
    ensures { SomeIff result (IsFixnum (a *ℤ b)) (a *ℤ b) }
{
    let product = a.get().checked_mul(b.get())?;
    Fix::new(product as i128)
}
