//! What stands round an expression.

ghost use Rattle.std.specs.Prelude.{◌≡◌, ◌≤◌, ◌*◌};

use sch_sets::Set;

/// How many variables a body has, which of them the regions round an expression save, and which are wanted behind the
/// expression before the next call: where its value counts as true, and where it is `#f`.
#[derive(Clone, Copy)]
pub(crate) struct Around<'r, 'b, const N: usize> {
    pub count: u32,
    pub inside: &'r Set<N>,
    pub on_true: &'b Set<N>,
    pub on_false: &'b Set<N>,
    ghost fits: { count ≤ 64 * N },
}

impl<'r, 'b, const N: usize> Around<'r, 'b, N> {
    /// The same with other sets of what is wanted behind.
    pub fn with_behind<'c>(&self, on_true: &'c Set<N>, on_false: &'c Set<N>) -> Around<'r, 'c, N>
        ensures count { result.count ≡ self.now.count }
        ensures inside { result.inside.now ≡ self.now.inside.now }
        ensures on_true { result.on_true.now ≡ on_true.now }
        ensures on_false { result.on_false.now ≡ on_false.now }
    {
        Around {
            count: self.count,
            inside: self.inside,
            on_true,
            on_false,
        }
    }

    /// The same in a region that saves these variables too.
    pub fn within<'c>(&self, inside: &'c Set<N>) -> Around<'c, 'b, N>
        ensures count { result.count ≡ self.now.count }
        ensures inside { result.inside.now ≡ inside.now }
        ensures on_true { result.on_true.now ≡ self.now.on_true.now }
        ensures on_false { result.on_false.now ≡ self.now.on_false.now }
    {
        Around {
            count: self.count,
            inside,
            on_true: self.on_true,
            on_false: self.on_false,
        }
    }
}
