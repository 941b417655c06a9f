//! Where a body saves its variables.

ghost use Rattle.std.specs.Prelude.{◌≡◌, ◌≤◌, ◌*◌, true, IsTrue, IfOk};
ghost use Rattle.sch_control.specs.flow.Bare.{unsaved};
ghost use Rattle.sch_control.specs.flow.Middle.{listed};
ghost use Rattle.sch_paths.specs.Exact.{LazySaves};
ghost use Rattle.sch_paths.specs.Regions.{regions_stand};
ghost use Rattle.sch_saves.specs.LazyRegions as lazily;
ghost use Rattle.sch_paths.specs.EachLiveSaved.{EachLiveSaved};
ghost use Rattle.sch_paths.specs.PlainlySame.{PlainlySame};
ghost use Rattle.sch_saves.specs.Promises.{EachSaveFollowed};

use crate::needs::{surround, with_needs};
use crate::outermost::keep_outermost;
use crate::variables::{Variables, first_variables};
use sch_control::{Exp, LiveBody, SavedBody};
use sch_sets::Set;
use sch_word::Mem;
use std::alloc::Global;

fn lazily_saved<const N: usize>(
    alloc: Global,
    count: u32,
    e: &Exp<Set<N>>,
) -> Result<Box<Exp<Set<N>>>, Mem>
    requires fits { count ≤ 64 * N }
    ensures { IfOk result (λ r. listed r.value ≡ lazily.lazily_saved count (listed e.now)) }
{
    let all = first_variables(count);
    let variables = Variables { count, all: &all };
    let mut on_true = Set::new();
    let mut on_false = Set::new();
    let marked = with_needs(alloc, &variables, e, &mut on_true, &mut on_false)?;
    let mut whole = surround(alloc, &variables, &on_true, &on_false, marked)?;
    keep_outermost(alloc, &mut whole, &Set::new())?;
    Ok(whole)
}

/// The body with regions that save, each round the body or an arm of a test: of what each path through it has a call
/// after which it is live, without what a region round it saves. The live sets stay.
pub fn place_saves<'a, const N: usize>(
    alloc: Global,
    b: &LiveBody<'a, N>,
) -> Result<SavedBody<'a, N>, Mem>
    ensures body { IfOk result (λ r. r.body.now ≡ b.now.body.now) }
    ensures same { IfOk result (λ r. unsaved (listed r.exp) ≡ listed b.now.exp) }
    ensures made { IfOk result (λ r. listed r.exp ≡ lazily.lazily_saved b.now.body.now.variables (listed b.now.exp)) }
    ensures lazy { IfOk result (λ r. LazySaves (listed r.exp)) }
    ensures stand { IfOk result (λ r. IsTrue (regions_stand true (listed r.exp))) }
    ensures saved { IfOk result (λ r. EachLiveSaved (listed r.exp)) }
    ensures followed { IfOk result (λ r. EachSaveFollowed (listed r.exp)) }
    ensures meaning { IfOk result (λ r. PlainlySame (listed b.now.exp) (listed r.exp)) }
{
    let exp = lazily_saved(alloc, b.body.variables, &b.exp)?;
    Ok(SavedBody {
        body: b.body,
        exp: Box::into_inner(exp),
    })
}
