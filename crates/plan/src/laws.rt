//! Theorems about planning that no call of `ManagedPlan::new` promises, each the contract of a
//! function; nothing runs here.
ghost use Rattle.plan.specs.Plans.{FrontPartsFit, EndsIffNoneFits};

/// The lists of an accepted plan are long enough for each front part.
pub fn front_parts_fit()
    ensures { FrontPartsFit }
{}

/// The answer is 12 at an object exactly if the tests before it pass, and neither the current block
/// nor any direct slot at or after its end fits the object.
pub fn heap_ends_where_none_fits()
    ensures { EndsIffNoneFits }
{}
