//! The kinds of the words of a basis, told from where the steps of an element and of its inverse lead.
ghost use Rattle.std.specs.Prelude.{◌≡◌, ◌≢◌, ◌<◌, ◌^◌, [], ℕ, pos, neg_ℤ, length, All, map, zip, IfOk};
ghost use Rattle.ht_pair.specs.SemiNormal.{IsQuasinormal};
ghost use Rattle.ht_types.specs.declared.course.Course.{Course};
ghost use Rattle.ht_types.specs.declared.course.Course.TheVariants as course;
ghost use Rattle.ht_types.specs.TypedElements.{HasShortReaches};
ghost use Rattle.ht_types.specs.WordKinds.{AreKinds};
ghost use Rattle.ht_types.specs.WordSteps.{AreSteps, ReturnsToo, reach_of, turned_kind, told_kind};

use crate::course::{Course, Courses, courses};
use crate::kind::{Kind, Kinds, Reach};
use crate::step::Step;
use ht_pair::{Basis, Element};
use ht_word::NoMemory;
use std::alloc::Global;

// The kinds of the words of the quasinormal basis, from the steps of the element and of its inverse. One
// pass over the steps.
pub(crate) fn kinds_of(
    alloc: Global,
    a: &Element,
    basis: &Basis,
    ahead: &[Step],
    behind: &[Step],
) -> Result<Kinds, NoMemory>
    requires basis { IsQuasinormal a.now.shape a.now.rows basis.now.words }
    requires few { length basis.now.words < 2 ^ 121 }
    requires ahead { AreSteps a.now.shape a.now.rows basis.now.words (pos 1) ahead.now }
    requires behind { AreSteps a.now.shape a.now.rows basis.now.words (neg_ℤ (pos 1)) behind.now }
    ensures kinds { IfOk result (AreKinds a.now.shape a.now.rows basis.now.words) }
    ensures short { IfOk result (All HasShortReaches) }
{
    a.keeps_limits();
    let ahead = courses(alloc, ahead)?;
    let behind = courses(alloc, behind)?;
    told_kinds(alloc, ahead, behind)
}

// The kinds that the courses tell. One pass; nothing is copied.
fn told_kinds(alloc: Global, ahead: Courses, behind: Courses) -> Result<Kinds, NoMemory>
    requires { All (λ p. ReturnsToo p.0 p.1) (zip ahead behind) }
    ensures { IfOk result (λ kinds. kinds ≡ map (λ p. told_kind p.0 p.1) (zip ahead behind)) }
{
    let mut kinds = Kinds::new(alloc);
    for (ahead, behind) in ahead.into_vec().into_iter().zip(behind.into_vec()) {
        kinds.push(kind_of(ahead, behind))?;
    }
    Ok(kinds)
}

// The kind of a word by where its steps ahead and back lead.
fn kind_of(ahead: Course, behind: Course) -> Kind
    requires { ReturnsToo ahead behind }
    ensures { result ≡ told_kind ahead behind }
{
    match ahead {
        Course::Returns { m, by } if by.len() == 0 => Kind::Cycle { m },
        Course::Returns { m, by } => Kind::Attractor { m, by },
        Course::Joins(reach) => kind_behind(Some(reach), behind),
        Course::Ends => kind_behind(None, behind),
    }
}

// The same where no steps ahead lead back to the word, so that none back lead to the word itself.
fn kind_behind(ahead: Option<Reach>, behind: Course) -> Kind
    requires { (m : ℕ) → behind ≢ course.Returns m [] }
    ensures { (course : Course) → reach_of course ≡ ahead → result ≡ turned_kind course behind }
{
    match behind {
        Course::Returns { by, .. } if by.len() == 0 => unreachable!(),
        Course::Returns { m, by } => Kind::Repeller { m, by },
        Course::Joins(reach) => Kind::Passing {
            ahead,
            behind: Some(reach),
        },
        Course::Ends => Kind::Passing {
            ahead,
            behind: None,
        },
    }
}
