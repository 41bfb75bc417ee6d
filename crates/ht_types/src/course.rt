//! Where the steps of the words of a basis lead, one after another.
ghost use Rattle.std.specs.Prelude.{◌≡◌, ◌≢◌, ◌-◌, ◌<◌, ◌≤◌, ◌++◌, [], ℕ, List, map, replicate, take, length, slice_get, slice_index, slice_set, Some, IfOk};
ghost use Rattle.ht_types.specs.Courses.{AreInside, Goes, Turns, HasCourse, AreCourses};
ghost use Rattle.ht_types.specs.CourseStates.{AreStates, AreAllKnown, IsNextKnown, IsPathWalked, IsRoundPath, IsPathSettled, StaysTold};
ghost use Rattle.ht_types.specs.declared.step.Step.TheVariants as step;
ghost use Rattle.ht_types.specs.declared.course.State.TheVariants as state;

use crate::kind::Reach;
use crate::step::Step;
use ht_word::{Letters, List, NoMemory};
use std::alloc::Global;

// Where the steps from a word of a basis lead.
#[derive(Debug, Drop)]
pub(crate) enum Course {
    // to a word that splits
    Ends,
    // back to the word: m steps, the first from 1 on, lead to it with these letters behind it
    Returns { m: u64, by: Letters },
    // elsewhere: to this word, the first from which steps lead back to it
    Joins(Reach),
}

// The courses of the words of a basis, in their order.
pub(crate) type Courses = List<Course>;

// What is known of a word while courses are looked for.
#[derive(Debug, Drop)]
enum State {
    // nothing: no walk came to it
    New,
    // the walk that is under way came to it, as the word at this place of its path, counted from 0
    Met(usize),
    // its course
    Known(Course),
}

// As many new words. One pass.
fn new_states(alloc: Global, count: usize) -> Result<Vec<State>, NoMemory>
    ensures { IfOk result (λ states. states.items ≡ replicate count state.New) }
{
    let mut states = Vec::new(alloc);
    for _ in 0..count {
        states.push(State::New)?;
    }
    Ok(states)
}

// Notes what is known of a word now. Constant time.
fn note(states: &mut [State], place: usize, state: State)
    requires { place < length states.old }
    ensures { states.new ≡ slice_set states.old place state }
{
    states[place] = state;
}

// Walks from a new word over new words, which are met then, in the order of the path. Returns where on
// the path the round begins to which the walk came back, and the length of the path where there is
// none: the walk then came to a word that splits, or to one that was known. Constant time for each
// word of the path.
fn walk(
    steps: &[Step],
    states: &mut [State],
    path: &mut Vec<usize>,
    start: usize,
) -> Result<usize, NoMemory>
    requires inside { AreInside steps.now }
    requires start { start < length steps.now }
    requires path { path.old.items ≡ [] }
    requires states { AreStates steps.now [] states.old }
    ensures walked { IfOk result (λ first. IsPathWalked steps.now path.new.items first states.new) }
    ensures told { IfOk result (λ first. StaysTold states.old states.new × (slice_get states.new start ≢ Some state.New)) }
{
    let mut place = start;
    'walk: loop {
        match &states[place] {
            State::New => {}
            State::Met(first) => return Ok(*first),
            State::Known(_) => return Ok(path.len()),
        }
        note(states, place, State::Met(path.len()));
        path.push(place)?;
        let Step::Leads { to, .. } = &steps[place] else {
            return Ok(path.len());
        };
        place = *to;
    }
}

// The letters behind the first word of a round once it is back: those of its last step stand first.
// Each step's letters are copied once.
fn round_letters(
    alloc: Global,
    steps: &[Step],
    path: &[usize],
    first: usize,
) -> Result<Letters, NoMemory>
    requires { IsRoundPath steps.now path.now first (slice_index path.now first) }
    ensures { IfOk result (λ by. Goes steps.now (length path.now - first) (slice_index path.now first) (slice_index path.now first) by) }
{
    let mut by = Letters::new(alloc);
    for i in (first..path.len()).rev() {
        let Step::Leads { rest, .. } = &steps[path[i]] else {
            unreachable!()
        };
        by.extend(rest.as_slice())?;
    }
    Ok(by)
}

// The letters of the next word of a round, from those of a word: the letters of its step, which stand
// last, come to the front. Each letter is copied once.
fn turned(alloc: Global, by: &[u8], rest: &[u8]) -> Result<Letters, NoMemory>
    requires { length rest.now ≤ length by.now }
    ensures { IfOk result (λ letters. (front : List ℕ) → by.now ≡ front ++ rest.now → letters ≡ rest.now ++ front) }
{
    let mut letters = Letters::from_slice(alloc, rest)?;
    letters.extend(&by[..by.len() - rest.len()])?;
    Ok(letters)
}

// Settles the courses of the words of a round, the last ones of the path. Each word costs the letters
// that are written for it.
fn settle_round(
    alloc: Global,
    steps: &[Step],
    states: &mut [State],
    path: &[usize],
    first: usize,
) -> Result<(), NoMemory>
    requires states { AreStates steps.now path.now states.old }
    requires round { IsRoundPath steps.now path.now first (slice_index path.now first) }
    ensures { IfOk result (λ done. IsPathSettled steps.now (take first path.now) states.old states.new) }
{
    let m = (path.len() - first) as u64;
    let mut by = round_letters(alloc, steps, path, first)?;
    for i in first..path.len() {
        let place = path[i];
        let Step::Leads { rest, .. } = &steps[place] else {
            unreachable!()
        };
        let next = turned(alloc, by.as_slice(), rest.as_slice())?;
        note(states, place, State::Known(Course::Returns { m, by }));
        by = next;
    }
    Ok(())
}

// The course of a word from that of the next word, where no steps lead from the word back to it. The
// letters of the course are copied once.
fn before(
    alloc: Global,
    steps: &[Step],
    place: usize,
    to: usize,
    rest: &[u8],
    course: &Course,
) -> Result<Course, NoMemory>
    requires step { slice_get steps.now place ≡ Some (step.Leads to rest.now) }
    requires once { ¬ Turns steps.now place }
    requires course { HasCourse steps.now to course.now }
    ensures { IfOk result (HasCourse steps.now place) }
{
    match course {
        Course::Ends => Ok(Course::Ends),
        Course::Returns { .. } => {
            let rest = Letters::from_slice(alloc, rest)?;
            Ok(Course::Joins(Reach { steps: 1, to, rest }))
        }
        Course::Joins(reach) => {
            let mut behind = Letters::from_slice(alloc, reach.rest.as_slice())?;
            behind.extend(rest)?;
            Ok(Course::Joins(Reach {
                steps: reach.steps + 1,
                to: reach.to,
                rest: behind,
            }))
        }
    }
}

// The course of a word that splits or leads to a known one.
fn course_at(
    alloc: Global,
    steps: &[Step],
    states: &[State],
    place: usize,
) -> Result<Course, NoMemory>
    requires inside { place < length steps.now }
    requires once { ¬ Turns steps.now place }
    requires right { (x : ℕ) (course : Course) → slice_get states.now x ≡ Some (state.Known course) → HasCourse steps.now x course }
    requires next { IsNextKnown steps.now states.now place }
    ensures { IfOk result (HasCourse steps.now place) }
{
    let Step::Leads { to, rest } = &steps[place] else {
        return Ok(Course::Ends);
    };
    let State::Known(course) = &states[*to] else {
        unreachable!()
    };
    before(alloc, steps, place, *to, rest.as_slice(), course)
}

// Settles the courses of the words of a path from its end to its front. Each word costs the letters
// that are written for it.
fn unwind(
    alloc: Global,
    steps: &[Step],
    states: &mut [State],
    path: &mut Vec<usize>,
) -> Result<(), NoMemory>
    requires { IsPathSettled steps.now path.old.items states.old states.old }
    ensures { IfOk result (λ done. IsPathSettled steps.now [] states.old states.new) }
{
    while let Some(place) = path.pop() {
        let course = course_at(alloc, steps, states, place)?;
        note(states, place, State::Known(course));
    }
    Ok(())
}

// Settles the courses of the words of a walk.
fn settle_path(
    alloc: Global,
    steps: &[Step],
    states: &mut [State],
    path: &mut Vec<usize>,
    first: usize,
) -> Result<(), NoMemory>
    requires { IsPathWalked steps.now path.old.items first states.old }
    ensures { IfOk result (λ done. IsPathSettled steps.now [] states.old states.new) }
{
    if first == path.len() {
        return unwind(alloc, steps, states, path);
    }
    settle_round(alloc, steps, states, path, first)?;
    path.truncate(first);
    unwind(alloc, steps, states, path)
}

// Settles the courses of a word, and of the words that its steps lead to.
fn settle_from(
    alloc: Global,
    steps: &[Step],
    states: &mut [State],
    start: usize,
) -> Result<(), NoMemory>
    requires inside { AreInside steps.now }
    requires start { start < length steps.now }
    requires states { AreStates steps.now [] states.old }
    ensures settled { IfOk result (λ done. IsPathSettled steps.now [] states.old states.new) }
    ensures start { IfOk result (λ done. slice_get states.new start ≢ Some state.New) }
{
    let State::New = &states[start] else {
        return Ok(());
    };
    let mut path = Vec::new(alloc);
    let first = walk(steps, states, &mut path, start)?;
    settle_path(alloc, steps, states, &mut path, first)
}

// The courses that are known of all words. Nothing is copied.
fn known_courses(alloc: Global, states: Vec<State>) -> Result<Courses, NoMemory>
    requires { AreAllKnown states.items }
    ensures { IfOk result (λ courses. states.items ≡ map (λ course. state.Known course) courses) }
{
    let mut courses = Courses::new(alloc);
    for state in states {
        let State::Known(course) = state else {
            unreachable!()
        };
        courses.push(course)?;
    }
    Ok(courses)
}

// The courses of all words, by their steps: in time linear in the words and the letters that are
// written. Each word is walked once: a walk stops at a word that an earlier walk or the walk itself
// came to. No letters are written but those of courses, those of the first word of a round twice.
pub(crate) fn courses(alloc: Global, steps: &[Step]) -> Result<Courses, NoMemory>
    requires { AreInside steps.now }
    ensures { IfOk result (AreCourses steps.now) }
{
    let mut states = new_states(alloc, steps.len())?;
    for start in 0..steps.len() {
        settle_from(alloc, steps, &mut states, start)?;
    }
    known_courses(alloc, states)
}
