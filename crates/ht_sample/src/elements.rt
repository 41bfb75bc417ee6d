//! The three elements.
ghost use Rattle.std.specs.Prelude.{◌≡◌, ◌<◌, length, All, IfOk};
ghost use Rattle.ht_pair.specs.Actions.{IsCanonicalFor};
ghost use Rattle.ht_pair.specs.declared.fault.RowsFault.TheVariants as rows_fault;
ghost use Rattle.ht_sample.specs.Groups.{rows_between, sample_rows};
ghost use Rattle.ht_sample.specs.Samples.{read_at, IsSampleBasis, IsSmallPair, IsSample};

use crate::draws::Draws;
use crate::groups::{add_row, rows_of_groups};
use crate::growth::grown;
use crate::order::shuffled_places;
use ht_pair::{Element, Rows, RowsFault};
use ht_word::{NoMemory, Shape, Word, Words};
use std::alloc::Global;

/// Elements of G(2, 1), of which h conjugates a into c: c is the inverse of h, then a, then h.
#[derive(Debug, Drop)]
pub struct SampleElements {
    pub a: Element,
    pub h: Element,
    pub c: Element,
}

/// The sample of a number: always the same three elements, of at most 8,000 rows and 65 letters.
/// Makes two bases of 4,000 words by 3,999 expansions each, every one a search from a place and a
/// splice; then sorts the rows of each element by O(N log N) comparisons of words. Fails for want of
/// memory alone.
pub fn sample(alloc: Global, number: u64) -> Result<SampleElements, NoMemory>
    ensures { IfOk result (λ s. IsSample number s.a s.h s.c) }
{
    let Ok(shape) = Shape::new(2, 1) else {
        unreachable!()
    };
    let mut draws = Draws { state: number };
    let first = grown(alloc, shape, &mut draws)?;
    let second = grown(alloc, shape, &mut draws)?;
    let order = shuffled_places(alloc, &mut draws)?;
    let images = words_at(alloc, second.words().as_slice(), order.as_slice())?;
    elements(alloc, shape, first.words().as_slice(), images.as_slice())
}

// The elements of the words and their images.
fn elements(
    alloc: Global,
    shape: Shape,
    words: &[Word],
    images: &[Word],
) -> Result<SampleElements, NoMemory>
    requires letters { shape.n ≡ 2 }
    requires words { IsSampleBasis shape words.now }
    requires images { IsSampleBasis shape images.now }
    ensures shapes { IfOk result (λ s. (s.a.shape ≡ shape) × (s.h.shape ≡ shape) × (s.c.shape ≡ shape)) }
    ensures a { IfOk result (λ s. IsCanonicalFor shape s.a.rows (sample_rows words.now)) }
    ensures h { IfOk result (λ s. IsCanonicalFor shape s.h.rows (rows_between words.now images.now)) }
    ensures c { IfOk result (λ s. IsCanonicalFor shape s.c.rows (sample_rows images.now)) }
{
    let a = element(alloc, shape, rows_of_groups(alloc, words)?)?;
    let h = element(alloc, shape, rows_from_to(alloc, words, images)?)?;
    let c = element(alloc, shape, rows_of_groups(alloc, images)?)?;
    Ok(SampleElements { a, h, c })
}

// The words at the places.
fn words_at(alloc: Global, words: &[Word], places: &[usize]) -> Result<Words, NoMemory>
    requires { All (λ place. place < length words.now) places.now }
    ensures { IfOk result (λ read. read ≡ read_at words.now places.now) }
{
    let mut read = Words::new(alloc);
    for place in places {
        read.push(words[*place].copy(alloc)?)?;
    }
    Ok(read)
}

// The rows from the words to other words, place by place.
fn rows_from_to(alloc: Global, from: &[Word], to: &[Word]) -> Result<Rows, NoMemory>
    requires { length from.now ≡ length to.now }
    ensures { IfOk result (λ rows. rows ≡ rows_between from.now to.now) }
{
    let mut rows = Rows::new(alloc);
    for (place, word) in from.iter().enumerate() {
        add_row(alloc, &mut rows, word, &to[place])?;
    }
    Ok(rows)
}

// The element of the rows, which are a pair and not large.
fn element(alloc: Global, shape: Shape, rows: Rows) -> Result<Element, NoMemory>
    requires { IsSmallPair shape rows }
    ensures { IfOk result (λ element. (element.shape ≡ shape) × IsCanonicalFor shape element.rows rows) }
{
    match Element::of_rows(alloc, shape, rows) {
        Ok(element) => Ok(element),
        Err(fault) => Err(want_of_memory(fault)),
    }
}

// The want of memory that the fault is.
fn want_of_memory(fault: RowsFault) -> NoMemory
    requires { fault ≡ rows_fault.NoMemory }
{
    let RowsFault::NoMemory = fault else {
        unreachable!()
    };
    NoMemory
}
