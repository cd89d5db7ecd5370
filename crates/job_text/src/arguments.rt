//! The words behind a key word, read as numbers, types, spaces, shapes and words.
ghost use Rattle.std.specs.Prelude.{◌≡◌, ◌<◌, ◌≤◌, IsTrue, IfOk, All, length};
ghost use Rattle.std.specs.List.{list_all};
ghost use Rattle.crystal_cartan.specs.Types.{HasIndex};
ghost use Rattle.tensor_words.specs.Spaces.{IsSpace, size};
ghost use Rattle.tableau_reading.specs.Shapes.{IsShape};
ghost use Rattle.text_pieces.specs.Pieces.{words};
ghost use Rattle.text_pieces.specs.Numbers.{all_some};
ghost use Rattle.job_text.specs.declared.commands.Ask.TheVariants as ask;
ghost use Rattle.job_text.specs.Jobs.{IsAsk};
ghost use Rattle.job_text.specs.Outcomes.{Gives};
ghost use Rattle.job_text.specs.Judge as spec;

use crate::commands::Indices;
use crate::faults::{JobWhy, Stop};
use crystal_cartan::{Cartan, Kind};
use list_facts::Listed;
use std::alloc::{AllocError, Global};
use tableau_reading::{Shape, read_word};
use tensor_words::{Factor, Order, Space};
use text_pieces::{behind, first, first_word, number_of};

/// Numbers below 10^9.
pub(crate) type Numbers = Listed<u32>;

/// Factors of a space.
type Factors = Listed<Factor>;

/// The number that a word is.
pub(crate) fn number_read(word: &[u8]) -> Result<u32, Stop>
    ensures { Gives result (spec.number_read word.now) }
{
    match number_of(word) {
        Some(number) => Ok(number),
        None => Err(Stop::Why(JobWhy::BadNumber)),
    }
}

/// The numbers that the words of a text are.
pub(crate) fn all_numbered(alloc: Global, text: &[u8]) -> Result<Numbers, Stop>
    ensures given { Gives result (spec.all_numbered (words text.now)) }
    ensures count { IfOk result (λ numbers. length numbers ≡ length (words text.now)) }
{
    let mut numbers = Numbers::of(Vec::new(alloc));
    let mut rest = text;
    'words: while let Some((word, next)) = first_word(rest) {
        let Some(number) = number_of(word) else {
            return Err(Stop::Why(JobWhy::BadNumber));
        };
        numbers.push(number)?;
        rest = next;
    }
    Ok(numbers)
}

/// The index that a word is.
pub(crate) fn indexed(space: &Space, word: &[u8]) -> Result<u8, Stop>
    ensures given { Gives result (spec.indexed space.now word.now) }
    ensures index { IfOk result (HasIndex space.now.cartan) }
{
    let number = number_read(word)?;
    if !is_index(space, number) {
        return Err(Stop::Why(JobWhy::BadIndex));
    }
    Ok(number as u8)
}

/// Whether a number is an index of the space's type.
pub(crate) fn is_index(space: &Space, number: u32) -> bool
    ensures test { result ≡ spec.is_index space.now number }
    ensures small { IsTrue result → number ≤ 8 }
{
    1 <= number && number <= u32::from(space.cartan().rank())
}

/// The indices that one to 64 words are.
pub(crate) fn indices(alloc: Global, space: &Space, text: &[u8]) -> Result<Indices, Stop>
    requires some { 1 ≤ length (words text.now) }
    requires few { length (words text.now) ≤ 64 }
    ensures given { Gives result (spec.all_indexed space.now (words text.now)) }
    ensures indices { IfOk result (λ list. IsAsk space.now (ask.Demazure list)) }
{
    let numbers = all_numbered(alloc, text)?;
    if !are_indices(space, numbers.as_slice()) {
        return Err(Stop::Why(JobWhy::BadIndex));
    }
    Ok(narrowed(alloc, numbers.as_slice())?)
}

/// Whether each number is an index of the space's type.
fn are_indices(space: &Space, numbers: &[u32]) -> bool
    ensures test { result ≡ list_all (spec.is_index space.now) numbers.now }
    ensures indices { IsTrue result → All (HasIndex space.now.cartan) numbers.now }
    ensures small { IsTrue result → All (λ number. number ≤ 8) numbers.now }
{
    let _space = space.cartan();
    numbers.iter().all(|number| is_index(space, *number))
}

/// The indices that numbers are.
fn narrowed(alloc: Global, numbers: &[u32]) -> Result<Indices, AllocError>
    requires { All (λ number. number ≤ 8) numbers.now }
    ensures { IfOk result (λ list. list ≡ numbers.now) }
{
    let mut list = Vec::new(alloc);
    'numbers: for number in numbers {
        list.push(*number as u8)?;
    }
    Ok(Indices::of(list))
}

/// The code of the word that a text is.
pub(crate) fn coded(space: &Space, text: &[u8]) -> Result<u64, Stop>
    ensures given { Gives result (spec.coded space.now (words text.now)) }
    ensures word { IfOk result (λ c. c < size space.now) }
{
    match read_word(space, text) {
        Ok(word) => Ok(space.code_of(&word)),
        Err(_) => Err(Stop::Why(JobWhy::BadWord)),
    }
}

/// The kind that a word names.
fn kind_of(word: &[u8]) -> Option<Kind>
    ensures { result ≡ spec.kind_of word.now }
{
    match word {
        b"A" => Some(Kind::A),
        b"B" => Some(Kind::B),
        b"C" => Some(Kind::C),
        b"D" => Some(Kind::D),
        _ => None,
    }
}

/// The type of this kind and rank, where it is one that is taken.
fn ranked(rank: u32, kind: Kind) -> Option<Cartan>
    ensures { result ≡ spec.ranked rank kind }
{
    let rank = u8::try_from(rank).ok()?;
    Cartan::new(kind, rank).ok()
}

/// The type that a kind and a rank give.
pub(crate) fn typed(text: &[u8]) -> Result<Cartan, Stop>
    ensures { Gives result (spec.typed (words text.now)) }
{
    let rank = number_read(first(behind(text)))?;
    let Some(kind) = kind_of(first(text)) else {
        return Err(Stop::Why(JobWhy::RankRange));
    };
    match ranked(rank, kind) {
        Some(cartan) => Ok(cartan),
        None => Err(Stop::Why(JobWhy::RankRange)),
    }
}

/// The shape whose rows have these lengths, in a tensor order.
pub(crate) fn shaped(
    alloc: Global,
    text: &[u8],
    cartan: Cartan,
    order: Order,
) -> Result<Shape, Stop>
    ensures given { Gives result (spec.shaped order cartan (words text.now)) }
    ensures shape { IfOk result IsShape }
    ensures cartan { IfOk result (λ shape. shape.cartan ≡ cartan) }
    ensures order { IfOk result (λ shape. shape.order ≡ order) }
{
    let rows = all_numbered(alloc, text)?;
    match Shape::new(rows.as_slice(), cartan) {
        Ok(shape) => Ok(shape.ordered(order)),
        Err(_) => Err(Stop::Why(JobWhy::BadShape)),
    }
}

/// The tensor order that a word names.
pub(crate) fn order_named(word: &[u8]) -> Result<Order, Stop>
    ensures { Gives result (spec.found JobWhy.BadSpace (spec.order_named word.now)) }
{
    match word {
        b"standard" => Ok(Order::Standard),
        b"kashiwara" => Ok(Order::Kashiwara),
        _ => Err(Stop::Why(JobWhy::BadSpace)),
    }
}

/// The factor that a word names.
fn factor_of(word: &[u8]) -> Option<Factor>
    ensures { result ≡ spec.factor_of word.now }
{
    match word {
        b"v" => Some(Factor::Vector),
        b"s" => Some(Factor::Spin),
        b"s+" => Some(Factor::SpinPlus),
        b"s-" => Some(Factor::SpinMinus),
        _ => None,
    }
}

/// The factors that the words of a text name.
fn factored(alloc: Global, text: &[u8]) -> Result<Factors, Stop>
    ensures { Gives result (spec.factored (words text.now)) }
{
    let mut factors = Factors::of(Vec::new(alloc));
    let mut rest = text;
    'words: while let Some((word, next)) = first_word(rest) {
        let Some(factor) = factor_of(word) else {
            return Err(Stop::Why(JobWhy::BadSpace));
        };
        factors.push(factor)?;
        rest = next;
    }
    Ok(factors)
}

/// The space whose factors the words of a text name, in a tensor order.
pub(crate) fn space_read(
    alloc: Global,
    text: &[u8],
    cartan: Cartan,
    order: Order,
) -> Result<Space, Stop>
    ensures given { Gives result (spec.space_read order (words text.now) cartan) }
    ensures space { IfOk result IsSpace }
{
    let factors = factored(alloc, text)?;
    match Space::new(cartan, factors.as_slice()) {
        Ok(space) => Ok(space.ordered(order)),
        Err(_) => Err(Stop::Why(JobWhy::BadSpace)),
    }
}
