//! Sequences of transitions (IEEE 1800-2017, 19.5.2).
ghost use Rattle.std.specs.Prelude.{◌≡◌, List, [], ◌∷◌, refl, IfOk};
ghost use Rattle.cov_lexer.specs.declared.kind.Kind.TheVariants.{Comma, FatArrow};
ghost use Rattle.cov_grammar.specs.Parses.{Parses};
ghost use Rattle.cov_grammar.specs.Expressions.{snoc};
ghost use Rattle.cov_tree.specs.declared.bins.Step.{Step};
ghost use Rattle.cov_grammar.specs.Bins.{step, seq, seqs, high_or, times_or_once, times_of};
ghost use Rattle.cov_grammar.proofs.BinsLaws.{seq_lawful, step_lawful};
ghost use Rattle.token_reader.specs.Reading.{over};
ghost use Rattle.item_parser.specs.Parts.{maybe_repetition, steps};

use cov_grammar::{Kind, Place, Room, Standing, Stop};
use cov_tree::{Expr, List, Memory, Shared, Step, Times};
use range_parser::{elems, expr_behind, whole_expr};
use std::alloc::Global;
use token_reader::{Held, Item, Reader, put_last};

/// Sequences of transitions, with commas between them.
#[derive(Drop)]
struct SequenceList;

impl Item for SequenceList {
    type Tree = List<Step>;

    ghost Written = { List Step };

    ghost rule = { λ _. seq };

    ghost put = { snoc };

    ghost separators = { Comma ∷ [] };

    fn separators(&self) -> &'static [Kind] {
        &[Kind::Comma]
    }

    #[tactic(auto, using(token_reader::proofs::Chains::put_parses))]
    fn read(
        &self,
        reader: Reader<'_>,
        place: Place,
        room: Room,
        list: &mut List<List<Step>>,
    ) -> Result<Place, Stop> {
        put_last(list, sequence(reader, place, room))
    }

    ghost separable = { λ _ text ts. record { lawful = seq_lawful text ts; apart = refl } };
}

/// Steps of a sequence, with `=>` between them.
#[derive(Drop)]
struct StepList;

impl Item for StepList {
    type Tree = Step;

    ghost Written = { Step };

    ghost rule = { λ _. step };

    ghost put = { snoc };

    ghost separators = { FatArrow ∷ [] };

    fn separators(&self) -> &'static [Kind] {
        &[Kind::FatArrow]
    }

    #[tactic(auto, using(token_reader::proofs::Chains::put_parses))]
    fn read(
        &self,
        reader: Reader<'_>,
        place: Place,
        room: Room,
        list: &mut List<Step>,
    ) -> Result<Place, Stop> {
        put_last(list, step(reader, place, room))
    }

    ghost separable = { λ _ text ts. record { lawful = step_lawful text ts; apart = refl } };
}

/// Sequences with commas between them.
#[tactic(auto, unfolding(cov_grammar::specs::Bins::seqs))]
pub(crate) fn sequences(
    reader: Reader<'_>,
    place: Place,
    room: Room,
) -> Result<(List<List<Step>>, Place), Stop>
    ensures { Parses (over reader.entry seqs) room place result }
{
    reader.list(place, room, &SequenceList)
}

/// Steps in parentheses.
fn sequence(reader: Reader<'_>, place: Place, room: Room) -> Result<(Held<List<Step>>, Place), Stop>
    ensures { Parses (over reader.entry seq) room place result }
{
    let (_, next) = reader.word(place, Kind::OpenParen)?;
    let (steps, at) = steps(reader, next, room)?;
    let (_, after) = reader.word(at, Kind::CloseParen)?;
    Ok((Held::of(steps), after))
}

/// Steps with `=>` between them.
fn steps(reader: Reader<'_>, place: Place, room: Room) -> Result<(List<Step>, Place), Stop>
    ensures { Parses (over reader.entry steps) room place result }
{
    reader.list(place, room, &StepList)
}

/// Values, and how often they follow one another.
fn step(reader: Reader<'_>, place: Place, room: Room) -> Result<(Held<Step>, Place), Stop>
    ensures { Parses (over reader.entry step) room place result }
{
    let start = reader.start_at(place.at);
    let (elems, at) = elems(reader, place, room, Standing::StepEnd)?;
    let (repeated, after) = repetition(reader, at, room)?;
    let times = times_or_once(repeated);
    let at = start;
    Ok((Held::of(Step { elems, times, at }), after))
}

/// A repetition, or nothing.
fn repetition(
    reader: Reader<'_>,
    place: Place,
    room: Room,
) -> Result<(Held<Option<Times>>, Place), Stop>
    ensures { Parses (over reader.entry maybe_repetition) room place result }
{
    let Some((_, next)) = reader.take(place, &[Kind::OpenSquare]) else {
        return Ok((Held::of(None), place));
    };
    let Some((way, ends)) = reader.take(next, &[Kind::Star, Kind::ThinArrow, Kind::Assign]) else {
        return Err(Stop::Syntax(next.at));
    };
    let (low, at) = whole_expr(reader, ends, room, Standing::Plain)?;
    let (second, at) = expr_behind(reader, Kind::Colon, at, room)?;
    let (_, after) = reader.word(at, Kind::CloseSquare)?;
    let times = times_of(reader.alloc, way.kind, low, second)?;
    Ok((Held::of(Some(times)), after))
}

fn times_or_once(repeated: Held<Option<Times>>) -> Times
    ensures { result ≡ times_or_once repeated }
{
    match repeated.put() {
        None => Times::Once,
        Some(times) => times,
    }
}

/// A repetition of these ends; a single one is both, and stands in the tree once.
fn times_of(
    alloc: Global,
    way: Kind,
    low: Held<Expr>,
    second: Held<Option<Expr>>,
) -> Result<Times, Memory>
    ensures { IfOk result (λ times. times ≡ times_of way low (high_or low second)) }
{
    let low = Shared::of(alloc, low.put())?;
    let high = match second.put() {
        Some(high) => Shared::of(alloc, high)?,
        None => low.share()?,
    };
    Ok(match way {
        Kind::Star => Times::Consec { low, high },
        Kind::ThinArrow => Times::Goto { low, high },
        _ => Times::NonConsec { low, high },
    })
}
