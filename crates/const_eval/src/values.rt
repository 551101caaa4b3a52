//! Values of bound expressions.
ghost use Rattle.std.specs.Prelude.{◌≡◌, ◌≤◌, ◌<◌, ◌+◌, ◌*◌, ◌/◌, ◌%◌, ◌^◌, pos, Some};
ghost use Rattle.cov_ground.specs.Limits.{most_bits};
ghost use Rattle.cov_base.specs.Sets.{IsInt};
ghost use Rattle.const_eval.specs.Terms.{typ_in, typ_of as typ_of_term};
ghost use Rattle.const_eval.specs.Nodes.{term_of, IsTyped, IsWithin};
ghost use Rattle.const_eval.specs.Values.{given, value_in, value_of, value, on_known, single, cut as cut_of, bits_of};

use crate::bits::{cut, cut_to, low_bits};
use crate::bound::{Node, Typed};
use crate::operations::{combine, decide, is_zero, operate_alone, put};
use crate::typs::{either_typ, operand_typs};
use crate::{Bound, ITEM, Meaning, Typ};
use bit_width::Width;
use cov_base::Int;
use cov_tree::UnOp;

/// The values of the signals by their places, and that of `item`.
#[derive(Drop)]
pub(crate) struct Sample<'a> {
    pub(crate) signals: &'a [Option<Int>],
    pub(crate) item: Option<Int>,
}

/// The type of the expression.
pub fn typ(bound: &Bound) -> Typ
    ensures { result ≡ typ_of_term bound.now }
{
    bound.typed.get().own_typ()
}

/// The value of the expression, or None where it is unknown. `signals` are the values of the signals by their places; a
/// signal whose place is beyond the slice counts as unknown. It takes no memory, and a name alone is read where the call
/// stands.
#[inline(always)]
pub fn eval(bound: &Bound, signals: &[Option<Int>], item: Option<Int>) -> Option<Int>
    ensures { result ≡ value bound.now signals.now item }
{
    let typed = bound.typed.get();
    match &typed.node {
        Node::Name { meaning, .. } => value_alone(meaning, signals, &item),
        _ => typed.value_of_whole(signals, item),
    }
}

impl Typed {
    /// The value of the expression, which stands by itself.
    #[inline(never)]
    fn value_of_whole(&self, signals: &[Option<Int>], item: Option<Int>) -> Option<Int>
        requires { IsTyped self.now }
        ensures { result ≡ value (term_of self.now) signals.now item }
    {
        let sample = Sample { signals, item };
        let mut out = 0;
        if self.value(self.own_typ(), &sample, &mut out) {
            Int::new(out)
        } else {
            None
        }
    }
}

impl Typed {
    /// The type, which is kept beside the expression.
    #[inline(always)]
    #[tactic(auto, using(crate::proofs::Nodes::has_typ))]
    pub(crate) fn own_typ(&self) -> Typ
        requires { IsTyped self.now }
        ensures value { result ≡ typ_of_term (term_of self.now) }
        ensures kept { result ≡ self.now.typ }
    {
        self.typ
    }

    /// Puts the value into `out`, where the type `whole` is handed down, and answers whether there is one.
    fn value(&self, whole: Typ, sample: &Sample<'_>, out: &mut i128) -> bool
        requires sound { IsTyped self.now }
        requires before { IsInt out.old }
        ensures value { given result out.new ≡ value_of (term_of self.now) sample.now.signals.now sample.now.item whole }
        ensures range { IsInt out.new }
    {
        match &self.node {
            Node::Number { bits } => put(
                out,
                cut(self.own_typ().width(), whole.is_signed(), i128::from(*bits)),
            ),
            Node::Name { meaning, .. } => value_in_whole(
                self.own_typ().width(),
                whole.is_signed(),
                meaning,
                sample,
                out,
            ),
            Node::Part { meaning, skip, .. } => part_value(
                meaning,
                *skip,
                self.own_typ().width(),
                sample,
                out,
            ),
            Node::Alone(inner) => {
                let own = inner.own_typ();
                inner.value(own, sample, out) && keep_bits(own.width(), out)
            }
            Node::Joined(front, last) => {
                let (front_typ, last_typ) = (front.own_typ(), last.own_typ());
                let mut right = 0;
                front.value(front_typ, sample, out)
                    && last.value(last_typ, sample, &mut right)
                    && join(front_typ.width(), last_typ.width(), right, out)
            }
            Node::Unary(op, inner) => {
                let own = inner.own_typ();
                inner.value(either_typ(*op, whole, own), sample, out)
                    && apply(*op, whole, own.width(), out)
            }
            Node::Binary(op, left, right) => {
                let (left_typ, right_typ) = (left.own_typ(), right.own_typ());
                let (first, second) = operand_typs(*op, whole, left_typ, right_typ);
                let left_known = left.value(first, sample, out);
                if decide(*op, left_known, out) {
                    return true;
                }
                let mut y = 0;
                let right_known = right.value(second, sample, &mut y);
                combine(*op, whole, right_typ, left_known, right_known, y, out)
            }
            Node::Cond(test, first, second) => {
                if !test.value(test.own_typ(), sample, out) {
                    return false;
                }
                if is_zero(*out) {
                    second.value(whole, sample, out)
                } else {
                    first.value(whole, sample, out)
                }
            }
        }
    }
}

/// Puts a value that may be missing into `out`, and answers whether there is one.
#[inline(always)]
fn put_known(found: Option<Int>, out: &mut i128) -> bool
    requires { IsInt out.old }
    ensures value { given result out.new ≡ found }
    ensures range { IsInt out.new }
{
    match found {
        Some(number) => put(out, number.get()),
        None => false,
    }
}

/// The value of a name.
#[inline(always)]
fn value_of_name(meaning: &Meaning, signals: &[Option<Int>], item: &Option<Int>) -> Option<Int>
    ensures { result ≡ value_in meaning.now signals.now item.now }
{
    match meaning {
        Meaning::Const { value, .. } => Some(*value),
        Meaning::Signal { index, .. } => {
            if *index == ITEM {
                return *item;
            }
            match signals.get(*index as usize) {
                Some(found) => *found,
                None => None,
            }
        }
    }
}

/// The value of a name that stands by itself, whose bits are read by its own sign.
#[inline(always)]
fn value_alone(meaning: &Meaning, signals: &[Option<Int>], item: &Option<Int>) -> Option<Int>
    ensures { result ≡ on_known (cut_of (typ_in meaning.now).width (typ_in meaning.now).signed) (value_in meaning.now signals.now item.now) }
{
    match value_of_name(meaning, signals, item) {
        Some(number) => Some(cut_to(meaning.typ(), number)),
        None => None,
    }
}

/// Puts the value of a name into `out`.
#[inline(always)]
fn put_name(meaning: &Meaning, sample: &Sample<'_>, out: &mut i128) -> bool
    requires { IsInt out.old }
    ensures value { given result out.new ≡ value_in meaning.now sample.now.signals.now sample.now.item }
    ensures range { IsInt out.new }
{
    put_known(value_of_name(meaning, sample.signals, &sample.item), out)
}

/// Puts the value of a name into `out`, its bits read by the sign of the whole.
#[inline(always)]
fn value_in_whole(
    width: Width,
    signed: bool,
    meaning: &Meaning,
    sample: &Sample<'_>,
    out: &mut i128,
) -> bool
    requires before { IsInt out.old }
    ensures value { given result out.new ≡ on_known (cut_of width signed) (value_in meaning.now sample.now.signals.now sample.now.item) }
    ensures range { IsInt out.new }
{
    if !put_name(meaning, sample, out) {
        return false;
    }
    let number = *out;
    put(out, cut(width, signed, number))
}

/// The bits from bit `skip` on of a number of so many bits.
#[inline(always)]
fn bits_from(own: Width, skip: u8, width: Width, number: i128) -> i128
    requires { skip + width ≤ own }
    ensures value { result ≡ pos (bits_of own number / 2 ^ skip % 2 ^ width) }
    ensures range { IsInt result }
{
    let bits = low_bits(own, number) >> skip;
    i128::from(low_bits(width, i128::from(bits)))
}

/// Bits before other bits.
#[inline(always)]
fn beside(front: Width, last: Width, left: u64, right: u64) -> u64
    requires most { front + last ≤ most_bits }
    requires left_below { left < 2 ^ front }
    requires right_below { right < 2 ^ last }
    ensures { result ≡ left * 2 ^ last + right }
{
    (left << last.get()) + right
}

/// The bits of `front` before those of `last`.
#[inline(always)]
fn joined(front: Width, last: Width, x: i128, y: i128) -> i128
    requires most { front + last ≤ most_bits }
    ensures value { result ≡ pos (bits_of front x * 2 ^ last + bits_of last y) }
    ensures range { IsInt result }
{
    i128::from(beside(front, last, low_bits(front, x), low_bits(last, y)))
}

/// Puts the value of an operator before the operand in `out` there.
#[inline(always)]
fn apply(op: UnOp, whole: Typ, own: Width, out: &mut i128) -> bool
    requires before { IsInt out.old }
    ensures value { given result out.new ≡ Some (single op whole own out.old) }
    ensures range { IsInt out.new }
{
    let x = *out;
    put(out, operate_alone(op, whole, own, x))
}

/// Puts the bits of the number in `out` there.
#[inline(always)]
fn keep_bits(width: Width, out: &mut i128) -> bool
    ensures value { given result out.new ≡ Some (pos (bits_of width out.old)) }
    ensures range { IsInt out.new }
{
    let x = *out;
    put(out, i128::from(low_bits(width, x)))
}

/// Puts the bits of the number in `out` there, with those of `y` behind them.
#[inline(always)]
fn join(front: Width, last: Width, y: i128, out: &mut i128) -> bool
    requires most { front + last ≤ most_bits }
    ensures value { given result out.new ≡ Some (pos (bits_of front out.old * 2 ^ last + bits_of last y)) }
    ensures range { IsInt out.new }
{
    let x = *out;
    put(out, joined(front, last, x, y))
}

/// Puts bits of the value of a name into `out`.
#[inline(always)]
fn part_value(
    meaning: &Meaning,
    skip: u8,
    width: Width,
    sample: &Sample<'_>,
    out: &mut i128,
) -> bool
    requires within { IsWithin (typ_in meaning.now) skip width }
    requires before { IsInt out.old }
    ensures value { given result out.new ≡ on_known (λ x. pos (bits_of (typ_in meaning.now).width x / 2 ^ skip % 2 ^ width)) (value_in meaning.now sample.now.signals.now sample.now.item) }
    ensures range { IsInt out.new }
{
    let own = meaning.typ().width();
    if !put_name(meaning, sample, out) {
        return false;
    }
    let number = *out;
    put(out, bits_from(own, skip, width, number))
}
