//! The class of a value, and what values of one class are compared by.

ghost use Rattle.std.specs.Prelude.{◌≡◌};
ghost use Rattle.bson.specs.Lent.{scalar_of};
ghost use Rattle.bson.specs.View.{tree};
ghost use Rattle.value_order.specs.Order.{class, leaf, leaf_cmp, scalar_class, scalar_leaf};
ghost use Rattle.value_order.specs.View.{leaf_of};
ghost use Rattle.value_order.specs.Classes.{kind_class};

use bson::{Kind, RawScalar, Value};
use std::cmp::Ordering;

/// What values of one class that hold no other are compared by, in this order. A class uses some of these, and the
/// others are alike for all its values.
#[derive(Clone, Copy)]
pub(crate) struct Leaf<'a> {
    pub signed: i64,
    pub unsigned: u64,
    pub subtype: u64,
    pub bytes: &'a [u8],
}

impl Leaf<'_> {
    const ALIKE: Leaf<'static> = Leaf {
        signed: 0,
        unsigned: 0,
        subtype: 0,
        bytes: &[],
    };
}

/// The class of the values of a kind.
fn class_of(kind: Kind) -> u8
    ensures { result ≡ kind_class kind }
{
    match kind {
        Kind::MinKey => 0x10,
        Kind::Null => 0x20,
        Kind::Int32 | Kind::Int64 => 0x30,
        Kind::String => 0x40,
        Kind::Document => 0x50,
        Kind::Array => 0x60,
        Kind::Binary => 0x70,
        Kind::ObjectId => 0x80,
        Kind::Bool => 0x90,
        Kind::Date => 0xa0,
        Kind::Timestamp => 0xb0,
        Kind::MaxKey => 0xf0,
    }
}

/// The class of a value, by which values are compared first. Classes ascend as these bytes do; int32 and int64 are
/// of one class. The byte is also the first of the value's key text.
pub fn class(value: &Value) -> u8
    ensures { result ≡ class (tree value.now) }
{
    class_of(value.kind())
}

/// The class of a value that is lent.
pub fn class_of_scalar(scalar: &RawScalar<'_>) -> u8
    ensures { result ≡ scalar_class (scalar_of scalar.now) }
{
    class_of(scalar.kind())
}

pub(crate) fn scalar_parts<'a>(scalar: &RawScalar<'a>) -> Leaf<'a>
    ensures { leaf_of result ≡ scalar_leaf (scalar_of scalar.now) }
{
    let alike = Leaf::ALIKE;
    match *scalar {
        RawScalar::Int32(number) => Leaf {
            signed: i64::from(number),
            ..alike
        },
        RawScalar::Int64(number) | RawScalar::Date(number) => Leaf {
            signed: number,
            ..alike
        },
        RawScalar::Timestamp(number) => Leaf {
            unsigned: number,
            ..alike
        },
        RawScalar::Bool(truth) => Leaf {
            unsigned: u64::from(truth),
            ..alike
        },
        RawScalar::String(bytes) | RawScalar::ObjectId(bytes) => Leaf { bytes, ..alike },
        RawScalar::Binary(subtype, bytes) => Leaf {
            signed: 0,
            unsigned: bytes.len() as u64,
            subtype: u64::from(subtype.byte()),
            bytes,
        },
        RawScalar::Null | RawScalar::MinKey | RawScalar::MaxKey => alike,
    }
}

pub(crate) fn parts(value: &Value) -> Leaf<'_>
    ensures { leaf_of result ≡ leaf (tree value.now) }
{
    match value.scalar() {
        Some(scalar) => scalar_parts(&scalar),
        None => Leaf::ALIKE,
    }
}

/// By the first parts that differ.
pub(crate) fn compare_parts(a: Leaf<'_>, b: Leaf<'_>) -> Ordering
    ensures { result ≡ leaf_cmp (leaf_of a.entry) (leaf_of b.entry) }
{
    match a.signed.cmp(&b.signed) {
        Ordering::Equal => {}
        order => return order,
    }
    match a.unsigned.cmp(&b.unsigned) {
        Ordering::Equal => {}
        order => return order,
    }
    match a.subtype.cmp(&b.subtype) {
        Ordering::Equal => {}
        order => return order,
    }
    let (first, second) = (a.bytes, b.bytes);
    first.cmp(second)
}
