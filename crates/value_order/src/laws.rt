//! Laws of the order and of key texts, as contracts; the numbers of faults and limits.

ghost use Rattle.value_order.specs.Laws.{ComparesTotally, KeysCompareTotally, TextsOrder, TextsAgree, NoneBegins};
ghost use Rattle.value_order.specs.Faults.{key_fault_number};
ghost use Rattle.std.specs.Prelude.{◌≡◌};

use crate::KEY_LIMIT;
use crate::texts::KeyFault;

/// The limit, as a number.
pub fn limit()
    ensures { KEY_LIMIT ≡ 500 }
{}

/// The number of a fault of key texts: from 1, in the order of their declaration.
pub fn key_fault_number(fault: KeyFault) -> u8
    ensures { result ≡ key_fault_number fault }
{
    fault as u8
}

/// The order of values is a total order.
pub fn compares_totally()
    ensures { ComparesTotally }
{}

/// The order of keys is a total order.
pub fn keys_compare_totally()
    ensures { KeysCompareTotally }
{}

/// Texts of one direction order by bytes as the keys do.
pub fn texts_order()
    ensures { TextsOrder }
{}

/// Two texts are equal exactly where the order calls the keys equal.
pub fn texts_agree()
    ensures { TextsAgree }
{}

/// No text begins another.
pub fn none_begins()
    ensures { NoneBegins }
{}
